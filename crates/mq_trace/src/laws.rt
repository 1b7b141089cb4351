// Laws of the definitions.
ghost use Rattle.mq_trace.specs.Trace.{TracesAreRead};

/// A network can read the rows that a text without an error declares for it.
pub fn traces_are_read()
    ensures { TracesAreRead }
{}
