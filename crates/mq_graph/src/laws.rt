ghost use Rattle.mq_graph.specs.Cycle.{CyclesAreLeft};

/// Law. The ranking leaves a node out exactly if the inputs contain a cycle.
pub fn cycles_are_left()
    ensures { CyclesAreLeft }
{}
