// The law of blocks that are done.
ghost use Rattle.mq_redo.specs.Staying.{DoneAreKept};

use mq_scan::Timed;

/// Law. Blocks that are done are kept, in terms of what the job at each index makes of a carry. Does nothing when it
/// runs.
pub fn done_are_kept<P: Timed>(step: &P)
    ensures { DoneAreKept (P.time_of step.now) P.acted (P.start step.now) (P.part step.now) }
{
    let _ = step;
}
