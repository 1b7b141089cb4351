// How a run of the program ends.
ghost use Rattle.std.specs.Prelude.{◌≡◌};
ghost use Rattle.mq_outcome.specs.Status.{status_of};

use mq_core::{OverFault, PastFault};
use mq_model::ModelFault;
use mq_trace::TraceFault;
use mq_words::UsageFault;

/// How a run of the program ends.
#[derive(Clone, Copy, PartialEq, Eq)]
pub enum Outcome {
    /// The whole report was written.
    Done,
    /// The arguments are invalid.
    Usage(UsageFault),
    /// The model is invalid. Out of memory is `Memory`, not `ModelFault::Memory`.
    Model(ModelFault),
    /// The trace is invalid. Out of memory is `Memory`, not `TraceFault::Memory`.
    Trace(TraceFault),
    /// A visit departs after the model's bound: at which node, at which position among its visits,
    /// and at which tick.
    Past(PastFault),
    /// A node has more than the 1,048,576 visits allowed: which node, and how many visits.
    Over(OverFault),
    /// The model can't be read or, if `second`, the trace.
    ReadFault {
        /// The second read failed, which is that of the trace.
        second: bool,
    },
    /// The report can't be written. The output has taken a first part of it, perhaps an empty one.
    WriteFault,
    /// Memory ran out before the first byte of the report was written.
    Memory,
}

impl Outcome {
    /// Returns the exit status of the program: 0 for `Done`, 9 for `Over`, and 2 to 8 for the
    /// others, in their order.
    pub fn status(&self) -> u8
        ensures { result ≡ status_of self.now }
    {
        match self {
            Outcome::Done => 0,
            Outcome::Usage(_) => 2,
            Outcome::Model(_) => 3,
            Outcome::Trace(_) => 4,
            Outcome::Past(_) => 5,
            Outcome::Over(_) => 9,
            Outcome::ReadFault { .. } => 6,
            Outcome::WriteFault => 7,
            Outcome::Memory => 8,
        }
    }
}
