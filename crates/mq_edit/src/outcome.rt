// How a call ends.
ghost use Rattle.std.specs.Prelude.{◌≡◌};
ghost use Rattle.mq_edit.specs.Status.{status_of};

use mq_core::{OverFault, PastFault};
use mq_edits::EditFault;
use mq_model::ModelFault;
use mq_trace::TraceFault;

/// How a call ends.
#[derive(Clone, Copy, PartialEq, Eq)]
pub enum EditOutcome {
    /// The whole report was written.
    Done,
    /// There aren't exactly three words, or one begins with a dash.
    Usage,
    /// The model is refused. The fault is never `Memory`.
    Model(ModelFault),
    /// The trace is refused. The fault is never `Memory`.
    Trace(TraceFault),
    /// The edits are refused. The fault is never `Memory`.
    Edits(EditFault),
    /// A node has more than 1,048,576 visits: which node, and how many visits. `edited` says whether in the run of the
    /// edited trace.
    Over { edited: bool, fault: OverFault },
    /// A visit departs after the model's bound: at which node, at which position among its visits, and at which tick.
    /// `edited` says whether in the run of the edited trace.
    Past { edited: bool, fault: PastFault },
    /// A file can't be read: the model (0), the trace (1) or the edits (2).
    ReadFault { file: u8 },
    /// The report can't be written. A first part of it was, which may be empty.
    WriteFault,
    /// Memory ran out, before the first byte was written.
    Memory,
}

impl EditOutcome {
    /// Returns the status with which the program ends: that of `mpsim` for an outcome that `mpsim` has too, and 10
    /// after `Edits`.
    pub fn status(&self) -> u8
        ensures { result ≡ status_of self.now }
    {
        match self {
            EditOutcome::Done => 0,
            EditOutcome::Usage => 2,
            EditOutcome::Model(_) => 3,
            EditOutcome::Trace(_) => 4,
            EditOutcome::Edits(_) => 10,
            EditOutcome::Over { .. } => 9,
            EditOutcome::Past { .. } => 5,
            EditOutcome::ReadFault { .. } => 6,
            EditOutcome::WriteFault => 7,
            EditOutcome::Memory => 8,
        }
    }
}
