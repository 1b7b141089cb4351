// Why there is no run.
ghost use Rattle.std.specs.Prelude.{◌≡◌};
ghost use Rattle.mq_engine.specs.declared.fault.RunFault.TheVariants.{Memory};

use mq_base::OutOfMemory;
use mq_core::{OverFault, PastFault};

/// Why there is no run.
#[derive(Clone, Copy, PartialEq, Eq)]
pub enum RunFault {
    /// A node has more visits than it may have: the first node by rank that has, or one of whose visits
    /// departs after the bound.
    Over(OverFault),
    /// A visit departs after the bound: the first by rank of the node and then position.
    Past(PastFault),
    /// Memory ran out.
    Memory,
}

impl From<OutOfMemory> for RunFault {
    ghost from_gives = { λ _ fault. fault ≡ Memory };

    fn from(_: OutOfMemory) -> Self {
        RunFault::Memory
    }
}
