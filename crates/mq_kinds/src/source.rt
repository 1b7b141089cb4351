// A source: each job departs when it comes.
ghost use Rattle.std.specs.Prelude.{◌≡◌, IfOk};
ghost use Rattle.mq_core.specs.declared.model.Kind.TheVariants.{Source as TheSource};
ghost use Rattle.mq_kinds.specs.Lefts.{IsLeft};

use crate::pieces::{Left, Load};
use mq_base::{List, OutOfMemory};
use std::alloc::Global;

/// Returns what leaves a source: each job departs when it comes. The only error is out of memory.
pub fn source_whole(alloc: Global, load: &Load) -> Result<Left, OutOfMemory>
    requires { load.now.kind.now ≡ TheSource }
    ensures { IfOk result (IsLeft load.now.rows.now load.now.kind.now load.now.arrivals.now) }
{
    let departs = Vec::from_slice(alloc, load.arrivals.time.as_slice())?;
    Ok(Left::InTurn(List::from_vec(departs)))
}
