// A fork: each job leaves by every output when it comes.
ghost use Rattle.std.specs.Prelude.{◌≡◌, IfOk};
ghost use Rattle.mq_core.specs.declared.model.Kind.TheVariants.{Fork as TheFork};
ghost use Rattle.mq_kinds.specs.Lefts.{IsLeft};

use crate::pieces::{Left, Load};
use mq_base::OutOfMemory;
use mq_join::fork_copies;
use std::alloc::Global;

/// Returns what leaves a fork: all jobs by each output. The only error is out of memory.
pub fn fork_whole(alloc: Global, load: &Load, outputs: u8) -> Result<Left, OutOfMemory>
    requires { load.now.kind.now ≡ TheFork outputs }
    ensures { IfOk result (IsLeft load.now.rows.now load.now.kind.now load.now.arrivals.now) }
{
    let streams = fork_copies(alloc, load.arrivals, outputs)?;
    Ok(Left::Passing(streams))
}
