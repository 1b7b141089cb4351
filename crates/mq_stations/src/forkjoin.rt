// What the servers of a fork-join ask for.
ghost use Rattle.std.specs.Prelude.{◌≡◌, IfOk};
ghost use Rattle.std.specs.List.{flat_map};

use mq_base::{List, OutOfMemory};
use mq_core::Demand;
use std::alloc::Global;

/// What the servers ask for, branch after branch. It refuses for want of memory alone.
pub fn branch_demands(
    alloc: Global,
    branches: &List<List<Demand>>,
) -> Result<List<Demand>, OutOfMemory>
    ensures { IfOk result (λ asked. asked ≡ flat_map (λ demands. demands) branches.now) }
{
    let mut asked = Vec::new(alloc);
    for at in 0..branches.len() {
        asked.extend_from_slice(branches.get(at).as_slice())?;
    }
    Ok(List::from_vec(asked))
}
