// How many jobs each visit found, if no job overtakes another.
ghost use Rattle.std.specs.Prelude.{◌≡◌, ◌≤◌, length, false, IfNone, IfOk, IfSome};
ghost use Rattle.mq_core.specs.OnceOut.{founds_of};
ghost use Rattle.mq_core.specs.Laws.{Rises};
ghost use Rattle.mq_stats.specs.Departures.{departures_rise};

use crate::passed::passed_by;
use mq_base::{List, OutOfMemory};
use mq_core::{Fate, Fates};
use std::alloc::Global;

/// Returns how many jobs each visit found, or `None`, which it returns only if a visit is held or departs
/// before an earlier visit. A visit finds the departures so far that its arrival time hasn't passed. Arrival
/// times never fall. The only error is out of memory.
pub fn found_in_order(
    alloc: Global,
    arrive: &List<u64>,
    fate: &Fates,
) -> Result<Option<List<u32>>, OutOfMemory>
    requires even { length fate.now ≡ length arrive.now }
    requires few { length arrive.now ≤ 1048576 }
    requires arrive { Rises (λ a b. a ≤ b) arrive.now }
    ensures none { IfOk result (λ found. IfNone found (departures_rise 0 fate.now ≡ false)) }
    ensures found { IfOk result (λ found. IfSome found (λ found. found ≡ founds_of arrive.now fate.now)) }
{
    let mut departs = Vec::with_capacity(alloc, arrive.len())?;
    let mut found = Vec::with_capacity(alloc, arrive.len())?;
    let (mut left, mut latest) = (0, 0);
    for at in 0..arrive.len() {
        left = passed_by(&departs, left, *arrive.get(at));
        found.push_reserved((departs.len() - left) as u32);
        match fate.at(at) {
            Fate::Departs(time) => {
                if time < latest {
                    return Ok(None);
                }
                departs.push_reserved(time);
                latest = time;
            }
            Fate::Lost => {}
            Fate::Held => return Ok(None),
        }
    }
    Ok(Some(List::from_vec(found)))
}
