// How many jobs each visit found, in whatever order jobs leave.
ghost use Rattle.std.specs.Prelude.{◌≡◌, ◌≤◌, length, cond, count_by, IfOk};
ghost use Rattle.std.specs.List.{AllByRecursion, zip};
ghost use Rattle.mq_core.specs.SequenceLaws.{LeavesFrom};
ghost use Rattle.mq_core.specs.OnceOut.{founds_of};
ghost use Rattle.mq_core.specs.Streams.{by_first};
ghost use Rattle.mq_core.specs.Laws.{Rises};
ghost use Rattle.mq_stats.specs.Departures.{Ascends, departures_from, is_gone, stays};

use crate::in_order::found_in_order;
use mq_base::{List, OutOfMemory};
use mq_core::{Fate, Fates};
use mq_merge::sort_by_first;
use std::alloc::Global;

// Returns the departures by position, each with its position.
fn departures_of(alloc: Global, fates: &Fates) -> Result<Vec<(u64, u32)>, OutOfMemory>
    requires few { length fates.now ≤ 1048576 }
    ensures { IfOk result (λ departures. departures.items ≡ departures_from 0 fates.now) }
{
    let mut departures = Vec::with_capacity(alloc, fates.len())?;
    for at in 0..fates.len() {
        if let Fate::Departs(time) = fates.at(at) {
            departures.push_reserved((time, at as u32));
        }
    }
    Ok(departures)
}

/// Returns the departures, each with the position of its visit, by time and then by position. The only error
/// is out of memory.
pub fn departures_in_order(alloc: Global, fates: &Fates) -> Result<Vec<(u64, u32)>, OutOfMemory>
    requires few { length fates.now ≤ 1048576 }
    ensures { IfOk result (λ departures. departures.items ≡ by_first (departures_from 0 fates.now)) }
{
    let mut departures = departures_of(alloc, fates)?;
    sort_by_first(&mut departures)?;
    Ok(departures)
}

// Returns whether a visit departed before `time`, or at `time` from an earlier position.
fn gone(departure: (u64, u32), time: u64, position: u32) -> bool
    ensures { result ≡ is_gone time position departure }
{
    departure.0 < time || (departure.0 == time && departure.1 < position)
}

// Returns how many departures are gone by a time and a position, given that at least `from` are.
fn gone_by(departures: &[(u64, u32)], from: usize, time: u64, position: u32) -> usize
    requires order { Ascends departures.now }
    requires from { from ≤ count_by (is_gone time position) departures.now }
    ensures { result ≡ count_by (is_gone time position) departures.now }
{
    for index in from..departures.len() {
        if !gone(departures[index], time, position) {
            return index;
        }
    }
    departures.len()
}

/// Returns 1 for a visit that isn't lost, and 0 for a lost one.
pub fn one_if_stays(fate: Fate) -> usize
    ensures { result ≡ cond (stays fate) 1 0 }
{
    match fate {
        Fate::Departs(_) | Fate::Held => 1,
        Fate::Lost => 0,
    }
}

/// Returns how many jobs each visit found in the node: the earlier visits that depart after its arrival, and
/// the earlier ones that are held. Jobs may leave in any order. Arrival times never fall, and no job leaves
/// before it came. The only error is out of memory.
///
/// If no job overtakes another and none is held, one pass over the fates is enough. Otherwise the departures
/// are sorted, and one pass over them counts how many are gone: only earlier visits can have departed before
/// a visit comes, and the position tells them apart from later visits that depart at the same time.
pub fn found(alloc: Global, arrive: &List<u64>, fate: &Fates) -> Result<List<u32>, OutOfMemory>
    requires even { length fate.now ≡ length arrive.now }
    requires few { length arrive.now ≤ 1048576 }
    requires arrive { Rises (λ a b. a ≤ b) arrive.now }
    requires fate { AllByRecursion (λ p. LeavesFrom p.0 p.1) (zip arrive.now fate.now) }
    ensures { IfOk result (λ found. found ≡ founds_of arrive.now fate.now) }
{
    if let Some(found) = found_in_order(alloc, arrive, fate)? {
        return Ok(found);
    }
    let departures = departures_in_order(alloc, fate)?;
    let mut found = Vec::with_capacity(alloc, arrive.len())?;
    let mut stayed = 0;
    let mut gone = 0;
    for at in 0..arrive.len() {
        gone = gone_by(&departures, gone, *arrive.get(at), at as u32);
        found.push_reserved((stayed - gone) as u32);
        stayed += one_if_stays(fate.at(at));
    }
    Ok(List::from_vec(found))
}
