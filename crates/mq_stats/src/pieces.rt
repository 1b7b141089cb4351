// How many jobs each visit found, in pieces, from one table that all pieces share.
ghost use Rattle.std.specs.Prelude.{◌≡◌, ◌+◌, ◌<◌, ◌≤◌, List as Items, cond, count_by, length, map, nat_le, IfOk};
ghost use Rattle.std.specs.List.{AllByRecursion, zip};
ghost use Rattle.mq_base.specs.Lists.{between};
ghost use Rattle.mq_core.specs.SequenceLaws.{LeavesFrom};
ghost use Rattle.mq_core.specs.OnceOut.{founds_of};
ghost use Rattle.mq_core.specs.Laws.{Rises, in_order_of};
ghost use Rattle.mq_core.specs.declared.model.Fate.{Fate as TheFate};
ghost use Rattle.mq_core.specs.declared.model.Fate.TheVariants.{Departs};
ghost use Rattle.mq_stats.specs.Ahead.{IsAhead, leaves_at_once, departure_order};

use crate::occupancy::{departures_in_order, one_if_stays};
use crate::passed::passed_by;
use mq_base::{List, OutOfMemory};
use mq_core::{Fate, Fates};
use std::alloc::Global;

/// What must be known of all visits to a node so that what some of them found follows from it and the
/// arrivals.
#[derive(Drop)]
pub struct AheadTable {
    /// The departures in order, in ticks.
    pub leaving: List<u64>,
    /// For each position, and one past the last: the number of earlier visits that aren't lost.
    pub kept: List<u32>,
    /// For each position, and one past the last: the number of earlier visits that depart at their arrival
    /// time.
    pub still: List<u32>,
}

// Returns the departures in order, in ticks.
fn leaving_of(alloc: Global, fate: &Fates) -> Result<List<u64>, OutOfMemory>
    requires few { length fate.now ≤ 1048576 }
    ensures { IfOk result (λ leaving. leaving ≡ departure_order fate.now) }
{
    let departures = departures_in_order(alloc, fate)?;
    let mut leaving = Vec::with_capacity(alloc, departures.len())?;
    for departure in departures.as_slice() {
        leaving.push_reserved(departure.0);
    }
    Ok(List::from_vec(leaving))
}

// Returns 1 if a visit departs at its arrival time, and 0 otherwise.
fn one_if_same_time(arrive: u64, departs: u64) -> usize
    ensures { result ≡ cond (leaves_at_once arrive (Departs departs)) 1 0 }
{
    (departs == arrive) as usize
}

// Returns 1 for a visit that departs at its arrival time, and 0 for any other.
fn one_if_at_once(arrive: u64, fate: Fate) -> usize
    ensures { result ≡ cond (leaves_at_once arrive fate) 1 0 }
{
    match fate {
        Fate::Departs(time) => one_if_same_time(arrive, time),
        Fate::Lost | Fate::Held => 0,
    }
}

/// Returns the table of the visits with these arrivals and fates, and with these departures, in order, as a
/// delay has them. Arrival times never fall, and no job leaves before it came. The only error is out of
/// memory.
pub fn ahead_of(
    alloc: Global,
    arrive: &List<u64>,
    fate: &Fates,
    leaving: List<u64>,
) -> Result<AheadTable, OutOfMemory>
    requires even { length fate.now ≡ length arrive.now }
    requires few { length arrive.now ≤ 1048576 }
    requires arrive { Rises (λ a b. a ≤ b) arrive.now }
    requires fate { AllByRecursion (λ p. LeavesFrom p.0 p.1) (zip arrive.now fate.now) }
    requires leaving { leaving ≡ departure_order fate.now }
    ensures { IfOk result (λ ahead. IsAhead arrive.now fate.now ahead) }
{
    let mut kept = Vec::with_capacity(alloc, fate.len() + 1)?;
    let mut still = Vec::with_capacity(alloc, fate.len() + 1)?;
    let (mut stayed, mut at_once) = (0, 0);
    kept.push_reserved(0);
    still.push_reserved(0);
    for at in 0..fate.len() {
        stayed += one_if_stays(fate.at(at));
        at_once += one_if_at_once(*arrive.get(at), fate.at(at));
        kept.push_reserved(stayed as u32);
        still.push_reserved(at_once as u32);
    }
    Ok(AheadTable {
        leaving,
        kept: List::from_vec(kept),
        still: List::from_vec(still),
    })
}

/// Returns the table of the visits with these arrivals and fates. Unlike `ahead_of` it sorts the departures
/// itself. Arrival times never fall, and no job leaves before it came. The only error is out of memory.
pub fn ahead(alloc: Global, arrive: &List<u64>, fate: &Fates) -> Result<AheadTable, OutOfMemory>
    requires even { length fate.now ≡ length arrive.now }
    requires few { length arrive.now ≤ 1048576 }
    requires arrive { Rises (λ a b. a ≤ b) arrive.now }
    requires fate { AllByRecursion (λ p. LeavesFrom p.0 p.1) (zip arrive.now fate.now) }
    ensures { IfOk result (λ ahead. IsAhead arrive.now fate.now ahead) }
{
    let leaving = leaving_of(alloc, fate)?;
    ahead_of(alloc, arrive, fate, leaving)
}

/// Returns the table of visits none of which is lost or held, from their departures by position, in ticks,
/// and the same departures in order. Arrival times never fall, and no job leaves before it came. The only
/// error is out of memory.
pub fn ahead_of_departures(
    alloc: Global,
    arrive: &List<u64>,
    departs: &List<u64>,
    leaving: List<u64>,
) -> Result<AheadTable, OutOfMemory>
    requires even { length departs.now ≡ length arrive.now }
    requires few { length arrive.now ≤ 1048576 }
    requires arrive { Rises (λ a b. a ≤ b) arrive.now }
    requires departs { AllByRecursion (λ p. LeavesFrom p.0 p.1) (zip arrive.now (map (λ time. Departs time) departs.now)) }
    requires leaving { leaving ≡ in_order_of (λ time. time) departs.now }
    ensures { IfOk result (λ ahead. IsAhead arrive.now (map (λ time. Departs time) departs.now) ahead) }
{
    let mut kept = Vec::with_capacity(alloc, departs.len() + 1)?;
    let mut still = Vec::with_capacity(alloc, departs.len() + 1)?;
    let mut at_once = 0;
    kept.push_reserved(0);
    still.push_reserved(0);
    for at in 0..departs.len() {
        at_once += one_if_same_time(*arrive.get(at), *departs.get(at));
        kept.push_reserved(at as u32 + 1);
        still.push_reserved(at_once as u32);
    }
    Ok(AheadTable {
        leaving,
        kept: List::from_vec(kept),
        still: List::from_vec(still),
    })
}

/// Returns how many jobs the visits at the indices from `from` up to `to` found: the same numbers as
/// `found` gives for the arrivals and fates of the table. The only error is out of memory.
///
/// A visit finds the earlier visits that aren't lost, less those that depart by its arrival time. The
/// departures by then also include visits from its index on: exactly those that arrive at that time and
/// depart at once.
pub fn found_piece(
    alloc: Global,
    arrive: &List<u64>,
    ahead: &AheadTable,
    from: u32,
    to: u32,
) -> Result<List<u32>, OutOfMemory>
    requires made { (fate : Items TheFate) × IsAhead arrive.now fate ahead.now }
    requires order { from ≤ to }
    requires within { to ≤ length arrive.now }
    ensures { IfOk result (λ found. (fate : Items TheFate) → IsAhead arrive.now fate ahead.now → found ≡ between from to (founds_of arrive.now fate)) }
{
    let (first, end) = (from as usize, to as usize);
    let mut found = Vec::with_capacity(alloc, end - first)?;
    let mut left = 0;
    let mut came = 0;
    for at in first..end {
        let time = *arrive.get(at);
        left = passed_by(ahead.leaving.as_slice(), left, time);
        came = passed_by(arrive.as_slice(), came, time);
        let at_once = *ahead.still.get(came) - *ahead.still.get(at);
        found.push_reserved(*ahead.kept.get(at) + at_once - left as u32);
    }
    Ok(List::from_vec(found))
}

// Returns 1 if a time is at most another, and 0 if it is later.
fn one_if_at_most(time: u64, other: u64) -> usize
    ensures { result ≡ cond (nat_le time other) 1 0 }
{
    (time <= other) as usize
}

// Returns 1 if the departure at an index is at most the time, and 0 if it is later or there is none.
fn one_if_passed(departs: &[u64], index: usize, time: u64) -> usize
    requires order { Rises (λ a b. a ≤ b) departs.now }
    requires index { index ≤ count_by (λ t. nat_le t time) departs.now }
    ensures bit { result ≤ 1 }
    ensures least { index + result ≤ count_by (λ t. nat_le t time) departs.now }
    ensures most { result ≡ 0 → count_by (λ t. nat_le t time) departs.now ≤ index }
{
    if index < departs.len() {
        return one_if_at_most(departs[index], time);
    }
    0
}

// Fills in what the visits from `first` on found, one for each index of `found`.
//
// Each round either passes a departure or goes on to the next visit. It computes the choice from one
// comparison, without a branch, since no processor could predict the branch.
#[inline(never)]
fn fill_in_order(found: &mut [u32], arrive: &[u64], departs: &[u64], first: usize)
    requires even { length departs.now ≡ length arrive.now }
    requires few { length arrive.now ≤ 1048576 }
    requires arrive { Rises (λ a b. a ≤ b) arrive.now }
    requires departs { Rises (λ a b. a ≤ b) departs.now }
    requires within { first + length found.old ≤ length arrive.now }
    ensures { found.new ≡ between first (first + length found.old) (founds_of arrive.now (map (λ time. Departs time) departs.now)) }
{
    if found.is_empty() {
        return;
    }
    let mut left = passed_by(departs, 0, arrive[first]);
    let mut index = 0;
    while index < found.len() {
        let passed = one_if_passed(departs, left, arrive[first + index]);
        found[index] = (first + index).saturating_sub(left) as u32;
        left += passed;
        index += 1 - passed;
    }
}

/// Returns how many jobs the visits at the indices from `from` up to `to` found if all jobs depart and none
/// overtakes another, from the departures of all visits by position, in ticks. Neither arrival times nor
/// departure times fall. The only error is out of memory.
pub fn found_piece_in_order(
    alloc: Global,
    arrive: &List<u64>,
    departs: &List<u64>,
    from: u32,
    to: u32,
) -> Result<List<u32>, OutOfMemory>
    requires even { length departs.now ≡ length arrive.now }
    requires few { length arrive.now ≤ 1048576 }
    requires arrive { Rises (λ a b. a ≤ b) arrive.now }
    requires departs { Rises (λ a b. a ≤ b) departs.now }
    requires order { from ≤ to }
    requires within { to ≤ length arrive.now }
    ensures { IfOk result (λ found. found ≡ between from to (founds_of arrive.now (map (λ time. Departs time) departs.now))) }
{
    let mut found = vec![in alloc; 0u32; (to - from) as usize]?;
    fill_in_order(
        &mut found,
        arrive.as_slice(),
        departs.as_slice(),
        from as usize,
    );
    Ok(List::from_vec(found))
}
