// Counts of the waits at a node by their number of ticks, in pieces of its visits.
ghost use Rattle.std.specs.Prelude.{◌≡◌, ◌↔◌, ◌+◌, ◌-◌, ◌++◌, ◌==◌, ◌<◌, ◌≤◌, ℕ, List as Items, IfOk, IfSome, IsSome, [], count_by, fold, get_or, length, max, min};
ghost use Rattle.std.specs.List.{AllByRecursion};
ghost use Rattle.mq_stats.specs.Numbers.{AreVisits, visits_between};
ghost use Rattle.mq_stats.specs.Percentiles.{ArePercentiles, hundredths, longest_wait, waits_at};
ghost use Rattle.mq_stats.specs.Tables.{own_counts};
ghost use Rattle.mq_stats.specs.WaitCounts.{AreWaitCounts, WaitsJoin};
ghost use Rattle.mq_stats.specs.Waits.{AreWaiting, departed_waits_in, waits_in};

use crate::tails::{Percentiles, counted};
use crate::tallies::part;
use crate::waits::{Waiting, waits_of};
use mq_base::{List, OutOfMemory};
use mq_core::{Kind, Rows, Visits};
use std::alloc::Global;

/// Counts of some waits, by their number of ticks.
#[derive(Drop)]
pub struct WaitCounts {
    /// The number of waits.
    pub many: u32,
    /// At each index, the number of waits of that many ticks. There is an index for each number up to the longest wait, and at least one more.
    pub counts: List<u32>,
}

// Counts each wait at its own index in the table, and all waits beyond the last index at the last.
// Not inlined, so that its loop has the registers to itself.
#[inline(never)]
pub fn count_waits(table: &mut [u32], waits: &[u64])
    requires some { 0 < length table.old }
    requires few { length waits.now ≤ 1048576 }
    requires empty { (wait : ℕ) → get_or table.old wait 0 ≡ 0 }
    ensures room { length table.new ≡ length table.old }
    ensures counts { (wait : ℕ) → get_or table.new wait 0 ≡ count_by (λ w. min w (length table.old - 1) == wait) waits.now }
{
    let last = table.len() - 1;
    for at in 0..waits.len() {
        table[waits[at].min(last as u64) as usize] += 1;
    }
}

/// Returns the counts of no waits. The only error is out of memory.
pub fn no_counts(alloc: Global) -> Result<WaitCounts, OutOfMemory>
    ensures { IfOk result (AreWaitCounts []) }
{
    let table = vec![in alloc; 0u32; 2]?;
    Ok(WaitCounts {
        many: 0,
        counts: List::from_vec(table),
    })
}

// Returns the counts of these waits, none longer than `longest` ticks, or `None` if `longest` is greater than `most`.
pub fn counts_of(
    alloc: Global,
    waits: &[u64],
    longest: u64,
    most: u32,
) -> Result<Option<WaitCounts>, OutOfMemory>
    requires few { length waits.now ≤ 1048576 }
    requires longest { AllByRecursion (λ wait. wait ≤ longest) waits.now }
    requires most { most ≤ 1048576 }
    ensures told { IfOk result (λ counts. IsSome counts ↔ (longest ≤ most)) }
    ensures counts { IfOk result (λ counts. IfSome counts (AreWaitCounts waits.now)) }
{
    if longest > most as u64 {
        return Ok(None);
    }
    let mut table = vec![in alloc; 0u32; longest as usize + 2]?;
    count_waits(table.as_mut_slice(), waits);
    Ok(Some(WaitCounts {
        many: waits.len() as u32,
        counts: List::from_vec(table),
    }))
}

// Returns the counts of the waits of the visits in these columns that depart, or `None` if a wait is longer than `most` ticks.
pub fn counts_of_columns(
    alloc: Global,
    waiting: &Waiting,
    most: u32,
) -> Result<Option<WaitCounts>, OutOfMemory>
    requires visits { AreWaiting waiting.now }
    requires most { most ≤ 1048576 }
    ensures told { IfOk result (λ counts. IsSome counts ↔ (fold max 0 (waits_in waiting.now) ≤ most)) }
    ensures counts { IfOk result (λ counts. IfSome counts (AreWaitCounts (departed_waits_in waiting.now))) }
{
    let told = waits_of(alloc, waiting)?;
    let counts = counts_of(alloc, told.waits.as_slice(), told.longest, most);
    drop(told);
    counts
}

/// Returns the counts of the waits of the visits to a node of this kind that depart, from one position up to another, or `None` if a wait is longer than
/// `most` ticks. The only error is out of memory.
pub fn count_between(
    alloc: Global,
    rows: &Rows,
    kind: &Kind,
    visits: &Visits,
    most: u32,
    from: u32,
    to: u32,
) -> Result<Option<WaitCounts>, OutOfMemory>
    requires visits { AreVisits rows.now kind.now visits.now }
    requires most { most ≤ 1048576 }
    requires order { from ≤ to }
    requires within { to ≤ length visits.now.job }
    ensures told { IfOk result (λ counts. IsSome counts ↔ (longest_wait rows.now kind.now (visits_between from to visits.now) ≤ most)) }
    ensures counts { IfOk result (λ counts. IfSome counts (AreWaitCounts (waits_at rows.now kind.now (visits_between from to visits.now)))) }
{
    let waiting = Waiting {
        rows,
        kind,
        job: part(&visits.job, from, to),
        arrive: part(&visits.arrive, from, to),
        fate: &visits.fate.part(from as usize, to as usize),
    };
    counts_of_columns(alloc, &waiting, most)
}

// Adds to each count the other at its index.
fn add_each(counts: &mut [u32], more: &[u32])
    requires room { length more.now ≤ length counts.old }
    requires small { (at : ℕ) → get_or counts.old at 0 + get_or more.now at 0 ≤ 1048576 }
    ensures room { length counts.new ≡ length counts.old }
    ensures sums { (at : ℕ) → get_or counts.new at 0 ≡ get_or counts.old at 0 + get_or more.now at 0 }
{
    for at in 0..more.len() {
        counts[at] += more[at];
    }
}

// Returns the same counts, with at least `room` indices.
fn with_room(alloc: Global, counts: List<u32>, room: usize) -> Result<Vec<u32>, OutOfMemory>
    requires small { (at : ℕ) → get_or counts at 0 ≤ 1048576 }
    ensures room { IfOk result (λ longer. (length counts ≤ length longer.items) × (room ≤ length longer.items)) }
    ensures most { IfOk result (λ longer. (most : ℕ) → length counts ≤ most → room ≤ most → length longer.items ≤ most) }
    ensures same { IfOk result (λ longer. (at : ℕ) → get_or longer.items at 0 ≡ get_or counts at 0) }
{
    if room <= counts.len() {
        return Ok(counts.into_vec());
    }
    let mut longer = vec![in alloc; 0u32; room]?;
    add_each(longer.as_mut_slice(), counts.as_slice());
    drop(counts);
    Ok(longer)
}

/// Returns the sum of two counts of waits, which are at most 1,048,576 waits together. The only error is out of memory.
pub fn counts_added(
    alloc: Global,
    before: WaitCounts,
    after: &WaitCounts,
) -> Result<WaitCounts, OutOfMemory>
    requires before { (waits : Items ℕ) × AreWaitCounts waits before }
    requires after { (waits : Items ℕ) × AreWaitCounts waits after.now }
    requires few { before.many + after.now.many ≤ 1048576 }
    ensures { IfOk result (λ both. (waits more : Items ℕ) → AreWaitCounts waits before → AreWaitCounts more after.now → AreWaitCounts (waits ++ more) both) }
{
    let WaitCounts { many, counts } = before;
    let mut counts = with_room(alloc, counts, after.counts.len())?;
    add_each(counts.as_mut_slice(), after.counts.as_slice());
    Ok(WaitCounts {
        many: many + after.many,
        counts: List::from_vec(counts),
    })
}

/// Returns the percentiles of counted waits, or `None` unless 99 of 100 waits are counted before the last index. Counts of waits always count them
/// there.
pub fn counted_percentiles(counts: &WaitCounts) -> Option<Percentiles>
    requires some { 1 < length counts.now.counts }
    requires room { length counts.now.counts ≤ 1048578 }
    requires few { counts.now.many ≤ 1048576 }
    ensures told { IsSome result ↔ (hundredths 99 counts.now.many ≤ own_counts counts.now.counts) }
    ensures counts { (waits : Items ℕ) → AreWaitCounts waits counts.now → IsSome result }
    ensures percentiles { (waits : Items ℕ) → AreWaitCounts waits counts.now → IfSome result (ArePercentiles waits) }
{
    counted(counts.counts.as_slice(), counts.many as usize)
}

/// Proves that the waits of neighbouring visits, put one after another, are the waits of all of them, no more than the visits, and that the visits from
/// the first to the last are all visits. It does nothing at run time.
pub fn waits_join()
    ensures { WaitsJoin }
{}
