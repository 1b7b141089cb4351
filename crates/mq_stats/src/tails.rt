// The percentiles of the waits at a node.
ghost use Rattle.std.specs.Prelude.{◌≡◌, ◌↔◌, ◌-◌, ◌<◌, ◌≤◌, ℕ, List as Items, IfOk, IfSome, IsSome, Some, [], get_or, length, slice_get, take};
ghost use Rattle.mq_stats.specs.Numbers.{AreVisits};
ghost use Rattle.mq_stats.specs.Percentiles.{ArePercentiles, hundredths as hundredths_of, waits_at};
ghost use Rattle.mq_stats.specs.Tables.{IsReached, IsTableOf, own_counts};
ghost use Rattle.mq_stats.specs.Waits.{AreWaiting, departed_waits_in};

use crate::wait_counts::count_waits;
use crate::waits::{Waited, Waiting, waits_of};
use mq_base::OutOfMemory;
use mq_core::{Kind, Rows, Visits};
use std::alloc::Global;

/// Percentiles of the waits of the visits that depart from a node, in ticks. The p-th is the least wait that at least p of 100
/// waits don't exceed, or 0 if no visit departs.
#[derive(Clone, Copy, PartialEq, Eq)]
pub struct Percentiles {
    /// Half of the waits are at most this.
    pub p50: u64,
    /// 90 of 100 waits are at most this.
    pub p90: u64,
    /// 99 of 100 waits are at most this.
    pub p99: u64,
}

// Returns p hundredths of a number, rounded up.
fn hundredths(p: usize, many: usize) -> usize
    requires p { p ≤ 100 }
    requires few { many ≤ 1048576 }
    ensures { result ≡ hundredths_of p many }
{
    (p * many + 99) / 100
}

// Returns the least wait that at least `many` waits don't exceed, or `None` if the table counts fewer before its last index.
fn reached(table: &[u32], many: usize) -> Option<u64>
    requires some { 1 < length table.now }
    requires few { length table.now ≤ 1048578 }
    ensures told { IsSome result ↔ (many ≤ own_counts table.now) }
    ensures reached { IfSome result (IsReached table.now many) }
{
    let mut so_far = 0;
    for wait in 0..table.len() - 1 {
        so_far += table[wait] as usize;
        if many <= so_far {
            return Some(wait as u64);
        }
    }
    None
}

// Returns the percentiles of this number of waits, or `None` unless the table counts 99 of 100 of them before its last index.
pub fn counted(table: &[u32], many: usize) -> Option<Percentiles>
    requires some { 1 < length table.now }
    requires few { length table.now ≤ 1048578 }
    requires within { many ≤ 1048576 }
    ensures told { IsSome result ↔ (hundredths_of 99 many ≤ own_counts table.now) }
    ensures percentiles { (waits : Items ℕ) → many ≡ length waits → IsTableOf waits table.now → IfSome result (ArePercentiles waits) }
{
    let p99 = reached(table, hundredths(99, many))?;
    let p90 = reached(table, hundredths(90, many))?;
    let p50 = reached(table, hundredths(50, many))?;
    Some(Percentiles { p50, p90, p99 })
}

// Returns the last of the first `many` items, or 0 if `many` is 0.
fn last_of(items: &[u64], many: usize) -> u64
    requires { many ≤ length items.now }
    ensures none { many ≡ 0 → result ≡ 0 }
    ensures some { 0 < many → slice_get items.now (many - 1) ≡ Some result }
{
    if many == 0 { 0 } else { items[many - 1] }
}

// Returns the percentiles of these waits, and leaves them sorted.
fn sorted(waits: &mut [u64]) -> Percentiles
    requires few { length waits.old ≤ 1048576 }
    ensures { ArePercentiles waits.old result }
{
    waits.sort_unstable();
    let many = waits.len();
    Percentiles {
        p50: last_of(waits, hundredths(50, many)),
        p90: last_of(waits, hundredths(90, many)),
        p99: last_of(waits, hundredths(99, many)),
    }
}

// Returns the percentiles of these waits, or `None` if one of the three exceeds `longest` or the number of waits.
fn counted_tail(
    alloc: Global,
    waits: &[u64],
    longest: u64,
) -> Result<Option<Percentiles>, OutOfMemory>
    requires few { length waits.now ≤ 1048576 }
    ensures { IfOk result (λ tail. IfSome tail (ArePercentiles waits.now)) }
{
    let most = longest.min(waits.len() as u64) as usize;
    let mut table = vec![in alloc; 0u32; most + 2]?;
    count_waits(table.as_mut_slice(), waits);
    let tail = counted(table.as_slice(), waits.len());
    drop(table);
    Ok(tail)
}

// Returns the percentiles of these waits, the longest of which has `longest` ticks. Usually no percentile exceeds the number of
// waits. Then a short table gives them; otherwise the waits are sorted.
fn tail_by(alloc: Global, waits: &mut [u64], longest: u64) -> Result<Percentiles, OutOfMemory>
    requires few { length waits.old ≤ 1048576 }
    ensures { IfOk result (ArePercentiles waits.old) }
{
    match counted_tail(alloc, waits, longest)? {
        Some(tail) => Ok(tail),
        None => Ok(sorted(waits)),
    }
}

// Returns the percentiles of the waits of the visits in these columns, the longest of which has `longest` ticks.
pub fn tail_of_columns(
    alloc: Global,
    waiting: &Waiting,
    longest: u64,
) -> Result<Percentiles, OutOfMemory>
    requires { AreWaiting waiting.now }
    ensures { IfOk result (ArePercentiles (departed_waits_in waiting.now)) }
{
    let Waited { waits, .. } = waits_of(alloc, waiting)?;
    let mut waits = waits.into_vec();
    let tail = tail_by(alloc, waits.as_mut_slice(), longest);
    drop(waits);
    tail
}

/// Returns the same percentiles as `tail`, from a table that is no longer than a longest wait of `longest` ticks needs. If a wait
/// is longer, the answer is the same but may take more time. The only error is out of memory.
pub fn tail_below(
    alloc: Global,
    rows: &Rows,
    kind: &Kind,
    visits: &Visits,
    longest: u64,
) -> Result<Percentiles, OutOfMemory>
    requires { AreVisits rows.now kind.now visits.now }
    ensures { IfOk result (ArePercentiles (waits_at rows.now kind.now visits.now)) }
{
    let waiting = Waiting {
        rows,
        kind,
        job: visits.job.as_slice(),
        arrive: visits.arrive.as_slice(),
        fate: &visits.fate.as_slice(),
    };
    tail_of_columns(alloc, &waiting, longest)
}

/// Returns the percentiles of the waits of the visits to a node of this kind. The only error is out of memory.
pub fn tail(
    alloc: Global,
    rows: &Rows,
    kind: &Kind,
    visits: &Visits,
) -> Result<Percentiles, OutOfMemory>
    requires { AreVisits rows.now kind.now visits.now }
    ensures { IfOk result (ArePercentiles (waits_at rows.now kind.now visits.now)) }
{
    tail_below(alloc, rows, kind, visits, visits.job.len() as u64)
}
