// The totals of a block of visits and the counts of their waits, from one pass over the visits.
ghost use Rattle.std.specs.Prelude.{◌≡◌, ◌↔◌, ◌+◌, ◌++◌, ◌≤◌, ℕ, List as Items, IfOk, IfSome, IsSome, length};
ghost use Rattle.mq_core.specs.Results.{peak_of};
ghost use Rattle.mq_stats.specs.Blocks.{AreNeighbours, IsBlock, IsBlockOf};
ghost use Rattle.mq_stats.specs.Numbers.{AreVisits, visits_of_columns};
ghost use Rattle.mq_stats.specs.WaitCounts.{AreWaitCounts};
ghost use Rattle.mq_stats.specs.Waits.{AreWaiting};

use crate::bare::bare_times;
use crate::peaks::peak_of_found;
use crate::tallies::{NodeTotals, part, totals_added, totals_of};
use crate::wait_counts::{WaitCounts, counts_added, counts_of};
use crate::waits::{Sums, Waiting, busy_of, waits_from};
use mq_base::OutOfMemory;
use mq_core::{Kind, Rows, Visits};
use std::alloc::Global;

/// What is counted of a block of visits.
#[derive(Drop)]
pub struct BlockCount {
    /// The totals, as if no other visit came.
    pub totals: NodeTotals,
    /// The counts of the waits of the visits that depart, or `None` if a wait is longer than the counts may reach.
    pub waits: Option<WaitCounts>,
}

// Returns the counts of visits to a node of this kind, which these columns contain and which have this peak.
pub fn count_columns(
    alloc: Global,
    waiting: &Waiting,
    peak: u32,
    span: u64,
    most: u32,
) -> Result<BlockCount, OutOfMemory>
    requires visits { AreWaiting waiting.now }
    requires most { most ≤ 1048576 }
    ensures { (found : Items ℕ) → peak ≡ peak_of waiting.now.kind.now found waiting.now.fate.now → IfOk result (IsBlockOf waiting.now.rows.now waiting.now.kind.now (visits_of_columns waiting.now.job.now waiting.now.arrive.now found waiting.now.fate.now) span most) }
{
    let bare = bare_times(alloc, waiting.rows, waiting.kind, waiting.job)?;
    let busy = busy_of(alloc, waiting, bare.as_slice())?;
    let told = waits_from(waiting, bare);
    let sums = Sums {
        wait: told.wait,
        longest: told.longest,
        busy,
    };
    let waits = counts_of(alloc, told.waits.as_slice(), told.longest, most)?;
    Ok(BlockCount {
        totals: totals_of(waiting, peak, span, &sums),
        waits,
    })
}

/// Returns the counts of the visits to a node of this kind from one position up to another, as if no other visit came: their totals,
/// and the counts of their waits unless a wait is longer than `most` ticks. Held visits stay until `span`, the end of the run, in
/// ticks.
///
/// The busy time is below 2^100 ticks. The only error is out of memory.
pub fn count_block(
    alloc: Global,
    rows: &Rows,
    kind: &Kind,
    visits: &Visits,
    span: u64,
    most: u32,
    from: u32,
    to: u32,
) -> Result<BlockCount, OutOfMemory>
    requires visits { AreVisits rows.now kind.now visits.now }
    requires most { most ≤ 1048576 }
    requires order { from ≤ to }
    requires within { to ≤ length visits.now.job }
    ensures { IfOk result (IsBlock rows.now kind.now visits.now span most from to) }
{
    let waiting = Waiting {
        rows,
        kind,
        job: part(&visits.job, from, to),
        arrive: part(&visits.arrive, from, to),
        fate: &visits.fate.part(from as usize, to as usize),
    };
    let peak = peak_of_found(kind, part(&visits.found, from, to), waiting.fate);
    count_columns(alloc, &waiting, peak, span, most)
}

// Returns the sum of two counts of waits, or `None` if either is missing.
fn waits_added(
    alloc: Global,
    before: Option<WaitCounts>,
    after: &Option<WaitCounts>,
) -> Result<Option<WaitCounts>, OutOfMemory>
    requires { (waits : Items ℕ) × (more : Items ℕ) × (length waits + length more ≤ 1048576) × IfSome before (AreWaitCounts waits) × IfSome after.now (AreWaitCounts more) }
    ensures told { IfOk result (λ both. IsSome both ↔ (IsSome before × IsSome after.now)) }
    ensures counts { IfOk result (λ both. (waits more : Items ℕ) → IfSome before (AreWaitCounts waits) → IfSome after.now (AreWaitCounts more) → IfSome both (AreWaitCounts (waits ++ more))) }
{
    let Some(before) = before else {
        return Ok(None);
    };
    let Some(after) = after else {
        drop(before);
        return Ok(None);
    };
    let both = counts_added(alloc, before, after)?;
    Ok(Some(both))
}

/// Returns the counts of two neighbouring blocks taken together. They include counts of waits only if both blocks have them. The only
/// error is out of memory.
pub fn blocks_added(
    alloc: Global,
    before: BlockCount,
    after: &BlockCount,
) -> Result<BlockCount, OutOfMemory>
    requires { AreNeighbours before after.now }
    ensures told { IfOk result (λ both. IsSome both.waits ↔ (IsSome before.waits × IsSome after.now.waits)) }
    ensures block { IfOk result (λ both. (blocks : AreNeighbours before after.now) → IsBlock blocks.rows blocks.kind blocks.visits blocks.span blocks.most blocks.from blocks.to both) }
{
    let BlockCount { totals, waits } = before;
    let both = totals_added(&totals, &after.totals);
    let waits = waits_added(alloc, waits, &after.waits)?;
    Ok(BlockCount {
        totals: both,
        waits,
    })
}
