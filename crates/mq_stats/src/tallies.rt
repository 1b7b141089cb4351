// The totals of a node over a run.
ghost use Rattle.std.specs.Prelude.{◌≡◌, ◌+◌, ◌*◌, ◌<◌, ◌≤◌, ◌^◌, ℕ, List as Items, length, sum, cond, count_by};
ghost use Rattle.mq_base.specs.Lists.{between};
ghost use Rattle.mq_core.specs.Results.{is_held, is_lost, peak_of};
ghost use Rattle.mq_core.specs.Sequences.{sequence_sojourn, sequence_sojourns, sequence_totals};
ghost use Rattle.mq_stats.specs.Numbers.{AreSmall, AreVisits, added_totals, totals_from, visits_of_columns};
ghost use Rattle.mq_stats.specs.Waits.{AreSums, AreWaiting};

use crate::peaks::peak_of_found;
use crate::waits::{Sums, Waiting, sums_of};
use mq_base::List;
use mq_core::{Fate, FateSlice, Kind, Rows, Visits};

/// The totals of a node over a run.
#[derive(Clone, Copy, PartialEq, Eq)]
pub struct NodeTotals {
    /// The number of jobs that came.
    pub came: u32,
    /// The number of them that departed.
    pub left: u32,
    /// The number of them that were lost.
    pub lost: u32,
    /// The number of them that stay in the node for good.
    pub held: u32,
    /// The sum of the waiting times, in ticks.
    pub wait: u128,
    /// The longest waiting time, in ticks.
    pub longest: u64,
    /// The time, in ticks, that the servers worked, summed over all servers.
    pub busy: u128,
    /// The sum of the sojourns, in ticks. It equals the number of jobs in the node, summed over time up to the end of the run.
    pub area: u128,
    /// The greatest number of jobs in the node just after an arrival, or 0 if jobs don't stay in a node of its kind.
    pub peak: u32,
}

// Returns 1 for a lost visit, and 0 for any other.
fn one_if_lost(fate: Fate) -> u32
    ensures value { result ≡ cond (is_lost fate) 1 0 }
    ensures most { result ≤ 1 }
{
    match fate {
        Fate::Departs(_) | Fate::Held => 0,
        Fate::Lost => 1,
    }
}

// Returns 1 for a held visit, and 0 for any other.
fn one_if_held(fate: Fate) -> u32
    ensures value { result ≡ cond (is_held fate) 1 0 }
    ensures most { result ≤ 1 }
{
    match fate {
        Fate::Departs(_) | Fate::Lost => 0,
        Fate::Held => 1,
    }
}

// Returns how long a visit stayed by the end of a run, in ticks.
fn sojourn_of(span: u64, arrive: u64, fate: Fate) -> u64
    ensures { result ≡ sequence_sojourn span arrive fate }
{
    match fate {
        Fate::Departs(time) => time.saturating_sub(arrive),
        Fate::Lost => 0,
        Fate::Held => span.saturating_sub(arrive),
    }
}

// What is counted and added up over visits, whatever the kind of the node and the span of the run. The stay is summed over visits that
// departed.
#[derive(Clone, Copy)]
struct Stays {
    lost: u32,
    held: u32,
    stay: u128,
}

// Returns the number of lost visits, the number of held ones, and the sum of the stays. With a span of 0 a held visit adds no stay.
// Not inlined, so that its loop has the registers to itself.
#[inline(never)]
fn stays_of(arrive: &[u64], fate: &FateSlice) -> Stays
    requires few { length arrive.now ≤ 1048576 }
    requires fates { length fate.now ≡ length arrive.now }
    ensures lost { result.lost ≡ count_by is_lost fate.now }
    ensures held { result.held ≡ count_by is_held fate.now }
    ensures stay { result.stay ≡ sum (sequence_sojourns 0 arrive.now fate.now) }
    ensures small { result.stay ≤ length arrive.now * 2 ^ 64 }
{
    let (mut lost, mut held) = (0u32, 0u32);
    let mut stay = 0u128;
    for at in 0..arrive.len() {
        let ending = fate.at(at);
        let stayed = sojourn_of(0, arrive[at], ending);
        lost += one_if_lost(ending);
        held += one_if_held(ending);
        stay += stayed as u128;
    }
    Stays { lost, held, stay }
}

// Returns the sum of the sojourns, in ticks, by the end of a run with this span.
fn sojourns_of(span: u64, arrive: &[u64], fate: &FateSlice) -> u128
    requires few { length arrive.now ≤ 1048576 }
    requires fates { length fate.now ≡ length arrive.now }
    ensures sum { result ≡ sum (sequence_sojourns span arrive.now fate.now) }
    ensures small { result ≤ length arrive.now * 2 ^ 64 }
{
    let mut area = 0u128;
    for at in 0..arrive.len() {
        let ending = fate.at(at);
        area += sojourn_of(span, arrive[at], ending) as u128;
    }
    area
}

// Returns that sum from the stays, and goes over the visits again only if some are held.
fn area_of(span: u64, arrive: &[u64], fate: &FateSlice, stays: &Stays) -> u128
    requires few { length arrive.now ≤ 1048576 }
    requires fates { length fate.now ≡ length arrive.now }
    requires held { stays.now.held ≡ count_by is_held fate.now }
    requires stay { stays.now.stay ≡ sum (sequence_sojourns 0 arrive.now fate.now) }
    requires stay_small { stays.now.stay ≤ length arrive.now * 2 ^ 64 }
    ensures sum { result ≡ sum (sequence_sojourns span arrive.now fate.now) }
    ensures small { result ≤ length arrive.now * 2 ^ 64 }
{
    if stays.held == 0 {
        return stays.stay;
    }
    sojourns_of(span, arrive, fate)
}

// Returns the totals of the visits in these columns, which have these sums and this peak, in a run with this span.
pub fn totals_of(waiting: &Waiting, peak: u32, span: u64, sums: &Sums) -> NodeTotals
    requires visits { AreWaiting waiting.now }
    requires sums { AreSums waiting.now sums.now }
    ensures totals { (found : Items ℕ) → peak ≡ peak_of waiting.now.kind.now found waiting.now.fate.now → totals_from result ≡ sequence_totals waiting.now.rows.now waiting.now.kind.now (visits_of_columns waiting.now.job.now waiting.now.arrive.now found waiting.now.fate.now) span }
    ensures small { AreSmall result }
{
    let (arrive, fate) = (waiting.arrive, waiting.fate);
    let came = waiting.job.len() as u32;
    let stays = stays_of(arrive, fate);
    NodeTotals {
        came,
        left: came - stays.lost - stays.held,
        lost: stays.lost,
        held: stays.held,
        wait: sums.wait,
        longest: sums.longest,
        busy: sums.busy,
        area: area_of(span, arrive, fate, &stays),
        peak,
    }
}

// Returns the items from one index up to another.
pub fn part<T>(items: &List<T>, from: u32, to: u32) -> &[T]
    requires order { from ≤ to }
    requires within { to ≤ length items.now }
    ensures { result.now ≡ between from to items.now }
{
    &items.as_slice()[from as usize..to as usize]
}

// Adds the totals of the visits before a position to those of the visits from that position on. Together they are at most 1,048,576
// visits.
pub fn totals_added(before: &NodeTotals, after: &NodeTotals) -> NodeTotals
    requires before { AreSmall before.now }
    requires after { AreSmall after.now }
    requires few { before.now.came + after.now.came ≤ 1048576 }
    ensures totals { totals_from result ≡ added_totals (totals_from before.now) (totals_from after.now) }
    ensures small { AreSmall result }
{
    NodeTotals {
        came: before.came + after.came,
        left: before.left + after.left,
        lost: before.lost + after.lost,
        held: before.held + after.held,
        wait: before.wait + after.wait,
        longest: before.longest.max(after.longest),
        busy: before.busy + after.busy,
        area: before.area + after.area,
        peak: before.peak.max(after.peak),
    }
}

/// Returns the totals of a node of this kind, from its visits and the span of the run, in ticks, until which held visits stay. It
/// looks at one visit at a time and allocates no memory; `count_block` returns the totals of a block.
///
/// The busy time is below 2^100 ticks.
pub fn totals(rows: &Rows, kind: &Kind, visits: &Visits, span: u64) -> NodeTotals
    requires { AreVisits rows.now kind.now visits.now }
    ensures totals { totals_from result ≡ sequence_totals rows.now kind.now visits.now span }
    ensures small { result.busy < 2 ^ 100 }
{
    let waiting = Waiting {
        rows,
        kind,
        job: visits.job.as_slice(),
        arrive: visits.arrive.as_slice(),
        fate: &visits.fate.as_slice(),
    };
    let sums = sums_of(&waiting);
    let peak = peak_of_found(kind, visits.found.as_slice(), waiting.fate);
    totals_of(&waiting, peak, span, &sums)
}
