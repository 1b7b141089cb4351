// The numbers of visits whose jobs leave by one output in order of arrival, computed from what came and when each departs. It makes no list
// of the visits or of what they found.
ghost use Rattle.std.specs.Prelude.{◌≡◌, ◌↔◌, ◌*◌, ◌^◌, ◌≤◌, ℕ, List as Items, IfOk, IfSome, IsSome, fold, length, map, max, sum};
ghost use Rattle.mq_core.specs.Results.{bare_time, peak_of};
ghost use Rattle.mq_core.specs.Sequences.{sequence_sojourns};
ghost use Rattle.mq_core.specs.declared.model.Fate.TheVariants.{Departs};
ghost use Rattle.mq_stats.specs.Bare.{AreTimes};
ghost use Rattle.mq_stats.specs.Blocks.{IsBlock, IsBlockOf};
ghost use Rattle.mq_stats.specs.InTurn.{KeepTurn, visits_in_turn};
ghost use Rattle.mq_stats.specs.Numbers.{AreVisits, visits_between, visits_of_columns};
ghost use Rattle.mq_stats.specs.Percentiles.{ArePercentiles, longest_wait, waits_at};
ghost use Rattle.mq_stats.specs.WaitCounts.{AreWaitCounts};
ghost use Rattle.mq_stats.specs.Waits.{AreWaiting, departed_waits_in, waits_in};

use crate::bare::bare_times;
use crate::blocks::BlockCount;
use crate::peaks::peak_in_turn;
use crate::tails::{Percentiles, tail_of_columns};
use crate::tallies::{NodeTotals, part};
use crate::wait_counts::{WaitCounts, counts_of, counts_of_columns};
use crate::waits::{Waiting, busy_of};
use mq_base::{List, OutOfMemory};
use mq_core::{FateSlice, Kind, Rows, Stream};
use std::alloc::Global;

// The sums of the stays and of the waits of visits that depart, and the greatest wait, in ticks.
#[derive(Clone, Copy)]
struct Departed {
    stay: u128,
    wait: u128,
    longest: u64,
}

// Overwrites each visit's bare time in `waits` with its wait. The visits depart at these times.
// Not inlined, so that its loop has the registers to itself.
#[inline(never)]
fn put_departed(waiting: &Waiting, departs: &[u64], waits: &mut [u64]) -> Departed
    requires visits { AreWaiting waiting.now }
    requires fates { waiting.now.fate.now ≡ map (λ time. Departs time) departs.now }
    requires bare { AreTimes (bare_time waiting.now.rows.now waiting.now.kind.now) waiting.now.job.now waits.old }
    ensures room { length waits.new ≡ length waiting.now.job.now }
    ensures waits { waits.new ≡ departed_waits_in waiting.now }
    ensures stay { (span : ℕ) → result.stay ≡ sum (sequence_sojourns span waiting.now.arrive.now waiting.now.fate.now) }
    ensures wait { result.wait ≡ sum (waits_in waiting.now) }
    ensures longest { result.longest ≡ fold max 0 (waits_in waiting.now) }
    ensures small { result.wait ≤ length waiting.now.job.now * 2 ^ 64 }
    ensures small_stay { result.stay ≤ length waiting.now.job.now * 2 ^ 64 }
{
    let arrive = waiting.arrive;
    let (mut stay, mut wait, mut longest) = (0u128, 0u128, 0u64);
    for at in 0..arrive.len() {
        let stayed = departs[at].saturating_sub(arrive[at]);
        let waited = stayed.saturating_sub(waits[at]);
        waits[at] = waited;
        stay += stayed as u128;
        wait += waited as u128;
        longest = longest.max(waited);
    }
    Departed {
        stay,
        wait,
        longest,
    }
}

// Returns what `count_columns` returns, for visits that depart at these times.
fn count_departed(
    alloc: Global,
    waiting: &Waiting,
    departs: &[u64],
    peak: u32,
    most: u32,
) -> Result<BlockCount, OutOfMemory>
    requires visits { AreWaiting waiting.now }
    requires fates { waiting.now.fate.now ≡ map (λ time. Departs time) departs.now }
    requires most { most ≤ 1048576 }
    ensures { (found : Items ℕ) (span : ℕ) → peak ≡ peak_of waiting.now.kind.now found waiting.now.fate.now → IfOk result (IsBlockOf waiting.now.rows.now waiting.now.kind.now (visits_of_columns waiting.now.job.now waiting.now.arrive.now found waiting.now.fate.now) span most) }
{
    let mut waits = bare_times(alloc, waiting.rows, waiting.kind, waiting.job)?;
    let busy = busy_of(alloc, waiting, waits.as_slice())?;
    let told = put_departed(waiting, departs, waits.as_mut_slice());
    let came = waiting.job.len() as u32;
    let counts = counts_of(alloc, waits.as_slice(), told.longest, most)?;
    drop(waits);
    let totals = NodeTotals {
        came,
        left: came,
        lost: 0,
        held: 0,
        wait: told.wait,
        longest: told.longest,
        busy,
        area: told.stay,
        peak,
    };
    Ok(BlockCount {
        totals,
        waits: counts,
    })
}

/// Returns what `count_block` returns, for visits whose jobs leave in order of arrival, from what came and when each departs. The span plays
/// no part, since nobody is held.
pub fn count_in_turn(
    alloc: Global,
    rows: &Rows,
    kind: &Kind,
    arrivals: &Stream,
    departs: &List<u64>,
    most: u32,
    from: u32,
    to: u32,
) -> Result<BlockCount, OutOfMemory>
    requires visits { AreVisits rows.now kind.now (visits_in_turn arrivals.now departs.now) }
    requires turn { KeepTurn arrivals.now departs.now }
    requires most { most ≤ 1048576 }
    requires order { from ≤ to }
    requires within { to ≤ length arrivals.now.job }
    ensures { (span : ℕ) → IfOk result (IsBlock rows.now kind.now (visits_in_turn arrivals.now departs.now) span most from to) }
{
    let leave = part(departs, from, to);
    let waiting = Waiting {
        rows,
        kind,
        job: part(&arrivals.job, from, to),
        arrive: part(&arrivals.time, from, to),
        fate: &FateSlice::departures(leave),
    };
    let (first, end) = (from as usize, to as usize);
    let peak = peak_in_turn(
        kind,
        arrivals.time.as_slice(),
        departs.as_slice(),
        first,
        end,
    );
    count_departed(alloc, &waiting, leave, peak, most)
}

/// Returns what `count_between` returns, for visits whose jobs leave in order of arrival.
pub fn waits_in_turn(
    alloc: Global,
    rows: &Rows,
    kind: &Kind,
    arrivals: &Stream,
    departs: &List<u64>,
    most: u32,
    from: u32,
    to: u32,
) -> Result<Option<WaitCounts>, OutOfMemory>
    requires visits { AreVisits rows.now kind.now (visits_in_turn arrivals.now departs.now) }
    requires most { most ≤ 1048576 }
    requires order { from ≤ to }
    requires within { to ≤ length arrivals.now.job }
    ensures told { IfOk result (λ counts. IsSome counts ↔ (longest_wait rows.now kind.now (visits_between from to (visits_in_turn arrivals.now departs.now)) ≤ most)) }
    ensures counts { IfOk result (λ counts. IfSome counts (AreWaitCounts (waits_at rows.now kind.now (visits_between from to (visits_in_turn arrivals.now departs.now))))) }
{
    let waiting = Waiting {
        rows,
        kind,
        job: part(&arrivals.job, from, to),
        arrive: part(&arrivals.time, from, to),
        fate: &FateSlice::departures(part(departs, from, to)),
    };
    counts_of_columns(alloc, &waiting, most)
}

/// Returns what `tail_below` returns, for visits whose jobs leave in order of arrival.
pub fn tail_in_turn(
    alloc: Global,
    rows: &Rows,
    kind: &Kind,
    arrivals: &Stream,
    departs: &List<u64>,
    longest: u64,
) -> Result<Percentiles, OutOfMemory>
    requires { AreVisits rows.now kind.now (visits_in_turn arrivals.now departs.now) }
    ensures { IfOk result (ArePercentiles (waits_at rows.now kind.now (visits_in_turn arrivals.now departs.now))) }
{
    let waiting = Waiting {
        rows,
        kind,
        job: arrivals.job.as_slice(),
        arrive: arrivals.time.as_slice(),
        fate: &FateSlice::departures(departs.as_slice()),
    };
    tail_of_columns(alloc, &waiting, longest)
}
