// Worked examples of the totals of visits, whole and in pieces.
ghost use Rattle.std.specs.Prelude.{◌≡◌, ◌≤◌, ◌^◌, ℕ, All, List as Items, Some, length, map, slice_get, IfOk, IsTrue};
ghost use Rattle.std.specs.List.{AllByRecursion};
ghost use Rattle.mq_core.specs.Asked.{HasDemands};
ghost use Rattle.mq_core.specs.Laws.{Rises};
ghost use Rattle.mq_core.specs.OnceOut.{founds_of};
ghost use Rattle.mq_core.specs.Told.{HasValue, IsTold};
ghost use Rattle.mq_core.specs.declared.model.Demand.TheVariants.{Column};
ghost use Rattle.mq_core.specs.declared.model.Fate.TheVariants.{Departs};
ghost use Rattle.mq_core.specs.declared.model.Kind.{Kind as TheKind};
ghost use Rattle.mq_core.specs.declared.model.Rows.{Rows as TheRows};
ghost use Rattle.mq_stats.specs.InTurn.{KeepTurn, visits_in_turn};
ghost use Rattle.mq_stats.specs.Numbers.{AreVisits};

use super::stats::{
    Case, Columns, HELD, LOST, NO_VISITS, SERVED, case_of, list, three_case, visits_with,
};
use mq_base::{List, OutOfMemory};
use mq_core::{Demand, Fates, Kind, Rows, Stream, Visits};
use mq_stats::{NodeTotals, blocks_added, count_block, count_in_turn, totals};
use std::alloc::Global;
use std::test::Fail;

fn are_told(rows: &Rows, jobs: &List<u32>) -> bool
    ensures { IsTrue result → All (λ job. HasValue rows.now 0 job) jobs.now }
{
    if rows.demands.is_empty() {
        return false;
    }
    let count = rows.demands.get(0).len();
    jobs.as_slice().iter().all(|job| (*job as usize) < count)
}

// Returns whether the first column has values of at most 2^36.
fn is_column_small(rows: &Rows) -> bool
    ensures { IsTrue result → (values : Items ℕ) → slice_get rows.now.demands 0 ≡ Some values → All (λ value. value ≤ 2 ^ 36) values }
{
    if rows.demands.is_empty() {
        return false;
    }
    let values = rows.demands.get(0);
    values
        .as_slice()
        .iter()
        .all(|value| *value <= 68_719_476_736)
}

fn are_small(founds: &List<u32>) -> bool
    ensures { IsTrue result → All (λ found. found ≤ 1048576) founds.now }
{
    founds.as_slice().iter().all(|found| *found <= 1_048_576)
}

fn are_even(visits: &Visits) -> bool
    ensures few { IsTrue result → length visits.now.job ≤ 1048576 }
    ensures arrives { IsTrue result → length visits.now.arrive ≡ length visits.now.job }
    ensures founds { IsTrue result → length visits.now.found ≡ length visits.now.job }
    ensures fates { IsTrue result → length visits.now.fate ≡ length visits.now.job }
{
    let count = visits.job.len();
    count <= 1_048_576
        && visits.arrive.len() == count
        && visits.found.len() == count
        && visits.fate.len() == count
}

// Returns whether these are visits to a node of any kind that asks for the first column or nothing.
pub fn are_visits(rows: &Rows, visits: &Visits) -> bool
    ensures { IsTrue result → (kind : TheKind) → ((job : ℕ) → IsTold rows.now (Column 0) job → HasDemands rows.now kind job) → AreVisits rows.now kind visits.now }
{
    if !are_even(visits) || !are_told(rows, &visits.job) || !are_small(&visits.found) {
        return false;
    }
    is_column_small(rows)
}

// Returns whether a node of such a kind has these totals in a run up to 10, computed visit by visit and as one block, and whether
// the counts of the visits before a position, added to those from that position on, give them too. No wait is longer than 10 ticks.
fn totals_are(
    alloc: Global,
    rows: &Rows,
    kind: &Kind,
    visits: &Visits,
    wanted: &NodeTotals,
    at: u32,
) -> Result<bool, OutOfMemory>
    requires { (job : ℕ) → IsTold rows.now (Column 0) job → HasDemands rows.now kind.now job }
{
    if !are_visits(rows, visits) {
        return Ok(false);
    }
    let count = visits.job.len() as u32;
    if at > count {
        return Ok(false);
    }
    let before = count_block(alloc, rows, kind, visits, 10, 10, 0, at)?;
    let after = count_block(alloc, rows, kind, visits, 10, 10, at, count)?;
    let both = blocks_added(alloc, before, &after)?;
    let whole = count_block(alloc, rows, kind, visits, 10, 10, 0, count)?;
    let plain = totals(rows, kind, visits, 10);
    Ok(
        plain == *wanted
            && whole.totals == *wanted
            && both.totals == *wanted
            && whole.waits.is_some()
            && both.waits.is_some(),
    )
}

// Returns whether a server has these totals.
fn is_so(alloc: Global, case: Case, wanted: &NodeTotals, at: u32) -> Result<bool, OutOfMemory> {
    let kind = Kind::Server(Demand::Column(0));
    let found = totals_are(alloc, &case.rows, &kind, &case.visits, wanted, at);
    drop(kind);
    drop(case);
    found
}

// Returns whether a server has these totals with these visits of the three jobs.
fn server_has(
    alloc: Global,
    columns: &Columns,
    wanted: &NodeTotals,
    at: u32,
) -> Result<bool, OutOfMemory> {
    is_so(alloc, three_case(alloc, columns)?, wanted, at)
}

const SERVED_TOTALS: NodeTotals = NodeTotals {
    came: 3,
    left: 3,
    lost: 0,
    held: 0,
    wait: 6,
    longest: 3,
    busy: 8,
    area: 14,
    peak: 3,
};

const LOST_TOTALS: NodeTotals = NodeTotals {
    came: 3,
    left: 2,
    lost: 1,
    held: 0,
    wait: 2,
    longest: 2,
    busy: 7,
    area: 9,
    peak: 2,
};

const HELD_TOTALS: NodeTotals = NodeTotals {
    came: 3,
    left: 2,
    lost: 0,
    held: 1,
    wait: 2,
    longest: 2,
    busy: 8,
    area: 18,
    peak: 3,
};

const NO_TOTALS: NodeTotals = NodeTotals {
    came: 0,
    left: 0,
    lost: 0,
    held: 0,
    wait: 0,
    longest: 0,
    busy: 0,
    area: 0,
    peak: 0,
};

fn servers_have_totals(alloc: Global) -> Result<bool, OutOfMemory> {
    Ok(
        server_has(alloc, &SERVED, &SERVED_TOTALS, 0)?
            && server_has(alloc, &SERVED, &SERVED_TOTALS, 1)?
            && server_has(alloc, &LOST, &LOST_TOTALS, 2)?
            && server_has(alloc, &HELD, &HELD_TOTALS, 2)?
            && server_has(alloc, &NO_VISITS, &NO_TOTALS, 0)?,
    )
}

#[test]
fn totals_are_those_of_pieces_added_up(rt: HostRuntime) -> Result<(), Fail> {
    assert!(rt; servers_have_totals(rt.alloc())?);
    Ok(())
}

// Returns whether a server has these totals, also in pieces, with fates given as the departures of the jobs that it serves.
fn departures_have(alloc: Global, wanted: &NodeTotals, at: u32) -> Result<bool, OutOfMemory> {
    let fate = Fates::departures(list(alloc, &[4u64, 5, 8])?);
    let visits = visits_with(alloc, &SERVED, fate)?;
    is_so(alloc, case_of(alloc, visits)?, wanted, at)
}

#[test]
fn departures_are_fates(rt: HostRuntime) -> Result<(), Fail> {
    assert!(rt; departures_have(rt.alloc(), &SERVED_TOTALS, 2)?);
    Ok(())
}

// What comes to a node, and when each job departs.
#[derive(Drop)]
struct Turn {
    rows: Rows,
    arrivals: Stream,
    departs: List<u64>,
}

// Returns a job for each of these arrival times. No row gives demands.
fn turn_of(alloc: Global, arrive: &[u64], departs: &[u64]) -> Result<Turn, OutOfMemory>
    ensures jobs { IfOk result (λ turn. length turn.arrivals.job ≡ length arrive.now) }
    ensures times { IfOk result (λ turn. turn.arrivals.time ≡ arrive.now) }
    ensures departs { IfOk result (λ turn. turn.departs ≡ departs.now) }
{
    let arrivals = Stream {
        job: List::from_vec(vec![in alloc; 0u32; arrive.len()]?),
        time: list(alloc, arrive)?,
    };
    Ok(Turn {
        departs: list(alloc, departs)?,
        arrivals,
        rows: Rows {
            source: List::new(alloc),
            time: List::new(alloc),
            demands: List::new(alloc),
        },
    })
}

// Returns whether they have these totals from one position up to another, with no wait longer than 10 ticks.
fn counted_so(
    alloc: Global,
    kind: &Kind,
    turn: &Turn,
    from: u32,
    to: u32,
    wanted: &NodeTotals,
) -> Result<bool, OutOfMemory>
    requires visits { AreVisits turn.now.rows kind.now (visits_in_turn turn.now.arrivals turn.now.departs) }
    requires turn { KeepTurn turn.now.arrivals turn.now.departs }
{
    if from > to || to as usize > turn.arrivals.job.len() {
        return Ok(false);
    }
    let (arrivals, departs) = (&turn.arrivals, &turn.departs);
    let count = count_in_turn(alloc, &turn.rows, kind, arrivals, departs, 10, from, to)?;
    Ok(count.totals == *wanted && count.waits.is_some())
}

// Returns the same for visits at these times, which depart in turn, to a node that takes nothing from the rows.
fn turn_has(
    alloc: Global,
    kind: &Kind,
    arrive: &[u64],
    departs: &[u64],
    from: u32,
    to: u32,
    wanted: &NodeTotals,
) -> Result<bool, OutOfMemory>
    requires asks { (rows : TheRows) (job : ℕ) → HasDemands rows kind.now job }
    requires even { length departs.now ≡ length arrive.now }
    requires few { length arrive.now ≤ 1048576 }
    requires come { Rises (λ a b. a ≤ b) arrive.now }
    requires leave { Rises (λ a b. a ≤ b) departs.now }
    requires founds { length (founds_of arrive.now (map (λ time. Departs time) departs.now)) ≡ length arrive.now }
    requires small { AllByRecursion (λ found. found ≤ 1048576) (founds_of arrive.now (map (λ time. Departs time) departs.now)) }
{
    let turn = turn_of(alloc, arrive, departs)?;
    let found = counted_so(alloc, kind, &turn, from, to, wanted);
    drop(turn);
    found
}

// Returns whether six jobs at a server, 2 ticks each, have these totals from one position up to another. Two come at 0 and two at 6,
// and the last three come as another departs.
fn ties_have(alloc: Global, from: u32, to: u32, wanted: &NodeTotals) -> Result<bool, OutOfMemory> {
    let kind = Kind::Server(Demand::Fixed(2));
    let arrive = [0, 0, 1, 4, 6, 6];
    let departs = [2, 4, 6, 8, 10, 12];
    let found = turn_has(alloc, &kind, &arrive, &departs, from, to, wanted);
    drop(kind);
    found
}

// Returns whether three jobs that depart at their arrival times, two of them at one time, have these totals.
fn none_stay(alloc: Global, kind: &Kind, wanted: &NodeTotals) -> Result<bool, OutOfMemory>
    requires { (rows : TheRows) (job : ℕ) → HasDemands rows kind.now job }
{
    turn_has(alloc, kind, &[0, 0, 3], &[0, 0, 3], 0, 3, wanted)
}

const TIED_TOTALS: NodeTotals = NodeTotals {
    came: 6,
    left: 6,
    lost: 0,
    held: 0,
    wait: 13,
    longest: 4,
    busy: 12,
    area: 25,
    peak: 3,
};

// The totals of the fourth and the fifth job.
const MIDDLE_TOTALS: NodeTotals = NodeTotals {
    came: 2,
    left: 2,
    lost: 0,
    held: 0,
    wait: 4,
    longest: 2,
    busy: 4,
    area: 8,
    peak: 2,
};

const ONCE_TOTALS: NodeTotals = NodeTotals {
    came: 3,
    left: 3,
    lost: 0,
    held: 0,
    wait: 0,
    longest: 0,
    busy: 0,
    area: 0,
    peak: 1,
};

// The totals if no job stays.
const SENT_TOTALS: NodeTotals = NodeTotals {
    peak: 0,
    ..ONCE_TOTALS
};

fn turns_have_totals(alloc: Global) -> Result<bool, OutOfMemory> {
    let server = Kind::Server(Demand::Fixed(0));
    let at_once = none_stay(alloc, &server, &ONCE_TOTALS);
    drop(server);
    Ok(
        at_once?
            && none_stay(alloc, &Kind::Source, &SENT_TOTALS)?
            && ties_have(alloc, 0, 6, &TIED_TOTALS)?
            && ties_have(alloc, 3, 5, &MIDDLE_TOTALS)?
            && ties_have(alloc, 3, 3, &NO_TOTALS)?,
    )
}

#[test]
fn visits_in_turn_have_their_totals(rt: HostRuntime) -> Result<(), Fail> {
    assert!(rt; turns_have_totals(rt.alloc())?);
    Ok(())
}
