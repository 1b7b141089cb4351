// Worked examples of the percentiles of waits at a node.
ghost use Rattle.std.specs.Prelude.{ℕ, List as Items};
ghost use Rattle.mq_core.specs.Asked.{HasDemands};
ghost use Rattle.mq_core.specs.Told.{IsTold};
ghost use Rattle.mq_core.specs.declared.model.Demand.TheVariants.{Column};
ghost use Rattle.mq_stats.specs.Numbers.{AreVisits};
ghost use Rattle.mq_stats.specs.WaitCounts.{AreWaitCounts};

use super::stats::{Columns, HELD, SERVED, list, three_case};
use super::totals::are_visits;
use mq_base::OutOfMemory;
use mq_core::{Demand, Fate, Kind, Rows, Visits};
use mq_stats::{
    Percentiles, WaitCounts, count_between, counted_percentiles, counts_added, tail, tail_below,
};
use std::alloc::Global;
use std::test::Fail;

// Returns whether two counts of waits, at most 10 waits each, add up to this number of waits and these counts.
fn sum_is(
    alloc: Global,
    before: WaitCounts,
    after: &WaitCounts,
    many: u32,
    wanted: &[u32],
) -> Result<bool, OutOfMemory>
    requires before { (waits : Items ℕ) × AreWaitCounts waits before }
    requires after { (waits : Items ℕ) × AreWaitCounts waits after.now }
{
    if before.many > 10 || after.many > 10 {
        return Ok(false);
    }
    let sum = counts_added(alloc, before, after)?;
    Ok(sum.many == many && sum.counts.as_slice() == wanted)
}

// Returns whether ten visits, whose waits are at most 9 ticks, have this number of waits and these counts: those of the
// visits before a position added to those of the rest.
fn parts_are(
    alloc: Global,
    rows: &Rows,
    kind: &Kind,
    visits: &Visits,
    position: u32,
    many: u32,
    wanted: &[u32],
) -> Result<bool, OutOfMemory>
    requires { AreVisits rows.now kind.now visits.now }
{
    if visits.job.len() != 10 || position > 10 {
        return Ok(false);
    }
    let Some(before) = count_between(alloc, rows, kind, visits, 9, 0, position)? else {
        return Ok(false);
    };
    let Some(after) = count_between(alloc, rows, kind, visits, 9, position, 10)? else {
        drop(before);
        return Ok(false);
    };
    sum_is(alloc, before, &after, many, wanted)
}

// Returns whether some visit waits longer than this, so that there are no counts.
fn is_passed(
    alloc: Global,
    rows: &Rows,
    kind: &Kind,
    visits: &Visits,
    most: u32,
) -> Result<bool, OutOfMemory>
    requires { AreVisits rows.now kind.now visits.now }
{
    if most > 10 {
        return Ok(false);
    }
    let many = visits.job.len() as u32;
    let counts = count_between(alloc, rows, kind, visits, most, 0, many)?;
    Ok(counts.is_none())
}

// What a test expects of visits: percentiles; percentiles from a table for waits of up to some number of ticks; the counts of
// both parts at a position, added up; or that a wait is longer than some number of ticks.
#[derive(Clone, Copy)]
enum Asked<'a> {
    Tail(Percentiles),
    TailBelow(u64, Percentiles),
    Parts(u32, u32, &'a [u32]),
    Passed(u32),
}

// Returns whether visits to a node of this kind, which asks for the first column or nothing, are as expected.
fn is_so(
    alloc: Global,
    rows: &Rows,
    kind: &Kind,
    visits: &Visits,
    asked: Asked,
) -> Result<bool, OutOfMemory>
    requires { (job : ℕ) → IsTold rows.now (Column 0) job → HasDemands rows.now kind.now job }
{
    if !are_visits(rows, visits) {
        return Ok(false);
    }
    match asked {
        Asked::Tail(wanted) => Ok(tail(alloc, rows, kind, visits)? == wanted),
        Asked::TailBelow(longest, wanted) => {
            Ok(tail_below(alloc, rows, kind, visits, longest)? == wanted)
        }
        Asked::Parts(position, many, wanted) => {
            parts_are(alloc, rows, kind, visits, position, many, wanted)
        }
        Asked::Passed(most) => is_passed(alloc, rows, kind, visits, most),
    }
}

// Returns whether these visits of the three jobs to a server are as expected.
fn server_has(alloc: Global, columns: &Columns, asked: Asked) -> Result<bool, OutOfMemory> {
    let case = three_case(alloc, columns)?;
    let kind = Kind::Server(Demand::Column(0));
    let found = is_so(alloc, &case.rows, &kind, &case.visits, asked);
    drop(kind);
    drop(case);
    found
}

// Returns whether these visits to a join are as expected. At a join each stay is a wait.
fn join_has(alloc: Global, columns: &Columns, asked: Asked) -> Result<bool, OutOfMemory> {
    let case = three_case(alloc, columns)?;
    let found = is_so(alloc, &case.rows, &Kind::Join, &case.visits, asked);
    drop(case);
    found
}

const fn percentiles(p50: u64, p90: u64, p99: u64) -> Percentiles {
    Percentiles { p50, p90, p99 }
}

// One visit of the second job, which waits 3 ticks.
const ONE: Columns<'static> = Columns {
    job: &[1],
    arrive: &[1],
    found: &[0],
    fate: &[Fate::Departs(5)],
};

fn three_jobs_wait_so(alloc: Global) -> Result<bool, OutOfMemory> {
    Ok(
        server_has(alloc, &ONE, Asked::Tail(percentiles(3, 3, 3)))?
            && join_has(alloc, &SERVED, Asked::Tail(percentiles(4, 6, 6)))?,
    )
}

#[test]
fn waits_of_three_jobs_have_percentiles(rt: HostRuntime) -> Result<(), Fail> {
    assert!(rt; three_jobs_wait_so(rt.alloc())?);
    Ok(())
}

// The visits of the three jobs, only the last of which departs.
const ONE_DEPARTS: Columns<'static> = Columns {
    fate: &[Fate::Lost, Fate::Lost, Fate::Departs(8)],
    ..SERVED
};

const NONE_DEPARTS: Columns<'static> = Columns {
    fate: &[Fate::Lost, Fate::Held, Fate::Lost],
    ..SERVED
};

fn departed_alone_count(alloc: Global) -> Result<bool, OutOfMemory> {
    Ok(
        server_has(alloc, &ONE_DEPARTS, Asked::Tail(percentiles(3, 3, 3)))?
            && server_has(alloc, &NONE_DEPARTS, Asked::Tail(percentiles(0, 0, 0)))?
            && join_has(alloc, &HELD, Asked::Tail(percentiles(4, 5, 5)))?,
    )
}

#[test]
fn lost_and_held_visits_do_not_count(rt: HostRuntime) -> Result<(), Fail> {
    assert!(rt; departed_alone_count(rt.alloc())?);
    Ok(())
}

// Ten visits of one job, which is served for 4 ticks. They wait 0 to 9 ticks.
const TEN: Columns<'static> = Columns {
    job: &[0; 10],
    arrive: &[0; 10],
    found: &[0; 10],
    fate: &[
        Fate::Departs(13),
        Fate::Departs(4),
        Fate::Departs(12),
        Fate::Departs(5),
        Fate::Departs(11),
        Fate::Departs(6),
        Fate::Departs(10),
        Fate::Departs(7),
        Fate::Departs(9),
        Fate::Departs(8),
    ],
};

#[test]
fn ten_waits_have_three_percentiles(rt: HostRuntime) -> Result<(), Fail> {
    assert!(rt; server_has(rt.alloc(), &TEN, Asked::Tail(percentiles(4, 8, 9)))?);
    Ok(())
}

// Ten visits to a join, which wait 0 to 9 ticks.
const TEN_AT_A_JOIN: Columns<'static> = Columns {
    arrive: &[4; 10],
    ..TEN
};

fn ten_have_below(alloc: Global, longest: u64) -> Result<bool, OutOfMemory> {
    let asked = Asked::TailBelow(longest, percentiles(4, 8, 9));
    join_has(alloc, &TEN_AT_A_JOIN, asked)
}

fn no_longest_wait_matters(alloc: Global) -> Result<bool, OutOfMemory> {
    Ok(
        ten_have_below(alloc, 9)?
            && ten_have_below(alloc, 8)?
            && ten_have_below(alloc, 0)?
            && ten_have_below(alloc, u64::MAX)?,
    )
}

#[test]
fn a_longest_wait_changes_no_percentile(rt: HostRuntime) -> Result<(), Fail> {
    assert!(rt; no_longest_wait_matters(rt.alloc())?);
    Ok(())
}

// Ten visits that are lost.
const TEN_LOST: Columns<'static> = Columns {
    fate: &[Fate::Lost; 10],
    ..TEN
};

const COUNTS: &[u32] = &[1, 1, 1, 1, 1, 1, 1, 1, 1, 1, 0];

const NO_COUNTS: &[u32] = &[0; 2];

fn parts_add_up(alloc: Global) -> Result<bool, OutOfMemory> {
    Ok(
        join_has(alloc, &TEN_AT_A_JOIN, Asked::Parts(0, 10, COUNTS))?
            && join_has(alloc, &TEN_AT_A_JOIN, Asked::Parts(3, 10, COUNTS))?
            && join_has(alloc, &TEN_AT_A_JOIN, Asked::Parts(10, 10, COUNTS))?
            && join_has(alloc, &TEN_LOST, Asked::Parts(3, 0, NO_COUNTS))?
            && join_has(alloc, &TEN_AT_A_JOIN, Asked::Passed(8))?
            && !join_has(alloc, &TEN_AT_A_JOIN, Asked::Passed(9))?,
    )
}

#[test]
fn counts_of_parts_add_up(rt: HostRuntime) -> Result<(), Fail> {
    assert!(rt; parts_add_up(rt.alloc())?);
    Ok(())
}

// Returns whether these counts of this number of waits have these percentiles.
fn counts_have(
    alloc: Global,
    many: u32,
    counts: &[u32],
    wanted: Option<Percentiles>,
) -> Result<bool, OutOfMemory> {
    if many > 10 || counts.len() < 2 || counts.len() > 11 {
        return Ok(false);
    }
    let counts = WaitCounts {
        many,
        counts: list(alloc, counts)?,
    };
    Ok(counted_percentiles(&counts) == wanted)
}

fn counts_tell(alloc: Global) -> Result<bool, OutOfMemory> {
    let all = Some(percentiles(4, 8, 9));
    let none = Some(percentiles(0, 0, 0));
    Ok(
        counts_have(alloc, 10, &[1, 1, 1, 1, 1, 1, 1, 1, 1, 1, 0], all)?
            && counts_have(alloc, 10, &[1, 1, 1, 1, 1, 1, 1, 1, 1, 1], None)?
            && counts_have(alloc, 10, &[1, 1, 1, 1, 1, 1, 1, 1, 2], None)?
            && counts_have(alloc, 10, &[1, 1, 1, 1, 6], None)?
            && counts_have(alloc, 0, &[0, 0], none)?,
    )
}

#[test]
fn counts_tell_percentiles_where_each_is_counted(rt: HostRuntime) -> Result<(), Fail> {
    assert!(rt; counts_tell(rt.alloc())?);
    Ok(())
}
