// Worked cases of edits, and runs that are refused before or after them.
ghost use Rattle.std.specs.Prelude.{◌≡◌, ◌≤◌};

use super::kept::{edited, is_as_from_nothing, kept_of, plan_of};
use super::same::same_fate;
use mq_base::OutOfMemory;
use mq_core::{Fate, Fates, PastFault, Plan};
use mq_kept::{Kept, Redone, RunFault};
use std::alloc::Global;
use std::test::Fail;
use std::thread::Threads;

/// A source and a server whose demand is the only column.
pub const MODEL: &[u8] = b"model 1\nsource src\nserver desk d from src\n";

// The same model, in which no departure may come after 8.
const EARLY: &[u8] = b"model 1\nbound 8\nsource src\nserver desk d from src\n";

/// Three records for it.
pub const TRACE: &[u8] = b"source,time,d\nsrc,0,4\nsrc,1,1\nsrc,2,3\n";

// A text of edits and its outcome: the number of blocks redone, or why it is refused. Then the departures from the
// desk.
#[derive(Clone, Copy)]
struct Step<'a> {
    text: &'a [u8],
    made: Result<Redone, RunFault>,
    departures: &'a [u64],
}

const ONE_ROW_MORE: Step<'static> = Step {
    text: b"add src 3 2",
    made: Ok(Redone { again: 2, all: 2 }),
    departures: &[4, 5, 8, 10],
};

// Here the same edit passes the bound, and changes nothing.
const TOO_LATE: Step<'static> = Step {
    text: b"add src 3 2",
    made: Err(RunFault::Past(PastFault {
        node: 1,
        position: 3,
        time: 10,
    })),
    departures: &[4, 5, 8],
};

const SHORTER: Step<'static> = Step {
    text: b"set 3 src 2 1\nadd src 3 2",
    made: Ok(Redone { again: 2, all: 2 }),
    departures: &[4, 5, 6, 8],
};

// Whether the visits depart at these times.
fn depart_at(fates: &Fates, times: &[u64]) -> bool {
    if fates.len() != times.len() {
        return false;
    }
    for at in 0..times.len() {
        if !same_fate(fates.at(at), Fate::Departs(times[at])) {
            return false;
        }
    }
    true
}

// Whether a kept run has one row per departure, and these are the departures from the second of its two nodes.
fn leaves_so(kept: &Kept, departures: &[u64]) -> bool {
    let run = kept.run();
    kept.rows().source.len() == departures.len()
        && run.visits.len() == 2
        && depart_at(&run.visits.get(1).fate, departures)
}

// Whether the edits have this outcome, and the run is then that of a whole run.
fn goes_so<R: Threads + Sync>(
    rt: &R,
    alloc: Global,
    plan: &Plan,
    kept: &mut Kept,
    step: &Step<'_>,
) -> bool
    requires plan { kept.old.plan ≡ plan.now }
    ensures plan { kept.new.plan ≡ kept.old.plan }
{
    let made = edited(rt, alloc, plan, kept, step.text);
    made == step.made
        && leaves_so(kept, step.departures)
        && is_as_from_nothing(rt, alloc, plan, kept)
}

// Whether each of these steps, one after another, does so.
fn all_go_so<R: Threads + Sync>(
    rt: &R,
    alloc: Global,
    plan: &Plan,
    kept: &mut Kept,
    steps: &[Step<'_>],
) -> bool
    requires plan { kept.old.plan ≡ plan.now }
{
    for step in steps {
        if !goes_so(rt, alloc, plan, kept, step) {
            return false;
        }
    }
    true
}

// Whether the steps do so after a run of the trace.
fn go_so_behind<R: Threads + Sync>(
    rt: &R,
    alloc: Global,
    plan: &Plan,
    workers: u32,
    block: u32,
    steps: &[Step<'_>],
) -> bool
    requires some { 1 ≤ workers }
    requires most { workers ≤ 64 }
    requires block { 64 ≤ block }
    requires large { block ≤ 65536 }
{
    match kept_of(rt, alloc, plan, TRACE, workers, block) {
        Ok(mut kept) => {
            let so = all_go_so(rt, alloc, plan, &mut kept, steps);
            drop(kept);
            so
        }
        Err(_) => false,
    }
}

// Reads the plan from a model, and answers whether the steps do so after a run of the trace.
fn go_so<R: Threads + Sync>(
    rt: &R,
    alloc: Global,
    model: &[u8],
    workers: u32,
    block: u32,
    steps: &[Step<'_>],
) -> Result<bool, OutOfMemory>
    requires some { 1 ≤ workers }
    requires most { workers ≤ 64 }
    requires block { 64 ≤ block }
    requires large { block ≤ 65536 }
{
    let plan = plan_of(alloc, model)?;
    let so = go_so_behind(rt, alloc, &plan, workers, block, steps);
    drop(plan);
    Ok(so)
}

#[test]
fn edits_come_to_this(rt: HostRuntime) -> Result<(), Fail> {
    assert!(rt; go_so(&rt, rt.alloc(), MODEL, 4, 4096, &[ONE_ROW_MORE])?);
    assert!(rt; go_so(&rt, rt.alloc(), EARLY, 1, 64, &[TOO_LATE, SHORTER])?);
    Ok(())
}

// Whether this trace has no run, because its third job leaves at 9.
fn is_refused<R: Threads + Sync>(rt: &R, alloc: Global, plan: &Plan, trace: &[u8]) -> bool {
    let past = PastFault {
        node: 1,
        position: 2,
        time: 9,
    };
    match kept_of(rt, alloc, plan, trace, 1, 64) {
        Ok(kept) => {
            drop(kept);
            false
        }
        Err(fault) => fault == RunFault::Past(past),
    }
}

fn longer_is_refused<R: Threads + Sync>(rt: &R, alloc: Global) -> Result<bool, OutOfMemory> {
    let plan = plan_of(alloc, EARLY)?;
    let so = is_refused(
        rt,
        alloc,
        &plan,
        b"source,time,d\nsrc,0,4\nsrc,1,1\nsrc,2,4\n",
    );
    drop(plan);
    Ok(so)
}

#[test]
fn a_run_is_refused_at_the_start(rt: HostRuntime) -> Result<(), Fail> {
    assert!(rt; longer_is_refused(&rt, rt.alloc())?);
    Ok(())
}
