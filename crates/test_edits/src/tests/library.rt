// Runs that are kept while their rows are edited, as your own program would use them.
ghost use Rattle.std.specs.Prelude.{◌≡◌, ◌<◌, IfOk};

use super::{MODEL, TRACE};
use mq_base::{OutOfMemory, Steps};
use mq_core::Plan;
use mq_edit::{EditFault, Kept, PastFault, Redone, RunFault, read_edits};
use mq_model::read_model;
use mq_trace::read_trace;
use std::alloc::Global;
use std::marker::Brand;
use std::sync::ledger::{Blank, Ledger};
use std::test::Fail;
use std::thread::Threads;

// The outcome of a text of edits: why it isn't read, or else why its edits aren't made, or the number of blocks redone.
type Made = Result<Result<Redone, RunFault>, EditFault>;

// A text of edits and its outcome; then the number of rows, which is also the number of visits to the desk; and the
// times of some rows.
#[derive(Clone, Copy)]
struct Step<'a> {
    text: &'a [u8],
    made: Made,
    count: usize,
    from: usize,
    to: usize,
    times: &'a [u64],
}

// A model; a trace, and the number of rows to append; and steps, one after another.
#[derive(Clone, Copy)]
struct History<'a> {
    model: &'a [u8],
    trace: &'a [u8],
    jobs: u32,
    steps: &'a [Step<'a>],
}

// Runs a trace with 4 workers, in blocks of 64 jobs.
fn kept_of<'p, R: Threads + Sync>(
    rt: &R,
    alloc: Global,
    plan: &'p Plan,
    trace: &[u8],
) -> Result<Kept<'p>, OutOfMemory>
    ensures plan { IfOk result (λ kept. kept.plan ≡ plan.now) }
{
    let Ok(rows) = read_trace(rt, alloc, 4, trace, &plan.net) else {
        return Err(OutOfMemory);
    };
    match Kept::start(rt, alloc, plan, rows, 4, 64) {
        Ok(kept) => Ok(kept),
        Err(_) => Err(OutOfMemory),
    }
}

// Makes the edits of a text in a kept run, whose steps a new counter counts.
fn edit_with<R: Threads + Sync, L: Ledger>(
    rt: &R,
    alloc: Global,
    plan: &Plan,
    kept: &mut Kept,
    text: &[u8],
    blank: Blank,
) -> Made
    requires plan { kept.old.plan ≡ plan.now }
    requires name { blank.name ≡ L.name }
    requires parts { blank.parts ≡ L.parts }
    requires some { 0 < blank.parts }
    ensures plan { kept.new.plan ≡ kept.old.plan }
{
    // The type of the run ensures that its rows are read for the plan.
    let _ = kept.run();
    let edits = match read_edits(alloc, text, &plan.net, kept.rows().source.len() as u32) {
        Ok(edits) => edits,
        Err(fault) => return Err(fault),
    };
    let mut steps = Steps::<L>::new(blank);
    let made = kept.edit(rt, alloc, &edits, &mut steps);
    drop(edits);
    Ok(made)
}

// Makes the edits of a text in a kept run, with a counter that nothing reads.
fn edited<R: Threads + Sync>(
    rt: &R,
    alloc: Global,
    plan: &Plan,
    kept: &mut Kept,
    text: &[u8],
) -> Made
    requires plan { kept.old.plan ≡ plan.now }
    ensures plan { kept.new.plan ≡ kept.old.plan }
{
    edit_with::<R, Brand>(rt, alloc, plan, kept, text, Blank::new(1))
}

// Whether a kept run of two nodes has the number of rows and of visits, and the times, that the step says.
fn stands_so(kept: &Kept, step: &Step<'_>) -> bool {
    let times = kept.rows().time.as_slice();
    let run = kept.run();
    times.len() == step.count
        && run.visits.len() == 2
        && run.visits.get(1).fate.len() == step.count
        && match times.get(step.from..step.to) {
            Some(some) => some == step.times,
            None => false,
        }
}

// Whether each step, one after another, has its outcome in a kept run and leaves these rows and visits.
fn all_go_so<R: Threads + Sync>(
    rt: &R,
    alloc: Global,
    plan: &Plan,
    kept: &mut Kept,
    steps: &[Step<'_>],
) -> bool
    requires plan { kept.old.plan ≡ plan.now }
{
    for step in steps {
        let made = edited(rt, alloc, plan, kept, step.text);
        if made != step.made || !stands_so(kept, step) {
            return false;
        }
    }
    true
}

// The row of a job that comes at ten times this number, which is below 1,000, and is served for one tick.
fn row(number: u32) -> [u8; 11] {
    [
        b's',
        b'r',
        b'c',
        b',',
        b'0' + (number / 100 % 10) as u8,
        b'0' + (number / 10 % 10) as u8,
        b'0' + (number % 10) as u8,
        b'0',
        b',',
        b'1',
        b'\n',
    ]
}

// Whether the steps of a history do so, whose trace is appended to this text.
fn is_so_behind<R: Threads + Sync>(
    rt: &R,
    alloc: Global,
    plan: &Plan,
    text: &mut Vec<u8>,
    history: &History<'_>,
) -> Result<bool, OutOfMemory> {
    text.extend_from_slice(history.trace)?;
    for number in 0..history.jobs {
        text.extend_from_slice(&row(number))?;
    }
    let mut kept = kept_of(rt, alloc, plan, text)?;
    let so = all_go_so(rt, alloc, plan, &mut kept, history.steps);
    drop(kept);
    Ok(so)
}

// Whether the steps of a history do so.
fn is_so<R: Threads + Sync>(
    rt: &R,
    alloc: Global,
    history: &History<'_>,
) -> Result<bool, OutOfMemory> {
    match read_model(alloc, history.model) {
        Ok(plan) => {
            let mut text = Vec::new(alloc);
            let so = is_so_behind(rt, alloc, &plan, &mut text, history);
            drop(text);
            drop(plan);
            so
        }
        Err(_) => Err(OutOfMemory),
    }
}

// The example in the documentation of `mq_edit`.
const ONE_MORE: History<'static> = History {
    model: MODEL,
    trace: TRACE,
    jobs: 0,
    steps: &[Step {
        text: b"add src 3 2\n",
        made: Ok(Ok(Redone { again: 2, all: 2 })),
        count: 4,
        from: 0,
        to: 4,
        times: &[0, 1, 2, 3],
    }],
};

// 200 jobs that come at 0, 10 and so on. The 150th is in the third of four blocks.
const TWO_HUNDRED: History<'static> = History {
    model: MODEL,
    trace: b"source,time,d\n",
    jobs: 200,
    steps: &[
        Step {
            text: b"set 150 src 1490 5",
            made: Ok(Ok(Redone { again: 2, all: 8 })),
            count: 200,
            from: 149,
            to: 150,
            times: &[1490],
        },
        Step {
            text: b"set 201 src 0 1",
            made: Err(EditFault::UnknownRow { line: 1 }),
            count: 200,
            from: 198,
            to: 200,
            times: &[1980, 1990],
        },
        // The row is already so, so this changes nothing.
        Step {
            text: b"set 150 src 1490 5",
            made: Ok(Ok(Redone { again: 0, all: 8 })),
            count: 200,
            from: 149,
            to: 150,
            times: &[1490],
        },
        // The 65th job is the first of the second block.
        Step {
            text: b"set 65 src 641 1",
            made: Ok(Ok(Redone { again: 6, all: 8 })),
            count: 200,
            from: 63,
            to: 66,
            times: &[630, 641, 650],
        },
        Step {
            text: b"set 64 src 631 1",
            made: Ok(Ok(Redone { again: 8, all: 8 })),
            count: 200,
            from: 62,
            to: 65,
            times: &[620, 631, 641],
        },
    ],
};

// An edit that is refused leaves the run as it was, and the next edit is made.
const LATE: History<'static> = History {
    model: b"model 1\nbound 9\nsource src\nserver desk d from src\n",
    trace: TRACE,
    jobs: 0,
    steps: &[
        Step {
            text: b"add src 3 2\n",
            made: Ok(Err(RunFault::Past(PastFault {
                node: 1,
                position: 3,
                time: 10,
            }))),
            count: 3,
            from: 0,
            to: 3,
            times: &[0, 1, 2],
        },
        Step {
            text: b"add src 3 1\n",
            made: Ok(Ok(Redone { again: 2, all: 2 })),
            count: 4,
            from: 0,
            to: 4,
            times: &[0, 1, 2, 3],
        },
    ],
};

fn all_are_so<R: Threads + Sync>(rt: &R, alloc: Global) -> Result<bool, OutOfMemory> {
    Ok(is_so(rt, alloc, &ONE_MORE)? && is_so(rt, alloc, &TWO_HUNDRED)? && is_so(rt, alloc, &LATE)?)
}

#[test]
fn kept_runs_are_edited(rt: HostRuntime) -> Result<(), Fail> {
    assert!(rt; all_are_so(&rt, rt.alloc())?);
    Ok(())
}
