// Models that run and models whose runs are refused, with few and many workers; invalid arguments.
ghost use Rattle.std.specs.Prelude.{◌≤◌};

use super::{Ending, FIRST, ends, files_with};
use mq_base::OutOfMemory;
use mq_sweep::SweepOutcome;
use std::alloc::Global;
use std::sync::Wait;
use std::test::Fail;
use std::thread::Threads;

// A first line that no model has.
const HEAD: &[u8] = b"model 9\n";

// A model with a column that the trace lacks.
const COLUMN: &[u8] = b"model 1\nsource src\nserver desk e from src\n";

// A model with a bound that the last departure passes.
const BOUND: &[u8] = b"model 1\nbound 7\nsource src\nserver desk d from src\n";

// A model with 3 * 4^10 visits at its last node.
const VISITS: &[u8] = b"model 2\nsource src\n\
fork f1 4 from src\ndelay d1 =0 from f1 f1.1 f1.2 f1.3\n\
fork f2 4 from d1\ndelay d2 =0 from f2 f2.1 f2.2 f2.3\n\
fork f3 4 from d2\ndelay d3 =0 from f3 f3.1 f3.2 f3.3\n\
fork f4 4 from d3\ndelay d4 =0 from f4 f4.1 f4.2 f4.3\n\
fork f5 4 from d4\ndelay d5 =0 from f5 f5.1 f5.2 f5.3\n\
fork f6 4 from d5\ndelay d6 =0 from f6 f6.1 f6.2 f6.3\n\
fork f7 4 from d6\ndelay d7 =0 from f7 f7.1 f7.2 f7.3\n\
fork f8 4 from d7\ndelay d8 =0 from f8 f8.1 f8.2 f8.3\n\
fork f9 4 from d8\ndelay d9 =0 from f9 f9.1 f9.2 f9.3\n\
fork f10 4 from d9\ndelay d10 =0 from f10 f10.1 f10.2 f10.3\n";

// What these models give as the second scenario.
const HEAD_GIVES: &[u8] =
    b"scenario 2 status 3\nmpsim: model line 1: expected model 1 or model 2\n";

const COLUMN_GIVES: &[u8] = b"scenario 2 status 4\nmpsim: trace header: column e missing\n";

const BOUND_GIVES: &[u8] =
    b"scenario 2 status 5\nmpsim: node desk position 2 passes the bound at time 8\n";

const VISITS_GIVES: &[u8] = b"scenario 2 status 9\nmpsim: node d10 has 3145728 visits\n";

const USAGE: &[u8] = b"mpsweep: usage: mpsweep TRACE MODEL..\n";

// Returns whether the sweep of one model with this many workers is done.
fn is_done<R: Threads + Wait + Sync>(
    rt: &R,
    alloc: Global,
    workers: u32,
) -> Result<bool, OutOfMemory>
    requires some { 1 ≤ workers }
    requires most { workers ≤ 64 }
{
    let wanted = Ending {
        outcome: SweepOutcome::Done,
        status: 0,
        out: &[FIRST],
        err: &[],
    };
    let mut files = files_with(alloc, Vec::new(alloc), 0)?;
    ends(rt, alloc, &["t", "m"], workers, &mut files, 0, wanted)
}

#[test]
fn one_model_is_done_by_one_worker_or_many(rt: HostRuntime) -> Result<(), Fail> {
    assert!(rt; is_done(&rt, rt.alloc(), 1)?);
    assert!(rt; is_done(&rt, rt.alloc(), 64)?);
    Ok(())
}

// Returns whether the run of the second of two models is refused this way, while the first runs.
fn is_refused<R: Threads + Wait + Sync>(
    rt: &R,
    alloc: Global,
    model: &[u8],
    gives: &[u8],
) -> Result<bool, OutOfMemory> {
    let wanted = Ending {
        outcome: SweepOutcome::Refused,
        status: 11,
        out: &[FIRST, gives],
        err: &[],
    };
    let mut files = files_with(alloc, Vec::from_slice(alloc, model)?, 0)?;
    ends(rt, alloc, &["t", "m", "x"], 3, &mut files, 0, wanted)
}

// Returns whether they are, for each way in which a model's run is refused.
fn are_refused<R: Threads + Wait + Sync>(rt: &R, alloc: Global) -> Result<bool, OutOfMemory> {
    Ok(
        is_refused(rt, alloc, HEAD, HEAD_GIVES)?
            && is_refused(rt, alloc, COLUMN, COLUMN_GIVES)?
            && is_refused(rt, alloc, BOUND, BOUND_GIVES)?
            && is_refused(rt, alloc, VISITS, VISITS_GIVES)?,
    )
}

#[test]
fn a_model_that_is_refused_has_its_status_and_line(rt: HostRuntime) -> Result<(), Fail> {
    assert!(rt; are_refused(&rt, rt.alloc())?);
    Ok(())
}

// Returns whether these arguments are invalid.
fn is_usage<R: Threads + Wait + Sync>(
    rt: &R,
    alloc: Global,
    words: &[&str],
) -> Result<bool, OutOfMemory> {
    let wanted = Ending {
        outcome: SweepOutcome::Usage,
        status: 2,
        out: &[],
        err: USAGE,
    };
    let mut files = files_with(alloc, Vec::new(alloc), 0)?;
    ends(rt, alloc, words, 2, &mut files, 0, wanted)
}

#[test]
fn a_trace_alone_and_an_option_are_refused(rt: HostRuntime) -> Result<(), Fail> {
    assert!(rt; is_usage(&rt, rt.alloc(), &["t"])?);
    assert!(rt; is_usage(&rt, rt.alloc(), &["t", "-m"])?);
    assert!(rt; is_usage(&rt, rt.alloc(), &["t"; 66])?);
    Ok(())
}
