// A read or a put that fails.
ghost use Rattle.std.specs.Prelude.{◌≤◌};

use super::{MODEL, TRACE, files_of, files_with};
use mq_base::OutOfMemory;
use mq_model::ModelFault;
use mq_outside::MemSink;
use mq_top::{Outcome, UsageFault, simulate};
use std::alloc::Global;
use std::test::Fail;
use std::thread::Threads;

const REPORT: &[u8] = b"mpsim report 1\njobs 3 span 8\n\
    node src source in 3 out 3 lost 0 wait 0 max 0 busy 0 area 0 peak 0 util -\n\
    node desk server in 3 out 3 lost 0 wait 6 max 3 busy 8 area 14 peak 3 util 1.0000\n\
    exit desk.0 3 sojourn 14\n";

// The first bytes of the report with job lines, up to those of the put that fails.
const FIRST_LINES: &[u8] = b"mpsim report 1\njobs 3 span 8\n\
    node src source in 3 out 3 lost 0 wait 0 max 0 busy 0 area 0 peak 0 util -\n\
    node desk server in 3 out 3 lost 0 wait 6 max 3 busy 8 area 14 peak 3 util 1.0000\n\
    exit desk.0 3 sojourn 14\n\
    job 1 src arrive 0 wait 0 depart 0\njob 2 src arrive 1 wait 0 depart 1\njob 3 s";

const UNWRITTEN: &[u8] = b"mpsim: cannot write the report\n";

// The numbers, from 1, of the read and of the puts on the two outputs that fail. With 0 none fails.
#[derive(Clone, Copy)]
struct Failing {
    read: u64,
    out: u64,
    err: u64,
}

const NONE: Failing = Failing {
    read: 0,
    out: 0,
    err: 0,
};

// How a run ends, and what the two outputs gained.
#[derive(Clone, Copy)]
struct Ending<'a> {
    outcome: Outcome,
    status: u8,
    out: &'a [u8],
    err: &'a [u8],
}

// Returns a sink with room for all that comes, whose puts take 16 bytes each.
fn sink(alloc: Global, failing: u64) -> Result<MemSink, OutOfMemory> {
    let mut sink = MemSink::new(alloc, 16, Vec::from_slice(alloc, &[failing])?);
    sink.reserve(1024)?;
    Ok(sink)
}

// Returns whether the run ends this way.
fn ends<R: Threads + Sync>(
    rt: &R,
    alloc: Global,
    words: &[&str],
    failing: Failing,
    wanted: Ending<'_>,
) -> Result<bool, OutOfMemory> {
    let mut files = files_of(alloc, failing.read)?;
    let mut out = sink(alloc, failing.out)?;
    let mut err = sink(alloc, failing.err)?;
    let outcome = simulate(rt, alloc, words, &mut files, &mut out, &mut err);
    Ok(
        outcome == wanted.outcome
            && outcome.status() == wanted.status
            && out.bytes() == wanted.out
            && err.bytes() == wanted.err,
    )
}

#[test]
fn a_report_is_written(rt: HostRuntime) -> Result<(), Fail> {
    let wanted = Ending {
        outcome: Outcome::Done,
        status: 0,
        out: REPORT,
        err: b"",
    };
    assert!(rt; ends(&rt, rt.alloc(), &["m", "t", "--report", "1"], NONE, wanted)?);
    Ok(())
}

#[test]
fn a_read_that_fails_is_named(rt: HostRuntime) -> Result<(), Fail> {
    let wanted = |second, err| Ending {
        outcome: Outcome::ReadFault { second },
        status: 6,
        out: b"",
        err,
    };
    let model = wanted(false, b"mpsim: cannot read the model\n".as_slice());
    let trace = wanted(true, b"mpsim: cannot read the trace\n".as_slice());
    assert!(rt;
        ends(
            &rt,
            rt.alloc(),
            &["m", "t"],
            Failing { read: 1, ..NONE },
            model
        )?
    );
    assert!(rt;
        ends(
            &rt,
            rt.alloc(),
            &["m", "t"],
            Failing { read: 2, ..NONE },
            trace
        )?
    );
    Ok(())
}

#[test]
fn an_output_that_fails_has_a_first_part(rt: HostRuntime) -> Result<(), Fail> {
    let wanted = |bytes: usize, err| Ending {
        outcome: Outcome::WriteFault,
        status: 7,
        out: REPORT.get(..bytes).unwrap_or(b""),
        err,
    };
    for (put, bytes) in [(1, 0), (2, 16), (3, 32), (14, 208)] {
        let failing = Failing { out: put, ..NONE };
        assert!(rt;
            ends(
                &rt,
                rt.alloc(),
                &["m", "t", "--report", "1"],
                failing,
                wanted(bytes, UNWRITTEN)
            )?
        );
    }
    Ok(())
}

// The call centre of the examples.
const CALLS: &[u8] = b"model 1\n\
    # calls by phone and by web\n\
    bound 1000\n\
    source phone\n\
    source web\n\
    server greet g from phone web\n\
    split menu cut kind 1 from greet\n\
    loss expert 2 e from menu.1\n\
    tandem desk a / 1 b from menu expert.1\n\
    delay wrap =2 from desk expert\n";

const CALLERS: &[u8] = b"source,time,g,kind,e,a,b\n\
    phone,0,1,0,0,3,2\n\
    web,0,1,1,6,1,1\n\
    phone,2,1,1,5,2,1\n\
    web,3,2,0,0,2,4\n\
    phone,4,1,1,4,2,2\n\
    web,4,1,1,3,1,3\n\
    phone,7,1,0,0,1,1\n\
    web,8,1,1,2,2,2\n\
    phone,9,0,0,0,2,1\n\
    web,9,1,1,4,1,2\n";

const CALLS_REPORT: &[u8] = b"mpsim report 1\n\
    jobs 10 span 23\n\
    node phone source in 5 out 5 lost 0 wait 0 max 0 busy 0 area 0 peak 0 util -\n\
    node web source in 5 out 5 lost 0 wait 0 max 0 busy 0 area 0 peak 0 util -\n\
    node greet server in 10 out 10 lost 0 wait 4 max 2 busy 10 area 14 peak 3 util 0.4347\n\
    node menu split in 10 out 10 lost 0 wait 0 max 0 busy 0 area 0 peak 0 util -\n\
    node expert loss in 6 out 3 lost 3 wait 9 max 5 busy 13 area 22 peak 2 util 0.5652\n\
    node desk tandem in 7 out 7 lost 0 wait 30 max 8 busy 27 area 57 peak 6 util 0.5869\n\
    node wrap delay in 10 out 10 lost 0 wait 0 max 0 busy 20 area 20 peak 2 util -\n\
    exit wrap.0 10 sojourn 113\n";

// Returns whether the run of the call centre ends as it should if its output takes 64 bytes per put and fails after this many puts:
// with the bytes of these puts or, if they were enough, with the whole report.
fn ends_behind<R: Threads + Sync>(rt: &R, alloc: Global, puts: usize) -> Result<bool, OutOfMemory>
    requires { puts ≤ 16 }
{
    let mut files = files_with(alloc, CALLS, CALLERS, 0)?;
    let mut out = MemSink::new(alloc, 64, Vec::from_slice(alloc, &[puts as u64 + 1])?);
    out.reserve(1024)?;
    let mut err = sink(alloc, 0)?;
    let words = ["m", "t", "--report", "1"];
    let outcome = simulate(rt, alloc, &words, &mut files, &mut out, &mut err);
    Ok(match CALLS_REPORT.get(..puts * 64) {
        Some(first) => {
            outcome == Outcome::WriteFault && out.bytes() == first && err.bytes() == UNWRITTEN
        }
        None => outcome == Outcome::Done && out.bytes() == CALLS_REPORT && err.bytes().is_empty(),
    })
}

// Returns whether it does after each number of puts from 0 to 10, the number it needs.
fn ends_behind_each<R: Threads + Sync>(rt: &R, alloc: Global) -> Result<bool, OutOfMemory> {
    for puts in 0..11 {
        if !ends_behind(rt, alloc, puts)? {
            return Ok(false);
        }
    }
    Ok(true)
}

#[test]
fn an_output_that_fails_at_any_put_has_a_first_part(rt: HostRuntime) -> Result<(), Fail> {
    assert!(rt; ends_behind_each(&rt, rt.alloc())?);
    Ok(())
}

#[test]
fn an_output_that_fails_among_the_lines_of_jobs_has_a_first_part(
    rt: HostRuntime,
) -> Result<(), Fail> {
    let wanted = Ending {
        outcome: Outcome::WriteFault,
        status: 7,
        out: FIRST_LINES,
        err: UNWRITTEN,
    };
    let failing = Failing { out: 19, ..NONE };
    let words = ["m", "t", "--jobs", "--report", "1"];
    assert!(rt; ends(&rt, rt.alloc(), &words, failing, wanted)?);
    Ok(())
}

#[test]
fn an_error_output_that_fails_changes_no_outcome(rt: HostRuntime) -> Result<(), Fail> {
    let wanted = |outcome, status, err| Ending {
        outcome,
        status,
        out: b"",
        err,
    };
    let failing = Failing { err: 2, ..NONE };
    let usage = wanted(
        Outcome::Usage(UsageFault::Words),
        2,
        b"mpsim: usage: mp".as_slice(),
    );
    let model = wanted(
        Outcome::Model(ModelFault::BadHead { line: 1 }),
        3,
        b"mpsim: model lin".as_slice(),
    );
    assert!(rt; ends(&rt, rt.alloc(), &["m", "t", "u"], failing, usage)?);
    assert!(rt; ends(&rt, rt.alloc(), &["t", "m"], failing, model)?);
    assert!(rt;
        ends(
            &rt,
            rt.alloc(),
            &["m", "t"],
            Failing {
                out: 1,
                err: 1,
                ..NONE
            },
            wanted(Outcome::WriteFault, 7, b"".as_slice())
        )?
    );
    Ok(())
}

const BOUND: &[u8] = b"model 1\nbound 7\nsource src\nserver desk d from src\n";

// Returns how the run of this model over the jobs ends if the put with this number on the error output fails.
fn outcome_of<R: Threads + Sync>(
    rt: &R,
    alloc: Global,
    words: &[&str],
    model: &[u8],
    failing: u64,
) -> Result<Outcome, OutOfMemory> {
    let mut files = files_with(alloc, model, TRACE, 0)?;
    let mut out = sink(alloc, 0)?;
    let mut err = sink(alloc, failing)?;
    Ok(simulate(rt, alloc, words, &mut files, &mut out, &mut err))
}

// Returns whether it ends with this status, and the same way as without a failing put.
fn is_kept<R: Threads + Sync>(
    rt: &R,
    alloc: Global,
    words: &[&str],
    model: &[u8],
    status: u8,
) -> Result<bool, OutOfMemory> {
    let told = outcome_of(rt, alloc, words, model, 0)?;
    let untold = outcome_of(rt, alloc, words, model, 1)?;
    Ok(untold == told && untold.status() == status)
}

#[test]
fn an_error_output_that_takes_nothing_changes_no_status(rt: HostRuntime) -> Result<(), Fail> {
    for (words, model, status) in [
        (["m", "t", "--jobs"].as_slice(), MODEL, 0),
        ([].as_slice(), MODEL, 2),
        (["m", "t", "--workers", "65"].as_slice(), MODEL, 2),
        (["m", "t", "--block", "0"].as_slice(), MODEL, 2),
        (["--made", "x"].as_slice(), MODEL, 2),
        (["m", "t", "--report", "0"].as_slice(), MODEL, 2),
        (["m", "t"].as_slice(), b"model 1\n", 3),
        (["m", "t"].as_slice(), b"model 1\nsource s\nsource s\n", 3),
        (["m", "m"].as_slice(), MODEL, 4),
        (["m", "t"].as_slice(), BOUND, 5),
        (["x", "t"].as_slice(), MODEL, 6),
        (["m", "x"].as_slice(), MODEL, 6),
    ] {
        assert!(rt; is_kept(&rt, rt.alloc(), words, model, status)?);
    }
    Ok(())
}
