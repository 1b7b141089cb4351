// Traces that are run, edited and reported again, over files and sinks in memory.
use mq_base::OutOfMemory;
use mq_edit::{EditFault, EditOutcome, ModelFault, OverFault, PastFault, TraceFault, edit_trace};
use mq_outside::{MemFile, MemFiles, MemSink};
use std::alloc::Global;
use std::test::Fail;
use std::thread::Threads;

mod library;

const MODEL: &[u8] = b"model 1\nsource src\nserver desk d from src\n";

const TRACE: &[u8] = b"source,time,d\nsrc,0,4\nsrc,1,1\nsrc,2,3\n";

// The report after the edit `add src 3 2`.
const REPORT: &[u8] = b"mpsim report 2\njobs 4 span 10\n\
    node src source in 4 out 4 lost 0 held 0 wait 0 max 0 p50 0 p90 0 p99 0 busy 0 area 0 peak 0 util -\n\
    node desk server in 4 out 4 lost 0 held 0 wait 11 max 5 p50 3 p90 5 p99 5 busy 10 area 21 peak 4 util 1.0000\n\
    exit desk.0 4 sojourn 21\n\
    again 2 of 2 blocks\n";

// A line, and how many times it is repeated.
#[derive(Clone, Copy)]
struct Repeated<'a> {
    line: &'a [u8],
    count: u32,
}

const NO_MORE: Repeated<'static> = Repeated {
    line: b"",
    count: 0,
};

// A call: its words; the texts of the model, the trace and the edits, with lines appended to the last two; and the
// number of the read that fails, from 1, or 0 if none does. Then how it ends: its outcome, its status, and what the two
// outputs gain.
#[derive(Clone, Copy)]
struct Case<'a> {
    words: &'a [&'a str],
    model: &'a [u8],
    trace: &'a [u8],
    more_rows: Repeated<'a>,
    edits: &'a [u8],
    more_edits: Repeated<'a>,
    read: u64,
    outcome: EditOutcome,
    status: u8,
    out: &'a [u8],
    err: &'a [u8],
}

fn text_of(alloc: Global, head: &[u8], more: &Repeated<'_>) -> Result<Vec<u8>, OutOfMemory> {
    let mut text = Vec::from_slice(alloc, head)?;
    for _ in 0..more.count {
        text.extend_from_slice(more.line)?;
    }
    Ok(text)
}

fn push_file(
    alloc: Global,
    files: &mut Vec<MemFile>,
    name: &str,
    head: &[u8],
    more: &Repeated<'_>,
) -> Result<(), OutOfMemory> {
    let name = String::from_str(alloc, name)?;
    let bytes = text_of(alloc, head, more)?;
    files.push(MemFile { name, bytes })?;
    Ok(())
}

// Appends the three files of a call. Returns the number of the read that fails.
fn push_files(
    alloc: Global,
    files: &mut Vec<MemFile>,
    case: &Case<'_>,
) -> Result<Vec<u64>, OutOfMemory> {
    push_file(alloc, files, "m", case.model, &NO_MORE)?;
    push_file(alloc, files, "t", case.trace, &case.more_rows)?;
    push_file(alloc, files, "e", case.edits, &case.more_edits)?;
    Ok(Vec::from_slice(alloc, &[case.read])?)
}

// Whether the call ends as the case says over these files, if the put with this number on the report's sink fails;
// `written` is what that sink then contains. Puts take 16 bytes each, and there is room for all that comes.
fn ends_over<R: Threads + Sync>(
    rt: &R,
    alloc: Global,
    files: &mut MemFiles,
    case: &Case<'_>,
    put: u64,
    written: &[u8],
) -> Result<bool, OutOfMemory> {
    let mut out = MemSink::new(alloc, 16, Vec::from_slice(alloc, &[put])?);
    out.reserve(1024)?;
    let mut err = MemSink::new(alloc, 16, Vec::new(alloc));
    let outcome = edit_trace(rt, alloc, case.words, files, &mut out, &mut err);
    let so = outcome == case.outcome
        && outcome.status() == case.status
        && out.bytes() == written
        && err.bytes() == case.err;
    drop(err);
    drop(out);
    Ok(so)
}

// Whether the call does so over new files.
fn ends<R: Threads + Sync>(
    rt: &R,
    alloc: Global,
    case: &Case<'_>,
    put: u64,
    written: &[u8],
) -> Result<bool, OutOfMemory> {
    let mut files = Vec::new(alloc);
    match push_files(alloc, &mut files, case) {
        Ok(failing) => {
            let mut files = MemFiles::new(files, failing);
            let so = ends_over(rt, alloc, &mut files, case, put, written);
            drop(files);
            so
        }
        Err(fault) => {
            drop(files);
            Err(fault)
        }
    }
}

// Whether each of these calls ends as its case says, if no put fails.
fn all_end<R: Threads + Sync>(
    rt: &R,
    alloc: Global,
    cases: &[Case<'_>],
) -> Result<bool, OutOfMemory> {
    for case in cases {
        if !ends(rt, alloc, case, 0, case.out)? {
            return Ok(false);
        }
    }
    Ok(true)
}

const ADDED: Case<'static> = Case {
    words: &["m", "t", "e"],
    model: MODEL,
    trace: TRACE,
    more_rows: NO_MORE,
    edits: b"add src 3 2\n",
    more_edits: NO_MORE,
    read: 0,
    outcome: EditOutcome::Done,
    status: 0,
    out: REPORT,
    err: b"",
};

// After 64 bytes, the rest of the longest text of edits, which has 16,777,216 bytes.
const SPACES: Repeated<'static> = Repeated {
    line: b"                                                                ",
    count: 262_143,
};

const REPORTED: &[Case<'static>] = &[
    ADDED,
    Case {
        edits: b"add src 3 2                                                     ",
        more_edits: SPACES,
        ..ADDED
    },
];

const UNWRITTEN: Case<'static> = Case {
    outcome: EditOutcome::WriteFault,
    status: 7,
    err: b"mpedit: cannot write the report\n",
    ..ADDED
};

// The number of bytes before each put of the report: 264 before the last line, which has puts of its own.
const BEFORE: &[usize] = &[
    0, 16, 32, 48, 64, 80, 96, 112, 128, 144, 160, 176, 192, 208, 224, 240, 256, 264, 280,
];

// Whether a first part of the report is written if a put fails, for each put.
fn all_puts_fail<R: Threads + Sync>(rt: &R, alloc: Global) -> Result<bool, OutOfMemory> {
    for at in 0..BEFORE.len() {
        let Some(first) = REPORT.get(..BEFORE[at]) else {
            return Ok(false);
        };
        if !ends(rt, alloc, &UNWRITTEN, at as u64 + 1, first)? {
            return Ok(false);
        }
    }
    Ok(true)
}

#[test]
fn an_edited_trace_is_reported(rt: HostRuntime) -> Result<(), Fail> {
    assert!(rt; all_end(&rt, rt.alloc(), REPORTED)?);
    assert!(rt; all_puts_fail(&rt, rt.alloc())?);
    Ok(())
}

// A text of edits that is refused in its first line.
const REFUSED: Case<'static> = Case {
    status: 10,
    out: b"",
    err: b"mpedit: edits line 1: not allowed\n",
    ..ADDED
};

// Five forks in a row make 1,024 jobs from one. So 1,025 rows are too many visits.
const FORKS: &[u8] =
    b"model 2\nsource s\nfork a 4 from s\nfork b 4 from a a.1 a.2 a.3\nfork c 4 from b b.1 b.2 b.3\n\
    fork d 4 from c c.1 c.2 c.3\nfork e 4 from d d.1 d.2 d.3\ndelay w =0 from e e.1 e.2 e.3\n";

const OVER: OverFault = OverFault {
    node: 6,
    count: 1_049_600,
};

// The trace itself has that many rows.
const OVER_BEFORE: Case<'static> = Case {
    model: FORKS,
    trace: b"source,time\n",
    more_rows: Repeated {
        line: b"s,0\n",
        count: 1025,
    },
    edits: b"",
    outcome: EditOutcome::Over {
        edited: false,
        fault: OVER,
    },
    status: 9,
    out: b"",
    err: b"mpedit: node w has 1049600 visits before the edits\n",
    ..ADDED
};

const USAGE: Case<'static> = Case {
    outcome: EditOutcome::Usage,
    status: 2,
    out: b"",
    err: b"mpedit: usage: mpedit MODEL TRACE EDITS\n",
    ..ADDED
};

const FAULTS: &[Case<'static>] = &[
    Case {
        words: &["m", "t"],
        ..USAGE
    },
    Case {
        words: &["m", "t", "-e"],
        ..USAGE
    },
    Case {
        words: &["m", "t", "e", "e"],
        ..USAGE
    },
    // Each of three reads fails.
    Case {
        read: 1,
        outcome: EditOutcome::ReadFault { file: 0 },
        status: 6,
        out: b"",
        err: b"mpedit: cannot read file 1\n",
        ..ADDED
    },
    Case {
        read: 2,
        outcome: EditOutcome::ReadFault { file: 1 },
        status: 6,
        out: b"",
        err: b"mpedit: cannot read file 2\n",
        ..ADDED
    },
    Case {
        read: 3,
        outcome: EditOutcome::ReadFault { file: 2 },
        status: 6,
        out: b"",
        err: b"mpedit: cannot read file 3\n",
        ..ADDED
    },
    // In the model's third line, an input names no node, or there is no input.
    Case {
        model: b"model 1\nsource src\nserver desk d from till\n",
        outcome: EditOutcome::Model(ModelFault::UnknownInput { line: 3, input: 0 }),
        status: 3,
        out: b"",
        err: b"mpedit: model line 3: input 0 unknown\n",
        ..ADDED
    },
    Case {
        model: b"model 1\nsource src\nserver desk d from\n",
        outcome: EditOutcome::Model(ModelFault::BadLine { line: 3, word: 5 }),
        status: 3,
        out: b"",
        err: b"mpedit: model line 3: word 5 not allowed\n",
        ..ADDED
    },
    // The header lacks the model's column, or a field of the second record isn't a number.
    Case {
        trace: b"source,time,e\nsrc,0,4\n",
        outcome: EditOutcome::Trace(TraceFault::MissingColumn { column: 0 }),
        status: 4,
        out: b"",
        err: b"mpedit: trace header: column d missing\n",
        ..ADDED
    },
    Case {
        trace: b"source,time,d\nsrc,0,4\nsrc,1,one\n",
        outcome: EditOutcome::Trace(TraceFault::BadNumber { row: 2, field: 3 }),
        status: 4,
        out: b"",
        err: b"mpedit: trace record 2: field 3 is not a number in range\n",
        ..ADDED
    },
    Case {
        edits: b"\nadd src 3\n",
        outcome: EditOutcome::Edits(EditFault::BadLine { line: 2, word: 4 }),
        err: b"mpedit: edits line 2: not allowed\n",
        ..REFUSED
    },
    Case {
        edits: b"set 4 src 3 2\n",
        outcome: EditOutcome::Edits(EditFault::UnknownRow { line: 1 }),
        ..REFUSED
    },
    Case {
        edits: b"add desk 3 2\n",
        outcome: EditOutcome::Edits(EditFault::UnknownSource { line: 1 }),
        ..REFUSED
    },
    Case {
        edits: b"add src x y\n",
        outcome: EditOutcome::Edits(EditFault::BadNumber { line: 1, word: 3 }),
        ..REFUSED
    },
    Case {
        edits: b"add src 3 2\nset 5 src 3 2\n",
        outcome: EditOutcome::Edits(EditFault::UnknownRow { line: 2 }),
        err: b"mpedit: edits line 2: not allowed\n",
        ..REFUSED
    },
    // One byte more than the longest text.
    Case {
        edits: b"add src 3 2                                                      ",
        more_edits: SPACES,
        outcome: EditOutcome::Edits(EditFault::TooLong),
        err: b"mpedit: edits: too long\n",
        ..REFUSED
    },
    // The desk's last job leaves at 8, and the job that the edit adds at 10.
    Case {
        model: b"model 1\nbound 7\nsource src\nserver desk d from src\n",
        outcome: EditOutcome::Past {
            edited: false,
            fault: PastFault {
                node: 1,
                position: 2,
                time: 8,
            },
        },
        status: 5,
        out: b"",
        err: b"mpedit: node desk position 2 passes the bound at time 8 before the edits\n",
        ..ADDED
    },
    Case {
        model: b"model 1\nbound 9\nsource src\nserver desk d from src\n",
        outcome: EditOutcome::Past {
            edited: true,
            fault: PastFault {
                node: 1,
                position: 3,
                time: 10,
            },
        },
        status: 5,
        out: b"",
        err: b"mpedit: node desk position 3 passes the bound at time 10 after the edits\n",
        ..ADDED
    },
    // The trace has too many rows; or it has one, and the edits add enough to make too many.
    OVER_BEFORE,
    Case {
        more_rows: Repeated {
            line: b"s,0\n",
            count: 1,
        },
        more_edits: Repeated {
            line: b"add s 0\n",
            count: 1024,
        },
        outcome: EditOutcome::Over {
            edited: true,
            fault: OVER,
        },
        err: b"mpedit: node w has 1049600 visits after the edits\n",
        ..OVER_BEFORE
    },
];

#[test]
fn faults_are_told(rt: HostRuntime) -> Result<(), Fail> {
    assert!(rt; all_end(&rt, rt.alloc(), FAULTS)?);
    Ok(())
}
