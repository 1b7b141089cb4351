// Each read and put that can fail, and files that are too long.
use super::{Ending, FIRST, ends, files_with};
use mq_base::OutOfMemory;
use mq_sweep::SweepOutcome;
use std::alloc::Global;
use std::sync::Wait;
use std::test::Fail;
use std::thread::Threads;

const UNWRITTEN: &[u8] = b"mpsweep: cannot write the reports\n";

// Returns whether the sweep ends at the read of a file, with nothing on its output.
fn is_unread<R: Threads + Wait + Sync>(
    rt: &R,
    alloc: Global,
    words: &[&str],
    failing: u64,
    word: u32,
    line: &[u8],
) -> Result<bool, OutOfMemory> {
    let wanted = Ending {
        outcome: SweepOutcome::ReadFault { word },
        status: 6,
        out: &[],
        err: line,
    };
    let mut files = files_with(alloc, Vec::new(alloc), failing)?;
    ends(rt, alloc, words, 2, &mut files, 0, wanted)
}

// Returns whether it does at each read, and at a name that no file has.
fn are_unread<R: Threads + Wait + Sync>(rt: &R, alloc: Global) -> Result<bool, OutOfMemory> {
    let words = &["t", "m", "m"];
    let absent = &["t", "m", "none"];
    Ok(
        is_unread(rt, alloc, words, 1, 1, b"mpsweep: cannot read file 1\n")?
            && is_unread(rt, alloc, words, 2, 2, b"mpsweep: cannot read file 2\n")?
            && is_unread(rt, alloc, words, 3, 3, b"mpsweep: cannot read file 3\n")?
            && is_unread(rt, alloc, absent, 0, 3, b"mpsweep: cannot read file 3\n")?,
    )
}

#[test]
fn a_read_that_fails_is_named_by_its_word(rt: HostRuntime) -> Result<(), Fail> {
    assert!(rt; are_unread(&rt, rt.alloc())?);
    Ok(())
}

// Returns whether the put with this number fails, after the puts of these bytes.
fn is_unwritten<R: Threads + Wait + Sync>(
    rt: &R,
    alloc: Global,
    put: u64,
    written: &[u8],
) -> Result<bool, OutOfMemory> {
    let wanted = Ending {
        outcome: SweepOutcome::WriteFault,
        status: 7,
        out: &[written],
        err: UNWRITTEN,
    };
    let mut files = files_with(alloc, Vec::new(alloc), 0)?;
    ends(rt, alloc, &["t", "m"], 2, &mut files, put, wanted)
}

// Returns whether each put can fail this way. All but the last take 64 bytes.
fn are_unwritten<R: Threads + Wait + Sync>(rt: &R, alloc: Global) -> Result<bool, OutOfMemory> {
    for put in 0..FIRST.len() / 64 + 1 {
        let Some(written) = FIRST.get(..64 * put) else {
            return Ok(false);
        };
        if !is_unwritten(rt, alloc, put as u64 + 1, written)? {
            return Ok(false);
        }
    }
    Ok(true)
}

#[test]
fn a_put_that_fails_leaves_what_was_put_before(rt: HostRuntime) -> Result<(), Fail> {
    assert!(rt; are_unwritten(&rt, rt.alloc())?);
    Ok(())
}

// Returns whether the file `x` with this many bytes is too long as this argument.
fn is_too_long<R: Threads + Wait + Sync>(
    rt: &R,
    alloc: Global,
    bytes: usize,
    words: &[&str],
    word: u32,
    line: &[u8],
) -> Result<bool, OutOfMemory> {
    let wanted = Ending {
        outcome: SweepOutcome::TooLong { word },
        status: 3,
        out: &[],
        err: line,
    };
    let mut files = files_with(alloc, vec![in alloc; b'#'; bytes]?, 0)?;
    ends(rt, alloc, words, 2, &mut files, 0, wanted)
}

// Returns whether a trace and a model of one byte too many are, the model before the name of an
// absent file.
fn are_too_long<R: Threads + Wait + Sync>(rt: &R, alloc: Global) -> Result<bool, OutOfMemory> {
    let trace = b"mpsweep: file 1 is too long\n";
    let model = b"mpsweep: file 3 is too long\n";
    Ok(
        is_too_long(rt, alloc, 134_217_729, &["x", "m"], 1, trace)?
            && is_too_long(rt, alloc, 65_537, &["t", "m", "x", "none"], 3, model)?,
    )
}

#[test]
fn a_file_that_is_too_long_is_named_by_its_word(rt: HostRuntime) -> Result<(), Fail> {
    assert!(rt; are_too_long(&rt, rt.alloc())?);
    Ok(())
}
