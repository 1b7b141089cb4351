// Sweeps of files in memory.
ghost use Rattle.std.specs.Prelude.{◌≤◌};

use mq_base::OutOfMemory;
use mq_outside::{MemFile, MemFiles, MemSink};
use mq_sweep::{SweepOpen, SweepOutcome, sweep};
use std::alloc::Global;
use std::sync::Wait;
use std::thread::Threads;

mod cases;
mod devices;
mod gates;

// Three jobs.
const TRACE: &[u8] = b"source,time,d\nsrc,0,4\nsrc,1,1\nsrc,2,3\n";

// A source and a server.
const MODEL: &[u8] = b"model 1\nsource src\nserver desk d from src\n";

// What the model gives as the first scenario.
const FIRST: &[u8] = b"scenario 1 status 0\n\
mpsim report 2\n\
jobs 3 span 8\n\
node src source in 3 out 3 lost 0 held 0 wait 0 max 0 p50 0 p90 0 p99 0 busy 0 area 0 peak 0 util -\n\
node desk server in 3 out 3 lost 0 held 0 wait 6 max 3 p50 3 p90 3 p99 3 busy 8 area 14 peak 3 util 1.0000\n\
exit desk.0 3 sojourn 14\n";

// How a sweep ends, and what the two outputs gained. The output gained these texts, one after the other.
#[derive(Clone, Copy)]
struct Ending<'a> {
    outcome: SweepOutcome,
    status: u8,
    out: &'a [&'a [u8]],
    err: &'a [u8],
}

fn file(alloc: Global, name: &str, bytes: Vec<u8>) -> Result<MemFile, OutOfMemory> {
    Ok(MemFile {
        name: String::from_str(alloc, name)?,
        bytes,
    })
}

// Returns the trace `t`, the model `m`, and a file `x` with these bytes. The read with this number, from 1, fails; with 0 none
// fails.
fn files_with(alloc: Global, bytes: Vec<u8>, failing: u64) -> Result<MemFiles, OutOfMemory> {
    let mut files = Vec::new(alloc);
    files.push(file(alloc, "t", Vec::from_slice(alloc, TRACE)?)?)?;
    files.push(file(alloc, "m", Vec::from_slice(alloc, MODEL)?)?)?;
    files.push(file(alloc, "x", bytes)?)?;
    Ok(MemFiles::new(files, Vec::from_slice(alloc, &[failing])?))
}

// Returns whether the bytes are these texts, one after the other.
fn is_joined(bytes: &[u8], texts: &[&[u8]]) -> bool {
    let mut left = bytes;
    for text in texts {
        match left.strip_prefix(*text) {
            Some(rest) => left = rest,
            None => return false,
        }
    }
    left.is_empty()
}

// Returns whether the sweep with these arguments and this many workers ends this way. Puts on the output take 64 bytes, and the
// one with this number fails.
fn ends<R: Threads + Wait + Sync>(
    rt: &R,
    alloc: Global,
    words: &[&str],
    workers: u32,
    files: &mut MemFiles,
    failing: u64,
    wanted: Ending<'_>,
) -> Result<bool, OutOfMemory>
    requires some { 1 ≤ workers }
    requires most { workers ≤ 64 }
{
    let mut out = MemSink::new(alloc, 64, Vec::from_slice(alloc, &[failing])?);
    let mut err = MemSink::new(alloc, 64, Vec::new(alloc));
    let outcome = sweep(
        rt, alloc, words, workers, files, &mut out, &mut err, &SweepOpen,
    );
    Ok(
        outcome == wanted.outcome
            && outcome.status() == wanted.status
            && is_joined(out.bytes(), wanted.out)
            && err.bytes() == wanted.err,
    )
}
