// Tests that need a failing device or a gate. The other cases are files that the program is given.
use mq_base::OutOfMemory;
use mq_outside::{MemFile, MemFiles};
use std::alloc::Global;

mod devices;
mod gates;

// A source and a server.
const MODEL: &[u8] = b"model 1\nsource src\nserver desk d from src\n";

// The trace of its jobs.
const TRACE: &[u8] = b"source,time,d\nsrc,0,4\nsrc,1,1\nsrc,2,3\n";

// Returns the model `m` and the trace `t` of the server. The read with this number, from 1, fails; with 0
// none fails.
fn files_of(alloc: Global, failing: u64) -> Result<MemFiles, OutOfMemory> {
    files_with(alloc, MODEL, TRACE, failing)
}

// Returns the model `m` and the trace `t` with these contents.
fn files_with(
    alloc: Global,
    model: &[u8],
    trace: &[u8],
    failing: u64,
) -> Result<MemFiles, OutOfMemory> {
    let mut files = Vec::new(alloc);
    files.push(MemFile {
        name: String::from_str(alloc, "m")?,
        bytes: Vec::from_slice(alloc, model)?,
    })?;
    files.push(MemFile {
        name: String::from_str(alloc, "t")?,
        bytes: Vec::from_slice(alloc, trace)?,
    })?;
    Ok(MemFiles::new(files, Vec::from_slice(alloc, &[failing])?))
}
