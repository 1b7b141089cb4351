//! The program `mpsweep`: it makes the files and the two streams, and calls the library.
#![tactic(auto)]

use mq_outside::{HostFiles, HostSink, Sink, put_all};
use mq_sweep::{SweepOpen, SweepOutcome, sweep};
use std::alloc::{AllocError, Global};
use std::process::ExitCode;
use std::{env, io};

// The number of models that are run side by side.
const WORKERS: u32 = 4;

// Returns the arguments without the program's name. The error is that the system gave none, or that memory
// ran out.
fn words_of(rt: &HostRuntime) -> io::Result<Vec<String>> {
    let mut words = env::args(rt)?;
    let _program = words.next();
    Ok(words.collect(rt.alloc())?)
}

fn texts_of<'a>(alloc: Global, words: &'a [String]) -> Result<Vec<&'a str>, AllocError> {
    words.iter().map(|word| word.as_str()).collect(alloc)
}

// Reports that memory ran out, and returns the status for it.
fn out_of_memory<E: Sink>(err: &mut E) -> ExitCode {
    let _ = put_all(err, b"mpsweep: out of memory\n");
    ExitCode::from(SweepOutcome::Memory.status())
}

fn main(rt: HostRuntime) -> ExitCode {
    let mut out = HostSink::new(rt.stdout());
    let mut err = HostSink::new(rt.stderr());
    let words = match words_of(&rt) {
        Ok(words) => words,
        Err(error) if error.kind() == io::ErrorKind::OutOfMemory => {
            return out_of_memory(&mut err);
        }
        Err(_) => {
            let _ = put_all(&mut err, b"mpsweep: cannot read the words\n");
            return ExitCode::from(12);
        }
    };
    let Ok(texts) = texts_of(rt.alloc(), &words) else {
        return out_of_memory(&mut err);
    };
    let mut files = HostFiles::new(&rt);
    let outcome = sweep(
        &rt,
        rt.alloc(),
        &texts,
        WORKERS,
        &mut files,
        &mut out,
        &mut err,
        &SweepOpen,
    );
    ExitCode::from(outcome.status())
}
