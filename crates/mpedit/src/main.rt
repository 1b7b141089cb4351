//! The program `mpedit`: it opens the files and the two outputs, and calls the library.
#![tactic(auto)]

use mq_edit::{EditOutcome, edit_trace};
use mq_outside::{HostFiles, HostSink, Sink, put_all};
use std::alloc::{AllocError, Global};
use std::process::ExitCode;
use std::{env, io};

// Returns the words without the program's name. Fails if the system gave none, if one isn't valid UTF-8, or if memory
// runs out.
fn words_of(rt: &HostRuntime) -> io::Result<Vec<String>> {
    let mut words = env::args(rt)?;
    let _program = words.next();
    Ok(words.collect(rt.alloc())?)
}

fn texts_of<'a>(alloc: Global, words: &'a [String]) -> Result<Vec<&'a str>, AllocError> {
    words.iter().map(|word| word.as_str()).collect(alloc)
}

// Reports that memory ran out, and returns the status for it.
fn out_of_memory<E: Sink>(err: &mut E) -> ExitCode {
    let _ = put_all(err, b"mpedit: out of memory\n");
    ExitCode::from(EditOutcome::Memory.status())
}

fn main(rt: HostRuntime) -> ExitCode {
    let mut out = HostSink::new(rt.stdout());
    let mut err = HostSink::new(rt.stderr());
    let words = match words_of(&rt) {
        Ok(words) => words,
        Err(error) if error.kind() == io::ErrorKind::OutOfMemory => {
            return out_of_memory(&mut err);
        }
        Err(_) => {
            let _ = put_all(&mut err, b"mpedit: cannot read the words\n");
            return ExitCode::from(12);
        }
    };
    let Ok(texts) = texts_of(rt.alloc(), &words) else {
        return out_of_memory(&mut err);
    };
    let mut files = HostFiles::new(&rt);
    let outcome = edit_trace(&rt, rt.alloc(), &texts, &mut files, &mut out, &mut err);
    ExitCode::from(outcome.status())
}
