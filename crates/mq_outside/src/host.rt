// The files of the system, and a writer of std. Contracts know only their counts.
ghost use Rattle.std.specs.Prelude.{◌≡◌, ◌<◌, ◌≤◌, ◌++◌, false, length, IfSome, OnOk, IsErrOf};
ghost use Rattle.std.specs.declared.option.Option.TheVariants.{None};
ghost use Rattle.mq_outside.specs.Outside.{GainsFile};
ghost use Rattle.mq_outside.specs.Memory.{Grows};

use crate::{FileFault, Files, Sink, SinkFault};
use std::io::{Error, ErrorKind, Read, Write};
use std::marker::Model;
use std::{fs, rt};

/// The files that the runtime opens. Contracts don't know their contents.
///
/// The counts begin at 0. It is a fault if a file is absent, is a directory or can't be read; running out of memory isn't.
#[derive(Drop)]
pub struct HostFiles<'a, R: rt::Files> {
    rt: &'a R,
    reads: u64,
    faults: u64,
}

impl<'a, R: rt::Files> Model for HostFiles<'a, R> {
    ghost use Rattle.std.specs.Prelude.{◌≤◌};
    ghost use Rattle.mq_outside.specs.Memory.{Counts};

    ghost Value = { Counts };

    ghost view = { λ f. record { reads = f.reads; faults = f.faults } };

    ghost invariant = { λ f. f.faults ≤ f.reads };
}

impl<'a, R: rt::Files> HostFiles<'a, R> {
    /// Returns the files of this runtime, with no read so far.
    pub fn new(rt: &'a R) -> Self
        ensures { result ≡ record { reads = 0; faults = 0 } }
    {
        HostFiles {
            rt,
            reads: 0,
            faults: 0,
        }
    }
}

fn fault_of(error: &Error) -> FileFault
    ensures { result ≡ FileFault.TooLong → ⊥ }
{
    if error.kind() == ErrorKind::OutOfMemory {
        FileFault::Memory
    } else {
        FileFault::Failed
    }
}

// Appends what the reader gives until its end. After an error a part may have been appended.
pub(crate) fn read_to<R: Read>(
    from: &mut R,
    limit: u64,
    into: &mut Vec<u8>,
) -> Result<(), FileFault>
    ensures gains { OnOk result (GainsFile into.old.items into.new.items limit) }
    ensures grows { Grows into.old.items into.new.items }
    ensures whole { OnOk result (IfSome (R.remaining from.old) (λ bytes. into.new.items ≡ into.old.items ++ bytes)) }
    ensures fits { OnOk result (IfSome (R.remaining from.old) (λ bytes. length bytes ≤ limit)) }
    ensures too_long { IsErrOf result FileFault.TooLong → IfSome (R.remaining from.old) (λ bytes. limit < length bytes) }
{
    // One byte more than the limit shows that the file is too long.
    let mut part = from.take(limit.saturating_add(1));
    match part.read_to_end(into) {
        Ok(count) if count as u64 > limit => Err(FileFault::TooLong),
        Ok(_) => Ok(()),
        Err(error) => Err(fault_of(&error)),
    }
}

// Appends what the file holds. After an error a part may have been appended.
fn read_whole<R: rt::Files>(
    rt: &R,
    name: &str,
    limit: u64,
    into: &mut Vec<u8>,
) -> Result<(), FileFault>
    ensures gains { OnOk result (GainsFile into.old.items into.new.items limit) }
    ensures grows { Grows into.old.items into.new.items }
{
    match fs::open(rt, name) {
        Ok(mut file) => read_to(&mut file, limit, into),
        Err(error) => Err(fault_of(&error)),
    }
}

impl<'a, R: rt::Files> Files for HostFiles<'a, R> {
    ghost told = { λ _ _. None };

    ghost is_sure = { λ _ _. false };

    ghost reads = { λ f. f.reads };

    ghost faults = { λ f. f.faults };

    fn read(&mut self, name: &str, limit: u64, into: &mut Vec<u8>) -> Result<(), FileFault> {
        self.reads = self.reads.saturating_add(1);
        let had = into.len();
        match read_whole(self.rt, name, limit, into) {
            Ok(()) => Ok(()),
            Err(fault) => {
                into.truncate(had);
                if fault == FileFault::Failed {
                    self.faults = self.reads;
                }
                Err(fault)
            }
        }
    }
}

/// A writer of std, such as the standard output, whose faults are counted from 0. Contracts don't know what it took.
///
/// An error of the writer is a fault, and so is a write that takes none of at least one byte.
#[derive(Drop)]
pub struct HostSink<W: Write> {
    to: W,
    faults: u64,
}

impl<W: Write> Model for HostSink<W> {
    ghost use Rattle.std.specs.Prelude.{ℕ};

    ghost Value = { ℕ };

    ghost view = { λ s. s.faults };
}

impl<W: Write> HostSink<W> {
    /// Returns a sink that writes to `to`, with no fault so far.
    pub fn new(to: W) -> Self
        ensures { result ≡ 0 }
    {
        HostSink { to, faults: 0 }
    }
}

impl<W: Write> Sink for HostSink<W> {
    ghost taken = { λ _. None };

    ghost faults = { λ faults. faults };

    ghost sure = { λ _. 0 };

    fn put(&mut self, bytes: &[u8]) -> Result<usize, SinkFault> {
        match self.to.write(bytes) {
            Ok(count) if count > 0 || bytes.is_empty() => Ok(count),
            _ => {
                self.faults = self.faults.saturating_add(1);
                Err(SinkFault::Failed)
            }
        }
    }
}
