// Files and a sink in memory. Contracts know all that they hold, and they fail when they are set to.
ghost use Rattle.std.specs.Prelude.{◌≡◌, ◌⊎◌, ℕ, ◌+◌, ◌<◌, ◌≤◌, ◌↔◌, List, [], true, ◌++◌, length, take, Contains, None, IsErr, is_ok, if◌then◌else◌, IfOk, OnOk, OnErr, IfSome, IsErrOf};
ghost use Rattle.std.specs.declared.option.Option.TheVariants.{Some};
ghost use Rattle.std.specs.Option.{option_copied};
ghost use Rattle.mq_outside.specs.Outside.{next_count, Rose, GainsFile};
ghost use Rattle.mq_outside.specs.Memory.{file_of, sure_name, sure_bytes};

use crate::{FileFault, Files, Sink, SinkFault};
use mq_base::OutOfMemory;
use std::alloc::Global;
use std::marker::Model;

/// A file in memory.
#[derive(Drop)]
pub struct MemFile {
    /// The name by which a read finds the file.
    pub name: String,
    /// All that the file holds.
    pub bytes: Vec<u8>,
}

impl Model for MemFile {
    ghost use Rattle.std.specs.Prelude.{List, ℕ};
    ghost use Rattle.std.specs.String.{string_bytes};

    ghost Value = { List ℕ × List ℕ };

    ghost view = { λ f. (string_bytes f.name, f.bytes.items) };
}

/// Files in memory. If several have one name, the first of them is read.
///
/// A read returns `Failed` exactly if its number, from 1, is among `failing`, or no file has the name.
#[derive(Drop)]
pub struct MemFiles {
    files: Vec<MemFile>,
    failing: Vec<u64>,
    reads: u64,
    faults: u64,
}

impl Model for MemFiles {
    ghost use Rattle.std.specs.Prelude.{◌≤◌};
    ghost use Rattle.mq_outside.specs.Memory.{FilesState};

    ghost Value = { FilesState };

    ghost view = { λ f. record { files = f.files.items; failing = f.failing.items; reads = f.reads; faults = f.faults } };

    ghost invariant = { λ f. f.faults ≤ f.reads };
}

impl MemFiles {
    /// Returns these files, with no read so far. Takes no memory.
    pub fn new(files: Vec<MemFile>, failing: Vec<u64>) -> Self
        ensures { result ≡ record { files = files.items; failing = failing.items; reads = 0; faults = 0 } }
    {
        MemFiles {
            files,
            failing,
            reads: 0,
            faults: 0,
        }
    }
}

fn find<'a>(files: &'a [MemFile], name: &[u8]) -> Option<&'a [u8]>
    ensures { option_copied result ≡ file_of name.now files.now }
{
    for file in files {
        if file.name.as_bytes() == name {
            return Some(file.bytes.as_slice());
        }
    }
    None
}

fn append(bytes: &[u8], limit: u64, into: &mut Vec<u8>) -> Result<(), FileFault>
    ensures ok { OnOk result (into.new.items ≡ into.old.items ++ bytes.now) }
    ensures within { OnOk result (length bytes.now ≤ limit) }
    ensures too_long { IsErrOf result FileFault.TooLong → limit < length bytes.now }
    ensures err { OnErr result (into.new.items ≡ into.old.items) }
    ensures not_failed { IsErrOf result FileFault.Failed → ⊥ }
{
    if bytes.len() as u64 > limit {
        return Err(FileFault::TooLong);
    }
    match into.extend_from_slice(bytes) {
        Ok(()) => Ok(()),
        Err(_) => Err(FileFault::Memory),
    }
}

impl Files for MemFiles {
    ghost told = { λ f name. file_of name f.files };

    ghost is_sure = { sure_name };

    ghost reads = { λ f. f.reads };

    ghost faults = { λ f. f.faults };

    fn read(&mut self, name: &str, limit: u64, into: &mut Vec<u8>) -> Result<(), FileFault>
        ensures counted { self.new.reads ≡ next_count self.old.reads }
        ensures later { self.old.faults ≤ self.new.faults }
        ensures failed { IsErrOf result FileFault.Failed → self.new.faults ≡ self.new.reads }
        ensures rose { IsErrOf result FileFault.Failed → Rose self.old.faults self.new.faults }
        ensures quiet { IsErrOf result FileFault.Failed ⊎ (self.new.faults ≡ self.old.faults) }
        ensures sure { sure_name self.old name.now ≡ true → self.new.faults ≡ self.old.faults }

        ensures gains { OnOk result (GainsFile into.old.items into.new.items limit) }
        ensures whole { OnOk result (IfSome (file_of name.now self.old.files) (λ bytes. into.new.items ≡ into.old.items ++ bytes)) }
        ensures fits { OnOk result (IfSome (file_of name.now self.old.files) (λ bytes. length bytes ≤ limit)) }
        ensures too_long { IsErrOf result FileFault.TooLong → IfSome (file_of name.now self.old.files) (λ bytes. limit < length bytes) }
        ensures err { OnErr result (into.new.items ≡ into.old.items) }

        ensures same_told { (n : List ℕ) → file_of n self.new.files ≡ file_of n self.old.files }
        ensures same_sure { (n : List ℕ) → sure_name self.new n ≡ sure_name self.old n }

        // A read fails in these cases and in no others.
        ensures exact { IsErrOf result FileFault.Failed ↔ (Contains self.old.failing (next_count self.old.reads) ⊎ (file_of name.now self.old.files ≡ None)) }
        ensures same_files { self.new.files ≡ self.old.files }
        ensures same_failing { self.new.failing ≡ self.old.failing }
    {
        self.reads = self.reads.saturating_add(1);
        if self.failing.contains(&self.reads) {
            self.faults = self.reads;
            return Err(FileFault::Failed);
        }
        match find(&self.files, name.as_bytes()) {
            Some(bytes) => append(bytes, limit, into),
            None => {
                self.faults = self.reads;
                Err(FileFault::Failed)
            }
        }
    }
}

/// A sink in memory, which keeps all that it took.
///
/// A put takes at most `most` bytes. It fails if its number, from 1, is among `failing`. Any other put fails only if
/// it isn't empty, no spare byte is left and memory runs out.
#[derive(Drop)]
pub struct MemSink {
    bytes: Vec<u8>,
    most: usize,
    failing: Vec<u64>,
    puts: u64,
    faults: u64,
}

impl Model for MemSink {
    ghost use Rattle.std.specs.Prelude.{◌-◌, ◌≤◌, vec_len, vec_capacity};
    ghost use Rattle.mq_outside.specs.Memory.{SinkState};

    ghost Value = { SinkState };

    ghost view = { λ s. record { taken = s.bytes.items; spare = vec_capacity s.bytes - vec_len s.bytes; most = s.most; failing = s.failing.items; puts = s.puts; faults = s.faults } };

    ghost invariant = { λ s. 1 ≤ s.most };
}

impl MemSink {
    /// Returns an empty sink, with no put so far. Takes no memory.
    pub fn new(alloc: Global, most: usize, failing: Vec<u64>) -> Self
        requires { 1 ≤ most }
        ensures taken { result.taken ≡ [] }
        ensures most { result.most ≡ most }
        ensures failing { result.failing ≡ failing.items }
        ensures puts { result.puts ≡ 0 }
        ensures faults { result.faults ≡ 0 }
    {
        MemSink {
            bytes: Vec::new(alloc),
            most,
            failing,
            puts: 0,
            faults: 0,
        }
    }

    /// Makes room for `room` further bytes, so that puts of up to that many take no memory. It doesn't count as a
    /// put.
    pub fn reserve(&mut self, room: usize) -> Result<(), OutOfMemory>
        ensures room { OnOk result (room ≤ self.new.spare) }
        ensures rest { self.new ≡ record self.old { spare = self.new.spare } }
        ensures err { OnErr result (self.new ≡ self.old) }
    {
        self.bytes.reserve(room)?;
        Ok(())
    }

    /// Returns all bytes that were taken.
    pub fn bytes(&self) -> &[u8]
        ensures { result.now ≡ self.now.taken }
    {
        self.bytes.as_slice()
    }

    /// Returns how many puts failed. The count stops at 2^64 - 1.
    pub fn faults(&self) -> u64
        ensures { result ≡ self.now.faults }
    {
        self.faults
    }
}

impl Sink for MemSink {
    ghost taken = { λ s. Some s.taken };

    ghost faults = { λ s. s.faults };

    ghost sure = { sure_bytes };

    fn put(&mut self, bytes: &[u8]) -> Result<usize, SinkFault>
        ensures at_most { IfOk result (λ n. n ≤ length bytes.now) }
        ensures some { IfOk result (λ n. 0 < length bytes.now → 0 < n) }
        ensures taken { IfOk result (λ n. self.new.taken ≡ self.old.taken ++ take n bytes.now) }
        ensures spent { IfOk result (λ n. sure_bytes self.old ≤ sure_bytes self.new + n) }

        ensures untouched { OnErr result (self.new.taken ≡ self.old.taken) }
        ensures unspent { OnErr result (sure_bytes self.old ≤ sure_bytes self.new) }

        ensures later { self.old.faults ≤ self.new.faults }
        ensures rose { OnErr result (Rose self.old.faults self.new.faults) }
        ensures quiet { OnOk result (self.new.faults ≡ self.old.faults) }
        ensures sure { 1 ≤ sure_bytes self.old → self.new.faults ≡ self.old.faults }

        // A put with such a number fails and, while a spare byte is left, no other does.
        ensures fails { Contains self.old.failing (next_count self.old.puts) → IsErr result }
        ensures exact { OnErr result (Contains self.old.failing (next_count self.old.puts) ⊎ ((self.old.spare ≡ 0) × (0 < length bytes.now))) }

        ensures within_most { IfOk result (λ n. n ≤ self.old.most) }
        ensures room { IfOk result (λ n. self.old.spare ≤ self.new.spare + n) }
        ensures kept { OnErr result (self.old.spare ≤ self.new.spare) }
        ensures faults { self.new.faults ≡ (if is_ok result then self.old.faults else next_count self.old.faults) }
        ensures puts { self.new.puts ≡ next_count self.old.puts }
        ensures same { (self.new.most ≡ self.old.most) × (self.new.failing ≡ self.old.failing) }
    {
        self.puts = self.puts.saturating_add(1);
        let wanted = bytes.len().min(self.most);
        let spare = self.bytes.capacity() - self.bytes.len();
        let count = if spare == 0 {
            wanted
        } else {
            wanted.min(spare)
        };
        if self.failing.contains(&self.puts)
            || self.bytes.extend_from_slice(&bytes[..count]).is_err()
        {
            self.faults = self.faults.saturating_add(1);
            return Err(SinkFault::Failed);
        }
        Ok(count)
    }
}
