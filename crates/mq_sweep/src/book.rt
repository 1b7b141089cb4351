// The finished scenarios of a sweep.
ghost use Rattle.std.specs.Prelude.{◌≡◌, [], ◌∷◌, ◌++◌, All, OnOk, OnErr};
ghost use Rattle.mq_sweep.specs.Book.{IsEntryOf};

use crate::Entry;
use mq_base::{List, OutOfMemory};
use std::alloc::Global;
use std::marker::Model;

/// The finished scenarios of one trace, in the order in which they were put. Each entry is right for its model and this
/// trace.
#[derive(Drop)]
pub struct Book<'a> {
    trace: &'a [u8],
    entries: List<Entry>,
}

impl<'a> Model for Book<'a> {
    ghost use Rattle.std.specs.Prelude.{All};
    ghost use Rattle.mq_sweep.specs.Book.{BookState, IsEntryOf};

    ghost Value = { BookState };

    ghost view = { λ b. record { trace = b.trace.now; entries = b.entries } };

    ghost invariant = { λ b. All (IsEntryOf b.trace.now) b.entries };
}

impl<'a> Book<'a> {
    /// Returns a book of this trace without entries. It allocates no memory.
    pub fn new(alloc: Global, trace: &'a [u8]) -> Self
        ensures { result ≡ record { trace = trace.now; entries = [] } }
    {
        Book {
            trace,
            entries: List::new(alloc),
        }
    }

    /// Returns the trace.
    pub fn trace(&self) -> &[u8]
        ensures { result.now ≡ self.now.trace }
    {
        self.trace
    }

    /// Returns the entries.
    pub fn entries(&self) -> &List<Entry>
        ensures entries { result.now ≡ self.now.entries }
        ensures right { All (IsEntryOf self.now.trace) self.now.entries }
    {
        &self.entries
    }

    /// Adds an entry that is right for its model and the trace. If memory runs out, the book is unchanged.
    pub fn put(&mut self, entry: Entry) -> Result<(), OutOfMemory>
        requires { IsEntryOf self.old.trace entry }
        ensures ok { OnOk result (self.new ≡ record self.old { entries = self.old.entries ++ entry ∷ [] }) }
        ensures err { OnErr result (self.new ≡ self.old) }
    {
        self.entries.push(entry)?;
        Ok(())
    }
}
