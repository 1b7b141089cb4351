// Why a text of edits is refused.

use mq_base::OutOfMemory;
use std::alloc::{AllocError, AllocFailed};

/// The first fault of a text of edits, or out of memory. `line` is the number of the line and `word` the number of the
/// word in its line, both from 1.
#[derive(Clone, Copy, PartialEq, Eq)]
pub enum EditFault {
    /// The text has more than 16,777,216 bytes.
    TooLong,
    /// The line begins with neither `set` nor `add`; or this is the first word too many, or the place after the last
    /// word if one is missing.
    BadLine { line: u32, word: u32 },
    /// The line adds a data record to 1,048,576 of them.
    TooManyRows { line: u32 },
    /// The line sets a data record that doesn't exist so far.
    UnknownRow { line: u32 },
    /// The line names no source node.
    UnknownSource { line: u32 },
    /// This is the first word that should be a time or a value in its range and isn't.
    BadNumber { line: u32, word: u32 },
    /// Memory ran out, at any point.
    Memory,
}

impl From<OutOfMemory> for EditFault {
    ghost use Rattle.mq_edits.specs.declared.fault.EditFault.TheVariants.{Memory};
    ghost use Rattle.std.specs.Prelude.{◌≡◌};

    ghost from_gives = { λ _ e. e ≡ Memory };

    fn from(_: OutOfMemory) -> EditFault {
        EditFault::Memory
    }
}

impl From<AllocError> for EditFault {
    ghost use Rattle.mq_edits.specs.declared.fault.EditFault.TheVariants.{Memory};
    ghost use Rattle.std.specs.Prelude.{◌≡◌};

    ghost from_gives = { λ _ e. e ≡ Memory };

    fn from(_: AllocError) -> EditFault {
        EditFault::Memory
    }
}

impl<T: Drop> From<AllocFailed<T>> for EditFault {
    ghost use Rattle.mq_edits.specs.declared.fault.EditFault.TheVariants.{Memory};
    ghost use Rattle.std.specs.Prelude.{◌≡◌};

    ghost from_gives = { λ _ e. e ≡ Memory };

    fn from(_: AllocFailed<T>) -> EditFault {
        EditFault::Memory
    }
}
