// Why a trace is invalid.

use mq_base::OutOfMemory;
use std::alloc::{AllocError, AllocFailed};

/// The first error in a trace, or out of memory. A `row` is the number of a data record and a `field`
/// the number of a field in its record, both from 1.
#[derive(Clone, Copy, PartialEq, Eq)]
pub enum TraceFault {
    /// The text has more than 134,217,728 bytes.
    TooLong,
    /// `field` is the first field of the header that isn't `source`, `time` or the name of a new column, of
    /// which there are at most 16. It is 1 if the text begins with two byte order marks or has no header.
    BadHeader { field: u32 },
    /// The header lacks this column of the model, the first that it lacks. Columns count from 0.
    MissingColumn { column: u32 },
    /// There are more than 1,048,576 data records.
    TooManyRows,
    /// The record has more or fewer fields than the header.
    BadCount { row: u32 },
    /// The first field isn't the name of a source node.
    UnknownSource { row: u32 },
    /// This is the first field that should be a number in its range and isn't.
    BadNumber { row: u32, field: u32 },
    /// Memory ran out, at any point.
    Memory,
}

impl From<OutOfMemory> for TraceFault {
    ghost use Rattle.mq_trace.specs.declared.fault.TraceFault.TheVariants.{Memory};
    ghost use Rattle.std.specs.Prelude.{◌≡◌};

    ghost from_gives = { λ _ e. e ≡ Memory };

    fn from(_: OutOfMemory) -> TraceFault {
        TraceFault::Memory
    }
}

impl From<AllocError> for TraceFault {
    ghost use Rattle.mq_trace.specs.declared.fault.TraceFault.TheVariants.{Memory};
    ghost use Rattle.std.specs.Prelude.{◌≡◌};

    ghost from_gives = { λ _ e. e ≡ Memory };

    fn from(_: AllocError) -> TraceFault {
        TraceFault::Memory
    }
}

impl<T: Drop> From<AllocFailed<T>> for TraceFault {
    ghost use Rattle.mq_trace.specs.declared.fault.TraceFault.TheVariants.{Memory};
    ghost use Rattle.std.specs.Prelude.{◌≡◌};

    ghost from_gives = { λ _ e. e ≡ Memory };

    fn from(_: AllocFailed<T>) -> TraceFault {
        TraceFault::Memory
    }
}
