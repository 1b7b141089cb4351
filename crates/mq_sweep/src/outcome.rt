// How a sweep ends, its exit status, and its error line.
ghost use Rattle.std.specs.Prelude.{◌≡◌};
ghost use Rattle.mq_outcome.specs.Lines.{PutsLine};
ghost use Rattle.mq_sweep.specs.Ends.{sweep_line, sweep_status};

use mq_outcome::put_pieces;
use mq_outside::{Piece, Sink};

/// How a sweep ends.
#[derive(Clone, Copy, PartialEq, Eq)]
pub enum SweepOutcome {
    /// All scenarios were written, and the status of each is 0.
    Done,
    /// All scenarios were written, and the status of one or more isn't 0.
    Refused,
    /// The arguments are invalid.
    Usage,
    /// A file has too many bytes.
    TooLong {
        /// The number of the argument that names it, from 1. The first names the trace.
        word: u32,
    },
    /// A file can't be read.
    ReadFault {
        /// The number of the argument that names it, from 1. The first names the trace.
        word: u32,
    },
    /// The scenarios can't be written. The output has taken a first part of them, perhaps an empty one.
    WriteFault,
    /// Memory ran out before the first byte was written.
    Memory,
}

impl SweepOutcome {
    /// Returns the exit status of the program.
    pub fn status(&self) -> u8
        ensures { result ≡ sweep_status self.now }
    {
        match self {
            SweepOutcome::Done => 0,
            SweepOutcome::Refused => 11,
            SweepOutcome::Usage => 2,
            SweepOutcome::TooLong { .. } => 3,
            SweepOutcome::ReadFault { .. } => 6,
            SweepOutcome::WriteFault => 7,
            SweepOutcome::Memory => 8,
        }
    }
}

/// Writes the line of an outcome, or nothing for `Done` and `Refused`. A failure to write it is ignored.
pub fn put_sweep_line<E: Sink>(err: &mut E, outcome: &SweepOutcome)
    ensures { PutsLine E.taken E.sure E.faults err.old err.new (sweep_line outcome.now) }
{
    match outcome {
        SweepOutcome::Done => put_pieces(err, &[]),
        SweepOutcome::Refused => put_pieces(err, &[]),
        SweepOutcome::Usage => put_pieces(
            err,
            &[Piece::Text(b"mpsweep: usage: mpsweep TRACE MODEL..\n")],
        ),
        SweepOutcome::TooLong { word } => put_pieces(
            err,
            &[
                Piece::Text(b"mpsweep: file "),
                Piece::Number(*word as u128),
                Piece::Text(b" is too long\n"),
            ],
        ),
        SweepOutcome::ReadFault { word } => put_pieces(
            err,
            &[
                Piece::Text(b"mpsweep: cannot read file "),
                Piece::Number(*word as u128),
                Piece::Text(b"\n"),
            ],
        ),
        SweepOutcome::WriteFault => {
            put_pieces(err, &[Piece::Text(b"mpsweep: cannot write the reports\n")])
        }
        SweepOutcome::Memory => put_pieces(err, &[Piece::Text(b"mpsweep: out of memory\n")]),
    }
}
