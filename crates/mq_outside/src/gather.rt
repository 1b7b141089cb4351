// Text that is gathered before it goes out, so that many short pieces make few puts.
ghost use Rattle.std.specs.Prelude.{◌≡◌, ◌+◌, ◌≤◌, ◌++◌, [], length, OnOk, OnErr};
ghost use Rattle.mq_outside.specs.Outside.{Adds, Rose, TakesFirst, TakesPrefix};
ghost use Rattle.mq_outside.specs.Pieces.{piece_text, pieces_text};

use crate::{Sink, SinkFault, put_all};
use itoa::Buffer;
use std::marker::Model;

const SIZE: usize = 4096;

/// Bytes on their way to a sink, at most 4,096 of them. Takes no memory other than its own place on the
/// stack.
///
/// A contract sees it as the list of the pending bytes. Call `flush` before you drop it: bytes that are
/// still pending then are lost.
#[derive(Drop)]
pub struct Gather {
    bytes: [u8; SIZE],
    len: usize,
}

impl Model for Gather {
    ghost use Rattle.std.specs.Prelude.{List, ℕ, take, ◌≤◌};

    ghost Value = { List ℕ };

    ghost view = { λ g. take g.len g.bytes };

    ghost invariant = { λ g. g.len ≤ 4096 };
}

impl Gather {
    /// Returns a buffer with nothing pending.
    pub fn new() -> Self
        ensures { result ≡ [] }
    {
        Gather {
            bytes: [0; SIZE],
            len: 0,
        }
    }

    fn room(&self) -> usize
        ensures { result + length self.now ≡ 4096 }
    {
        SIZE - self.len
    }

    fn keep(&mut self, bytes: &[u8])
        requires { length self.old + length bytes.now ≤ 4096 }
        ensures { self.new ≡ self.old ++ bytes.now }
    {
        let end = self.len + bytes.len();
        self.bytes[self.len..end].copy_from_slice(bytes);
        self.len = end;
    }

    fn as_slice(&self) -> &[u8]
        ensures { result.now ≡ self.now }
    {
        &self.bytes[..self.len]
    }

    fn clear(&mut self)
        ensures { self.new ≡ [] }
    {
        self.len = 0;
    }
}

/// A piece of a line.
#[derive(Clone, Copy)]
pub enum Piece<'a> {
    /// These bytes.
    Text(&'a [u8]),
    /// The decimal digits of a number, with no leading zero.
    Number(u128),
}

/// Puts what is pending. Afterwards nothing is pending, even after a fault.
pub fn flush<O: Sink>(out: &mut O, pending: &mut Gather) -> Result<(), SinkFault>
    ensures ok { OnOk result (TakesFirst (O.taken out.old) (O.taken out.new) (O.sure out.old) (O.sure out.new) pending.old (length pending.old)) }
    ensures err { OnErr result (TakesPrefix (O.taken out.old) (O.taken out.new) (O.sure out.old) (O.sure out.new) pending.old) }
    ensures later { O.faults out.old ≤ O.faults out.new }
    ensures rose { OnErr result (Rose (O.faults out.old) (O.faults out.new)) }
    ensures quiet { OnOk result (O.faults out.new ≡ O.faults out.old) }
    ensures sure { length pending.old ≤ O.sure out.old → O.faults out.new ≡ O.faults out.old }
    ensures empty { pending.new ≡ [] }
{
    let put = put_all(out, pending.as_slice());
    pending.clear();
    put
}

/// Appends bytes to those that are pending. If they don't fit, the pending bytes go out first; more than
/// 4,096 new bytes then go out at once.
///
/// After a fault the sink has taken a first part of the pending bytes followed by the new ones, and which
/// bytes are pending is unspecified.
pub fn add_bytes<O: Sink>(out: &mut O, pending: &mut Gather, bytes: &[u8]) -> Result<(), SinkFault>
    ensures { Adds O.taken O.sure O.faults out.old out.new pending.old pending.new result bytes.now }
{
    if bytes.len() > pending.room() {
        flush(out, pending)?;
        if bytes.len() > SIZE {
            return put_all(out, bytes);
        }
    }
    pending.keep(bytes);
    Ok(())
}

fn add_piece<O: Sink>(out: &mut O, pending: &mut Gather, piece: &Piece<'_>) -> Result<(), SinkFault>
    ensures { Adds O.taken O.sure O.faults out.old out.new pending.old pending.new result (piece_text piece.now) }
{
    match piece {
        Piece::Text(bytes) => add_bytes(out, pending, bytes),
        Piece::Number(value) => {
            let mut buffer = Buffer::new();
            add_bytes(out, pending, buffer.format(*value).as_bytes())
        }
    }
}

/// Appends the pieces of a line, in order, to the pending bytes.
///
/// After a fault the sink has taken a first part of the pending bytes followed by the text of the pieces.
pub fn add_pieces<O: Sink>(
    out: &mut O,
    pending: &mut Gather,
    pieces: &[Piece<'_>],
) -> Result<(), SinkFault>
    ensures { Adds O.taken O.sure O.faults out.old out.new pending.old pending.new result (pieces_text pieces.now) }
{
    for piece in pieces {
        add_piece(out, pending, piece)?;
    }
    Ok(())
}
