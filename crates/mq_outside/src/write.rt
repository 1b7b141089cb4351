// Bytes and numbers, put as a whole.
ghost use Rattle.std.specs.Prelude.{◌≡◌, ◌≤◌, length, OnOk, OnErr, decimal};
ghost use Rattle.mq_outside.specs.Outside.{Rose, TakesFirst, TakesPrefix};

use crate::{Sink, SinkFault};
use itoa::Buffer;

/// Puts all the bytes, in as many puts as that takes. Takes no memory of its own.
///
/// Returns `Failed` exactly if one of the puts failed; the sink has then taken a first part of the bytes.
pub fn put_all<O: Sink>(out: &mut O, bytes: &[u8]) -> Result<(), SinkFault>
    ensures ok { OnOk result (TakesFirst (O.taken out.old) (O.taken out.new) (O.sure out.old) (O.sure out.new) bytes.now (length bytes.now)) }
    ensures err { OnErr result (TakesPrefix (O.taken out.old) (O.taken out.new) (O.sure out.old) (O.sure out.new) bytes.now) }
    ensures later { O.faults out.old ≤ O.faults out.new }
    ensures rose { OnErr result (Rose (O.faults out.old) (O.faults out.new)) }
    ensures quiet { OnOk result (O.faults out.new ≡ O.faults out.old) }
    ensures sure { length bytes.now ≤ O.sure out.old → O.faults out.new ≡ O.faults out.old }
{
    let mut rest = bytes;
    while !rest.is_empty() {
        let count = out.put(rest)?;
        rest = &rest[count..];
    }
    Ok(())
}

/// Puts the decimal digits of a number, with no leading zero, in as many puts as that takes. Takes no memory of its
/// own.
///
/// Returns `Failed` exactly if one of the puts failed; the sink has then taken a first part of the digits.
pub fn put_number<O: Sink>(out: &mut O, value: u128) -> Result<(), SinkFault>
    ensures ok { OnOk result (TakesFirst (O.taken out.old) (O.taken out.new) (O.sure out.old) (O.sure out.new) (decimal value) (length (decimal value))) }
    ensures err { OnErr result (TakesPrefix (O.taken out.old) (O.taken out.new) (O.sure out.old) (O.sure out.new) (decimal value)) }
    ensures later { O.faults out.old ≤ O.faults out.new }
    ensures rose { OnErr result (Rose (O.faults out.old) (O.faults out.new)) }
    ensures quiet { OnOk result (O.faults out.new ≡ O.faults out.old) }
    ensures sure { length (decimal value) ≤ O.sure out.old → O.faults out.new ≡ O.faults out.old }
{
    let mut buffer = Buffer::new();
    put_all(out, buffer.format(value).as_bytes())
}
