// The text of the records.
ghost use Rattle.std.specs.Prelude.{◌≡◌, ◌+◌, ◌≤◌, ◌∷◌, ◌++◌, [], IfOk, OnOk, decimal};
ghost use Rattle.mq_gen.specs.Made.{fields_of, next_record, record_text, records_from, trace_text};

use crate::draws::draw;
use itoa::Buffer;
use mq_base::{List, OutOfMemory};
use rand_pcg::Lcg64Xsh32;
use std::alloc::Global;

// Adds a number and the byte that ends its field.
fn push_field(text: &mut Vec<u8>, number: u32, end: u8) -> Result<(), OutOfMemory>
    ensures { OnOk result (text.new.items ≡ text.old.items ++ decimal number ++ end ∷ []) }
{
    text.extend_from_slice(Buffer::new().format(number).as_bytes())?;
    text.push(end)?;
    Ok(())
}

// Draws the next record after a time, adds it, and returns its time.
fn push_record(
    text: &mut Vec<u8>,
    generator: &mut Lcg64Xsh32,
    last: u32,
) -> Result<u32, OutOfMemory>
    requires { last ≤ 480000 }
    ensures text { OnOk result (text.new.items ≡ text.old.items ++ record_text (fields_of (next_record last generator.old).0)) }
    ensures moved { OnOk result (generator.new ≡ (next_record last generator.old).1) }
    ensures time { IfOk result (λ time. time ≡ (next_record last generator.old).0.time) }
    ensures near { IfOk result (λ time. time ≤ last + 11) }
{
    let time = last + draw(generator, 12);
    let source = draw(generator, 2);
    let a = draw(generator, 10);
    let b = draw(generator, 6);
    text.push(b's')?;
    push_field(text, source, b',')?;
    push_field(text, time, b',')?;
    push_field(text, a, b',')?;
    push_field(text, b, b'\n')?;
    Ok(time)
}

/// Returns the text of the 20,000 to 40,000 records that the generator draws, after
/// their header.
pub(crate) fn made_records(
    alloc: Global,
    generator: &mut Lcg64Xsh32,
) -> Result<List<u8>, OutOfMemory>
    ensures { IfOk result (λ text. text ≡ trace_text (records_from generator.old)) }
{
    let count = draw(generator, 20_001) + 20_000;
    let mut text = Vec::from_slice(alloc, b"source,time,a,b\n")?;
    let mut last = 0u32;
    for _ in 0..count {
        last = push_record(&mut text, generator, last)?;
    }
    Ok(List::from_vec(text))
}
