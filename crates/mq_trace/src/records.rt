// The records of a text, one after another.

ghost use Rattle.std.specs.Prelude.{◌≡◌, IfErr, IfOk, true};
ghost use Rattle.csv.specs.Records.{fields_of};
ghost use Rattle.csv.specs.Reading.{default_config, has_failed, records, strip_bom};
ghost use Rattle.mq_trace.specs.Records.{IsBetween, Takes, records_left};

use crate::fault::TraceFault;
use csv::{ByteRecord, Reader, ReaderBuilder};
use std::alloc::Global;

/// Returns a reader at the start of a text. The header is a record like any other, and lengths may differ.
pub fn text_reader(alloc: Global, text: &[u8]) -> Reader<&[u8]>
    ensures between { IsBetween result }
    ensures all { records_left result ≡ records default_config (strip_bom text.now) }
{
    ReaderBuilder::new()
        .has_headers(false)
        .flexible(true)
        .from_reader(alloc, text)
}

/// Reads the next record, if there is one. A record of another length isn't an error, and bytes in memory can
/// always be read, so the only error is that memory runs out. The reader has then failed, and returns no more
/// records.
pub fn next_record(reader: &mut Reader<&[u8]>, row: &mut ByteRecord) -> Result<bool, TraceFault>
    requires { IsBetween reader.old }
    ensures found { IfOk result (λ found. Takes reader.old reader.new found (fields_of row.new)) }
    ensures memory { IfErr result (λ e. e ≡ TraceFault.Memory) }
    ensures failed { IfErr result (λ _. has_failed reader.new ≡ true) }
{
    let Ok(found) = reader.read_byte_record(row) else {
        return Err(TraceFault::Memory);
    };
    Ok(found)
}
