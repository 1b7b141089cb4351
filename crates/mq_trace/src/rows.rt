// Reads the data records that a reader has left, as rows.

ghost use Rattle.std.specs.Prelude.{◌^◌, ◌<◌, [], length, IfErr, OnOk};
ghost use Rattle.csv.specs.Records.{fields_of};
ghost use Rattle.mq_trace.specs.Pieces.{Reads};
ghost use Rattle.mq_trace.specs.Reading.{IsHeaderOf, RowsSoFar};
ghost use Rattle.mq_trace.specs.Records.{IsBetween, records_left};
ghost use Rattle.mq_trace.specs.Trace.{Tells, rows_fault};

use crate::fault::TraceFault;
use crate::growing::GrowingRows;
use crate::header::Header;
use crate::records::next_record;
use crate::row::read_row;
use csv::{ByteRecord, Reader};
use mq_core::{Network, Rows};
use std::alloc::Global;

/// The most data records that a trace may have.
pub const MOST_ROWS: u32 = 1_048_576;

// A record has room for this many bytes at first, so that the reader usually takes a record in one step.
const RECORD_ROOM: usize = 1024;

// Line feeds are counted in this many bytes in the middle of a text, to estimate its number of rows.
const SAMPLE_BYTES: usize = 4096;

/// Returns the number of rows to make room for before a text is read: as many as it has if its lines are as long as
/// those in its middle, and a sixteenth more, at most `MOST_ROWS`. If a text has more rows, the lists grow.
pub fn room_for(text: &[u8]) -> usize {
    let size = text.len().min(SAMPLE_BYTES);
    let from = (text.len() - size) / 2;
    let sample = &text[from..from + size];
    let feeds = sample.iter().filter(|byte| **byte == b'\n').count();
    let rows = (text.len() / SAMPLE_BYTES + 1).saturating_mul(feeds + 1);
    rows.saturating_add(rows / 16).min(MOST_ROWS as usize)
}

// Adds the data records that are left to empty rows. The last turn of the loop is for the record that is one too many.
fn take_rows(
    reader: &mut Reader<&[u8]>,
    net: &Network,
    header: &Header,
    row: &mut ByteRecord,
    rows: &mut GrowingRows,
) -> Result<(), TraceFault>
    requires between { IsBetween reader.old }
    requires header { IsHeaderOf net.now header.now }
    requires nodes { length net.now.nodes < 2 ^ 32 }
    requires none { RowsSoFar net.now (fields_of header.now.names) [] rows.old.source rows.old.time rows.old.demands.items }
    ensures rows { OnOk result (RowsSoFar net.now (fields_of header.now.names) (records_left reader.old) rows.new.source rows.new.time rows.new.demands.items) }
    ensures fault { IfErr result (λ e. Tells e (rows_fault net.now (fields_of header.now.names) 1 (records_left reader.old))) }
{
    let mut values = [0u64; 16];
    for number in 1..1_048_578u32 {
        if !next_record(reader, row)? {
            return Ok(());
        }
        let (node, at) = read_row(row, number, net, header, &mut values)?;
        rows.push(node, at, header.indices.as_slice(), &values)?;
    }
    unreachable!()
}

/// Reads the data records that are left.
pub fn read_rows(
    alloc: Global,
    room: usize,
    reader: &mut Reader<&[u8]>,
    net: &Network,
    header: &Header,
) -> Result<Rows, TraceFault>
    requires between { IsBetween reader.old }
    requires header { IsHeaderOf net.now header.now }
    requires nodes { length net.now.nodes < 2 ^ 32 }
    ensures { Reads net.now (fields_of header.now.names) (records_left reader.old) result }
{
    let mut rows = GrowingRows::new(alloc, net.columns.as_slice(), room)?;
    let Ok(mut row) = ByteRecord::with_capacity(alloc, RECORD_ROOM, 18) else {
        drop(rows);
        return Err(TraceFault::Memory);
    };
    let taken = take_rows(reader, net, header, &mut row, &mut rows);
    drop(row);
    match taken {
        Ok(()) => Ok(rows.into_rows()),
        Err(fault) => {
            drop(rows);
            Err(fault)
        }
    }
}
