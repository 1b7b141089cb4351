// The data records of a piece of a trace.

ghost use Rattle.std.specs.Prelude.{◌≡◌, ◌^◌, ◌<◌, ◌≤◌, length, IfErr, OnOk};
ghost use Rattle.csv.specs.Records.{fields_of};
ghost use Rattle.mq_trace.specs.Pieces.{Reads, piece_data};
ghost use Rattle.mq_trace.specs.Reading.{IsHeaderOf};
ghost use Rattle.mq_trace.specs.Records.{IsBetween, records_left};
ghost use Rattle.mq_trace.specs.Trace.{data_of, text_records};

use crate::fault::TraceFault;
use crate::header::Header;
use crate::plain_rows::read_plain;
use crate::records::{next_record, text_reader};
use crate::rows::{read_rows, room_for};
use csv::{ByteRecord, Reader};
use mq_core::{Network, Rows};
use std::alloc::Global;

// Skips the first record that a reader has left, which is the header.
fn pass_header(alloc: Global, reader: &mut Reader<&[u8]>) -> Result<(), TraceFault>
    requires between { IsBetween reader.old }
    requires some { 1 ≤ length (records_left reader.old) }
    ensures between { OnOk result (IsBetween reader.new) }
    ensures left { OnOk result (records_left reader.new ≡ data_of (records_left reader.old)) }
    ensures memory { IfErr result (λ e. e ≡ TraceFault.Memory) }
{
    if !next_record(reader, &mut ByteRecord::new(alloc))? {
        unreachable!()
    }
    Ok(())
}

// Reads a piece as `read_piece` does, but always by `csv`, which finds the first error.
fn read_by_csv(
    alloc: Global,
    room: usize,
    at: usize,
    piece: &[u8],
    net: &Network,
    header: &Header,
) -> Result<Rows, TraceFault>
    requires header { IsHeaderOf net.now header.now }
    requires nodes { length net.now.nodes < 2 ^ 32 }
    requires first { at ≡ 0 → 1 ≤ length (text_records piece.now) }
    ensures { Reads net.now (fields_of header.now.names) (piece_data at piece.now) result }
{
    let mut reader = text_reader(alloc, piece);
    if at == 0 {
        if let Err(fault) = pass_header(alloc, &mut reader) {
            drop(reader);
            return Err(fault);
        }
    }
    let read = read_rows(alloc, room, &mut reader, net, header);
    drop(reader);
    read
}

/// Reads the data records of a piece, numbered from 1; the first piece begins with the header, which isn't one of
/// them. Unless all records are plain and without an error, they are read by `csv`.
pub fn read_piece(
    alloc: Global,
    at: usize,
    piece: &[u8],
    net: &Network,
    header: &Header,
) -> Result<Rows, TraceFault>
    requires header { IsHeaderOf net.now header.now }
    requires nodes { length net.now.nodes < 2 ^ 32 }
    requires first { at ≡ 0 → 1 ≤ length (text_records piece.now) }
    ensures { Reads net.now (fields_of header.now.names) (piece_data at piece.now) result }
{
    let room = room_for(piece);
    match read_plain(alloc, room, at, piece, net, header)? {
        Some(rows) => Ok(rows),
        None => read_by_csv(alloc, room, at, piece, net, header),
    }
}
