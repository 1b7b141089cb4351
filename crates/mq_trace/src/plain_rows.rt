// Reads the data records of a piece, if all are plain.

ghost use Rattle.std.specs.Prelude.{◌≡◌, ◌^◌, ◌<◌, length, Ok, IfOk, IfSome};
ghost use Rattle.csv.specs.Records.{fields_of};
ghost use Rattle.csv.specs.declared.parser.State.TheVariants as st;
ghost use Rattle.mq_trace.specs.Pieces.{Reads, piece_data};
ghost use Rattle.mq_trace.specs.Reading.{IsHeaderOf};
ghost use Rattle.mq_trace.specs.Records.{records_at};

use crate::growing::GrowingRows;
use crate::header::Header;
use crate::plain::{behind_first, behind_record, plain_row};
use crate::plain_source::PlainSource;
use crate::quotes::unmarked;
use mq_base::OutOfMemory;
use mq_core::{Network, Rows};
use std::alloc::Global;

// The text of the data records of a piece, if the header is plain.
fn data_text(at: usize, piece: &[u8]) -> Option<&[u8]>
    ensures { IfSome result (λ text. piece_data at piece.now ≡ records_at st.StartRecord text.now) }
{
    let text = unmarked(piece);
    if at == 0 {
        behind_first(text)
    } else {
        Some(text)
    }
}

// Reads the records of a text. It isn't inlined, so that its loop has the registers to itself.
#[inline(never)]
fn plain_rows(
    alloc: Global,
    room: usize,
    text: &[u8],
    net: &Network,
    header: &Header,
) -> Result<Option<Rows>, OutOfMemory>
    requires header { IsHeaderOf net.now header.now }
    requires nodes { length net.now.nodes < 2 ^ 32 }
    ensures { IfOk result (λ o. IfSome o (λ rows. Reads net.now (fields_of header.now.names) (records_at st.StartRecord text.now) (Ok rows))) }
{
    let mut rows = GrowingRows::new(alloc, net.columns.as_slice(), room)?;
    let mut values = [0u64; 16];
    let mut rest = text;
    let mut known = [PlainSource { text: b"", node: 0 }; 8];
    let mut count = 0;
    while !rest.is_empty() {
        // An empty line isn't a record.
        if let Some(more) = behind_record(rest) {
            rest = more;
            continue;
        }
        let Some(row) = plain_row(
            rest,
            rows.source.len(),
            &known[..count],
            net,
            header,
            &mut values,
        ) else {
            drop(rows);
            return Ok(None);
        };
        if let Err(fault) = rows.push(
            row.source.node,
            row.time,
            header.indices.as_slice(),
            &values,
        ) {
            drop(rows);
            return Err(fault);
        }
        if row.is_new && count < known.len() {
            known[count] = row.source;
            count += 1;
        }
        rest = row.rest;
    }
    Ok(Some(rows.into_rows()))
}

/// Reads the data records of a piece, which don't include the header of the first piece, if they are plain and without an
/// error. Otherwise returns nothing, and `csv` decides.
pub fn read_plain(
    alloc: Global,
    room: usize,
    at: usize,
    piece: &[u8],
    net: &Network,
    header: &Header,
) -> Result<Option<Rows>, OutOfMemory>
    requires header { IsHeaderOf net.now header.now }
    requires nodes { length net.now.nodes < 2 ^ 32 }
    ensures { IfOk result (λ o. IfSome o (λ rows. Reads net.now (fields_of header.now.names) (piece_data at piece.now) (Ok rows))) }
{
    let Some(text) = data_text(at, piece) else {
        return Ok(None);
    };
    plain_rows(alloc, room, text, net, header)
}
