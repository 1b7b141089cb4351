// Reads a trace.

ghost use Rattle.std.specs.Prelude.{◌≡◌, ◌^◌, ◌<◌, ◌≤◌, ◌∷◌, [], List, length, map, IfErr, IfNone, IfOk, IfSome, Some};
ghost use Rattle.std.specs.Bool.{MatchBool};
ghost use Rattle.csv.specs.Records.{fields_of};
ghost use Rattle.mq_core.specs.declared.model.Network.{Network};
ghost use Rattle.mq_core.specs.Theorems.{IsReadFor};
ghost use Rattle.mq_trace.specs.Pieces.{ArePieces, AreReadApart};
ghost use Rattle.mq_trace.specs.Records.{Record};
ghost use Rattle.mq_trace.specs.Trace.{Answers, Tells, records_fault, rows_in, text_records, trace_fault};

use crate::each::read_each;
use crate::fault::TraceFault;
use crate::header::read_header;
use crate::join::join_rows;
use crate::piece::read_piece;
use crate::pieces::pieces_of;
use crate::records::{next_record, text_reader};
use csv::ByteRecord;
use mq_base::List;
use mq_core::{Network, Rows};
use mq_crew::{Crew, Open};
use std::alloc::Global;
use std::thread::Threads;

// A text is cut into pieces of at least this many bytes on average.
const PIECE_BYTES: usize = 65_536;

// The most pieces per worker: several, so that none waits long for another.
const PIECES_EACH: u32 = 4;

// Reads the first record of a text, if it has one.
fn first_record(alloc: Global, text: &[u8], row: &mut ByteRecord) -> Result<bool, TraceFault>
    ensures found { IfOk result (λ found. MatchBool found ((more : List Record) × (text_records text.now ≡ fields_of row.new ∷ more)) (text_records text.now ≡ [])) }
    ensures memory { IfErr result (λ e. e ≡ TraceFault.Memory) }
{
    let mut reader = text_reader(alloc, text);
    next_record(&mut reader, row)
}

// Reads a text whose first record is the header.
fn read_whole(alloc: Global, text: &[u8], net: &Network) -> Result<Rows, TraceFault>
    requires nodes { length net.now.nodes < 2 ^ 32 }
    requires columns { length net.now.columns ≤ 16 }
    ensures { Answers result (records_fault net.now (text_records text.now)) (rows_in net.now text.now) }
{
    let mut names = ByteRecord::new(alloc);
    match first_record(alloc, text, &mut names) {
        Ok(true) => {
            let header = read_header(alloc, names, net)?;
            let read = read_piece(alloc, 0, text, net, &header);
            drop(header);
            read
        }
        Ok(false) => {
            drop(names);
            Err(TraceFault::BadHeader { field: 1 })
        }
        Err(fault) => {
            drop(names);
            Err(fault)
        }
    }
}

// What is read from each piece of a text; nothing if the first piece has no record, since the header is then in a later one.
fn read_apart<R: Threads + Sync>(
    crew: &Crew<R, Open>,
    text: &[u8],
    pieces: &[&[u8]],
    net: &Network,
) -> Result<Option<List<Result<Rows, TraceFault>>>, TraceFault>
    requires some { 1 ≤ length pieces.now }
    requires few { length pieces.now < 2 ^ 32 }
    requires pieces { ArePieces text.now (map (λ s. s.now) pieces.now) }
    requires nodes { length net.now.nodes < 2 ^ 32 }
    requires columns { length net.now.columns ≤ 16 }
    ensures read { IfOk result (λ found. IfSome found (λ read. AreReadApart net.now text.now read)) }
    ensures fault { IfErr result (λ e. Tells e (records_fault net.now (text_records text.now))) }
{
    let mut names = ByteRecord::new(crew.alloc);
    match first_record(crew.alloc, pieces[0], &mut names) {
        Ok(true) => {
            let header = read_header(crew.alloc, names, net)?;
            let read = read_each(crew, pieces, net, &header)?;
            drop(header);
            Ok(Some(read))
        }
        Ok(false) => {
            drop(names);
            Ok(None)
        }
        Err(fault) => {
            drop(names);
            Err(fault)
        }
    }
}

// What is read from each piece, if a text is cut into `count` pieces; nothing if it isn't cut.
fn read_pieces<R: Threads + Sync>(
    crew: &Crew<R, Open>,
    count: u32,
    text: &[u8],
    net: &Network,
) -> Result<Option<List<Result<Rows, TraceFault>>>, TraceFault>
    requires nodes { length net.now.nodes < 2 ^ 32 }
    requires columns { length net.now.columns ≤ 16 }
    ensures read { IfOk result (λ found. IfSome found (λ read. AreReadApart net.now text.now read)) }
    ensures fault { IfErr result (λ e. Tells e (records_fault net.now (text_records text.now))) }
{
    if count > 1 {
        let pieces = pieces_of(crew, text, count)?;
        return read_apart(crew, text, &pieces, net);
    }
    Ok(None)
}

// Reads a text by `workers` workers, cut into `count` pieces.
fn read_text<R: Threads + Sync>(
    crew: &Crew<R, Open>,
    count: u32,
    text: &[u8],
    net: &Network,
) -> Result<Rows, TraceFault>
    requires nodes { length net.now.nodes < 2 ^ 32 }
    requires columns { length net.now.columns ≤ 16 }
    ensures { Answers result (records_fault net.now (text_records text.now)) (rows_in net.now text.now) }
{
    match read_pieces(crew, count, text, net)? {
        Some(read) => join_rows(crew, read.as_slice(), net),
        None => read_whole(crew.alloc, text, net),
    }
}

// Reads a text that it owns. If the text is cut, it is freed before the rows of its pieces are joined.
fn take_text<R: Threads + Sync>(
    crew: &Crew<R, Open>,
    count: u32,
    text: Vec<u8>,
    net: &Network,
) -> Result<Rows, TraceFault>
    requires nodes { length net.now.nodes < 2 ^ 32 }
    requires columns { length net.now.columns ≤ 16 }
    ensures { Answers result (records_fault net.now (text_records text.items)) (rows_in net.now text.items) }
{
    match read_pieces(crew, count, &text, net)? {
        Some(read) => {
            drop(text);
            join_rows(crew, read.as_slice(), net)
        }
        None => read_whole(crew.alloc, &text, net),
    }
}

// The number of pieces that a text is cut into. One worker reads it whole.
fn pieces_for(workers: u32, len: usize) -> u32 {
    if workers == 1 {
        return 1;
    }
    let most = workers.saturating_mul(PIECES_EACH);
    (len / PIECE_BYTES).min(most as usize) as u32
}

// The error that a text has whatever its records are: its length, or two byte order marks.
fn fault_before(text: &[u8]) -> Option<TraceFault>
    ensures some { IfSome result (λ fault. (net : Network) → trace_fault net text.now ≡ Some fault) }
    ensures none { IfNone result ((net : Network) → trace_fault net text.now ≡ records_fault net (text_records text.now)) }
{
    if text.len() > 134_217_728 {
        return Some(TraceFault::TooLong);
    }
    if text.starts_with(b"\xEF\xBB\xBF\xEF\xBB\xBF") {
        return Some(TraceFault::BadHeader { field: 1 });
    }
    None
}

/// Reads a trace for the network of a plan. The row of job j is data record j + 1, in the order of the text.
///
/// After at most one byte order mark, the text consists of comma-separated records, as `csv` reads them. The first is the
/// header: `source`, `time` and up to 16 columns with distinct names. Each other record has as many fields: the name
/// of a source node, a time of at most 2^60 ticks and, in each column that the model names, a number of at most 2^36.
/// The fields of other columns aren't read.
///
/// Unless memory runs out, an error is the first one in the text: its length, the first invalid field of the header,
/// the first column of the model that the header lacks, or the first invalid record.
///
/// The text is read by 1 to 64 workers, in pieces if it is long and there are several workers. The result is the same.
pub fn read_trace<R: Threads + Sync>(
    rt: &R,
    alloc: Global,
    workers: u32,
    bytes: &[u8],
    net: &Network,
) -> Result<Rows, TraceFault>
    requires one { 1 ≤ workers }
    requires most { workers ≤ 64 }
    requires nodes { length net.now.nodes < 2 ^ 32 }
    requires columns { length net.now.columns ≤ 16 }
    ensures exact { Answers result (trace_fault net.now bytes.now) (rows_in net.now bytes.now) }
    ensures read { IfOk result (λ rows. IsReadFor net.now rows) }
{
    match fault_before(bytes) {
        Some(fault) => Err(fault),
        None => {
            let count = pieces_for(workers, bytes.len());
            read_text(&Crew::new(rt, alloc, workers, &Open), count, bytes, net)
        }
    }
}

/// Reads a trace as `read_trace` does, from a text that it owns. If the text is read in pieces, it is freed before their rows
/// are joined; no clause requires that.
pub fn take_trace<R: Threads + Sync>(
    rt: &R,
    alloc: Global,
    workers: u32,
    bytes: Vec<u8>,
    net: &Network,
) -> Result<Rows, TraceFault>
    requires one { 1 ≤ workers }
    requires most { workers ≤ 64 }
    requires nodes { length net.now.nodes < 2 ^ 32 }
    requires columns { length net.now.columns ≤ 16 }
    ensures exact { Answers result (trace_fault net.now bytes.items) (rows_in net.now bytes.items) }
    ensures read { IfOk result (λ rows. IsReadFor net.now rows) }
{
    match fault_before(&bytes) {
        Some(fault) => Err(fault),
        None => {
            let count = pieces_for(workers, bytes.len());
            take_text(&Crew::new(rt, alloc, workers, &Open), count, bytes, net)
        }
    }
}
