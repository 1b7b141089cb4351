// The header of a trace.

ghost use Rattle.std.specs.Prelude.{◌≡◌, ◌+◌, ◌-◌, ◌<◌, ◌≤◌, ◌&&◌, length, map, take, nat_lt, IfOk, IfErr, None, Some, not, option_map, position};
ghost use Rattle.std.specs.List.{list_any, position_or_len};
ghost use Rattle.std.specs.Str.{bytes_eq};
ghost use Rattle.csv.specs.Records.{fields_of};
ghost use Rattle.mq_trace.specs.Header.{IsNewColumn, bad_from, bad_header, columns_of, field_of, is_among};
ghost use Rattle.mq_trace.specs.Trace.{Tells, header_fault};
ghost use Rattle.mq_trace.specs.Reading.{IsHeaderOf};

use crate::fault::TraceFault;
use csv::ByteRecord;
use mq_base::List;
use mq_core::Network;
use std::alloc::{AllocError, Global};

/// What is needed to read the data records.
#[derive(Drop)]
pub struct Header {
    /// The header itself.
    pub names: ByteRecord,
    /// For each column of the trace after the time, whether the model names it.
    pub reads: Vec<bool>,
    /// For each column of the model, its index among the trace's columns after the time.
    pub indices: Vec<usize>,
}

// Whether one of these names is this one.
fn is_listed(names: &[List<u8>], name: &[u8]) -> bool
    ensures { result ≡ is_among names.now name.now }
{
    names.iter().any(|other| other.as_slice() == name)
}

// Whether one of these names in a text is this one.
fn is_seen(names: &[&[u8]], name: &[u8]) -> bool
    ensures { result ≡ list_any (λ other. bytes_eq other.now name.now) names.now }
{
    names.iter().any(|other| *other == name)
}

// The index of a name among these, if it is among them.
fn index_among(names: &[&[u8]], name: &[u8]) -> Option<usize>
    ensures { result ≡ position (λ other. bytes_eq other.now name.now) names.now }
{
    names.iter().position(|other| *other == name)
}

#[tactic(auto, using(crate::proofs::TraceFacts::field_at_is))]
// Whether a record has this field at an index.
fn has_field(row: &ByteRecord, index: usize, name: &[u8]) -> bool
    ensures { result ≡ (nat_lt index (length (fields_of row.now)) && bytes_eq (field_of (fields_of row.now) index) name.now) }
{
    match row.get(index) {
        Some(field) => field == name,
        None => false,
    }
}

// The column at an index of a header, which follows the columns `before`, or its error.
fn column_name<'a>(
    row: &'a ByteRecord,
    index: usize,
    before: &[&[u8]],
) -> Result<&'a [u8], TraceFault>
    requires low { 2 ≤ index }
    requires high { index ≤ 18 }
    requires inside { index < length (fields_of row.now) }
    requires names { map (λ s. s.now) before.now ≡ take (index - 2) (columns_of (fields_of row.now)) }
    ensures ok { IfOk result (λ name. IsNewColumn (fields_of row.now) index name.now) }
    ensures err { IfErr result (λ e. (e ≡ TraceFault.BadHeader (index + 1)) × (bad_from (fields_of row.now) index ≡ Some (index + 1))) }
{
    let Some(name) = row.get(index) else {
        unreachable!()
    };
    if index == 18 || is_seen(before, name) {
        return Err(TraceFault::BadHeader {
            field: index as u32 + 1,
        });
    }
    Ok(name)
}

#[tactic(auto, using(crate::proofs::TraceFacts::column_steps), unfolding(crate::specs::Header::bad_header))]
// The columns of a header, or the error in its first invalid field.
fn read_columns<'a>(alloc: Global, row: &'a ByteRecord) -> Result<Vec<&'a [u8]>, TraceFault>
    ensures ok { IfOk result (λ v. (bad_header (fields_of row.now) ≡ None) × (map (λ s. s.now) v.items ≡ columns_of (fields_of row.now))) }
    ensures size { IfOk result (λ _. (2 ≤ length (fields_of row.now)) × (length (fields_of row.now) ≤ 18)) }
    ensures err { IfErr result (λ e. Tells e (option_map (λ n. TraceFault.BadHeader n) (bad_header (fields_of row.now)))) }
{
    if !has_field(row, 0, b"source") {
        return Err(TraceFault::BadHeader { field: 1 });
    }
    if !has_field(row, 1, b"time") {
        return Err(TraceFault::BadHeader { field: 2 });
    }
    let mut columns = Vec::new(alloc);
    for index in 2..row.len() {
        let name = column_name(row, index, columns.as_slice())?;
        columns.push(name)?;
    }
    Ok(columns)
}

// For each column of a text, whether it is among these names.
fn listed(alloc: Global, names: &[List<u8>], columns: &[&[u8]]) -> Result<Vec<bool>, AllocError>
    ensures { IfOk result (λ v. v.items ≡ map (λ column. is_among names.now column.now) columns.now) }
{
    columns
        .iter()
        .map(|column| is_listed(names, column))
        .collect(alloc)
}

// For each column of the model, its index among these names in a text.
fn indices_among(alloc: Global, net: &Network, names: &[&[u8]]) -> Result<Vec<usize>, TraceFault>
    requires { length net.now.columns ≤ 16 }
    ensures none { IfOk result (λ _. position (λ name. not (is_among (map (λ s. s.now) names.now) name)) net.now.columns ≡ None) }
    ensures indices { IfOk result (λ v. v.items ≡ map (λ name. position_or_len (λ other. bytes_eq other name) (map (λ s. s.now) names.now)) net.now.columns) }
    ensures err { IfErr result (λ e. Tells e (option_map (λ n. TraceFault.MissingColumn n) (position (λ name. not (is_among (map (λ s. s.now) names.now) name)) net.now.columns))) }
{
    let mut indices = Vec::new(alloc);
    let mut column = 0u32;
    for name in net.columns.as_slice() {
        let Some(index) = index_among(names, name.as_slice()) else {
            return Err(TraceFault::MissingColumn { column });
        };
        indices.push(index)?;
        column += 1;
    }
    Ok(indices)
}

/// Reads the header of a trace for a network, or finds its first error.
pub fn read_header(alloc: Global, names: ByteRecord, net: &Network) -> Result<Header, TraceFault>
    requires { length net.now.columns ≤ 16 }
    ensures ok { IfOk result (λ h. (header_fault net.now (fields_of names) ≡ None) × (fields_of h.names ≡ fields_of names) × IsHeaderOf net.now h) }
    ensures err { IfErr result (λ e. Tells e (header_fault net.now (fields_of names))) }
{
    let columns = read_columns(alloc, &names)?;
    let indices = indices_among(alloc, net, columns.as_slice())?;
    let reads = listed(alloc, net.columns.as_slice(), columns.as_slice())?;
    drop(columns);
    Ok(Header {
        names,
        reads,
        indices,
    })
}
