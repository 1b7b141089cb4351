// A data record of a trace.

ghost use Rattle.std.specs.Prelude.{◌&&◌, ◌≡◌, ◌+◌, ◌^◌, ◌<◌, length, None, Some, IfOk, IfErr, drop};
ghost use Rattle.std.specs.Str.Parse.{digits_value};
ghost use Rattle.std.specs.Str.{bytes_eq};
ghost use Rattle.csv.specs.Records.{fields_of};
ghost use Rattle.mq_core.specs.Wiring.{is_source_kind};
ghost use Rattle.mq_trace.specs.Header.{columns_of, field_of};
ghost use Rattle.mq_trace.specs.Trace.{bad_value, row_fault, source_named};
ghost use Rattle.mq_trace.specs.Reading.{IsHeaderOf, HoldsValues};

use crate::fault::TraceFault;
use crate::header::Header;
use csv::ByteRecord;
use mq_base::read_number;
use mq_core::{Network, Node, is_source};

// Whether a node is the source with this name.
fn is_source_named(node: &Node, name: &[u8]) -> bool
    ensures { result ≡ (is_source_kind node.now.kind && bytes_eq node.now.name name.now) }
{
    is_source(&node.kind) && node.name.as_slice() == name
}

/// Returns the index of the source node with this name, if there is one.
pub fn find_source(net: &Network, name: &[u8]) -> Option<usize>
    ensures { result ≡ source_named net.now name.now }
{
    net.nodes
        .as_slice()
        .iter()
        .position(|node| is_source_named(node, name))
}

#[tactic(auto, using(crate::proofs::TraceFacts::value_steps))]
// Puts the numbers that the model reads at their indices, or returns the number of the first field that isn't one.
fn read_values(row: &ByteRecord, net: &Network, header: &Header, values: &mut [u64]) -> Option<u32>
    requires header { IsHeaderOf net.now header.now }
    requires len { length (fields_of row.now) ≡ length (fields_of header.now.names) }
    requires room { length values.old ≡ 16 }
    ensures fault { result ≡ bad_value net.now 3 (columns_of (fields_of header.now.names)) (drop 2 (fields_of row.now)) }
    ensures values { result ≡ None → HoldsValues header.now.reads.items values.new (fields_of row.now) }
{
    for (index, reads) in header.reads.as_slice().iter().enumerate() {
        if *reads {
            let Some(text) = row.get(index + 2) else {
                unreachable!()
            };
            let Some(value) = read_number(text, 1 << 36) else {
                return Some(index as u32 + 3);
            };
            values[index] = value;
        }
    }
    None
}

#[tactic(auto, using(crate::proofs::TraceFacts::value_steps), unfolding(crate::specs::Trace::row_fault))]
/// Reads the data record with this number. Returns its source node and its time; its columns' numbers go into `values`.
pub fn read_row(
    row: &ByteRecord,
    number: u32,
    net: &Network,
    header: &Header,
    values: &mut [u64],
) -> Result<(u32, u64), TraceFault>
    requires header { IsHeaderOf net.now header.now }
    requires nodes { length net.now.nodes < 2 ^ 32 }
    requires room { length values.old ≡ 16 }
    ensures clean { IfOk result (λ _. row_fault net.now (fields_of header.now.names) number (fields_of row.now) ≡ None) }
    ensures source { IfOk result (λ x. source_named net.now (field_of (fields_of row.now) 0) ≡ Some x.0) }
    ensures time { IfOk result (λ x. x.1 ≡ digits_value 10 (field_of (fields_of row.now) 1)) }
    ensures values { IfOk result (λ _. HoldsValues header.now.reads.items values.new (fields_of row.now)) }
    ensures fault { IfErr result (λ e. row_fault net.now (fields_of header.now.names) number (fields_of row.now) ≡ Some e) }
{
    if number > 1_048_576 {
        return Err(TraceFault::TooManyRows);
    }
    if row.len() != header.names.len() {
        return Err(TraceFault::BadCount { row: number });
    }
    let Some(name) = row.get(0) else {
        unreachable!()
    };
    let Some(node) = find_source(net, name) else {
        return Err(TraceFault::UnknownSource { row: number });
    };
    let Some(text) = row.get(1) else {
        unreachable!()
    };
    let Some(time) = read_number(text, 1 << 60) else {
        return Err(TraceFault::BadNumber {
            row: number,
            field: 2,
        });
    };
    if let Some(field) = read_values(row, net, header, values) {
        return Err(TraceFault::BadNumber { row: number, field });
    }
    Ok((node as u32, time))
}
