// A line of a text of edits.
ghost use Rattle.std.specs.Prelude.{◌≡◌, ◌+◌, ◌^◌, ◌<◌, ◌≤◌, ◌∷◌, [], IfErr, IfOk, length, map, None};
ghost use Rattle.std.specs.Str.Parse.{digits_value};
ghost use Rattle.mq_base.specs.Text.{texts};
ghost use Rattle.mq_edits.specs.Edits.{Tells, add_fault, add_in, count_fault, edits_of_words, record_named, row_fault, set_fault, set_in, source_in, time_in, value_fault, values_in, words_fault};
ghost use Rattle.mq_edits.specs.declared.edit.Edit.TheVariants.{Add, Set};

use crate::edit::{Edit, MOST_ROWS};
use crate::fault::EditFault;
use mq_base::{List, read_number};
use mq_core::Network;
use mq_trace::find_source;
use std::alloc::Global;

// The content of the words of a row.
#[derive(Drop)]
struct Row {
    source: u32,
    time: u64,
    values: List<u64>,
}

// Fails with the fault of a line whose number of words isn't `wanted`.
fn check_count(line: u32, wanted: usize, count: usize) -> Result<(), EditFault>
    requires { wanted ≤ 20 }
    ensures ok { IfOk result (λ _. count ≡ wanted) }
    ensures err { IfErr result (λ e. Tells e (count_fault line wanted count)) }
{
    if count != wanted {
        return Err(EditFault::BadLine {
            line,
            word: wanted.min(count) as u32 + 1,
        });
    }
    Ok(())
}

// Reads the values of a row. `number` is the number of the first of these words in its line.
fn read_values(
    alloc: Global,
    words: &[&[u8]],
    line: u32,
    number: u32,
) -> Result<List<u64>, EditFault>
    requires few { length words.now ≤ 16 }
    requires small { number ≤ 16 }
    ensures ok { IfOk result (λ values. (value_fault line number (texts words.now) ≡ None) × (values ≡ map (digits_value 10) (texts words.now))) }
    ensures err { IfErr result (λ e. Tells e (value_fault line number (texts words.now))) }
{
    let mut values = List::from_vec(Vec::with_capacity(alloc, words.len())?);
    for (index, word) in words.iter().enumerate() {
        let Some(value) = read_number(word, 1 << 36) else {
            drop(values);
            return Err(EditFault::BadNumber {
                line,
                word: number + index as u32,
            });
        };
        values.push(value)?;
    }
    Ok(values)
}

// Reads the words of a row: its source, its time and its values. `number` is the number of the first of these words in
// its line.
fn read_row(
    alloc: Global,
    words: &[&[u8]],
    net: &Network,
    line: u32,
    number: u32,
) -> Result<Row, EditFault>
    requires each { length words.now ≡ length net.now.columns + 2 }
    requires columns { length net.now.columns ≤ 16 }
    requires nodes { length net.now.nodes < 2 ^ 32 }
    requires small { number ≤ 8 }
    ensures ok { IfOk result (λ row. (row_fault net.now line number (texts words.now) ≡ None) × (row ≡ record { source = source_in net.now (texts words.now); time = time_in (texts words.now); values = values_in (texts words.now) })) }
    ensures err { IfErr result (λ e. Tells e (row_fault net.now line number (texts words.now))) }
{
    let Some(source) = find_source(net, words[0]) else {
        return Err(EditFault::UnknownSource { line });
    };
    let Some(time) = read_number(words[1], 1 << 60) else {
        return Err(EditFault::BadNumber {
            line,
            word: number + 1,
        });
    };
    let values = read_values(alloc, &words[2..], line, number + 2)?;
    Ok(Row {
        source: source as u32,
        time,
        values,
    })
}

// Returns the row, from 0, of the data record whose number the word is, if it is from 1 to `rows`.
fn record_named(word: &[u8], rows: u32) -> Option<u32>
    ensures { result ≡ record_named rows word.now }
{
    match read_number(word, u64::from(rows)) {
        Some(number) if number > 0 => Some((number - 1) as u32),
        _ => None,
    }
}

// Reads the words after `set`.
fn read_set(
    alloc: Global,
    words: &[&[u8]],
    net: &Network,
    rows: u32,
    line: u32,
) -> Result<Edit, EditFault>
    requires columns { length net.now.columns ≤ 16 }
    requires nodes { length net.now.nodes < 2 ^ 32 }
    ensures ok { IfOk result (λ edit. (set_fault net.now rows line (texts words.now) ≡ None) × (edit ≡ set_in net.now (texts words.now))) }
    ensures err { IfErr result (λ e. Tells e (set_fault net.now rows line (texts words.now))) }
{
    check_count(line, net.columns.len() + 4, words.len() + 1)?;
    let Some(row) = record_named(words[0], rows) else {
        return Err(EditFault::UnknownRow { line });
    };
    let Row {
        source,
        time,
        values,
    } = read_row(alloc, &words[1..], net, line, 3)?;
    Ok(Edit::Set {
        row,
        source,
        time,
        values,
    })
}

// Reads the words after `add`.
fn read_add(
    alloc: Global,
    words: &[&[u8]],
    net: &Network,
    rows: u32,
    line: u32,
) -> Result<Edit, EditFault>
    requires columns { length net.now.columns ≤ 16 }
    requires nodes { length net.now.nodes < 2 ^ 32 }
    ensures ok { IfOk result (λ edit. (add_fault net.now rows line (texts words.now) ≡ None) × (edit ≡ add_in net.now (texts words.now))) }
    ensures err { IfErr result (λ e. Tells e (add_fault net.now rows line (texts words.now))) }
{
    check_count(line, net.columns.len() + 3, words.len() + 1)?;
    if rows >= MOST_ROWS {
        return Err(EditFault::TooManyRows { line });
    }
    let Row {
        source,
        time,
        values,
    } = read_row(alloc, words, net, line, 2)?;
    Ok(Edit::Add {
        source,
        time,
        values,
    })
}

/// Reads the words of a line, at least one, if there are `rows` data records so far.
pub fn read_words(
    alloc: Global,
    words: &[&[u8]],
    net: &Network,
    rows: u32,
    line: u32,
) -> Result<Edit, EditFault>
    requires some { 1 ≤ length words.now }
    requires columns { length net.now.columns ≤ 16 }
    requires nodes { length net.now.nodes < 2 ^ 32 }
    ensures ok { IfOk result (λ edit. (words_fault net.now rows line (texts words.now) ≡ None) × (edit ∷ [] ≡ edits_of_words net.now (texts words.now))) }
    ensures err { IfErr result (λ e. Tells e (words_fault net.now rows line (texts words.now))) }
{
    let [word, rest @ ..] = words else {
        unreachable!()
    };
    if *word == b"set".as_slice() {
        return read_set(alloc, rest, net, rows, line);
    }
    if *word == b"add".as_slice() {
        return read_add(alloc, rest, net, rows, line);
    }
    Err(EditFault::BadLine { line, word: 1 })
}
