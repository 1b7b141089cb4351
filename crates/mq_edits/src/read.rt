// The reader of a text of edits.
ghost use Rattle.std.specs.Prelude.{◌≡◌, ◌+◌, ◌^◌, ◌<◌, ◌≤◌, ◌++◌, [], IfErr, IfOk, OnOk, length, None};
ghost use Rattle.mq_base.specs.Text.{lines_of, words_of};
ghost use Rattle.mq_edits.specs.Edited.{AreEditsFor, HasPlace, rows_after};
ghost use Rattle.mq_edits.specs.Edits.{Tells, edits_fault, edits_in, edits_of_lines, edits_of_words, lines_fault, rows_added, words_fault};

use crate::edit::Edit;
use crate::fault::EditFault;
use crate::line::read_words;
use mq_base::{List, next_line};
use mq_core::Network;
use mq_model::{split_words, without_mark};
use std::alloc::Global;

// The edits of the lines so far, and the number of data records after them.
#[derive(Drop)]
struct Front {
    edits: List<Edit>,
    rows: u32,
}

// Returns the number of data records after an edit.
fn rows_after(rows: u32, edit: &Edit) -> u32
    requires { HasPlace rows edit.now }
    ensures { result ≡ rows_after rows edit.now }
{
    match edit {
        Edit::Set { .. } => rows,
        Edit::Add { .. } => rows + 1,
    }
}

// Reads another line.
fn read_line(
    alloc: Global,
    line: &[u8],
    number: u32,
    net: &Network,
    front: &mut Front,
) -> Result<(), EditFault>
    requires columns { length net.now.columns ≤ 16 }
    requires nodes { length net.now.nodes < 2 ^ 32 }
    ensures fault { IfOk result (λ _. words_fault net.now front.old.rows number (words_of line.now) ≡ None) }
    ensures edits { OnOk result (front.new.edits ≡ front.old.edits ++ edits_of_words net.now (words_of line.now)) }
    ensures rows { OnOk result (front.new.rows ≡ front.old.rows + rows_added (words_of line.now)) }
    ensures err { IfErr result (λ e. Tells e (words_fault net.now front.old.rows number (words_of line.now))) }
{
    let words = split_words(alloc, line)?;
    if words.is_empty() {
        return Ok(());
    }
    let edit = read_words(alloc, words.as_slice(), net, front.rows, number)?;
    front.rows = rows_after(front.rows, &edit);
    front.edits.push(edit)?;
    Ok(())
}

// Reads the lines of a text.
fn read_lines(alloc: Global, text: &[u8], net: &Network, front: &mut Front) -> Result<(), EditFault>
    requires columns { length net.now.columns ≤ 16 }
    requires nodes { length net.now.nodes < 2 ^ 32 }
    requires short { length text.now ≤ 16777216 }
    requires none { front.old.edits ≡ [] }
    ensures ok { IfOk result (λ _. lines_fault net.now front.old.rows 1 (lines_of text.now) ≡ None) }
    ensures edits { OnOk result (front.new.edits ≡ edits_of_lines net.now (lines_of text.now)) }
    ensures err { IfErr result (λ e. Tells e (lines_fault net.now front.old.rows 1 (lines_of text.now))) }
{
    let mut from = 0;
    let mut number = 1u32;
    while let Some(span) = next_line(text, from) {
        read_line(alloc, &text[span.start..span.end], number, net, front)?;
        from = span.next;
        number += 1;
    }
    Ok(())
}

/// Reads a text of edits of at most 16,777,216 bytes, for the network of a plan and a trace of `rows` data records, at
/// most 1,048,576. Lines and words are those of a model; there are no comments.
///
/// `set R SOURCE TIME` and a value for each column of the model replaces record R, from 1, which an earlier line may
/// have added. `add SOURCE TIME` and the values appends a data record. A time is at most 2^60 ticks and a value at most
/// 2^36.
///
/// A text is refused for its first fault: its length, or the first faulty line; in a line the checks are its first
/// word, the number of its words, its record, or for `add` the number of records, its source, its time and its values.
/// The edits returned are read for the network and the trace.
pub fn read_edits(
    alloc: Global,
    bytes: &[u8],
    net: &Network,
    rows: u32,
) -> Result<List<Edit>, EditFault>
    requires columns { length net.now.columns ≤ 16 }
    requires nodes { length net.now.nodes < 2 ^ 32 }
    requires rows { rows ≤ 1048576 }
    ensures ok { IfOk result (λ edits. (edits_fault net.now rows bytes.now ≡ None) × (edits ≡ edits_in net.now bytes.now)) }
    ensures err { IfErr result (λ e. Tells e (edits_fault net.now rows bytes.now)) }
    ensures read { IfOk result (λ edits. AreEditsFor net.now rows edits) }
{
    if bytes.len() > 16_777_216 {
        return Err(EditFault::TooLong);
    }
    let mut front = Front {
        edits: List::new(alloc),
        rows,
    };
    match read_lines(alloc, without_mark(bytes), net, &mut front) {
        Ok(()) => Ok(front.edits),
        Err(fault) => {
            drop(front);
            Err(fault)
        }
    }
}
