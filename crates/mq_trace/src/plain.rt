// Plain records: their fields contain no quotes, except around a whole field, so they are read from the text directly.

ghost use Rattle.std.specs.Prelude.{◌≡◌, ◌+◌, ◌^◌, ◌<◌, ◌≤◌, ◌∷◌, ◌++◌, ℕ, All, List, length, true, Some, IfSome, drop, take};
ghost use Rattle.std.specs.Char.{is_ascii_digit};
ghost use Rattle.std.specs.List.{list_all, prefix_len};
ghost use Rattle.std.specs.Str.Parse.{digits_value};
ghost use Rattle.mq_base.specs.Text.{number_of};
ghost use Rattle.mq_trace.specs.Plain.{BeginsWith, IsColumnField, IsField, IsFirstRow, IsSource, ends_record, is_plain};
ghost use Rattle.mq_trace.specs.Reading.{IsHeaderOf};
ghost use Rattle.mq_trace.specs.Records.{Record};

use crate::header::Header;
use crate::plain_source::{PlainSource, plain_source};
use crate::quotes::ends_field;
use crate::rows::MOST_ROWS;
use memchr::memchr;
use mq_core::Network;

/// What a record gives, apart from the numbers in its columns.
#[derive(Clone, Copy)]
pub struct PlainRow<'a> {
    /// Its source.
    pub source: PlainSource<'a>,
    /// Whether the source isn't among the known ones.
    pub is_new: bool,
    /// The arrival time of the job, in ticks.
    pub time: u64,
    /// The text after the record.
    pub rest: &'a [u8],
}

// Whether a field without quotes around it may contain this byte.
fn is_plain_byte(byte: u8) -> bool
    ensures { result ≡ is_plain byte }
{
    byte != b'"' && !ends_field(byte)
}

// The number of bytes of a field with which a text begins.
fn field_length(text: &[u8]) -> usize
    ensures at { result ≡ prefix_len is_plain text.now }
    ensures within { result ≤ length text.now }
{
    text.iter().take_while(|byte| is_plain_byte(**byte)).count()
}

/// Returns the text after this byte, if the text begins with it.
pub fn behind_byte(byte: u8, text: &[u8]) -> Option<&[u8]>
    ensures { IfSome result (λ more. text.now ≡ byte ∷ more.now) }
{
    match text {
        [first, more @ ..] if *first == byte => Some(more),
        _ => None,
    }
}

/// Returns the field with which a text begins, and the text after it. If the text begins with a quote, the next quote
/// ends the field.
pub fn split_field(text: &[u8]) -> Option<(&[u8], &[u8])>
    ensures { IfSome result (λ p. IsField text.now p.0.now p.1.now) }
{
    if let Some(quoted) = behind_byte(b'"', text) {
        // Here and below, a `let` with an `else` replaces `?`: its code has half as many steps to prove.
        let Some(index) = memchr(b'"', quoted) else {
            return None;
        };
        let (field, end) = quoted.split_at(index);
        return Some((field, &end[1..]));
    }
    Some(text.split_at(field_length(text)))
}

// The number of digits with which a text begins, at most 19, and their value.
fn leading_digits(text: &[u8]) -> (usize, u64)
    ensures within { result.0 ≤ length text.now }
    ensures few { result.0 ≤ 19 }
    ensures digits { list_all is_ascii_digit (take result.0 text.now) ≡ true }
    ensures value { result.1 ≡ digits_value 10 (take result.0 text.now) }
{
    let most = text.len().min(19);
    let mut value = 0u64;
    for (index, byte) in text[..most].iter().enumerate() {
        if !byte.is_ascii_digit() {
            return (index, value);
        }
        value = value * 10 + u64::from(byte - b'0');
    }
    (most, value)
}

// The number with which a text begins, and the text after it. Nothing if there is no digit or the number is greater
// than the limit. Digits after the first 19 are left in the text.
fn split_number(text: &[u8], limit: u64) -> Option<(u64, &[u8])>
    ensures { IfSome result (λ p. (digits : List ℕ) × (text.now ≡ digits ++ p.1.now) × (number_of digits limit ≡ Some p.0)) }
{
    let (length, value) = leading_digits(text);
    if length == 0 || value > limit {
        return None;
    }
    Some((value, &text[length..]))
}

/// Returns the text after the end of a record, if a record ends here.
pub fn behind_record(text: &[u8]) -> Option<&[u8]>
    ensures ends { IfSome result (λ _. ends_record text.now ≡ true) }
    ensures rest { IfSome result (λ more. more.now ≡ drop 1 text.now) }
{
    match text {
        [] => Some(text),
        [b'\r' | b'\n', more @ ..] => Some(more),
        _ => None,
    }
}

/// Returns the text after the first record, if that record is plain and has more than one field.
pub fn behind_first(text: &[u8]) -> Option<&[u8]>
    ensures { IfSome result (λ rest. (first : Record) × BeginsWith text.now first rest.now) }
{
    let Some(first) = split_field(text) else {
        return None;
    };
    let Some(mut field) = behind_byte(b',', first.1) else {
        return None;
    };
    loop {
        let Some(split) = split_field(field) else {
            return None;
        };
        match behind_byte(b',', split.1) {
            Some(next) => field = next,
            None => return behind_record(split.1),
        }
    }
}

// Reads a comma and the field of a column, and returns the text after them. If the model reads the column, its number
// goes into `value`.
fn column_field<'a>(text: &'a [u8], reads: bool, value: &mut u64) -> Option<&'a [u8]>
    ensures { IfSome result (λ rest. IsColumnField reads value.new text.now rest.now) }
{
    let Some(field) = behind_byte(b',', text) else {
        return None;
    };
    if !reads {
        let Some(split) = split_field(field) else {
            return None;
        };
        return Some(split.1);
    }
    let Some((number, rest)) = split_number(field, 1 << 36) else {
        return None;
    };
    *value = number;
    Some(rest)
}

/// Reads the first record of a text, which follows `before` others, if it is plain and has no error. The sources
/// in `known` come from other records. The numbers in the record's columns go into `values`.
pub fn plain_row<'a>(
    text: &'a [u8],
    before: usize,
    known: &[PlainSource<'a>],
    net: &Network,
    header: &Header,
    values: &mut [u64],
) -> Option<PlainRow<'a>>
    requires header { IsHeaderOf net.now header.now }
    requires nodes { length net.now.nodes < 2 ^ 32 }
    requires room { length values.old ≡ 16 }
    requires known { All (λ source. IsSource net.now source) known.now }
    ensures first { IfSome result (λ row. IsFirstRow net.now header.now text.now (before + 1) row values.new) }
    ensures source { IfSome result (λ row. IsSource net.now row.source) }
{
    if before >= MOST_ROWS as usize {
        return None;
    }
    let Some(first) = plain_source(text, known, net) else {
        return None;
    };
    let Some((time, mut end)) = split_number(first.rest, 1 << 60) else {
        return None;
    };
    for (index, reads) in header.reads.as_slice().iter().enumerate() {
        let Some(next) = column_field(end, *reads, &mut values[index]) else {
            return None;
        };
        end = next;
    }
    let Some(rest) = behind_record(end) else {
        return None;
    };
    Some(PlainRow {
        source: first.source,
        is_new: first.is_new,
        time,
        rest,
    })
}
