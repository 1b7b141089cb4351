// A text in pieces, cut at line feeds.

ghost use Rattle.std.specs.Prelude.{◌≡◌, ◌⊎◌, ◌+◌, ◌<◌, ◌≤◌, ℕ, [], true, false, length, get_or, map, vec_len, IfOk};
ghost use Rattle.std.specs.List.{concat};
ghost use Rattle.mq_trace.specs.Pieces.{AreClosed, AreLines, ArePieces};
ghost use Rattle.mq_trace.specs.Quotes.{is_closed};

use crate::ends::find_ends;
use crate::quotes::ends_outside;
use memchr::memchr;
use mq_base::OutOfMemory;
use mq_crew::{Crew, Open};
use std::alloc::Global;
use std::thread::Threads;

// The index of the first line feed at or after an index, or the end.
fn line_from(text: &[u8], from: usize) -> usize
    requires { from ≤ length text.now }
    ensures within { result ≤ length text.now }
    ensures feed { (result ≡ length text.now) ⊎ (get_or text.now result 0 ≡ 10) }
{
    match memchr(b'\n', &text[from..]) {
        Some(index) => from + index,
        None => text.len(),
    }
}

// Cuts a text into `count` pieces of about the same length. Each but the first is empty or begins with a line feed.
fn cut_lines<'a>(alloc: Global, text: &'a [u8], count: u32) -> Result<Vec<&'a [u8]>, OutOfMemory>
    requires { 1 ≤ count }
    ensures len { IfOk result (λ v. vec_len v ≡ count) }
    ensures whole { IfOk result (λ v. concat (map (λ s. s.now) v.items) ≡ text.now) }
    ensures lines { IfOk result (λ v. AreLines (map (λ s. s.now) v.items)) }
{
    let size = text.len() / count as usize;
    let mut pieces = Vec::with_capacity(alloc, count as usize)?;
    let mut rest = text;
    for _ in 1..count {
        let (piece, more) = rest.split_at(line_from(rest, size.min(rest.len())));
        pieces.push_reserved(piece);
        rest = more;
    }
    pieces.push_reserved(rest);
    Ok(pieces)
}

// Whether a piece ends outside quotes, given whether it begins outside them, and `end`, the answer if it does.
fn ends_from(piece: &[u8], outside: bool, end: bool) -> bool
    requires { end ≡ is_closed true piece.now }
    ensures { result ≡ is_closed outside piece.now }
{
    if outside {
        end
    } else {
        ends_outside(piece, false)
    }
}

// The pieces of a text, each that begins within quotes appended to the one before it. Where the last piece ends doesn't
// matter.
fn merge_quoted<'a>(
    alloc: Global,
    text: &'a [u8],
    pieces: &[&[u8]],
    ends: &[bool],
) -> Result<Vec<&'a [u8]>, OutOfMemory>
    requires len { length ends.now + 1 ≡ length pieces.now }
    requires whole { concat (map (λ s. s.now) pieces.now) ≡ text.now }
    requires lines { AreLines (map (λ s. s.now) pieces.now) }
    requires ends { (i : ℕ) → i < length ends.now → get_or ends.now i false ≡ is_closed true (get_or (map (λ s. s.now) pieces.now) i []) }
    ensures some { IfOk result (λ v. 1 ≤ vec_len v) }
    ensures most { IfOk result (λ v. vec_len v ≤ length pieces.now) }
    ensures whole { IfOk result (λ v. concat (map (λ s. s.now) v.items) ≡ text.now) }
    ensures lines { IfOk result (λ v. AreLines (map (λ s. s.now) v.items)) }
    ensures closed { IfOk result (λ v. AreClosed (map (λ s. s.now) v.items)) }
{
    let mut merged = Vec::with_capacity(alloc, pieces.len())?;
    let mut rest = text;
    let mut at = 0;
    let mut outside = true;
    for k in 0..pieces.len() - 1 {
        at += pieces[k].len();
        outside = ends_from(pieces[k], outside, ends[k]);
        if outside {
            let (piece, more) = rest.split_at(at);
            merged.push_reserved(piece);
            rest = more;
            at = 0;
        }
    }
    merged.push_reserved(rest);
    Ok(merged)
}

/// Cuts a text into at most `count` pieces, whose records are those of the text. It isn't cut at a line feed within
/// a quoted field: a piece that begins there is appended to the one before it.
///
/// Each piece but the first is empty or begins with a line feed, so only the first can begin with a byte order mark.
pub fn pieces_of<'a, R: Threads + Sync>(
    crew: &Crew<R, Open>,
    text: &'a [u8],
    count: u32,
) -> Result<Vec<&'a [u8]>, OutOfMemory>
    requires count { 1 ≤ count }
    ensures some { IfOk result (λ v. 1 ≤ vec_len v) }
    ensures most { IfOk result (λ v. vec_len v ≤ count) }
    ensures same { IfOk result (λ v. ArePieces text.now (map (λ s. s.now) v.items)) }
{
    let lines = cut_lines(crew.alloc, text, count)?;
    let ends = find_ends(crew, &lines.as_slice()[..lines.len() - 1])?;
    merge_quoted(crew.alloc, text, lines.as_slice(), ends.as_slice())
}
