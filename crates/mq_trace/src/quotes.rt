// Where a piece of a text leaves csv: outside quotes, or within them.

ghost use Rattle.std.specs.Prelude.{◌≡◌, ◌∷◌, ◌++◌, ◌==◌, ◌||◌, ℕ, List, [], false};
ghost use Rattle.csv.specs.Reading.{strip_bom};
ghost use Rattle.mq_trace.specs.Quotes.{has_quote, is_closed, is_outside, place_after};

use memchr::memchr;

/// What a quote would do at the point that csv has reached.
#[derive(Clone, Copy)]
pub enum Place {
    /// It begins a quoted field, or continues one.
    Start,
    /// It is a byte of a field without quotes.
    Field,
    /// It ends a quoted field.
    Quoted,
}

/// Returns whether a byte outside quotes ends a field.
pub fn ends_field(byte: u8) -> bool
    ensures { result ≡ ((byte == 44) || (byte == 13) || (byte == 10)) }
{
    byte == b',' || byte == b'\r' || byte == b'\n'
}

// The place after bytes without a quote.
fn place_behind_bytes(place: Place, bytes: &[u8]) -> Place
    requires { has_quote bytes.now ≡ false }
    ensures { (front : List ℕ) → place_after front ≡ place → place_after (front ++ bytes.now) ≡ result }
{
    let Some(last) = bytes.last() else {
        return place;
    };
    match place {
        Place::Quoted => Place::Quoted,
        _ if ends_field(*last) => Place::Start,
        _ => Place::Field,
    }
}

// The place after a quote.
fn place_behind_quote(place: Place) -> Place
    ensures { (front : List ℕ) → place_after front ≡ place → place_after (front ++ 34 ∷ []) ≡ result }
{
    match place {
        Place::Start => Place::Quoted,
        Place::Field => Place::Field,
        Place::Quoted => Place::Start,
    }
}

// Whether a place is outside quotes.
fn stands_outside(place: Place) -> bool
    ensures { result ≡ is_outside place }
{
    match place {
        Place::Start | Place::Field => true,
        Place::Quoted => false,
    }
}

/// Returns a text without the byte order mark at its start, if it has one.
pub fn unmarked(text: &[u8]) -> &[u8]
    ensures { result.now ≡ strip_bom text.now }
{
    if text.starts_with(b"\xEF\xBB\xBF") {
        &text[3..]
    } else {
        text
    }
}

/// Returns whether a piece ends outside quotes, given whether it begins outside them.
pub fn ends_outside(piece: &[u8], outside: bool) -> bool
    ensures { result ≡ is_closed outside piece.now }
{
    let mut place = if outside { Place::Start } else { Place::Quoted };
    let mut rest = unmarked(piece);
    while let Some(at) = memchr(b'"', rest) {
        let (bytes, more) = rest.split_at(at);
        place = place_behind_quote(place_behind_bytes(place, bytes));
        rest = &more[1..];
    }
    stands_outside(place)
}
