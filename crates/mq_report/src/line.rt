// A line that is written from its last byte to its first, so that no digit has to be moved.
ghost use Rattle.std.specs.Prelude.{◌≡◌, ◌+◌, ◌≤◌, ◌++◌, [], length, decimal};

use itoa::write_digits;
use std::marker::Model;

const SIZE: usize = 160;

/// The end of a line, at most 160 bytes. It is on the stack and allocates nothing.
///
/// In contracts it is the list of its bytes.
#[derive(Drop)]
pub struct Line {
    bytes: [u8; SIZE],
    start: usize,
}

impl Model for Line {
    ghost use Rattle.std.specs.Prelude.{List, ℕ, drop, ◌≤◌};

    ghost Value = { List ℕ };

    ghost view = { λ l. drop l.start l.bytes };

    ghost invariant = { λ l. l.start ≤ 160 };
}

impl Line {
    /// Returns an empty line.
    pub fn new() -> Self
        ensures { result ≡ [] }
    {
        Line {
            bytes: [0; SIZE],
            start: SIZE,
        }
    }

    /// Removes all bytes.
    pub fn clear(&mut self)
        ensures { self.new ≡ [] }
    {
        self.start = SIZE;
    }

    /// Puts bytes in front of those in the line.
    pub fn put_text(&mut self, text: &[u8])
        requires { length text.now + length self.old ≤ 160 }
        ensures text { self.new ≡ text.now ++ self.old }
        ensures grows { length self.new ≡ length text.now + length self.old }
    {
        let start = self.start - text.len();
        self.bytes[start..self.start].copy_from_slice(text);
        self.start = start;
    }

    /// Puts the decimal digits of a number in front of the bytes in the line.
    pub fn put_number(&mut self, value: u64)
        requires { length self.old ≤ 140 }
        ensures text { self.new ≡ decimal value ++ self.old }
        ensures short { length self.new ≤ length self.old + 20 }
    {
        self.start = write_digits(value, &mut self.bytes, self.start);
    }

    /// Returns the bytes.
    pub fn as_slice(&self) -> &[u8]
        ensures { result.now ≡ self.now }
    {
        &self.bytes[self.start..]
    }
}
