// Finds the ends of pieces, by workers.

ghost use Rattle.std.specs.Prelude.{◌≡◌, ◌^◌, ◌<◌, ℕ, [], true, false, length, map, get_or, IfOk};
ghost use Rattle.mq_trace.specs.Quotes.{is_closed};

use crate::quotes::ends_outside;
use mq_base::{List, OutOfMemory};
use mq_crew::{Crew, Open, Pieces};
use std::alloc::Global;
use std::thread::Threads;

// The pieces of a text, each read as if it began outside quotes.
#[derive(Drop)]
struct Ends<'a> {
    pieces: &'a [&'a [u8]],
    ghost few: { length pieces.now < 2 ^ 32 },
}

impl<'a> Pieces for Ends<'a> {
    type Piece = bool;

    ghost fit = { λ s. Unit {0} };

    ghost size = { λ s. length s.pieces.now };

    ghost is_piece = { λ s b p. p ≡ is_closed true (get_or (map (λ t. t.now) s.pieces.now) b []) };

    fn count(&self) -> u32 {
        self.pieces.len() as u32
    }

    fn piece(&self, _: Global, b: u32) -> Result<bool, OutOfMemory> {
        Ok(ends_outside(self.pieces[b as usize], true))
    }
}

/// Returns for each piece whether it ends outside quotes if it begins outside them.
pub fn find_ends<R: Threads + Sync>(
    crew: &Crew<R, Open>,
    pieces: &[&[u8]],
) -> Result<List<bool>, OutOfMemory>
    requires few { length pieces.now < 2 ^ 32 }
    ensures len { IfOk result (λ l. length l ≡ length pieces.now) }
    ensures each { IfOk result (λ l. (i : ℕ) → i < length pieces.now → get_or l i false ≡ is_closed true (get_or (map (λ s. s.now) pieces.now) i [])) }
{
    crew.made(&Ends { pieces })
}
