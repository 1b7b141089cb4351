// Reads the pieces of a trace, by workers.

ghost use Rattle.std.specs.Prelude.{◌≡◌, ◌^◌, ◌<◌, ◌≤◌, ℕ, [], length, map, get_or, slice_index_or, IfOk};
ghost use Rattle.csv.specs.Records.{fields_of};
ghost use Rattle.mq_trace.specs.Pieces.{Reads, piece_data};
ghost use Rattle.mq_trace.specs.Reading.{IsHeaderOf};
ghost use Rattle.mq_trace.specs.Trace.{text_records};

use crate::fault::TraceFault;
use crate::header::Header;
use crate::piece::read_piece;
use mq_base::{List, OutOfMemory};
use mq_core::{Network, Rows};
use mq_crew::{Crew, Open, Pieces};
use std::alloc::Global;
use std::thread::Threads;

// A text in pieces, each read separately. The header is the first record of the first piece.
#[derive(Drop)]
struct TracePieces<'a> {
    pieces: &'a [&'a [u8]],
    net: &'a Network,
    header: &'a Header,
    ghost few: { length pieces.now < 2 ^ 32 },
    ghost is_header: { IsHeaderOf net.now header.now },
    ghost nodes: { length net.now.nodes < 2 ^ 32 },
    ghost first: { 1 ≤ length (text_records (get_or (map (λ s. s.now) pieces.now) 0 [])) },
}

impl<'a> Pieces for TracePieces<'a> {
    type Piece = Result<Rows, TraceFault>;

    ghost fit = { λ s. Unit {0} };

    ghost size = { λ s. length s.pieces.now };

    ghost is_piece = { λ s b p. Reads s.net.now (fields_of s.header.now.names) (piece_data b (get_or (map (λ t. t.now) s.pieces.now) b [])) p };

    fn count(&self) -> u32 {
        self.pieces.len() as u32
    }

    fn piece(&self, alloc: Global, b: u32) -> Result<Result<Rows, TraceFault>, OutOfMemory> {
        let at = b as usize;
        Ok(read_piece(alloc, at, self.pieces[at], self.net, self.header))
    }
}

/// Reads each piece separately, by `workers` workers, and returns its rows or its first error.
pub fn read_each<R: Threads + Sync>(
    crew: &Crew<R, Open>,
    pieces: &[&[u8]],
    net: &Network,
    header: &Header,
) -> Result<List<Result<Rows, TraceFault>>, OutOfMemory>
    requires few { length pieces.now < 2 ^ 32 }
    requires header { IsHeaderOf net.now header.now }
    requires nodes { length net.now.nodes < 2 ^ 32 }
    requires first { 1 ≤ length (text_records (get_or (map (λ s. s.now) pieces.now) 0 [])) }
    ensures len { IfOk result (λ l. length l ≡ length pieces.now) }
    ensures each { IfOk result (λ l. (i : ℕ) (d : _) → i < length pieces.now → Reads net.now (fields_of header.now.names) (piece_data i (get_or (map (λ s. s.now) pieces.now) i [])) (slice_index_or l i d)) }
{
    let all = TracePieces {
        pieces,
        net,
        header,
    };
    crew.made(&all)
}
