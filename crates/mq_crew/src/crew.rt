// A crew, and the lists of pieces that it makes.
ghost use Rattle.std.specs.Prelude.{◌≡◌, ◌≤◌, IfOk};
ghost use Rattle.mq_crew.specs.Crew.{AreAll, AreRecorded};

use crate::order::placed;
use crate::workers::crew;
use crate::{Gate, Pieces};
use mq_base::{List, OutOfMemory};
use mq_claims::Claims;
use std::alloc::Global;
use std::thread::Threads;

/// Who makes the pieces of a list: 1 to 64 workers, which are threads of this runtime, and enter this gate.
#[derive(Drop)]
pub struct Crew<'a, R, G> {
    pub rt: &'a R,
    pub alloc: Global,
    pub workers: u32,
    pub gate: &'a G,
    pub ghost some: { 1 ≤ workers },
    pub ghost most: { workers ≤ 64 },
}

impl<'a, R: Threads + Sync, G: Gate> Crew<'a, R, G> {
    /// Returns a crew of this many workers.
    pub fn new(rt: &'a R, alloc: Global, workers: u32, gate: &'a G) -> Crew<'a, R, G>
        requires some { 1 ≤ workers }
        requires most { workers ≤ 64 }
        ensures { result.workers ≡ workers }
    {
        Crew {
            rt,
            alloc,
            workers,
            gate,
        }
    }

    /// Returns the same crew with this many workers.
    pub fn with(&self, workers: u32) -> Crew<'a, R, G>
        requires some { 1 ≤ workers }
        requires most { workers ≤ 64 }
        ensures { result.workers ≡ workers }
    {
        Crew::new(self.rt, self.alloc, workers, self.gate)
    }

    /// Returns all pieces, each at its index. The workers draw the indices; no more of them start than
    /// there are pieces, but at least one. Each enters the gate with a number that it drew, and then makes
    /// that piece. Some schedule of the machine of workers records these pieces. The only error is that
    /// memory runs out.
    pub fn run_pieces<P: Pieces>(&self, pieces: &P) -> Result<List<P::Piece>, OutOfMemory>
        requires fit { P.fit pieces.now }
        ensures all { IfOk result (λ l. AreAll (P.is_piece pieces.now) (P.size pieces.now) l) }
        ensures recorded { IfOk result (λ l. AreRecorded self.now.workers (P.size pieces.now) l) }
    {
        let count = pieces.count();
        let workers = self.workers.min(count).max(1);
        let (claims, seat) = Claims::new(self.alloc, count, workers)?;
        let (seat, made) = crew(
            self.rt, self.alloc, &claims, seat, 0, workers, pieces, self.gate,
        );
        claims.close(seat);
        placed(self.alloc, count, made?)
    }

    /// Returns all pieces, each at its index. Fewer than two are made directly, without workers or gate;
    /// others by `run_pieces`. The only error is that memory runs out.
    pub fn made<P: Pieces>(&self, pieces: &P) -> Result<List<P::Piece>, OutOfMemory>
        requires { P.fit pieces.now }
        ensures { IfOk result (λ made. AreAll (P.is_piece pieces.now) (P.size pieces.now) made) }
    {
        let count = pieces.count();
        if count > 1 {
            return self.run_pieces(pieces);
        }
        let mut made = List::new(self.alloc);
        if count == 1 {
            made.push(pieces.piece(self.alloc, 0)?)?;
        }
        Ok(made)
    }
}
