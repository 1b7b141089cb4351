// What came to a node that only read it: its visits keep jobs and times of their own, copied in two more pieces.
ghost use Rattle.std.specs.Prelude.{◌≡◌, ◌<◌, ℕ, Some, slice_get, IfOk};
ghost use Rattle.mq_core.specs.declared.model.Plan.{Plan as ThePlan};
ghost use Rattle.mq_core.specs.declared.model.Rows.{Rows as TheRows};
ghost use Rattle.mq_crew.specs.Crew.{AreAll};
ghost use Rattle.mq_merge.specs.Borrowed.{stream_in};
ghost use Rattle.mq_exits.specs.Keeping.{IsKeepingPiece, IsOwnPiece, copies_of, copy_pieces, keeping_size, own_size};
ghost use Rattle.mq_exits.specs.declared.keeping.Keeping.{Keeping as TheKeeping};

use mq_base::{List, OutOfMemory};
use mq_core::Stream;
use mq_kinds::{Piece, last_content};
use mq_merge::Arrivals;
use std::alloc::Global;

/// Returns the number of pieces that copy what came.
pub fn copies(arrivals: &Arrivals) -> u32
    ensures { result ≡ copies_of arrivals.now }
{
    match arrivals {
        Arrivals::Merged(_) => 0,
        Arrivals::Read(_) => 2,
    }
}

/// Makes one of them: the jobs, or when they came.
pub fn copy_of(alloc: Global, arrivals: &Stream, k: u32) -> Result<Piece, OutOfMemory>
    requires { k < 2 }
    ensures { IfOk result (λ piece. slice_get (copy_pieces arrivals.now) k ≡ Some piece) }
{
    if k == 0 {
        let jobs = Vec::from_slice(alloc, arrivals.job.as_slice())?;
        return Ok(Piece::Numbers(List::from_vec(jobs)));
    }
    let times = Vec::from_slice(alloc, arrivals.time.as_slice())?;
    Ok(Piece::Times(List::from_vec(times)))
}

/// Returns a stream of nobody.
pub fn no_stream(alloc: Global) -> Stream {
    Stream {
        job: List::new(alloc),
        time: List::new(alloc),
    }
}

/// Returns what came, as a stream of its own: merged, or put together from the copies, which are taken off the pieces.
pub fn taken(arrivals: Arrivals, made: &mut Vec<Piece>) -> Stream
    requires { (plan : ThePlan) × (rows : TheRows) × (v : ℕ) × (keeping : TheKeeping) × AreAll (IsKeepingPiece plan rows v arrivals keeping) (keeping_size arrivals keeping) made.old.items }
    ensures stream { result ≡ stream_in arrivals.entry }
    ensures made { (plan : ThePlan) (rows : TheRows) (v : ℕ) (keeping : TheKeeping) → AreAll (IsKeepingPiece plan rows v arrivals.entry keeping) (keeping_size arrivals.entry keeping) made.old.items → AreAll (IsOwnPiece plan rows v (stream_in arrivals.entry) keeping) (own_size keeping) made.new.items }
{
    match arrivals {
        Arrivals::Merged(stream) => stream,
        Arrivals::Read(_) => {
            let time = last_content(made);
            let job = last_content(made);
            Stream { job, time }
        }
    }
}
