// Workers that draw numbers and make pieces.
ghost use Rattle.std.specs.Prelude.{◌≡◌, ◌+◌, ◌<◌, ◌≤◌, [], IfOk};
ghost use Rattle.std.specs.Thread.{IsSync, IsSend};
ghost use Rattle.mq_claims.specs.Seats.{IsSeatOf};
ghost use Rattle.mq_crew.specs.Crew.{IsMadeOf, AreWorked};

use crate::order::merged;
use crate::{Gate, Pieces};
use mq_base::OutOfMemory;
use mq_claims::{ClaimSeat, Claims};
use std::alloc::Global;
use std::thread::{Threads, join};

// One worker draws numbers until one has reached the count, and makes the piece of each below it.
fn work<P: Pieces, G: Gate>(
    alloc: Global,
    claims: &Claims,
    mut seat: ClaimSeat,
    worker: u32,
    pieces: &P,
    gate: &G,
) -> (ClaimSeat, Result<Vec<(u32, P::Piece)>, OutOfMemory>)
    requires fit { P.fit pieces.now }
    requires own { IsSeatOf claims.now seat }
    requires limit { claims.now.limit ≡ P.size pieces.now }
    requires fresh { seat.draws ≡ [] }
    ensures seat { (result.0.table ≡ seat.table) × (result.0.right ≡ seat.right) }
    ensures made { IfOk result.1 (λ v. IsMadeOf (P.is_piece pieces.now) (P.size pieces.now) result.0.draws v.items) }
    ensures worked { IfOk result.1 (λ v. AreWorked (P.size pieces.now) 1 result.0.draws v.items) }
{
    let count = pieces.count();
    let mut made = Vec::new(alloc);
    'draws: loop {
        let number = claims.claim(&mut seat);
        if number >= count as u64 {
            return (seat, Ok(made));
        }
        let b = number as u32;
        gate.enter(&seat, worker, b);
        let piece = match pieces.piece(alloc, b) {
            Ok(piece) => piece,
            Err(refused) => return (seat, Err(refused)),
        };
        if made.push((b, piece)).is_err() {
            return (seat, Err(OutOfMemory));
        }
    }
}

/// Lets `workers` workers, from number `first` on, make the pieces. Each step halves them and starts a new thread for
/// one half.
#[cycle(crew)]
pub(crate) fn crew<P: Pieces, G: Gate, R: Threads + Sync>(
    rt: &R,
    alloc: Global,
    claims: &Claims,
    mut seat: ClaimSeat,
    first: u32,
    workers: u32,
    pieces: &P,
    gate: &G,
) -> (ClaimSeat, Result<Vec<(u32, P::Piece)>, OutOfMemory>)
    requires fit { P.fit pieces.now }
    requires some { 1 ≤ workers }
    requires room { first + workers ≤ 64 }
    requires own { IsSeatOf claims.now seat }
    requires right { seat.right ≡ workers }
    requires limit { claims.now.limit ≡ P.size pieces.now }
    requires fresh { seat.draws ≡ [] }
    ensures seat { (result.0.table ≡ seat.table) × (result.0.right ≡ seat.right) }
    ensures made { IfOk result.1 (λ v. IsMadeOf (P.is_piece pieces.now) (P.size pieces.now) result.0.draws v.items) }
    ensures worked { IfOk result.1 (λ v. AreWorked (P.size pieces.now) workers result.0.draws v.items) }
{
    if workers == 1 {
        return work(alloc, claims, seat, first, pieces, gate);
    }
    let high = workers / 2;
    let low = workers - high;
    let other = claims.split(&mut seat, high);
    let front = move || -> (ClaimSeat, Result<Vec<(u32, P::Piece)>, OutOfMemory>)
        requires { IsSync R.row × IsSync P.row × IsSync G.row × IsSend P.Piece.row × P.fit pieces.now × (1 ≤ low) × (first + low ≤ 64) × IsSeatOf claims.now seat × (seat.right ≡ low) × (claims.now.limit ≡ P.size pieces.now) × (seat.draws ≡ []) }
        ensures { (result.0.table ≡ seat.table) × (result.0.right ≡ seat.right) × IfOk result.1 (λ v. IsMadeOf (P.is_piece pieces.entry.now) (P.size pieces.entry.now) result.0.draws v.items) × IfOk result.1 (λ v. AreWorked (P.size pieces.entry.now) low result.0.draws v.items) }
    { crew(rt, alloc, claims, seat, first, low, pieces, gate) };
    let back = move || -> (ClaimSeat, Result<Vec<(u32, P::Piece)>, OutOfMemory>)
        requires { IsSync R.row × IsSync P.row × IsSync G.row × IsSend P.Piece.row × P.fit pieces.now × (1 ≤ high) × (first + low + high ≤ 64) × IsSeatOf claims.now other × (other.right ≡ high) × (claims.now.limit ≡ P.size pieces.now) × (other.draws ≡ []) }
        ensures { (result.0.table ≡ other.table) × (result.0.right ≡ other.right) × IfOk result.1 (λ v. IsMadeOf (P.is_piece pieces.entry.now) (P.size pieces.entry.now) result.0.draws v.items) × IfOk result.1 (λ v. AreWorked (P.size pieces.entry.now) high result.0.draws v.items) }
    { crew(rt, alloc, claims, other, first + low, high, pieces, gate) };
    let ((mut mine, a), (its, b)) = join(rt, front, back);
    claims.join(&mut mine, its);
    (mine, merged(a, b))
}
