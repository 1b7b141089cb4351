// Squares as pieces, made by several workers, with gates that count and hold.
ghost use Rattle.std.specs.Prelude.{◌≡◌, ◌+◌, ◌*◌, ◌<◌, ◌≤◌, ◌^◌, length, IfOk};

use super::meeting::Meeting;
use mq_base::{List, OutOfMemory};
use mq_chain::ChainSeat;
use mq_claims::ClaimSeat;
use mq_crew::{Crew, Gate, Open, Pieces, merged, placed};
use std::alloc::Global;
use std::sync::atomic::AtomicU64;
use std::sync::atomic::Ordering::SeqCst;
use std::test::Fail;
use std::thread::Threads;

#[derive(Clone, Copy)]
struct Squares {
    count: u32,
}

impl Pieces for Squares {
    type Piece = u64;

    ghost fit = { λ s. Unit {0} };

    ghost size = { λ s. s.count };

    ghost is_piece = { λ s b p. p ≡ b * b };

    fn count(&self) -> u32 {
        self.count
    }

    fn piece(&self, _alloc: Global, b: u32) -> Result<u64, OutOfMemory> {
        Ok(b as u64 * b as u64)
    }
}

// Returns whether these workers make these squares, the first ones.
fn squares_are<R: Threads + Sync>(
    rt: &R,
    alloc: Global,
    workers: u32,
    wanted: &[u64],
) -> Result<bool, OutOfMemory>
    requires some { 1 ≤ workers }
    requires most { workers ≤ 64 }
    requires few { length wanted.now < 2 ^ 32 }
{
    let squares = Squares {
        count: wanted.len() as u32,
    };
    let found = Crew::new(rt, alloc, workers, &Open).run_pieces(&squares)?;
    Ok(found.as_slice() == wanted)
}

// Returns the first hundred squares.
fn hundred(alloc: Global) -> Result<Vec<u64>, OutOfMemory>
    ensures { IfOk result (λ squares. length squares.items ≡ 100) }
{
    let mut squares = Vec::new(alloc);
    'fills: for b in 0..100u64 {
        squares.push(b * b)?;
    }
    Ok(squares)
}

// Returns whether 64 workers make the first hundred squares.
fn hundred_stand<R: Threads + Sync>(rt: &R, alloc: Global) -> Result<bool, OutOfMemory> {
    let wanted = hundred(alloc)?;
    let stand = squares_are(rt, alloc, 64, &wanted);
    drop(wanted);
    stand
}

fn squares_stand<R: Threads + Sync>(rt: &R, alloc: Global) -> Result<bool, OutOfMemory> {
    let five: &[u64] = &[0, 1, 4, 9, 16];
    Ok(
        squares_are(rt, alloc, 1, five)?
            && squares_are(rt, alloc, 3, five)?
            && squares_are(rt, alloc, 64, five)?
            && hundred_stand(rt, alloc)?
            && squares_are(rt, alloc, 3, &[])?,
    )
}

#[test]
fn the_pieces_stand_at_their_places(rt: HostRuntime) -> Result<(), Fail> {
    assert!(rt; squares_stand(&rt, rt.alloc())?);
    Ok(())
}

// Returns whether the pieces that two workers return, out of order, are put at their
// indices.
fn both_are_placed(alloc: Global) -> Result<bool, OutOfMemory> {
    let first = Vec::from_slice(alloc, &[(2u32, 4u64), (0, 0)])?;
    let second = Vec::from_slice(alloc, &[(1u32, 1u64)])?;
    let items = placed(alloc, 3, merged(Ok(first), Ok(second))?)?;
    Ok(items.as_slice() == [0, 1, 4].as_slice())
}

#[test]
fn two_lists_become_one(rt: HostRuntime) -> Result<(), Fail> {
    assert!(rt; both_are_placed(rt.alloc())?);
    Ok(())
}

// Counts its entries.
#[derive(Drop)]
struct Counter {
    entries: AtomicU64,
}

impl Gate for Counter {
    fn enter(&self, _seat: &ClaimSeat, _worker: u32, _piece: u32) {
        self.entries.fetch_add(1, SeqCst);
    }

    fn enter_block(&self, _seat: &ChainSeat, _worker: u32, _block: u32) {}
}

// Returns whether workers make these squares, and enter the gate this many times.
fn made_are<R: Threads + Sync>(
    rt: &R,
    alloc: Global,
    wanted: &[u64],
    entries: u64,
) -> Result<bool, OutOfMemory>
    requires few { length wanted.now < 2 ^ 32 }
{
    let squares = Squares {
        count: wanted.len() as u32,
    };
    let gate = Counter {
        entries: AtomicU64::new(0),
    };
    let found = Crew::new(rt, alloc, 2, &gate).made(&squares)?;
    Ok(found.as_slice() == wanted && gate.entries.load(SeqCst) == entries)
}

#[test]
fn fewer_than_two_enter_no_gate(rt: HostRuntime) -> Result<(), Fail> {
    assert!(rt; made_are(&rt, rt.alloc(), &[], 0)?);
    assert!(rt; made_are(&rt, rt.alloc(), &[0], 0)?);
    assert!(rt; made_are(&rt, rt.alloc(), &[0, 1, 4], 3)?);
    Ok(())
}

// Returns whether three parts make lists of their own, the second of them empty.
fn parts_are_apart<R: Threads + Sync>(rt: &R, alloc: Global) -> Result<bool, OutOfMemory> {
    let parts = [
        Squares { count: 3 },
        Squares { count: 0 },
        Squares { count: 2 },
    ];
    let groups = Crew::new(rt, alloc, 3, &Open).parts(parts.as_slice())?;
    Ok(
        groups.len() == 3
            && groups.get(0).as_slice() == [0, 1, 4].as_slice()
            && groups.get(1).is_empty()
            && groups.get(2).as_slice() == [0, 1].as_slice(),
    )
}

#[test]
fn each_part_has_its_own_list(rt: HostRuntime) -> Result<(), Fail> {
    assert!(rt; parts_are_apart(&rt, rt.alloc())?);
    Ok(())
}

// Holds the workers with the first five pieces.
#[derive(Drop)]
struct AtPieces {
    meeting: Meeting,
}

impl Gate for AtPieces {
    fn enter(&self, _seat: &ClaimSeat, worker: u32, piece: u32) {
        self.meeting.enter(worker, piece);
    }

    fn enter_block(&self, _seat: &ChainSeat, _worker: u32, _block: u32) {}
}

// Returns whether this many workers, in place of the one that a crew had, make this many squares, and five of them meet.
fn five_meet<R: Threads + Sync>(
    rt: &R,
    alloc: Global,
    workers: u32,
    count: u32,
) -> Result<bool, OutOfMemory>
    requires some { 1 ≤ workers }
    requires most { workers ≤ 64 }
    requires few { count ≤ 6 }
{
    let gate = AtPieces {
        meeting: Meeting::of_nobody(),
    };
    let crew = Crew::new(rt, alloc, 1, &gate).with(workers);
    let squares = crew.run_pieces(&Squares { count })?;
    let wanted: &[u64] = &[0, 1, 4, 9, 16, 25];
    Ok(squares.as_slice() == &wanted[..count as usize] && gate.meeting.is_whole())
}

#[test]
fn five_workers_enter_each_by_its_number(rt: HostRuntime) -> Result<(), Fail> {
    assert!(rt; five_meet(&rt, rt.alloc(), 5, 6)?);
    Ok(())
}

#[test]
fn no_more_workers_start_than_there_are_pieces(rt: HostRuntime) -> Result<(), Fail> {
    assert!(rt; five_meet(&rt, rt.alloc(), 64, 5)?);
    Ok(())
}
