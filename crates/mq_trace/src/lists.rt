// The rows of pieces, one piece after another. Each list is a piece of work, which one worker makes whole.

ghost use Rattle.std.specs.Prelude.{◌≡◌, ◌+◌, ◌-◌, ◌<◌, ◌≤◌, length, IfOk};
ghost use Rattle.mq_trace.specs.Joined.{AreJoined, HaveColumns, IsListAt, all_numbers, all_sources, piece_numbers, piece_sources};

use crate::fault::TraceFault;
use mq_base::{List, OutOfMemory};
use mq_core::Rows;
use mq_crew::{Crew, Open, Pieces};
use std::alloc::Global;
use std::thread::Threads;

/// One list of the rows.
#[derive(Drop)]
pub enum RowList {
    /// The source node of each job.
    Sources(List<u32>),
    /// The arrival time of each job, in ticks, or its values in a column.
    Numbers(List<u64>),
}

/// What was read from pieces without an error: `count` rows in all, each with `columns` columns.
///
/// The lists are made in the reverse of the order in which they are popped: first the columns, from the last to
/// the first, then the times, then the sources.
#[derive(Drop)]
pub struct Lists<'a> {
    pub read: &'a [Result<Rows, TraceFault>],
    pub count: u32,
    pub columns: u32,
}

impl<'a> Pieces for Lists<'a> {
    type Piece = RowList;

    ghost fit = { λ s. (s.columns ≤ 16) × HaveColumns s.columns s.read.now };

    ghost size = { λ s. s.columns + 2 };

    ghost is_piece = { λ s b list. IsListAt s.columns s.read.now b list };

    fn count(&self) -> u32 {
        self.columns + 2
    }

    fn piece(&self, alloc: Global, b: u32) -> Result<RowList, OutOfMemory> {
        if b > self.columns {
            return Ok(RowList::Sources(sources(alloc, self)?));
        }
        let place = (self.columns - b) as usize;
        Ok(RowList::Numbers(numbers(alloc, self, place)?))
    }
}

// The sources of a piece. A piece with an error has none.
fn sources_of(piece: &Result<Rows, TraceFault>) -> &[u32]
    ensures { result.now ≡ piece_sources piece.now }
{
    match piece {
        Ok(rows) => rows.source.as_slice(),
        Err(_) => &[],
    }
}

// The numbers of a piece at a place: the times at place 0, the values of the columns at the places after it.
fn numbers_of(piece: &Result<Rows, TraceFault>, place: usize) -> &[u64]
    requires { IfOk piece.now (λ rows. place ≤ length rows.demands) }
    ensures { result.now ≡ piece_numbers place piece.now }
{
    match piece {
        Ok(rows) if place == 0 => rows.time.as_slice(),
        Ok(rows) => rows.demands.get(place - 1).as_slice(),
        Err(_) => &[],
    }
}

// The sources of all pieces.
fn sources(alloc: Global, lists: &Lists) -> Result<List<u32>, OutOfMemory>
    ensures { IfOk result (λ list. list ≡ all_sources lists.now.read.now) }
{
    let read = lists.read;
    let mut all = List::from_vec(Vec::with_capacity(alloc, lists.count as usize)?);
    for piece in read {
        all.extend_from_slice(sources_of(piece))?;
    }
    Ok(all)
}

// The numbers of all pieces at a place.
fn numbers(alloc: Global, lists: &Lists, place: usize) -> Result<List<u64>, OutOfMemory>
    requires columns { HaveColumns lists.now.columns lists.now.read.now }
    requires inside { place ≤ lists.now.columns }
    ensures { IfOk result (λ list. list ≡ all_numbers place lists.now.read.now) }
{
    let read = lists.read;
    let mut all = List::from_vec(Vec::with_capacity(alloc, lists.count as usize)?);
    for piece in read {
        all.extend_from_slice(numbers_of(piece, place))?;
    }
    Ok(all)
}

/// Returns the rows of pieces, one piece after another, joined by `workers` workers.
pub fn joined<R: Threads + Sync>(crew: &Crew<R, Open>, lists: &Lists) -> Result<Rows, OutOfMemory>
    requires few { lists.now.columns ≤ 16 }
    requires columns { HaveColumns lists.now.columns lists.now.read.now }
    ensures { IfOk result (AreJoined lists.now.columns lists.now.read.now) }
{
    let mut demands = Vec::with_capacity(crew.alloc, lists.columns as usize)?;
    let mut left = crew.made(lists)?.into_vec();
    let source = match left.pop() {
        Some(RowList::Sources(source)) => source,
        _ => unreachable!(),
    };
    let time = match left.pop() {
        Some(RowList::Numbers(time)) => time,
        _ => unreachable!(),
    };
    while let Some(list) = left.pop() {
        match list {
            RowList::Numbers(values) => demands.push_reserved(values),
            RowList::Sources(_) => unreachable!(),
        }
    }
    Ok(Rows {
        source,
        time,
        demands: List::from_vec(demands),
    })
}
