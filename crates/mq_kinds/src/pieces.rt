// What comes to a station, the pieces of work on it, and what leaves it.
ghost use Rattle.std.specs.Prelude.{◌≡◌, ◌<◌, ◌≤◌, ◌*◌, ◌++◌, ◌∷◌, [], ℕ, List as Items, Option, None, Some, drop, length, slice_index_or, take, IfOk, OnOk};
ghost use Rattle.std.specs.List.{filter_map};
ghost use Rattle.std.specs.Vec.Iter.{into_iter_items, into_iter_len};
ghost use Rattle.mq_kinds.specs.Pieces.{HasForm, fared_in, left_in, numbers_in, product_in, streams_in, sum_in, times_in};
ghost use Rattle.mq_kinds.specs.declared.pieces.Piece.{Piece as ThePiece};
ghost use Rattle.mq_stations.specs.Scans.{AreFewBlocks};

use mq_base::{List, OutOfMemory};
use mq_core::{Fates, Kind, PastFault, Rows, Stream};
use mq_maxplus::{Affine, Matrix};
use mq_rounds::Settled;
use mq_scan::{Blocks, block_size, cut};
use std::alloc::Global;
use std::vec::IntoIter;

/// What comes to a station, and what it needs to work on it.
#[derive(Clone, Copy)]
pub struct Load<'r, 's> {
    /// The rows, which give the demands of the jobs.
    pub rows: &'r Rows,
    pub kind: &'r Kind,
    /// All arrivals, in order.
    pub arrivals: &'s Stream,
    /// The least number of jobs in a block, at least 1.
    pub block: u32,
    ghost some: { 1 ≤ block },
}

/// Returns how the arrivals are cut into blocks, by position. A block has at least as many jobs as the load says, and there are
/// at most 16,384 blocks.
pub fn blocks_of(load: &Load) -> Blocks
    requires { length load.now.arrivals.now.time ≤ 1048576 }
    ensures few { AreFewBlocks (length load.now.arrivals.now.time) 16384 result }
    ensures least { load.now.block ≤ result.block }
{
    let jobs = load.arrivals.time.len() as u32;
    cut(jobs, block_size(jobs, load.block))
}

/// What leaves a station.
#[derive(Drop)]
pub enum Left {
    /// The departure of each job, by position, in ticks. The jobs leave by one output, in the order in which they came.
    InTurn(List<u64>),
    /// The departure of each job, by position, in ticks, and the stream that leaves by the only output, in order of
    /// departure.
    Overtaking(List<u64>, Stream),
    /// Which jobs are admitted, and when those depart.
    Settled(Settled),
    /// The stream of each output. Each job departs when it comes.
    Passing(List<Stream>),
}

/// How all arrivals at a station fared.
#[derive(Drop)]
pub enum Faring {
    /// Their fates, and how many jobs each found: none departs after the bound.
    OnTime(Fates, List<u32>),
    /// The first that departs after the bound.
    Late(PastFault),
}

/// One piece of the work on a station.
#[derive(Drop)]
pub enum Piece {
    /// What the jobs of a block of a server do together.
    Sum(Affine),
    /// What the jobs of a block of a tandem do together. A matrix takes some 4,000 bytes, so it has a box.
    Product(Box<Matrix>),
    /// A time for each of some jobs, in ticks: when it departs, or when it came.
    Times(List<u64>),
    /// A number for each of some jobs: how many jobs it found, or the number of its row.
    Numbers(List<u32>),
    /// What leaves by each output, of a block or of the station.
    Streams(List<Stream>),
    /// What leaves a station that is one piece.
    Left(Left),
    /// How all arrivals fared, if some may be lost.
    Fared(Faring),
}

/// What the pieces of one form contain.
pub trait Content: Sized + Drop {
    /// What a piece contains, if it has this form.
    ghost within: { ThePiece → Option Self };

    /// Takes it out of a piece, if the piece has this form.
    fn taken(piece: Piece) -> Option<Self>
        ensures { result ≡ within piece };
}

impl Content for Affine {
    ghost within = { sum_in };

    fn taken(piece: Piece) -> Option<Affine> {
        match piece {
            Piece::Sum(sum) => Some(sum),
            other => none(other),
        }
    }
}

impl Content for Matrix {
    ghost within = { product_in };

    fn taken(piece: Piece) -> Option<Matrix> {
        match piece {
            Piece::Product(product) => Some(*product),
            other => none(other),
        }
    }
}

impl Content for List<u64> {
    ghost within = { times_in };

    fn taken(piece: Piece) -> Option<List<u64>> {
        match piece {
            Piece::Times(times) => Some(times),
            other => none(other),
        }
    }
}

impl Content for List<u32> {
    ghost within = { numbers_in };

    fn taken(piece: Piece) -> Option<List<u32>> {
        match piece {
            Piece::Numbers(numbers) => Some(numbers),
            other => none(other),
        }
    }
}

impl Content for List<Stream> {
    ghost within = { streams_in };

    fn taken(piece: Piece) -> Option<List<Stream>> {
        match piece {
            Piece::Streams(streams) => Some(streams),
            other => none(other),
        }
    }
}

impl Content for Left {
    ghost within = { left_in };

    fn taken(piece: Piece) -> Option<Left> {
        match piece {
            Piece::Left(left) => Some(left),
            other => none(other),
        }
    }
}

impl Content for Faring {
    ghost within = { fared_in };

    fn taken(piece: Piece) -> Option<Faring> {
        match piece {
            Piece::Fared(faring) => Some(faring),
            other => none(other),
        }
    }
}

// Drops a piece of another form.
fn none<X>(piece: Piece) -> Option<X>
    ensures { result ≡ None }
{
    drop(piece);
    None
}

/// Returns what the only piece contains, if it has this form.
pub fn only_content<X: Content>(made: List<Piece>) -> Option<X>
    requires { length made ≡ 1 }
    ensures { (d : ThePiece) → X.within (slice_index_or made 0 d) ≡ result }
{
    let mut made = made.into_vec();
    match made.pop() {
        Some(piece) => X::taken(piece),
        None => None,
    }
}

/// Takes the last of these pieces, which has this form, and returns what it contains.
pub fn last_content<X: Content>(made: &mut Vec<Piece>) -> X
    requires some { 1 ≤ length made.old.items }
    requires form { (front : Items ThePiece) (last : ThePiece) → made.old.items ≡ front ++ last ∷ [] → HasForm X.within last }
    ensures { (last : ThePiece) × (made.old.items ≡ made.new.items ++ last ∷ []) × (X.within last ≡ Some result) }
{
    let Some(piece) = made.pop() else {
        unreachable!()
    };
    let Some(content) = X::taken(piece) else {
        unreachable!()
    };
    content
}

/// Returns what all these pieces contain, in order. Pieces of another form are left out. The only error is out of memory.
pub fn all_contents<X: Content>(alloc: Global, made: List<Piece>) -> Result<List<X>, OutOfMemory>
    ensures { IfOk result (λ contents. contents ≡ filter_map X.within made) }
{
    let count = made.len();
    contents(alloc, count, &mut made.into_vec().into_iter())
}

/// Returns what all these pieces contain, in `count` lists, each from the next `size` pieces. Pieces of another form are
/// left out. The only error is out of memory.
pub fn grouped<X: Content>(
    alloc: Global,
    count: usize,
    size: u32,
    made: List<Piece>,
) -> Result<List<List<X>>, OutOfMemory>
    requires { length made ≡ count * size }
    ensures len { IfOk result (λ groups. length groups ≡ count) }
    ensures each { IfOk result (λ groups. (i : ℕ) (d : Items X) → i < count → slice_index_or groups i d ≡ filter_map X.within (take size (drop (i * size) made))) }
{
    let mut left = made.into_vec().into_iter();
    let mut groups = List::new(alloc);
    'groups: for _ in 0..count {
        let group = contents(alloc, size as usize, &mut left)?;
        groups.push(group)?;
    }
    Ok(groups)
}

// Returns what the next pieces contain, `count` of them, in order. Pieces of another form are left out.
fn contents<X: Content>(
    alloc: Global,
    count: usize,
    left: &mut IntoIter<Piece, Global>,
) -> Result<List<X>, OutOfMemory>
    requires len { into_iter_len left.old ≡ length (into_iter_items left.old) }
    requires room { count ≤ length (into_iter_items left.old) }
    ensures first { IfOk result (λ contents. contents ≡ filter_map X.within (take count (into_iter_items left.old))) }
    ensures rest { OnOk result (into_iter_items left.new ≡ drop count (into_iter_items left.old)) }
    ensures len { OnOk result (into_iter_len left.new ≡ length (into_iter_items left.new)) }
{
    let mut contents = Vec::with_capacity(alloc, count)?;
    'takes: for _ in 0..count {
        if let Some(piece) = left.next() {
            if let Some(content) = X::taken(piece) {
                contents.push_reserved(content);
            }
        }
    }
    Ok(List::from_vec(contents))
}
