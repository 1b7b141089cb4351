// The nodes of a wave on two sides, which are worked out beside each other.
ghost use Rattle.std.specs.Prelude.{◌≡◌, ◌+◌, ◌-◌, ◌++◌, ◌≤◌, Contains, length, min, IfOk, IsOkAnd};
ghost use Rattle.std.specs.List.Sorted.{IsPermutation};
ghost use Rattle.std.specs.Thread.{IsSync};
ghost use Rattle.mq_engine.specs.Waves.{AreGiven, IsSide, IsWave};

use crate::wave::{coming_by_ports, side_of};
use mq_arrivals::Arriving;
use mq_base::{List, OutOfMemory};
use mq_core::Kind;
use mq_crew::{Crew, Gate};
use mq_exits::{Given, Keep};
use std::alloc::Global;
use std::marker::Sync;
use std::thread::{Threads, join};

/// The nodes of a wave, on two sides.
#[derive(Drop)]
pub struct Sides {
    /// Stations that are one long piece each.
    pub long: Vec<u32>,
    pub others: Vec<u32>,
}

// How many jobs come to all nodes that are ready, by their ports.
fn coming_to_all(arriving: &Arriving) -> u64
    requires wave { IsWave arriving.now }
    requires few { length arriving.now.ready.now ≤ 64 }
{
    let mut count = 0;
    for at in 0..arriving.ready.len() {
        count += coming_by_ports(arriving, arriving.ready[at]) as u64;
    }
    count
}

// Whether a node is a station of one long piece: its rounds depend on one another, so none of its blocks can be settled alone, and
// more jobs come to it than the even share of a worker in what comes to all. The wave ends no sooner than that piece.
// A further kind that is settled in rounds adds its case here.
fn is_long(arriving: &Arriving, workers: u32, number: u32, all: u64) -> bool
    requires wave { IsWave arriving.now }
    requires ready { Contains arriving.now.ready.now number }
    requires most { workers ≤ 64 }
{
    match &arriving.plan.net.nodes.get(number as usize).kind {
        Kind::Loss { .. } | Kind::Trunk { .. } => {
            let count = coming_by_ports(arriving, number) as u64;
            count * workers as u64 > all
        }
        Kind::Source
        | Kind::Server(_)
        | Kind::Delay(_)
        | Kind::Tandem(_)
        | Kind::ForkJoin(_)
        | Kind::Split(_)
        | Kind::Fork { .. }
        | Kind::Join => false,
    }
}

// The nodes that are ready, parted: each is on one side.
pub fn sides_of(alloc: Global, arriving: &Arriving, workers: u32) -> Result<Sides, OutOfMemory>
    requires wave { IsWave arriving.now }
    requires few { length arriving.now.ready.now ≤ 64 }
    requires most { workers ≤ 64 }
    ensures { IfOk result (λ sides. IsPermutation (sides.long.items ++ sides.others.items) arriving.now.ready.now) }
{
    let all = coming_to_all(arriving);
    let mut sides = Sides {
        long: Vec::new(alloc),
        others: Vec::new(alloc),
    };
    for at in 0..arriving.ready.len() {
        let number = arriving.ready[at];
        if is_long(arriving, workers, number, all) {
            sides.long.push(number)?;
        } else {
            sides.others.push(number)?;
        }
    }
    Ok(sides)
}

// The workers of both sides: one for each long piece, but one at least is left for the others.
pub fn shares(workers: u32, long: u32) -> (u32, u32)
    requires workers { 2 ≤ workers }
    requires long { 1 ≤ long }
    ensures long { result.0 ≡ min long (workers - 1) }
    ensures all { result.0 + result.1 ≡ workers }
    ensures some { (1 ≤ result.0) × (1 ≤ result.1) }
{
    let few = long.min(workers - 1);
    (few, workers - few)
}

// What the nodes of both sides give, each worked out by its own workers.
pub fn side_by_side<'a, R: Threads + Sync, G: Gate>(
    keep: Keep,
    few: &Crew<R, G>,
    long: &Arriving<'a, '_>,
    many: &Crew<R, G>,
    others: &Arriving<'a, '_>,
) -> (
    Result<List<Given<'a>>, OutOfMemory>,
    Result<List<Given<'a>>, OutOfMemory>,
)
    requires long { IsSide long.now }
    requires others { IsSide others.now }
    ensures long { IfOk result.0 (AreGiven keep long.now) }
    ensures others { IfOk result.1 (AreGiven keep others.now) }
{
    let front = move || -> Result<List<Given>, OutOfMemory>
        requires { IsSync R.row × IsSync G.row × IsSide long.now }
        ensures { IfOk result (AreGiven keep long.entry.now) }
    { side_of(few, keep, long) };
    let back = move || -> Result<List<Given>, OutOfMemory>
        requires { IsSync R.row × IsSync G.row × IsSide others.now }
        ensures { IfOk result (AreGiven keep others.entry.now) }
    { side_of(many, keep, others) };
    join(few.rt, front, back)
}

// What both give, one behind the other, or the refusal of either.
pub fn appended<'a>(
    first: Result<List<Given<'a>>, OutOfMemory>,
    second: Result<List<Given<'a>>, OutOfMemory>,
) -> Result<List<Given<'a>>, OutOfMemory>
    ensures { IfOk result (λ all. IsOkAnd first.entry (λ a. IsOkAnd second.entry (λ b. all ≡ a ++ b))) }
{
    let mut all = first?.into_vec();
    let mut more = second?.into_vec();
    all.append(&mut more)?;
    Ok(List::from_vec(all))
}
