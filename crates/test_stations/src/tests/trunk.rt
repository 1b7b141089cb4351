// Rounds and windows of a trunk group.
ghost use Rattle.std.specs.Prelude.{◌≡◌, ◌<◌, IfOk, length};
ghost use Rattle.mq_core.specs.Sequences.{IsSoundLoad, IsStream};

use mq_base::{List, OutOfMemory, Steps};
use mq_core::Stream;
use mq_trunk::{settle_trunk, trunk_round};
use std::alloc::Global;
use std::marker::Brand;
use std::sync::ledger::{Blank, Ledger};
use std::test::Fail;

// Arrivals and one demand each.
#[derive(Drop)]
struct Load {
    stream: Stream,
    demands: List<u64>,
}

// Returns jobs at these times, with these demands, by position.
fn load_of(
    alloc: Global,
    jobs: &[u32],
    arrive: &[u64],
    demands: &[u64],
) -> Result<Load, OutOfMemory>
    requires load { IsSoundLoad arrive.now demands.now }
    requires stream { IsStream (record { job = jobs.now; time = arrive.now }) }
    ensures load { IfOk result (λ load. IsSoundLoad load.stream.time load.demands) }
    ensures stream { IfOk result (λ load. IsStream load.stream) }
    ensures many { IfOk result (λ load. length load.stream.time ≡ length arrive.now) }
{
    let stream = Stream {
        job: List::from_vec(Vec::from_slice(alloc, jobs)?),
        time: List::from_vec(Vec::from_slice(alloc, arrive)?),
    };
    let demands = List::from_vec(Vec::from_slice(alloc, demands)?);
    Ok(Load { stream, demands })
}

// Returns the rounds and judgements of a load, with a first window of five and a counter of its own.
fn counts_with<L: Ledger>(
    alloc: Global,
    load: &Load,
    servers: u8,
    blank: Blank,
) -> Result<(u32, u64), OutOfMemory>
    requires load { IsSoundLoad load.now.stream.time load.now.demands }
    requires stream { IsStream load.now.stream }
    requires name { blank.name ≡ L.name }
    requires parts { blank.parts ≡ L.parts }
    requires some { 0 < blank.parts }
{
    let mut steps = Steps::<L>::new(blank);
    let found = settle_trunk(alloc, &load.stream, &load.demands, servers, 5, &mut steps)?;
    let counts = (found.rounds, found.judged);
    drop(found);
    Ok(counts)
}

// Returns them with a counter that nothing reads.
fn counts_of(alloc: Global, load: &Load, servers: u8) -> Result<(u32, u64), OutOfMemory>
    requires load { IsSoundLoad load.now.stream.time load.now.demands }
    requires stream { IsStream load.now.stream }
{
    counts_with::<Brand>(alloc, load, servers, Blank::new(1))
}

// Returns whether a round of this load at two servers gives this answer to this guess.
fn round_answers(
    alloc: Global,
    load: &Load,
    guess: [bool; 5],
    wanted: [bool; 5],
) -> Result<bool, OutOfMemory>
    requires load { IsSoundLoad load.now.stream.time load.now.demands }
    requires five { length load.now.stream.time ≡ 5 }
{
    let guess = List::from_vec(Vec::from_slice(alloc, &guess)?);
    let answer = trunk_round(alloc, &load.stream, &load.demands, 2, &guess)?;
    Ok(answer.as_slice() == wanted.as_slice())
}

// Returns whether the rounds of this load, from a guess that admits all, give these answers in turn.
fn rounds_answer(alloc: Global, load: &Load) -> Result<bool, OutOfMemory>
    requires load { IsSoundLoad load.now.stream.time load.now.demands }
    requires five { length load.now.stream.time ≡ 5 }
{
    let mut guess = [true, true, true, true, true];
    for wanted in [
        [true, true, false, false, false],
        [true, true, false, true, true],
        [true, true, false, true, true],
    ] {
        if !round_answers(alloc, load, guess, wanted)? {
            return Ok(false);
        }
        guess = wanted;
    }
    Ok(true)
}

// Returns the same for one arrival per tick, each served for 3 ticks.
fn each_tick_answers(alloc: Global) -> Result<bool, OutOfMemory> {
    let jobs = [0, 1, 2, 3, 4];
    let load = load_of(alloc, &jobs, &[0, 1, 2, 3, 4], &[3, 3, 3, 3, 3])?;
    rounds_answer(alloc, &load)
}

#[test]
fn a_round_of_a_trunk_judges_by_the_guess(rt: HostRuntime) -> Result<(), Fail> {
    assert!(rt; each_tick_answers(rt.alloc())?);
    Ok(())
}

/// What comes to a trunk group with this many servers, and the numbers of rounds and judgements that
/// settle it.
#[derive(Clone, Copy)]
struct Case<'a> {
    jobs: &'a [u32],
    arrive: &'a [u64],
    demands: &'a [u64],
    servers: u8,
    counts: (u32, u64),
}

// Returns whether a case takes these numbers of rounds and judgements.
fn takes_so_many(alloc: Global, case: &Case<'_>) -> Result<bool, OutOfMemory>
    requires load { IsSoundLoad case.now.arrive.now case.now.demands.now }
    requires stream { IsStream (record { job = case.now.jobs.now; time = case.now.arrive.now }) }
{
    let load = load_of(alloc, case.jobs, case.arrive, case.demands)?;
    let counts = counts_of(alloc, &load, case.servers)?;
    drop(load);
    Ok(counts == case.counts)
}

// The third finds both servers busy.
const ONE_LOST: Case<'static> = Case {
    jobs: &[0, 1, 2, 3, 4],
    arrive: &[0, 1, 2, 3, 4],
    demands: &[3, 3, 3, 3, 3],
    servers: 2,
    counts: (2, 7),
};

const OVERTAKING: Case<'static> = Case {
    jobs: &[0, 1],
    arrive: &[0, 1],
    demands: &[5, 1],
    servers: 2,
    counts: (1, 2),
};

// Every other job is lost.
const SINGLE: Case<'static> = Case {
    jobs: &[5, 8, 6, 7],
    arrive: &[0, 1, 2, 3],
    demands: &[2, 9, 2, 9],
    servers: 1,
    counts: (2, 6),
};

const ENOUGH_SERVERS: Case<'static> = Case {
    jobs: &[7, 3, 5],
    arrive: &[0, 3, 3],
    demands: &[5, 2, 0],
    servers: 255,
    counts: (1, 3),
};

fn all_take_so_many(alloc: Global) -> Result<bool, OutOfMemory> {
    Ok(
        takes_so_many(alloc, &ONE_LOST)?
            && takes_so_many(alloc, &OVERTAKING)?
            && takes_so_many(alloc, &SINGLE)?
            && takes_so_many(alloc, &ENOUGH_SERVERS)?,
    )
}

#[test]
fn windows_settle_a_trunk(rt: HostRuntime) -> Result<(), Fail> {
    assert!(rt; all_take_so_many(rt.alloc())?);
    Ok(())
}
