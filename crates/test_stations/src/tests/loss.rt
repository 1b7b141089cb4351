ghost use Rattle.std.specs.Prelude.{◌≡◌, ◌≤◌, ◌<◌, IfOk, length};
ghost use Rattle.mq_core.specs.Sequences.{IsSoundLoad};

use mq_base::{List, OutOfMemory, Steps};
use mq_core::Stream;
use mq_loss::{Settled, round, settle, settle_whole};
use std::alloc::Global;
use std::marker::Brand;
use std::sync::ledger::{Blank, Ledger};
use std::test::Fail;

// Arrivals and one demand each.
#[derive(Drop)]
struct Load {
    stream: Stream,
    demands: List<u64>,
}

// Returns one arrival per tick, each served for 2 ticks.
fn each_tick(alloc: Global, count: u32) -> Result<Load, OutOfMemory>
    requires { count ≤ 1048576 }
    ensures load { IfOk result (λ load. IsSoundLoad load.stream.time load.demands) }
    ensures many { IfOk result (λ load. length load.stream.time ≡ count) }
{
    let mut job = List::new(alloc);
    let mut time = List::new(alloc);
    let mut demands = List::new(alloc);
    for at in 0..count {
        job.push(at)?;
        time.push(u64::from(at))?;
        demands.push(2)?;
    }
    Ok(Load {
        stream: Stream { job, time },
        demands,
    })
}

// Settles a station with one place and a counter of its own.
fn settle_with<L: Ledger>(
    alloc: Global,
    load: &Load,
    first: u32,
    blank: Blank,
) -> Result<Settled, OutOfMemory>
    requires load { IsSoundLoad load.now.stream.time load.now.demands }
    requires first { 1 ≤ first }
    requires name { blank.name ≡ L.name }
    requires parts { blank.parts ≡ L.parts }
    requires some { 0 < blank.parts }
{
    let mut steps = Steps::<L>::new(blank);
    settle(alloc, &load.stream, &load.demands, 1, first, &mut steps)
}

// Settles a station with one place and a counter that nothing reads.
fn settled(alloc: Global, load: &Load, first: u32) -> Result<Settled, OutOfMemory>
    requires load { IsSoundLoad load.now.stream.time load.now.demands }
    requires first { 1 ≤ first }
{
    settle_with::<Brand>(alloc, load, first, Blank::new(1))
}

// The result at a station.
#[derive(Clone, Copy)]
struct Outcome<'a> {
    admitted: &'a [bool],
    departs: &'a [u64],
    rounds: u32,
    judged: u64,
}

fn comes_to(found: &Settled, wanted: &Outcome<'_>) -> bool {
    found.admitted.as_slice() == wanted.admitted
        && found.departs.as_slice() == wanted.departs
        && (found.rounds, found.judged) == (wanted.rounds, wanted.judged)
}

// Returns whether whole rounds give this result for a load, at a station with this many places.
fn rounds_come_to(
    alloc: Global,
    load: &Load,
    places: u32,
    wanted: &Outcome<'_>,
) -> Result<bool, OutOfMemory>
    requires load { IsSoundLoad load.now.stream.time load.now.demands }
    requires some { 1 ≤ places }
{
    let found = settle_whole(alloc, &load.stream, &load.demands, places)?;
    let so = comes_to(&found, wanted);
    drop(found);
    Ok(so)
}

// Returns the same for this many arrivals, one per tick.
fn whole_comes_to(
    alloc: Global,
    count: u32,
    places: u32,
    wanted: &Outcome<'_>,
) -> Result<bool, OutOfMemory>
    requires count { count ≤ 1048576 }
    requires some { 1 ≤ places }
{
    let load = each_tick(alloc, count)?;
    rounds_come_to(alloc, &load, places, wanted)
}

// Returns whether windows give this result for a load, with a first window of this size.
fn load_comes_to(
    alloc: Global,
    load: &Load,
    first: u32,
    wanted: &Outcome<'_>,
) -> Result<bool, OutOfMemory>
    requires load { IsSoundLoad load.now.stream.time load.now.demands }
    requires first { 1 ≤ first }
{
    let found = settled(alloc, load, first)?;
    let so = comes_to(&found, wanted);
    drop(found);
    Ok(so)
}

// Returns the same for this many arrivals, one per tick.
fn windows_come_to(
    alloc: Global,
    count: u32,
    first: u32,
    wanted: &Outcome<'_>,
) -> Result<bool, OutOfMemory>
    requires count { count ≤ 1048576 }
    requires first { 1 ≤ first }
{
    let load = each_tick(alloc, count)?;
    load_comes_to(alloc, &load, first, wanted)
}

// Returns whether a round of this load gives this answer to this guess.
fn round_answers(
    alloc: Global,
    load: &Load,
    guess: [bool; 4],
    wanted: [bool; 4],
) -> Result<bool, OutOfMemory>
    requires load { IsSoundLoad load.now.stream.time load.now.demands }
    requires four { length load.now.stream.time ≡ 4 }
{
    let guess = List::from_vec(Vec::from_slice(alloc, &guess)?);
    let answer = round(alloc, &load.stream, &load.demands, 1, &guess)?;
    Ok(answer.as_slice() == wanted.as_slice())
}

// Returns whether the rounds of this load, from a guess that admits all, give these answers in
// turn.
fn rounds_answer(alloc: Global, load: &Load) -> Result<bool, OutOfMemory>
    requires load { IsSoundLoad load.now.stream.time load.now.demands }
    requires four { length load.now.stream.time ≡ 4 }
{
    let mut guess = [true, true, true, true];
    for wanted in [
        [true, false, false, false],
        [true, false, true, true],
        [true, false, true, false],
        [true, false, true, false],
    ] {
        if !round_answers(alloc, load, guess, wanted)? {
            return Ok(false);
        }
        guess = wanted;
    }
    Ok(true)
}

// Returns the same for one arrival per tick.
fn four_answer(alloc: Global) -> Result<bool, OutOfMemory> {
    let load = each_tick(alloc, 4)?;
    rounds_answer(alloc, &load)
}

#[test]
fn a_round_judges_by_the_guess(rt: HostRuntime) -> Result<(), Fail> {
    assert!(rt; four_answer(rt.alloc())?);
    Ok(())
}

#[test]
fn rounds_settle_all(rt: HostRuntime) -> Result<(), Fail> {
    let wanted = Outcome {
        admitted: &[true, false, true, false],
        departs: &[2, 4],
        rounds: 4,
        judged: 16,
    };
    assert!(rt; whole_comes_to(rt.alloc(), 4, 1, &wanted)?);
    let two_places = Outcome {
        admitted: &[true, true, true, false, true, false],
        departs: &[2, 4, 6, 8],
        rounds: 4,
        judged: 24,
    };
    assert!(rt; whole_comes_to(rt.alloc(), 6, 2, &two_places)?);
    Ok(())
}

#[test]
fn windows_settle_all(rt: HostRuntime) -> Result<(), Fail> {
    let of_two = Outcome {
        admitted: &[true, false, true, false],
        departs: &[2, 4],
        rounds: 2,
        judged: 4,
    };
    assert!(rt; windows_come_to(rt.alloc(), 4, 2, &of_two)?);
    let of_four = Outcome {
        judged: 6,
        ..of_two
    };
    assert!(rt; windows_come_to(rt.alloc(), 4, 4, &of_four)?);
    Ok(())
}

#[test]
fn no_arrival_takes_no_window(rt: HostRuntime) -> Result<(), Fail> {
    let whole = Outcome {
        admitted: &[],
        departs: &[],
        rounds: 1,
        judged: 0,
    };
    assert!(rt; whole_comes_to(rt.alloc(), 0, 1, &whole)?);
    let windows = Outcome { rounds: 0, ..whole };
    assert!(rt; windows_come_to(rt.alloc(), 0, 4096, &windows)?);
    Ok(())
}

fn is_every_other(admitted: &[bool]) -> bool {
    for (at, is_admitted) in admitted.iter().enumerate() {
        if *is_admitted != (at % 2 == 0) {
            return false;
        }
    }
    true
}

// Returns whether every other arrival of a long load is admitted, with few judgements.
fn takes_few(alloc: Global, load: &Load) -> Result<bool, OutOfMemory>
    requires { IsSoundLoad load.now.stream.time load.now.demands }
{
    let found = settled(alloc, load, 4096)?;
    let is_short = found.judged <= 404_096 && found.departs.len() == 100_000;
    let so = is_short && is_every_other(found.admitted.as_slice());
    drop(found);
    Ok(so)
}

// Returns the same for an overload.
fn overload_takes_few(alloc: Global) -> Result<bool, OutOfMemory> {
    let load = each_tick(alloc, 200_000)?;
    takes_few(alloc, &load)
}

#[test]
fn an_overloaded_station_takes_few_judgements(rt: HostRuntime) -> Result<(), Fail> {
    assert!(rt; overload_takes_few(rt.alloc())?);
    Ok(())
}
