// Departures of an earlier run, which stay if its jobs are the same.
ghost use Rattle.std.specs.Prelude.{◌≡◌, ◌+◌, ◌*◌, ◌<◌, ◌≤◌, ◌^◌, ◌++◌, ℕ, List as Items, length, map, take, IfOk, OnOk};
ghost use Rattle.mq_core.specs.declared.model.Fate.TheVariants.{Departs};
ghost use Rattle.mq_redo.specs.Doing.{AreDone};
ghost use Rattle.mq_redo.specs.Staying.{HaveStayed};

use crate::blocks::{Done, redone_behind};
use mq_base::{OutOfMemory, Steps};
use mq_core::{Fate, Fates};
use mq_scan::{Blocks, Timed};
use std::alloc::Global;
use std::sync::ledger::Ledger;

// Returns the departures of the first `count` of these visits, all of which depart, in ticks, with room for `room`
// departures. Fails only if memory runs out.
fn first_departures(
    alloc: Global,
    fates: &Fates,
    count: u32,
    room: u32,
) -> Result<Vec<u64>, OutOfMemory>
    requires { (times : Items ℕ) × (fates.now ≡ map (λ time. Departs time) times) × (count ≤ length times) }
    ensures { IfOk result (λ first. (times : Items ℕ) → fates.now ≡ map (λ time. Departs time) times → first.items ≡ take count times) }
{
    let mut times = Vec::with_capacity(alloc, room as usize)?;
    'visits: for at in 0..count as usize {
        match fates.at(at) {
            Fate::Departs(time) => times.push(time)?,
            Fate::Lost => unreachable!(),
            Fate::Held => unreachable!(),
        }
    }
    Ok(times)
}

/// Returns the departure of each job of a station, in ticks, and the carry after each block, if the first `first`
/// blocks of an earlier run stay. `fates` and `carries` are those of all that run's visits and blocks. The later blocks
/// are redone. Counts one step for each of them; if memory runs out, which is the only way it fails, at most that many.
pub fn departures_behind<P: Timed, L: Ledger>(
    alloc: Global,
    step: &P,
    blocks: &Blocks,
    fates: &Fates,
    carries: &[P::Carry],
    first: u32,
    steps: &mut Steps<L>,
) -> Result<Done<P::Carry>, OutOfMemory>
    requires all { blocks.now.n ≡ P.size step.now }
    requires few { blocks.now.block ≤ 65536 }
    requires inside { first * blocks.now.block ≤ blocks.now.n }
    requires stays { HaveStayed (P.time_of step.now) P.acted (P.start step.now) (P.part step.now) blocks.now.block first fates.now carries.now }
    ensures done { IfOk result (λ done. AreDone (P.time_of step.now) P.acted (P.start step.now) (P.part step.now) blocks.now blocks.now.blocks done.times.items done.carries.items) }
    ensures steps { steps.old ≤ steps.new }
    ensures spent { steps.new + first ≤ steps.old + blocks.now.blocks }
    ensures counted { OnOk result (steps.new + first ≡ steps.old + blocks.now.blocks) }
{
    let jobs = blocks.n;
    let times = first_departures(alloc, fates, first * blocks.block, jobs)?;
    redone_behind(alloc, step, blocks, times, carries, first, steps)
}

/// Returns the departure of each job of a station, in ticks: of the first `count` jobs by the fates of their visits,
/// then `times`. Fails only if memory runs out.
pub fn all_departures(
    alloc: Global,
    fates: &Fates,
    count: u32,
    times: Vec<u64>,
) -> Result<Vec<u64>, OutOfMemory>
    requires { (first : Items ℕ) × (fates.now ≡ map (λ time. Departs time) first) × (count ≤ length first) }
    ensures { IfOk result (λ all. (first : Items ℕ) → fates.now ≡ map (λ time. Departs time) first → all.items ≡ take count first ++ times.items) }
{
    if count == 0 {
        return Ok(times);
    }
    let mut all = first_departures(alloc, fates, count, count)?;
    all.extend_from_slice(&times)?;
    Ok(all)
}

/// Returns the carry after each block of a station: the first `first` of those that were kept, then those that were
/// redone. The times stay as they are in `done`. Fails only if memory runs out.
pub fn all_carries<C: Copy + Drop>(
    alloc: Global,
    kept: &[C],
    first: u32,
    done: Done<C>,
) -> Result<Done<C>, OutOfMemory>
    ensures times { IfOk result (λ all. all.times.items ≡ done.times.items) }
    ensures carries { IfOk result (λ all. all.carries.items ≡ take first kept.now ++ done.carries.items) }
{
    let Done {
        times,
        carries: last,
    } = done;
    match first_and_last(alloc, kept, first, &last) {
        Ok(carries) => {
            drop(last);
            Ok(Done { times, carries })
        }
        Err(fault) => {
            drop(last);
            drop(times);
            Err(fault)
        }
    }
}

// Returns the first `first` of the kept carries, followed by the last ones.
fn first_and_last<C: Copy + Drop>(
    alloc: Global,
    kept: &[C],
    first: u32,
    last: &[C],
) -> Result<Vec<C>, OutOfMemory>
    ensures { IfOk result (λ carries. carries.items ≡ take first kept.now ++ last.now) }
{
    let mut carries = Vec::from_slice(alloc, kept)?;
    carries.truncate(first as usize);
    carries.extend_from_slice(last)?;
    Ok(carries)
}
