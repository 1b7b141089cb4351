// One block, handled by the worker that drew it.
ghost use Rattle.std.specs.Prelude.{◌≡◌, ◌^◌, ◌<◌, ◌≤◌, ◌++◌, Contains, IfNone, IfOk, IfSome, Option, Some};
ghost use Rattle.mq_chain.specs.Seats.{IsSeatOf, seated};
ghost use Rattle.mq_chain.specs.Stored.{IsShort};
ghost use Rattle.mq_pass.specs.Blocks.{summary_at};
ghost use Rattle.mq_maxplus.specs.Within.{IsWithin};
ghost use Rattle.mq_maxplus.specs.declared.mp.Mp.{Mp as TheMp};
ghost use Rattle.mq_pass.specs.Passing.{IsSeen, IsGrown, IsPublished, HasNoPut, IsOwn, IsPassed, look_before};

use crate::jobs::{Jobs, served, summary_of};
use mq_base::{List, OutOfMemory};
use mq_chain::{Chain, ChainSeat};
use mq_maxplus::{Affine, Mp};
use std::alloc::Global;

/// What a worker returns for a block: what its jobs do together, and their departures, unless the
/// block was left.
#[derive(Drop)]
pub(crate) struct Passed {
    pub summary: Affine,
    pub departs: Option<List<u64>>,
}

// One more than the greatest carry that fits in a word.
const LIMIT: u64 = 1 << 63;

// The carry before a block: `Void` before the first, otherwise the one that a look finds. `None` if
// that look found none.
fn carry_before(chain: &Chain, seat: &mut ChainSeat, b: u32) -> Option<Mp>
    requires own { IsSeatOf chain.now seat.old }
    requires inside { b < chain.now.blocks }
    ensures looked { seat.new ≡ seated seat.old.table seat.old.right seat.old.draws seat.old.puts (seat.old.looks ++ look_before b result) }
    ensures found { IfSome result (λ c. IsSeen (look_before b (Some c)) b c × IsWithin (2 ^ 63) c) }
    ensures none { IfNone result (1 ≤ b) }
{
    if b == 0 {
        return Some(Mp::Void);
    }
    match chain.carry(seat, b - 1) {
        Some(before) => Some(Mp::At(before)),
        None => None,
    }
}

// Stores a block's summary and, if the carry before it is found and its own fits in a word, its
// carry. Returns the carry before it, or `None` if a look found none.
fn publish(chain: &Chain, seat: &mut ChainSeat, b: u32, summary: Affine) -> Option<Mp>
    requires own { IsSeatOf chain.now seat.old }
    requires inside { b < chain.now.blocks }
    requires drew { Contains seat.old.draws b }
    requires fresh { HasNoPut seat.old.puts b }
    requires short { IsShort summary }
    requires small { summary.add ≤ 2 ^ 57 }
    ensures grown { IsGrown b summary result seat.old seat.new }
    ensures found { IfSome result (λ c. IsSeen (look_before b (Some c)) b c × IsWithin (2 ^ 63) c) }
    ensures none { IfNone result (1 ≤ b) }
    ensures put { IfSome result (IsPublished seat.new.puts b summary) }
{
    chain.put_summary(seat, b, summary);
    let Some(before) = carry_before(chain, seat, b) else {
        return None;
    };
    let Mp::At(carry) = summary.act(before) else {
        unreachable!()
    };
    if carry >= LIMIT {
        return Some(before);
    }
    chain.put_carry(seat, b, carry);
    Some(before)
}

/// Handles one block, by the worker that drew it: stores its summary and, if the carry before it is
/// found, stores its own carry if that fits in a word, and serves its jobs. Otherwise the block is left.
pub(crate) fn pass_block(
    alloc: Global,
    chain: &Chain,
    seat: &mut ChainSeat,
    jobs: &Jobs<'_>,
    b: u32,
) -> Result<Passed, OutOfMemory>
    requires own { IsSeatOf chain.now seat.old }
    requires all { chain.now.blocks ≡ jobs.now.blocks.blocks }
    requires inside { b < jobs.now.blocks.blocks }
    requires drew { Contains seat.old.draws b }
    requires fresh { HasNoPut seat.old.puts b }
    requires mine { IsOwn jobs.now.step.arrive.now jobs.now.step.demands.now jobs.now.blocks.block seat.old }
    ensures mine { IsOwn jobs.now.step.arrive.now jobs.now.step.demands.now jobs.now.blocks.block seat.new }
    ensures passed { (before : Option TheMp) × IsGrown b (summary_at jobs.now.step.arrive.now jobs.now.step.demands.now jobs.now.blocks.block b) before seat.old seat.new × IfOk result (λ p. IsPassed jobs.now.step.arrive.now jobs.now.step.demands.now jobs.now.blocks.block seat.new.puts (look_before b before) b p) }
{
    let summary = summary_of(jobs, b);
    let Some(before) = publish(chain, seat, b, summary) else {
        return Ok(Passed {
            summary,
            departs: None,
        });
    };
    let departs = served(alloc, jobs, b, before)?;
    Ok(Passed {
        summary,
        departs: Some(departs),
    })
}
