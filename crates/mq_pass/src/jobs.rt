// A server's jobs, cut into blocks.
ghost use Rattle.std.specs.Prelude.{◌≡◌, ◌*◌, ◌^◌, ◌<◌, ◌≤◌, length, IfOk};
ghost use Rattle.mq_chain.specs.Stored.{IsShort};
ghost use Rattle.mq_core.specs.Sequences.{IsSoundLoad};
ghost use Rattle.mq_pass.specs.Blocks.{summary_at, departs_of};
ghost use Rattle.mq_maxplus.specs.Within.{IsWithin};

use mq_base::{List, OutOfMemory};
use mq_core::Stream;
use mq_maxplus::{Affine, Mp};
use mq_scan::{Blocks, Step, summarise};
use mq_server::ServerStep;
use std::alloc::Global;

/// A server's jobs, and their indices cut into blocks.
#[derive(Clone, Copy)]
pub(crate) struct Jobs<'a> {
    pub step: ServerStep<'a>,
    pub blocks: Blocks,
    ghost whole: { blocks.n ≡ length step.arrive.now },
    ghost few: { blocks.blocks < 2 ^ 32 },
}

/// Returns the jobs of a stream, in these blocks.
pub(crate) fn jobs_of<'a>(stream: &'a Stream, demands: &'a List<u64>, blocks: &Blocks) -> Jobs<'a>
    requires load { IsSoundLoad stream.now.time demands.now }
    requires whole { blocks.now.n ≡ length stream.now.time }
    ensures lists { (result.step.arrive.now ≡ stream.now.time) × (result.step.demands.now ≡ demands.now) }
    ensures blocks { (result.blocks.block ≡ blocks.now.block) × (result.blocks.blocks ≡ blocks.now.blocks) }
{
    Jobs {
        step: ServerStep::new(stream, demands),
        blocks: *blocks,
    }
}

/// Returns what the jobs of a block do together.
pub(crate) fn summary_of(jobs: &Jobs<'_>, b: u32) -> Affine
    requires { b < jobs.now.blocks.blocks }
    ensures is { result ≡ summary_at jobs.now.step.arrive.now jobs.now.step.demands.now jobs.now.blocks.block b }
    ensures short { IsShort result }
    ensures small { result.add ≤ 2 ^ 57 }
{
    let (from, to) = jobs.blocks.range(b);
    summarise(&jobs.step, from, to)
}

/// Returns the departures of the jobs of a block, computed job by job from the carry before it.
#[inline(never)]
pub(crate) fn served(
    alloc: Global,
    jobs: &Jobs<'_>,
    b: u32,
    carry: Mp,
) -> Result<List<u64>, OutOfMemory>
    requires inside { b < jobs.now.blocks.blocks }
    requires early { IsWithin (2 ^ 63) carry }
    ensures { IfOk result (λ departs. departs ≡ departs_of jobs.now.step.arrive.now jobs.now.step.demands.now jobs.now.blocks.block b carry) }
{
    let (from, to) = jobs.blocks.range(b);
    let mut departs = Vec::with_capacity(alloc, (to - from) as usize)?;
    let mut carry = carry;
    'serves: for at in from..to {
        carry = jobs.step.one(at).act(carry);
        let Mp::At(time) = carry else { unreachable!() };
        departs.push_reserved(time);
    }
    Ok(List::from_vec(departs))
}
