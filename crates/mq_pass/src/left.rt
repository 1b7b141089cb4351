// The blocks that were left, with the carries before them.
ghost use Rattle.std.specs.Prelude.{◌≡◌, ℕ, ◌+◌, ◌*◌, ◌<◌, ◌++◌, [], All, IfOk, OnOk, length, map, slice_index_or};
ghost use Rattle.mq_maxplus.specs.Maxplus.{affine_act, CanAct};
ghost use Rattle.mq_maxplus.specs.declared.mp.Mp.TheVariants.{Void};
ghost use Rattle.mq_pass.specs.Blocks.{IsKnown};
ghost use Rattle.mq_pass.specs.Passing.{IsRight, IsLeft, if_left, left_at, left_from, stands_or};
ghost use Rattle.mq_pass.specs.declared.block.Passed.{Passed as Part};

use crate::block::Passed;
use crate::jobs::Jobs;
use mq_base::{List, OutOfMemory};
use mq_maxplus::{Affine, Mp};
use std::alloc::Global;

/// A block that was left, and the carry before it.
#[derive(Clone, Copy)]
pub(crate) struct Left {
    pub block: u32,
    pub before: Mp,
}

// Adds a block, if it was left.
fn note(left: &mut Vec<Left>, b: u32, before: Mp, part: &Passed) -> Result<(), OutOfMemory>
    ensures { OnOk result (left.new.items ≡ left.old.items ++ if_left (left_at b before) part.now.departs []) }
{
    if part.departs.is_none() {
        left.push(Left { block: b, before })?;
    }
    Ok(())
}

// The carry after a block: the stored one, or else what its jobs make of the carry before.
fn carry_after(stands: Mp, summary: Affine, before: Mp) -> Mp
    requires { CanAct summary before }
    ensures { result ≡ stands_or stands (affine_act summary before) }
{
    match stands {
        Mp::At(carry) => Mp::At(carry),
        Mp::Void => summary.act(before),
    }
}

/// Returns the blocks that were left, in order. A carry that wasn't stored is computed from the
/// carry before it and the block's jobs.
pub(crate) fn left_of(
    alloc: Global,
    jobs: &Jobs<'_>,
    carries: &List<Mp>,
    passed: &List<Passed>,
) -> Result<List<Left>, OutOfMemory>
    requires each { length passed.now ≡ jobs.now.blocks.blocks }
    requires all { length carries.now ≡ jobs.now.blocks.blocks }
    requires right { (b : ℕ) (d : Part) → b < jobs.now.blocks.blocks → IsRight jobs.now.step.arrive.now jobs.now.step.demands.now jobs.now.blocks.block b (slice_index_or passed.now b d) }
    requires known { (b : ℕ) → b < jobs.now.blocks.blocks → IsKnown jobs.now.step.arrive.now jobs.now.step.demands.now jobs.now.blocks.block b (slice_index_or carries.now b Void) }
    ensures numbers { IfOk result (λ left. map (λ q. q.block) left ≡ left_from 0 passed.now) }
    ensures left { IfOk result (λ left. All (IsLeft jobs.now.step.arrive.now jobs.now.step.demands.now jobs.now.blocks.block jobs.now.blocks.blocks) left) }
{
    let mut left = Vec::new(alloc);
    let mut carry = Mp::Void;
    'folds: for b in 0..jobs.blocks.blocks {
        let part = passed.get(b as usize);
        note(&mut left, b, carry, part)?;
        carry = carry_after(*carries.get(b as usize), part.summary, carry);
    }
    Ok(List::from_vec(left))
}
