// Blocks of a scan that are redone, from the carry after the blocks that stay.
ghost use Rattle.std.specs.Prelude.{◌≡◌, ℕ, ◌+◌, ◌-◌, ◌*◌, ◌<◌, ◌≤◌, ◌++◌, All, length, map, IfOk, OnOk};
ghost use Rattle.mq_scan.specs.Folds.{carries_after, fold_to};
ghost use Rattle.mq_redo.specs.Doing.{AreDone, AreStaying, MayAct};

use mq_base::{List, OutOfMemory, Steps};
use mq_scan::{Blocks, Step, Timed};
use std::alloc::Global;
use std::sync::ledger::Ledger;

/// The first blocks of a station's jobs, which are done.
#[derive(Drop)]
pub struct Done<C> {
    /// What is read from the carry after each of their jobs: at a station the job's departure, in ticks.
    pub times: Vec<u64>,
    /// The carry after each block.
    pub carries: Vec<C>,
}

/// Returns the carry after each job of a block that is redone: the jobs from one index up to another, at least one and
/// at most 65,536, given the carry before them. Counts one step, even if memory runs out, which is the only way it
/// fails.
pub fn redo_block<P: Step, L: Ledger>(
    alloc: Global,
    step: &P,
    from: u32,
    to: u32,
    carry: P::Carry,
    steps: &mut Steps<L>,
) -> Result<List<P::Carry>, OutOfMemory>
    requires some { from < to }
    requires inside { to ≤ P.size step.now }
    requires few { to ≤ from + 65536 }
    requires before { carry ≡ fold_to P.acted (P.start step.now) (P.part step.now) from }
    ensures after { IfOk result (λ after. after ≡ carries_after P.acted (P.start step.now) (P.part step.now) from (to - from)) }
    ensures step { steps.new ≡ steps.old + 1 }
{
    let after = through_block(alloc, step, from, to, carry, steps)?;
    Ok(after)
}

// Returns the carry after each job of a block, from one index up to another, given a carry on which the jobs may act in
// turn. Counts one step, even if memory runs out, which is the only way it fails.
fn through_block<P: Step, L: Ledger>(
    alloc: Global,
    step: &P,
    from: u32,
    to: u32,
    carry: P::Carry,
    steps: &mut Steps<L>,
) -> Result<List<P::Carry>, OutOfMemory>
    requires order { from ≤ to }
    requires inside { to ≤ P.size step.now }
    requires acts { MayAct P.acted P.can_act (λ k. P.part step.now (from + k)) (to - from) carry }
    ensures after { IfOk result (λ after. after ≡ carries_after P.acted carry (λ k. P.part step.now (from + k)) 0 (to - from)) }
    ensures step { steps.new ≡ steps.old + 1 }
{
    steps.tick();
    let mut after = Vec::with_capacity(alloc, (to - from) as usize)?;
    let mut carry = carry;
    'acts: for at in from..to {
        step.advance(&mut carry, at);
        after.push(carry)?;
    }
    Ok(List::from_vec(after))
}

// Appends what is read from the carry after each job.
fn push_read<P: Timed>(
    step: &P,
    after: &List<P::Carry>,
    times: &mut Vec<u64>,
) -> Result<(), OutOfMemory>
    requires { All (P.can_time step.now) after.now }
    ensures { IfOk result (λ _. times.new.items ≡ times.old.items ++ map (P.time_of step.now) after.now) }
{
    'reads: for at in 0..after.len() {
        times.push(step.time(after.get(at)))?;
    }
    Ok(())
}

// Does the blocks of a cut of a station's jobs after the first ones, which are done, one after another, and returns all
// blocks. `before` is the carry before all jobs. Counts one step for each block that it does; if memory runs out, which
// is the only way it fails, at most that many.
fn redone<P: Timed, L: Ledger>(
    alloc: Global,
    step: &P,
    blocks: &Blocks,
    before: P::Carry,
    kept: Done<P::Carry>,
    steps: &mut Steps<L>,
) -> Result<Done<P::Carry>, OutOfMemory>
    requires all { blocks.now.n ≡ P.size step.now }
    requires acts { MayAct P.acted P.can_act (P.part step.now) (P.size step.now) before }
    requires reads { (n : ℕ) → n ≤ P.size step.now → P.can_time step.now (fold_to P.acted before (P.part step.now) n) }
    requires inside { length kept.carries.items * blocks.now.block ≤ blocks.now.n }
    requires kept { AreDone (P.time_of step.now) P.acted before (P.part step.now) blocks.now (length kept.carries.items) kept.times.items kept.carries.items }
    ensures done { IfOk result (λ done. AreDone (P.time_of step.now) P.acted before (P.part step.now) blocks.now blocks.now.blocks done.times.items done.carries.items) }
    ensures steps { steps.old ≤ steps.new }
    ensures spent { steps.new + length kept.carries.items ≤ steps.old + blocks.now.blocks }
    ensures counted { OnOk result (steps.new + length kept.carries.items ≡ steps.old + blocks.now.blocks) }
{
    let Done {
        mut times,
        mut carries,
    } = kept;
    let count = blocks.blocks;
    let first = carries.len() as u32;
    let mut carry = match carries.last() {
        Some(carry) => *carry,
        None => before,
    };
    // These are calls of `drop` instead of `?`, because a call is proved only once per type.
    'parts: for b in first..count {
        let (from, to) = blocks.range(b);
        let Ok(after) = through_block(alloc, step, from, to, carry, steps) else {
            drop(times);
            drop(carries);
            return Err(OutOfMemory);
        };
        let Ok(()) = push_read(step, &after, &mut times) else {
            drop(after);
            drop(times);
            drop(carries);
            return Err(OutOfMemory);
        };
        carry = *after.get((to - from - 1) as usize);
        drop(after);
        let Ok(()) = carries.push(carry) else {
            drop(times);
            drop(carries);
            return Err(OutOfMemory);
        };
    }
    Ok(Done { times, carries })
}

/// Returns all blocks of a cut of a station's last jobs, done one after another from the carry before the first of
/// those jobs. Counts one step for each block; if memory runs out, which is the only way it fails, at most that many.
pub fn redone_last<P: Timed, L: Ledger>(
    alloc: Global,
    step: &P,
    blocks: &Blocks,
    before: P::Carry,
    steps: &mut Steps<L>,
) -> Result<Done<P::Carry>, OutOfMemory>
    requires all { blocks.now.n ≡ P.size step.now }
    requires acts { MayAct P.acted P.can_act (P.part step.now) (P.size step.now) before }
    requires reads { (n : ℕ) → n ≤ P.size step.now → P.can_time step.now (fold_to P.acted before (P.part step.now) n) }
    ensures done { IfOk result (λ done. AreDone (P.time_of step.now) P.acted before (P.part step.now) blocks.now blocks.now.blocks done.times.items done.carries.items) }
    ensures steps { steps.old ≤ steps.new }
    ensures spent { steps.new ≤ steps.old + blocks.now.blocks }
    ensures counted { OnOk result (steps.new ≡ steps.old + blocks.now.blocks) }
{
    let times = Vec::with_capacity(alloc, blocks.n as usize)?;
    let Ok(carries) = Vec::with_capacity(alloc, blocks.blocks as usize) else {
        drop(times);
        return Err(OutOfMemory);
    };
    redone(alloc, step, blocks, before, Done { times, carries }, steps)
}

/// Returns all blocks of a cut of a station's jobs, if the first `first` blocks of an earlier run stay. `times` is what
/// was read from the carries of the jobs in those blocks, and `carries` begins with the carry after each of those
/// blocks. The later blocks are redone. Counts one step for each of them; if memory runs out, which is the only way it
/// fails, at most that many.
pub fn redone_behind<P: Timed, L: Ledger>(
    alloc: Global,
    step: &P,
    blocks: &Blocks,
    times: Vec<u64>,
    carries: &[P::Carry],
    first: u32,
    steps: &mut Steps<L>,
) -> Result<Done<P::Carry>, OutOfMemory>
    requires all { blocks.now.n ≡ P.size step.now }
    requires inside { first * blocks.now.block ≤ blocks.now.n }
    requires stays { AreStaying (P.time_of step.now) P.acted (P.start step.now) (P.part step.now) blocks.now.block first times.items carries.now }
    ensures done { IfOk result (λ done. AreDone (P.time_of step.now) P.acted (P.start step.now) (P.part step.now) blocks.now blocks.now.blocks done.times.items done.carries.items) }
    ensures steps { steps.old ≤ steps.new }
    ensures spent { steps.new + first ≤ steps.old + blocks.now.blocks }
    ensures counted { OnOk result (steps.new + first ≡ steps.old + blocks.now.blocks) }
{
    let mut kept = Vec::with_capacity(alloc, first as usize)?;
    kept.extend_from_slice(&carries[..first as usize])?;
    redone(
        alloc,
        step,
        blocks,
        step.first(),
        Done {
            times,
            carries: kept,
        },
        steps,
    )
}
