// The passes of a scan, over a range of jobs and over all.
ghost use Rattle.std.specs.Prelude.{◌≡◌, ℕ, ◌+◌, ◌-◌, ◌*◌, ◌<◌, ◌≤◌, ◌++◌, length, map, IfOk};
ghost use Rattle.std.specs.Vec.{vec_len, vec_capacity};
ghost use Rattle.mq_scan.specs.Folds.{carries_after, fold_to, span, AreBefore, AreSummaries, MayTurn};

use crate::{Step, Timed, cut};
use mq_base::{List, OutOfMemory};
use std::alloc::Global;

/// Returns what the jobs from one index up to another, at least one, do together. It acts on the carry
/// before them as they do in turn.
pub fn summarise<P: Step>(step: &P, from: u32, to: u32) -> P::Summary
    requires some { from < to }
    requires inside { to ≤ P.size step.now }
    ensures sum { result ≡ span P.joined (P.part step.now) from ((to - from) - 1) }
    ensures acts { P.acted result (fold_to P.acted (P.start step.now) (P.part step.now) from) ≡ fold_to P.acted (P.start step.now) (P.part step.now) to }
{
    let mut all = step.one(from);
    step.extend(&mut all, from + 1, to);
    all
}

/// Returns the carry before each block, given the summaries of the blocks of one cut of all jobs: of all
/// blocks, or of the first ones. Fails only if memory runs out.
pub fn carries<P: Step>(
    alloc: Global,
    step: &P,
    sums: &List<P::Summary>,
) -> Result<List<P::Carry>, OutOfMemory>
    requires { (block : ℕ) × AreSummaries P.joined (P.part step.now) (P.size step.now) block sums.now }
    ensures len { IfOk result (λ before. length before ≡ length sums.now) }
    ensures each { IfOk result (λ before. (block : ℕ) → AreSummaries P.joined (P.part step.now) (P.size step.now) block sums.now → AreBefore P.acted (P.start step.now) (P.part step.now) block before) }
{
    let mut before = Vec::new(alloc);
    let mut carry = step.first();
    'moves: for b in 0..sums.len() {
        before.push(carry)?;
        carry = P::act(*sums.get(b), carry);
    }
    Ok(List::from_vec(before))
}

/// Returns the carry after each job from one index up to another, at least one, given the carry before
/// them. Fails only if memory runs out.
pub fn apply<P: Step>(
    alloc: Global,
    step: &P,
    from: u32,
    to: u32,
    carry: P::Carry,
) -> Result<List<P::Carry>, OutOfMemory>
    requires some { from < to }
    requires inside { to ≤ P.size step.now }
    requires before { carry ≡ fold_to P.acted (P.start step.now) (P.part step.now) from }
    ensures { IfOk result (λ after. after ≡ carries_after P.acted (P.start step.now) (P.part step.now) from (to - from)) }
{
    let mut after = Vec::with_capacity(alloc, (to - from) as usize)?;
    let mut carry = carry;
    push_carries(step, from, to, &mut carry, &mut after);
    Ok(List::from_vec(after))
}

/// Returns the time read from the carry after each job from one index up to another, at least one, given
/// the carry before them. Fails only if memory runs out.
pub fn times<P: Timed>(
    alloc: Global,
    step: &P,
    from: u32,
    to: u32,
    carry: P::Carry,
) -> Result<List<u64>, OutOfMemory>
    requires some { from < to }
    requires inside { to ≤ P.size step.now }
    requires before { carry ≡ fold_to P.acted (P.start step.now) (P.part step.now) from }
    ensures { IfOk result (λ times. times ≡ map (P.time_of step.now) (carries_after P.acted (P.start step.now) (P.part step.now) from (to - from))) }
{
    let mut times = Vec::with_capacity(alloc, (to - from) as usize)?;
    let mut carry = carry;
    push_times(step, from, to, &mut carry, &mut times);
    Ok(List::from_vec(times))
}

// Appends the time read from the carry after each job of a range, for which there is room.
fn push_times<P: Timed>(step: &P, from: u32, to: u32, carry: &mut P::Carry, times: &mut Vec<u64>)
    requires some { from ≤ to }
    requires inside { to ≤ P.size step.now }
    requires before { carry.old ≡ fold_to P.acted (P.start step.now) (P.part step.now) from }
    requires room { vec_len times.old + (to - from) ≤ vec_capacity times.old }
    ensures carry { carry.new ≡ fold_to P.acted (P.start step.now) (P.part step.now) to }
    ensures items { times.new.items ≡ times.old.items ++ map (P.time_of step.now) (carries_after P.acted (P.start step.now) (P.part step.now) from (to - from)) }
    ensures len { vec_len times.new ≡ vec_len times.old + (to - from) }
    ensures room { vec_capacity times.new ≡ vec_capacity times.old }
{
    'acts: for at in from..to {
        step.advance(carry, at);
        times.push_reserved(step.time(carry));
    }
}

// Appends the carry after each job of a range, for which there is room.
fn push_carries<P: Step>(
    step: &P,
    from: u32,
    to: u32,
    carry: &mut P::Carry,
    after: &mut Vec<P::Carry>,
)
    requires some { from ≤ to }
    requires inside { to ≤ P.size step.now }
    requires before { carry.old ≡ fold_to P.acted (P.start step.now) (P.part step.now) from }
    requires room { vec_len after.old + (to - from) ≤ vec_capacity after.old }
    ensures carry { carry.new ≡ fold_to P.acted (P.start step.now) (P.part step.now) to }
    ensures items { after.new.items ≡ after.old.items ++ carries_after P.acted (P.start step.now) (P.part step.now) from (to - from) }
    ensures len { vec_len after.new ≡ vec_len after.old + (to - from) }
    ensures room { vec_capacity after.new ≡ vec_capacity after.old }
{
    'acts: for at in from..to {
        step.advance(carry, at);
        after.push_reserved(*carry);
    }
}

/// Returns the carry after each job, computed block by block. Fails only if memory runs out.
// One thread knows the carry before each block when it gets there, and so needs no summaries.
pub fn scan<P: Step>(alloc: Global, step: &P, block: u32) -> Result<List<P::Carry>, OutOfMemory>
    requires { 1 ≤ block }
    ensures { IfOk result (λ after. after ≡ carries_after P.acted (P.start step.now) (P.part step.now) 0 (P.size step.now)) }
{
    let blocks = cut(step.count(), block);
    let mut after = Vec::with_capacity(alloc, blocks.n as usize)?;
    let mut carry = step.first();
    'parts: for b in 0..blocks.blocks {
        let (from, to) = blocks.range(b);
        push_carries(step, from, to, &mut carry, &mut after);
    }
    Ok(List::from_vec(after))
}

/// Returns the time read from the carry after each job, computed block by block. Fails only if memory
/// runs out.
pub fn scan_times<P: Timed>(alloc: Global, step: &P, block: u32) -> Result<List<u64>, OutOfMemory>
    requires { 1 ≤ block }
    ensures { IfOk result (λ times. times ≡ map (P.time_of step.now) (carries_after P.acted (P.start step.now) (P.part step.now) 0 (P.size step.now))) }
{
    let blocks = cut(step.count(), block);
    let mut times = Vec::with_capacity(alloc, blocks.n as usize)?;
    let mut carry = step.first();
    'parts: for b in 0..blocks.blocks {
        let (from, to) = blocks.range(b);
        push_times(step, from, to, &mut carry, &mut times);
    }
    Ok(List::from_vec(times))
}

/// Law. The summary of a range acts as its jobs do in turn on every carry on which they may act, even one
/// that isn't the fold's.
pub fn summaries_act<P: Step>(step: &P)
    ensures { (carry : P.Carry) (from n : ℕ) → from + n + 1 ≤ P.size step.now → MayTurn P.joined P.acted P.can_act (P.part step.now) from (n + 1) carry → P.acted (span P.joined (P.part step.now) from n) carry ≡ fold_to P.acted carry (λ k. P.part step.now (from + k)) (n + 1) }
{
    let _ = step;
}
