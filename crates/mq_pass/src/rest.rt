// The blocks that were left, computed by the crew, and the departures of all blocks.
ghost use Rattle.std.specs.Prelude.{◌≡◌, ℕ, ◌^◌, ◌<◌, All, IfOk, length, slice_index_or};
ghost use Rattle.mq_core.specs.Recurrences.{lindley};
ghost use Rattle.mq_maxplus.specs.declared.mp.Mp.TheVariants.{Void};
ghost use Rattle.mq_pass.specs.Blocks.{IsKnown};
ghost use Rattle.mq_pass.specs.Passing.{AreApplied, IsApplied, IsLeft, IsRight, left_from};
ghost use Rattle.mq_pass.specs.declared.block.Passed.{Passed as Part};

use crate::block::Passed;
use crate::jobs::{Jobs, served};
use crate::left::{Left, left_of};
use mq_base::{List, OutOfMemory};
use mq_crew::{Crew, Gate, Pieces};
use mq_maxplus::Mp;
use std::alloc::Global;
use std::thread::Threads;

/// The blocks that were left, as pieces.
#[derive(Clone, Copy)]
pub(crate) struct Rest<'a> {
    pub jobs: Jobs<'a>,
    pub left: &'a [Left],
    ghost sound: { All (IsLeft jobs.step.arrive.now jobs.step.demands.now jobs.blocks.block jobs.blocks.blocks) left.now },
    ghost few: { length left.now < 2 ^ 32 },
}

impl<'a> Pieces for Rest<'a> {
    type Piece = List<u64>;

    ghost fit = { λ s. Unit {0} };

    ghost size = { λ s. length s.left.now };

    ghost is_piece = { λ s i p. IsApplied s.jobs.step.arrive.now s.jobs.step.demands.now s.jobs.blocks.block s.left.now i p };

    fn count(&self) -> u32 {
        self.left.len() as u32
    }

    fn piece(&self, alloc: Global, b: u32) -> Result<List<u64>, OutOfMemory> {
        let left = self.left[b as usize];
        served(alloc, &self.jobs, left.block, left.before)
    }
}

// The departures of all blocks, in order: from the workers, or from `applied` if they were left.
fn together(
    alloc: Global,
    jobs: &Jobs<'_>,
    passed: &List<Passed>,
    applied: &List<List<u64>>,
) -> Result<List<u64>, OutOfMemory>
    requires each { length passed.now ≡ jobs.now.blocks.blocks }
    requires right { (b : ℕ) (d : Part) → b < jobs.now.blocks.blocks → IsRight jobs.now.step.arrive.now jobs.now.step.demands.now jobs.now.blocks.block b (slice_index_or passed.now b d) }
    requires applied { AreApplied jobs.now.step.arrive.now jobs.now.step.demands.now jobs.now.blocks.block (left_from 0 passed.now) applied.now }
    ensures { IfOk result (λ departs. departs ≡ lindley 0 jobs.now.step.arrive.now jobs.now.step.demands.now) }
{
    let mut all = Vec::with_capacity(alloc, jobs.blocks.n as usize)?;
    let mut next = 0;
    'puts: for b in 0..passed.len() {
        if let Some(departs) = &passed.get(b).departs {
            all.extend_from_slice(departs.as_slice())?;
        } else {
            all.extend_from_slice(applied.get(next).as_slice())?;
            next += 1;
        }
    }
    Ok(List::from_vec(all))
}

/// Returns the departures of all jobs, from the blocks that the workers passed over and the carries
/// that they published. The crew computes the blocks that were left.
pub(crate) fn ended<G: Gate, R: Threads + Sync>(
    crew: &Crew<R, G>,
    jobs: &Jobs<'_>,
    carries: &List<Mp>,
    passed: &List<Passed>,
) -> Result<List<u64>, OutOfMemory>
    requires each { length passed.now ≡ jobs.now.blocks.blocks }
    requires all { length carries.now ≡ jobs.now.blocks.blocks }
    requires right { (b : ℕ) (d : Part) → b < jobs.now.blocks.blocks → IsRight jobs.now.step.arrive.now jobs.now.step.demands.now jobs.now.blocks.block b (slice_index_or passed.now b d) }
    requires known { (b : ℕ) → b < jobs.now.blocks.blocks → IsKnown jobs.now.step.arrive.now jobs.now.step.demands.now jobs.now.blocks.block b (slice_index_or carries.now b Void) }
    ensures { IfOk result (λ departs. departs ≡ lindley 0 jobs.now.step.arrive.now jobs.now.step.demands.now) }
{
    let left = left_of(crew.alloc, jobs, carries, passed)?;
    let rest = Rest {
        jobs: *jobs,
        left: left.as_slice(),
    };
    match crew.made(&rest) {
        Ok(applied) => {
            let departs = together(crew.alloc, jobs, passed, &applied);
            drop(applied);
            drop(left);
            departs
        }
        Err(fault) => {
            drop(left);
            Err(fault)
        }
    }
}
