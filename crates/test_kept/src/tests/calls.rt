// Jobs that count how often they are asked for: only those of the blocks that are redone are.
ghost use Rattle.std.specs.Prelude.{◌≡◌, ◌+◌, ◌≤◌};

use mq_base::{OutOfMemory, Steps};
use mq_redo::{redo_block, redone_behind};
use mq_scan::{Step, Timed, cut};
use std::alloc::Global;
use std::cell::Cell;
use std::marker::Brand;
use std::sync::ledger::{Blank, Ledger};
use std::test::Fail;

// A number of jobs, each of which leaves its own number, from 1, as the carry. `asked` counts the jobs that are asked
// for.
#[derive(Drop)]
struct Watched<'a> {
    jobs: u32,
    asked: &'a Cell<u32>,
}

impl<'a> Step for Watched<'a> {
    type Carry = u64;

    type Summary = u64;

    ghost size = { λ s. s.jobs };

    ghost start = { λ s. 0 };

    ghost part = { λ s at. at + 1 };

    ghost joined = { λ a b. b };

    ghost acted = { λ s c. s };

    ghost can_join = { λ a b. Unit {0} };

    ghost can_act = { λ s c. Unit {0} };

    fn count(&self) -> u32 {
        self.jobs
    }

    fn first(&self) -> u64 {
        0
    }

    fn one(&self, at: u32) -> u64 {
        self.asked.set(self.asked.get().wrapping_add(1));
        at as u64 + 1
    }

    fn then(_a: u64, b: u64) -> u64
        ensures { result ≡ b }
    {
        b
    }

    fn act(s: u64, _c: u64) -> u64
        ensures { result ≡ s }
    {
        s
    }

    ghost spans_join = { λ s from n m le. tt };

    ghost spans_act = { λ s from n le. tt };

    ghost joins = { λ a b c _ _ _ _ i. c };

    ghost acts = { λ a b c _ _ _ _ i. b };
}

impl<'a> Timed for Watched<'a> {
    ghost time_of = { λ s carry. carry };

    ghost can_time = { λ s carry. Unit {0} };

    fn time(&self, carry: &u64) -> u64 {
        *carry
    }

    ghost folds_time = { λ s n le. tt };
}

// Redoes the blocks after the first one, for five jobs in blocks of two. Returns the number of jobs asked for, and of
// all jobs.
fn asked_behind<L: Ledger>(alloc: Global, blank: Blank) -> Result<(u32, usize), OutOfMemory>
    requires name { blank.name ≡ L.name }
    requires parts { blank.parts ≡ L.parts }
    requires some { 1 ≤ blank.parts }
{
    let mut steps = Steps::<L>::new(blank);
    let asked = Cell::new(0);
    let step = Watched {
        jobs: 5,
        asked: &asked,
    };
    let times = vec![in alloc; 1, 2]?;
    let done = redone_behind(alloc, &step, &cut(5, 2), times, &[2], 1, &mut steps)?;
    Ok((asked.get(), done.times.len()))
}

#[test]
fn jobs_of_blocks_that_stay_are_not_asked_for(rt: HostRuntime) -> Result<(), Fail> {
    let (asked, all) = asked_behind::<Brand>(rt.alloc(), Blank::new(1))?;
    assert!(rt; asked == 3 && all == 5);
    Ok(())
}

// Redoes the third and the fourth of five jobs, given 2, the carry after two jobs. Whether the carries after the two
// are 3 and 4, and two jobs were asked for.
fn one_block_is_redone<L: Ledger>(alloc: Global, blank: Blank) -> Result<bool, OutOfMemory>
    requires name { blank.name ≡ L.name }
    requires parts { blank.parts ≡ L.parts }
    requires some { 1 ≤ blank.parts }
{
    let mut steps = Steps::<L>::new(blank);
    let asked = Cell::new(0);
    let step = Watched {
        jobs: 5,
        asked: &asked,
    };
    let after = redo_block(alloc, &step, 2, 4, 2, &mut steps)?;
    let so = after.as_slice() == [3, 4].as_slice() && asked.get() == 2;
    drop(after);
    Ok(so)
}

#[test]
fn a_block_is_redone_alone(rt: HostRuntime) -> Result<(), Fail> {
    assert!(rt; one_block_is_redone::<Brand>(rt.alloc(), Blank::new(1))?);
    Ok(())
}
