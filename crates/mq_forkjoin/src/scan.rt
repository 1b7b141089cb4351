// The jobs of a fork-join, as the steps of a scan.
ghost use Rattle.std.specs.Prelude.{◌≡◌, fold, length, max, replicate};
ghost use Rattle.mq_forkjoin.specs.Fronts.{CanJoin, CanServe, jobs_act, jobs_join, one_job};
ghost use Rattle.mq_forkjoin.specs.Bounds.{acts as acts_law, joins as joins_law, spans_act as acts_of, spans_join as joins_of};

use crate::step::ForkJoinStep;
use mq_scan::{Step, Timed};

/// Neighbouring jobs of a fork-join, from one index up to another. What they do together isn't computed before they act.
#[derive(Clone, Copy)]
pub struct Jobs<'a> {
    pub step: ForkJoinStep<'a>,
    pub from: u32,
    pub to: u32,
}

impl<'a> Step for ForkJoinStep<'a> {
    type Carry = [u64; 8];

    type Summary = Jobs<'a>;

    ghost size = { λ s. length s.arrive.now };

    ghost start = { λ s. replicate 8 0 };

    ghost part = { λ s at. one_job s at };

    ghost joined = { jobs_join };

    ghost acted = { jobs_act };

    ghost can_join = { CanJoin };

    ghost can_act = { CanServe };

    fn count(&self) -> u32 {
        self.arrive.len() as u32
    }

    fn first(&self) -> [u64; 8] {
        [0; 8]
    }

    fn one(&self, at: u32) -> Jobs<'a> {
        Jobs {
            step: *self,
            from: at,
            to: at + 1,
        }
    }

    fn then(a: Jobs<'a>, b: Jobs<'a>) -> Jobs<'a>
        requires { CanJoin a b }
        ensures { result ≡ jobs_join a.entry b.entry }
    {
        Jobs {
            step: a.step,
            from: a.from,
            to: b.to,
        }
    }

    fn act(s: Jobs<'a>, c: [u64; 8]) -> [u64; 8]
        requires { CanServe s c }
        ensures { result ≡ jobs_act s.entry c }
    {
        let mut last = c;
        for at in s.from..s.to {
            s.step.serve(&mut last, at as usize);
        }
        last
    }

    ghost spans_join = { λ s from n m le. joins_of s from n m le };

    ghost spans_act = { λ s from n le. acts_of s from n le };

    ghost joins = { λ a b c _ _ _ _. joins_law a b c };

    ghost acts = { λ a b c can _ _ _. acts_law a b c can };
}

impl<'a> Timed for ForkJoinStep<'a> {
    ghost time_of = { λ s carry. fold max 0 carry };

    ghost can_time = { λ s carry. Unit {0} };

    // A job leaves when it has left the last server of each branch, which is the greatest of all its departures.
    fn time(&self, carry: &[u64; 8]) -> u64 {
        let mut latest = 0u64;
        for time in carry {
            latest = latest.max(*time);
        }
        latest
    }

    ghost folds_time = { λ s n le. tt };
}
