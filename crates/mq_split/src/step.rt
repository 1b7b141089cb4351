// The jobs of a split, as the steps of a scan.
ghost use Rattle.std.specs.Prelude.{◌≡◌, ◌≤◌, length, slice_index};
ghost use Rattle.mq_core.specs.Kinds.Split.{output_at};
ghost use Rattle.mq_split.specs.Outs.{HasOutputs};

use crate::route_of;
use mq_base::List;
use mq_core::Route;
use mq_scan::{Step, Timed};

/// The jobs of a split as steps: each gives the output by which it leaves, from 0, whatever came before it.
#[derive(Clone, Copy)]
pub struct RouteStep<'a> {
    pub route: &'a Route,
    /// The value of each job that the route uses, by position.
    pub values: &'a List<u64>,
    ghost outputs: { HasOutputs route.now },
    ghost few: { length values.now ≤ 1048576 },
}

impl<'a> RouteStep<'a> {
    /// Returns the jobs that have these values. Takes no memory.
    pub fn new(route: &'a Route, values: &'a List<u64>) -> RouteStep<'a>
        requires outputs { HasOutputs route.now }
        requires few { length values.now ≤ 1048576 }
        ensures route { result.route.now ≡ route.now }
        ensures values { result.values.now ≡ values.now }
    {
        RouteStep { route, values }
    }
}

impl<'a> Step for RouteStep<'a> {
    type Carry = u8;

    type Summary = u8;

    ghost size = { λ s. length s.values.now };

    ghost start = { λ s. 0 };

    ghost part = { λ s at. output_at s.route.now (slice_index s.values.now at) at };

    ghost joined = { λ a b. b };

    ghost acted = { λ s c. s };

    ghost can_join = { λ a b. Unit {0} };

    ghost can_act = { λ s c. Unit {0} };

    fn count(&self) -> u32 {
        self.values.len() as u32
    }

    fn first(&self) -> u8 {
        0
    }

    fn one(&self, at: u32) -> u8 {
        route_of(self.route, *self.values.get(at as usize), at)
    }

    fn then(_a: u8, b: u8) -> u8
        ensures { result ≡ b }
    {
        b
    }

    fn act(s: u8, _c: u8) -> u8
        ensures { result ≡ s }
    {
        s
    }

    ghost spans_join = { λ s from n m le. tt };

    ghost spans_act = { λ s from n le. tt };

    ghost joins = { λ a b c _ _ _ _ i. c };

    ghost acts = { λ a b c _ _ _ _ i. b };
}

impl<'a> Timed for RouteStep<'a> {
    ghost time_of = { λ s carry. carry };

    ghost can_time = { λ s carry. Unit {0} };

    fn time(&self, carry: &u8) -> u64 {
        *carry as u64
    }

    ghost folds_time = { λ s n le. tt };
}
