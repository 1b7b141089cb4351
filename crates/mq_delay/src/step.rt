// The jobs of a delay, as the steps of a scan.
ghost use Rattle.std.specs.Prelude.{◌≡◌, ◌+◌, length, slice_index};
ghost use Rattle.mq_core.specs.Sequences.{IsSoundLoad};

use mq_base::List;
use mq_core::Stream;
use mq_scan::{Step, Timed};

/// The jobs of a delay as steps: each gives its departure, in ticks, whatever came before it. Before the first
/// job the value is 0.
#[derive(Clone, Copy)]
pub struct DelayStep<'a> {
    /// The arrival times, by position, in ticks.
    pub arrive: &'a List<u64>,
    /// The demands, by position, in ticks.
    pub demands: &'a List<u64>,
    ghost load: { IsSoundLoad arrive.now demands.now },
}

impl<'a> DelayStep<'a> {
    /// Returns the jobs of a stream, with their demands in ticks. Takes no memory.
    pub fn new(stream: &'a Stream, demands: &'a List<u64>) -> DelayStep<'a>
        requires { IsSoundLoad stream.now.time demands.now }
        ensures arrive { result.arrive.now ≡ stream.now.time }
        ensures demands { result.demands.now ≡ demands.now }
    {
        DelayStep {
            arrive: &stream.time,
            demands,
        }
    }
}

impl<'a> Step for DelayStep<'a> {
    type Carry = u64;

    type Summary = u64;

    ghost size = { λ s. length s.arrive.now };

    ghost start = { λ s. 0 };

    ghost part = { λ s at. slice_index s.arrive.now at + slice_index s.demands.now at };

    ghost joined = { λ a b. b };

    ghost acted = { λ s c. s };

    ghost can_join = { λ a b. Unit {0} };

    ghost can_act = { λ s c. Unit {0} };

    fn count(&self) -> u32 {
        self.arrive.len() as u32
    }

    fn first(&self) -> u64 {
        0
    }

    fn one(&self, at: u32) -> u64 {
        *self.arrive.get(at as usize) + *self.demands.get(at as usize)
    }

    fn then(_a: u64, b: u64) -> u64
        ensures { result ≡ b }
    {
        b
    }

    fn act(s: u64, _c: u64) -> u64
        ensures { result ≡ s }
    {
        s
    }

    ghost spans_join = { λ s from n m le. tt };

    ghost spans_act = { λ s from n le. tt };

    ghost joins = { λ a b c _ _ _ _ i. c };

    ghost acts = { λ a b c _ _ _ _ i. b };
}

impl<'a> Timed for DelayStep<'a> {
    ghost time_of = { λ s carry. carry };

    ghost can_time = { λ s carry. Unit {0} };

    fn time(&self, carry: &u64) -> u64 {
        *carry
    }

    ghost folds_time = { λ s n le. tt };
}
