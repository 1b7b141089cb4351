// A server's jobs, which act on the last departure one after another.
ghost use Rattle.std.specs.Prelude.{◌≡◌, length};
ghost use Rattle.mq_core.specs.Sequences.{IsSoundLoad};
ghost use Rattle.mq_maxplus.specs.declared.mp.Mp.TheVariants.{Void};
ghost use Rattle.mq_maxplus.specs.Maxplus.{affine_act, affine_then, mp_or_zero, CanAct, CanThen};
ghost use Rattle.mq_maxplus.proofs.Laws.{acts as acts_law, joins as joins_law};
ghost use Rattle.mq_server.specs.Jobs.{job, IsLateLoad};
ghost use Rattle.mq_server.specs.Bounds.{spans_act as acts_of, spans_join as joins_of};

use mq_base::List;
use mq_core::Stream;
use mq_maxplus::{Affine, Mp};
use mq_scan::{Step, Timed};

/// The jobs of a server, which act on its last departure one after another; before the first job
/// there is none. Neighbouring jobs together are one affine map (Greenberg, Lubachevsky and
/// Mitrani, 1991).
#[derive(Clone, Copy)]
pub struct ServerStep<'a> {
    /// The arrival times, by position, in ticks.
    pub arrive: &'a List<u64>,
    /// The demands, by position, in ticks of service.
    pub demands: &'a List<u64>,
    ghost load: { IsLateLoad arrive.now demands.now },
}

impl<'a> ServerStep<'a> {
    /// Returns the jobs of a stream, with their demands in ticks of service. Takes no memory.
    pub fn new(stream: &'a Stream, demands: &'a List<u64>) -> ServerStep<'a>
        requires { IsSoundLoad stream.now.time demands.now }
        ensures arrive { result.arrive.now ≡ stream.now.time }
        ensures demands { result.demands.now ≡ demands.now }
    {
        ServerStep::behind(&stream.time, demands)
    }

    /// Returns the jobs that come at these times, in ticks and up to 2^62, such as jobs from other
    /// servers. Takes no memory.
    pub fn behind(arrive: &'a List<u64>, demands: &'a List<u64>) -> ServerStep<'a>
        requires { IsLateLoad arrive.now demands.now }
        ensures arrive { result.arrive.now ≡ arrive.now }
        ensures demands { result.demands.now ≡ demands.now }
    {
        ServerStep { arrive, demands }
    }
}

impl<'a> Step for ServerStep<'a> {
    type Carry = Mp;

    type Summary = Affine;

    ghost size = { λ s. length s.arrive.now };

    ghost start = { λ s. Void };

    ghost part = { λ s at. job s.arrive.now s.demands.now at };

    ghost joined = { affine_then };

    ghost acted = { affine_act };

    ghost can_join = { CanThen };

    ghost can_act = { CanAct };

    fn count(&self) -> u32 {
        self.arrive.len() as u32
    }

    fn first(&self) -> Mp {
        Mp::Void
    }

    fn one(&self, at: u32) -> Affine {
        let demand = *self.demands.get(at as usize);
        Affine {
            add: demand,
            least: Mp::At(*self.arrive.get(at as usize) + demand),
        }
    }

    fn then(a: Affine, b: Affine) -> Affine
        requires { CanThen a b }
        ensures { result ≡ affine_then a b }
    {
        a.then(b)
    }

    fn act(s: Affine, c: Mp) -> Mp
        requires { CanAct s c }
        ensures { result ≡ affine_act s c }
    {
        s.act(c)
    }

    ghost spans_join = { λ s from n m le. joins_of s.arrive.now s.demands.now s.load from n m le };

    ghost spans_act = { λ s from n le. acts_of s.arrive.now s.demands.now s.load from n le };

    ghost joins = { λ a b c _ _ _ _. joins_law a b c };

    ghost acts = { λ a b c _ _ _ _. acts_law a b c };
}

impl<'a> Timed for ServerStep<'a> {
    ghost time_of = { λ s carry. mp_or_zero carry };

    ghost can_time = { λ s carry. Unit {0} };

    fn time(&self, carry: &Mp) -> u64 {
        carry.or_zero()
    }

    ghost folds_time = { λ s n le. tt };
}
