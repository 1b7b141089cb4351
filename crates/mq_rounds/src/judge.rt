ghost use Rattle.std.specs.Prelude.{◌≡◌, ℕ, ◌+◌, ◌-◌, ◌≤◌, ◌++◌, drop, length, List, vec_len, vec_capacity};
ghost use Rattle.mq_core.specs.Sequences.{IsSoundLoad};
ghost use Rattle.mq_rounds.specs.Rounds.{Rule, all_admitted, departures_of, left_of, round_from};
ghost use Rattle.mq_rounds.specs.Windows.{settled_part};

use mq_base::{List, Steps};
use mq_core::Stream;
use std::sync::ledger::Ledger;

/// A station that settles its arrivals window by window, one round per window.
pub trait Judge {
    /// How it judges an arrival, and when an admitted one departs.
    ghost rule: { Self → Rule };

    /// Whether its state follows jobs that left at these times, the latest admitted first.
    ghost behind: { Self → List ℕ → Type 0 };

    /// The number of steps that it counts to settle this many arrivals, in windows of this total
    /// length.
    ghost counted: { ℕ → ℕ → ℕ };

    /// Makes the round over the arrivals from `from` up to `to`, all guessed admitted. Appends what it
    /// settles to the settled arrivals, and the departures of the admitted to theirs. Times are in
    /// ticks and demands in ticks of service, one per item of the stream. Takes no memory and can't
    /// fail.
    fn judge_window<L: Ledger>(
        &mut self,
        stream: &Stream,
        demands: &List<u64>,
        from: usize,
        to: usize,
        admitted: &mut Vec<bool>,
        departs: &mut Vec<u64>,
        steps: &mut Steps<L>,
    )
        requires load { IsSoundLoad stream.now.time demands.now }
        requires order { from ≤ to }
        requires within { to ≤ length stream.now.time }
        requires from { from ≡ length admitted.old.items }
        requires departs { departs.old.items ≡ departures_of (rule self.old).departs stream.now.time demands.now admitted.old.items }
        requires behind { behind self.old (left_of (rule self.old).departs stream.now.time demands.now admitted.old.items) }
        requires room { vec_len admitted.old + (to - from) ≤ vec_capacity admitted.old }
        requires space { vec_len departs.old + (to - from) ≤ vec_capacity departs.old }
        ensures rule { rule self.new ≡ rule self.old }
        ensures settled { admitted.new.items ≡ admitted.old.items ++ settled_part (round_from (rule self.old) (left_of (rule self.old).departs stream.now.time demands.now admitted.old.items) (drop from stream.now.time) (drop from demands.now) (all_admitted (to - from))) }
        ensures departs { departs.new.items ≡ departures_of (rule self.old).departs stream.now.time demands.now admitted.new.items }
        ensures behind { behind self.new (left_of (rule self.old).departs stream.now.time demands.now admitted.new.items) }
        ensures room { vec_capacity admitted.new ≡ vec_capacity admitted.old }
        ensures space { vec_capacity departs.new ≡ vec_capacity departs.old }
        ensures cost { steps.new ≡ steps.old + counted (vec_len admitted.new - vec_len admitted.old) (to - from) };

    /// The counts of several windows add up.
    ghost adds: { (settled judged more others : ℕ) → counted (settled + more) (judged + others) ≡ counted settled judged + counted more others };
}
