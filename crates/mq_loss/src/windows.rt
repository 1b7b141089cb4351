ghost use Rattle.std.specs.Prelude.{◌≡◌, ◌+◌, ◌-◌, ◌*◌, ◌^◌, ◌≤◌, ◌++◌, drop, length, refl, reverse, slice_get, IfOk, vec_len, vec_capacity};
ghost use Rattle.mq_core.specs.Sequences.{IsSoundLoad};
ghost use Rattle.mq_core.specs.Recurrences.{time_or_none};
ghost use Rattle.mq_loss.specs.Rounds.{IsSettled, departure_behind, loss_rule};
ghost use Rattle.mq_loss.specs.Windows.{unchanged_in};
ghost use Rattle.mq_rounds.specs.Rounds.{all_admitted, departures_from, round_from};
ghost use Rattle.mq_rounds.specs.Windows.{IsWindowRun};

use crate::judging::{judge_behind, last_of};
use mq_base::{List, OutOfMemory, Steps};
use mq_core::Stream;
use mq_rounds::{Judge, Settled, settle_windows};
use std::alloc::Global;
use std::sync::ledger::Ledger;

// Makes one round over the arrivals from `from` up to `to`, all guessed admitted: appends whether
// each is admitted, and the departures that the guess gives, to those of the settled arrivals.
fn judge_all<L: Ledger>(
    stream: &Stream,
    demands: &List<u64>,
    places: u32,
    from: usize,
    to: usize,
    admitted: &mut Vec<bool>,
    departs: &mut Vec<u64>,
    steps: &mut Steps<L>,
)
    requires load { IsSoundLoad stream.now.time demands.now }
    requires places { 1 ≤ places }
    requires order { from ≤ to }
    requires within { to ≤ length stream.now.time }
    requires early { time_or_none (slice_get (reverse departs.old.items) 0) ≤ 2 ^ 60 + from * 2 ^ 36 }
    requires room { vec_len admitted.old + (to - from) ≤ vec_capacity admitted.old }
    requires space { vec_len departs.old + (to - from) ≤ vec_capacity departs.old }
    ensures outcome { admitted.new.items ≡ admitted.old.items ++ round_from (loss_rule places) (reverse departs.old.items) (drop from stream.now.time) (drop from demands.now) (all_admitted (to - from)) }
    ensures departs { departs.new.items ≡ departs.old.items ++ departures_from departure_behind (reverse departs.old.items) (drop from stream.now.time) (drop from demands.now) (all_admitted (to - from)) }
    ensures room { vec_capacity admitted.new ≡ vec_capacity admitted.old }
    ensures space { vec_capacity departs.new ≡ vec_capacity departs.old }
    ensures cost { steps.new ≡ steps.old + (to - from) }
{
    let mut last = last_of(departs.as_slice());
    for at in from..to {
        let arrive = *stream.time.get(at);
        admitted.push_reserved(judge_behind(departs.as_slice(), places, arrive, steps));
        last = last.max(arrive) + *demands.get(at);
        departs.push_reserved(last);
    }
}

// The number of arrivals before the first that the round changed.
fn unchanged_of(outcome: &[bool]) -> usize
    ensures { result ≡ unchanged_in outcome.now }
{
    for (at, admitted) in outcome.iter().enumerate() {
        if !*admitted {
            return at;
        }
    }
    outcome.len()
}

// A loss station with this many places, at least one. It judges all arrivals of a window.
#[derive(Drop)]
struct Places {
    places: u32,
}

impl Judge for Places {
    ghost rule = { λ station. loss_rule station.places };

    ghost behind = { λ station left. 1 ≤ station.places };

    ghost counted = { λ settled judged. judged };

    fn judge_window<L: Ledger>(
        &mut self,
        stream: &Stream,
        demands: &List<u64>,
        from: usize,
        to: usize,
        admitted: &mut Vec<bool>,
        departs: &mut Vec<u64>,
        steps: &mut Steps<L>,
    ) {
        let left = departs.len();
        judge_all(
            stream,
            demands,
            self.places,
            from,
            to,
            admitted,
            departs,
            steps,
        );
        let unchanged = unchanged_of(&admitted.as_slice()[from..]);
        let count = (unchanged + 1).min(to - from);
        admitted.truncate(from + count);
        departs.truncate(left + unchanged);
    }

    ghost adds = { λ settled judged more others. refl };
}

/// Returns which arrivals of the stream a loss station with these places admits, and when they
/// depart. Rounds over windows settle the arrivals, one round per window; the first window has
/// `first` arrivals. All arrivals of a window are guessed admitted; its round settles them up to
/// the first that it changes, or all. The next window begins after the settled arrivals. It is
/// twice as long if all were settled; otherwise it has as many arrivals as were settled.
///
/// Times and departures are in ticks, demands in ticks of service; there is one demand per item of
/// the stream. `places` and `first` must be at least 1. Each judgement counts one step: `judged` in
/// all, or, if there is an error, at most twice the number of arrivals plus `first`, which also
/// bounds `judged`. There are at most as many rounds as arrivals. The only error is that memory
/// runs out.
pub fn settle<L: Ledger>(
    alloc: Global,
    stream: &Stream,
    demands: &List<u64>,
    places: u32,
    first: u32,
    steps: &mut Steps<L>,
) -> Result<Settled, OutOfMemory>
    requires load { IsSoundLoad stream.now.time demands.now }
    requires places { 1 ≤ places }
    requires first { 1 ≤ first }
    ensures settled { IfOk result (λ settled. IsSettled places stream.now.time demands.now settled) }
    ensures run { IfOk result (λ settled. IsWindowRun (loss_rule places) stream.now.time demands.now first settled.rounds settled.judged) }
    ensures rounds { IfOk result (λ settled. settled.rounds ≤ length stream.now.time) }
    ensures judged { IfOk result (λ settled. settled.judged ≤ 2 * length stream.now.time + first) }
    ensures cost { IfOk result (λ settled. steps.new ≡ steps.old + settled.judged) }
    ensures most { steps.new ≤ steps.old + (2 * length stream.now.time + first) }
{
    let mut station = Places { places };
    let settled = settle_windows(alloc, stream, demands, first, &mut station, steps)?;
    Ok(settled)
}
