ghost use Rattle.std.specs.Prelude.{◌≡◌, ◌+◌, ◌-◌, ◌*◌, ◌^◌, ◌≤◌, [], length, IfOk, OnErr, vec_len, vec_capacity};
ghost use Rattle.mq_core.specs.Sequences.{IsSoundLoad};
ghost use Rattle.mq_rounds.specs.Rounds.{admission_of, departures_of, left_of};
ghost use Rattle.mq_rounds.specs.Windows.{IsWindowRun, next_width, one_window, stand_of};

use crate::judge::Judge;
use crate::settled::Settled;
use mq_base::{List, OutOfMemory, Steps};
use mq_core::Stream;
use std::alloc::Global;
use std::sync::ledger::Ledger;

// The state of a run of windows: the settled arrivals and the departures of the admitted, in vectors
// with room for all arrivals, and the numbers of rounds and judgements.
#[derive(Drop)]
struct Progress {
    admitted: Vec<bool>,
    departs: Vec<u64>,
    rounds: u32,
    judged: u64,
}

// A run of windows that hasn't begun, with room for `count` arrivals.
fn with_room(alloc: Global, count: usize) -> Result<Progress, OutOfMemory>
    ensures admitted { IfOk result (λ progress. progress.admitted.items ≡ []) }
    ensures departs { IfOk result (λ progress. progress.departs.items ≡ []) }
    ensures room { IfOk result (λ progress. count ≤ vec_capacity progress.admitted) }
    ensures space { IfOk result (λ progress. count ≤ vec_capacity progress.departs) }
    ensures rounds { IfOk result (λ progress. progress.rounds ≡ 0) }
    ensures judged { IfOk result (λ progress. progress.judged ≡ 0) }
{
    let admitted = Vec::with_capacity(alloc, count)?;
    let departs = Vec::with_capacity(alloc, count)?;
    Ok(Progress {
        admitted,
        departs,
        rounds: 0,
        judged: 0,
    })
}

// The length of the window after one of length `width` in which `settled` arrivals were settled.
fn width_after(settled: usize, width: usize) -> usize
    requires { width ≤ 2 ^ 34 }
    ensures { result ≡ next_width settled width }
{
    if settled == width { 2 * width } else { settled }
}

// Settles the next window, of this length or what is left, and returns the length of the one after it.
fn settle_window<J: Judge, L: Ledger>(
    stream: &Stream,
    demands: &List<u64>,
    width: usize,
    station: &mut J,
    progress: &mut Progress,
    steps: &mut Steps<L>,
) -> usize
    requires load { IsSoundLoad stream.now.time demands.now }
    requires width { width ≤ 2 ^ 34 }
    requires within { vec_len progress.old.admitted ≤ length stream.now.time }
    requires rounds { progress.old.rounds ≤ 2 ^ 30 }
    requires judged { progress.old.judged ≤ 2 ^ 40 }
    requires departs { progress.old.departs.items ≡ departures_of (J.rule station.old).departs stream.now.time demands.now progress.old.admitted.items }
    requires behind { J.behind station.old (left_of (J.rule station.old).departs stream.now.time demands.now progress.old.admitted.items) }
    requires room { length stream.now.time ≤ vec_capacity progress.old.admitted }
    requires space { length stream.now.time ≤ vec_capacity progress.old.departs }
    ensures rule { J.rule station.new ≡ J.rule station.old }
    ensures stand { stand_of progress.new result ≡ one_window (J.rule station.old) stream.now.time demands.now (stand_of progress.old width) }
    ensures departs { progress.new.departs.items ≡ departures_of (J.rule station.old).departs stream.now.time demands.now progress.new.admitted.items }
    ensures behind { J.behind station.new (left_of (J.rule station.old).departs stream.now.time demands.now progress.new.admitted.items) }
    ensures room { vec_capacity progress.new.admitted ≡ vec_capacity progress.old.admitted }
    ensures space { vec_capacity progress.new.departs ≡ vec_capacity progress.old.departs }
    ensures rounds { progress.new.rounds ≡ progress.old.rounds + 1 }
    ensures judged { progress.old.judged ≤ progress.new.judged }
    ensures cost { steps.new ≡ steps.old + J.counted (vec_len progress.new.admitted - vec_len progress.old.admitted) (progress.new.judged - progress.old.judged) }
{
    let from = progress.admitted.len();
    let to = (from + width).min(stream.time.len());
    station.judge_window(
        stream,
        demands,
        from,
        to,
        &mut progress.admitted,
        &mut progress.departs,
        steps,
    );
    let count = progress.admitted.len() - from;
    progress.rounds += 1;
    progress.judged += (to - from) as u64;
    width_after(count, to - from)
}

/// Returns which arrivals of the stream a station admits, and when they depart. Rounds over windows
/// settle the arrivals, one round per window; the first window has `first` arrivals. All arrivals of a
/// window are guessed admitted; its round settles them up to the first that it changes, or all. The
/// next window begins after the settled arrivals. It is twice as long if all were settled; otherwise
/// it has as many arrivals as were settled.
///
/// Times and departures are in ticks, demands in ticks of service; there is one demand per item of the
/// stream, and `first` must be at least 1. No job may have come to the station before. `judged` is the
/// sum of the lengths of the windows, at most twice the number of arrivals plus `first`; there are at
/// most as many rounds as arrivals. The only error is that memory runs out, before a step is counted.
pub fn settle_windows<J: Judge, L: Ledger>(
    alloc: Global,
    stream: &Stream,
    demands: &List<u64>,
    first: u32,
    station: &mut J,
    steps: &mut Steps<L>,
) -> Result<Settled, OutOfMemory>
    requires load { IsSoundLoad stream.now.time demands.now }
    requires first { 1 ≤ first }
    requires behind { J.behind station.old [] }
    ensures admitted { IfOk result (λ settled. settled.admitted ≡ admission_of (J.rule station.old) stream.now.time demands.now) }
    ensures departs { IfOk result (λ settled. settled.departs ≡ departures_of (J.rule station.old).departs stream.now.time demands.now settled.admitted) }
    ensures run { IfOk result (λ settled. IsWindowRun (J.rule station.old) stream.now.time demands.now first settled.rounds settled.judged) }
    ensures rounds { IfOk result (λ settled. settled.rounds ≤ length stream.now.time) }
    ensures judged { IfOk result (λ settled. settled.judged ≤ 2 * length stream.now.time + first) }
    ensures least { IfOk result (λ settled. length stream.now.time ≤ settled.judged) }
    ensures cost { IfOk result (λ settled. steps.new ≡ steps.old + J.counted (length stream.now.time) settled.judged) }
    ensures refused { OnErr result (steps.new ≡ steps.old) }
{
    let count = stream.time.len();
    let mut progress = with_room(alloc, count)?;
    let mut width = first as usize;
    'window: while progress.admitted.len() < count {
        width = settle_window(stream, demands, width, station, &mut progress, steps);
    }
    Ok(Settled {
        admitted: List::from_vec(progress.admitted),
        departs: List::from_vec(progress.departs),
        rounds: progress.rounds,
        judged: progress.judged,
    })
}
