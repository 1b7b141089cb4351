ghost use Rattle.std.specs.Prelude.{◌≡◌, ◌+◌, ◌≤◌, length, IfOk, IsTrue, ◌↔◌};
ghost use Rattle.mq_core.specs.Sequences.{IsSoundLoad};
ghost use Rattle.mq_loss.specs.Rounds.{IsSettled, IsWholeRun, departure_behind, loss_rule};
ghost use Rattle.mq_rounds.specs.Rounds.{all_admitted, departures_of, round_of};

use crate::judging::{finds_place, follow};
use mq_base::{List, OutOfMemory};
use mq_core::Stream;
use mq_rounds::Settled;
use std::alloc::Global;

// A guess that admits `count` arrivals.
fn all_of(alloc: Global, count: usize) -> Result<List<bool>, OutOfMemory>
    ensures { IfOk result (λ guess. guess ≡ all_admitted count) }
{
    Ok(List::from_vec(vec![in alloc; true; count]?))
}

/// Makes one round. Returns which arrivals of the stream a loss station with these places admits
/// if, of those before each, the ones that the guess admits were admitted and follow the server's
/// recurrence.
///
/// Times are in ticks and demands in ticks of service; there is one demand and one guess per item
/// of the stream, and at least one place. The only error is that memory runs out.
pub fn round(
    alloc: Global,
    stream: &Stream,
    demands: &List<u64>,
    places: u32,
    guess: &List<bool>,
) -> Result<List<bool>, OutOfMemory>
    requires load { IsSoundLoad stream.now.time demands.now }
    requires places { 1 ≤ places }
    requires guess { length guess.now ≡ length stream.now.time }
    ensures { IfOk result (λ answer. answer ≡ round_of (loss_rule places) stream.now.time demands.now guess.now) }
{
    let mut answer = List::new(alloc);
    let mut departs = List::new(alloc);
    for at in 0..stream.time.len() {
        let arrive = *stream.time.get(at);
        let demand = *demands.get(at);
        let admit = *guess.get(at);
        answer.push(finds_place(departs.as_slice(), places, arrive))?;
        follow(&mut departs, admit, arrive, demand)?;
    }
    Ok(answer)
}

// The departures of the admitted arrivals.
fn departures(
    alloc: Global,
    stream: &Stream,
    demands: &List<u64>,
    admitted: &List<bool>,
) -> Result<List<u64>, OutOfMemory>
    requires load { IsSoundLoad stream.now.time demands.now }
    requires admitted { length admitted.now ≡ length stream.now.time }
    ensures { IfOk result (λ departs. departs ≡ departures_of departure_behind stream.now.time demands.now admitted.now) }
{
    let mut departs = List::new(alloc);
    for at in 0..stream.time.len() {
        let arrive = *stream.time.get(at);
        let demand = *demands.get(at);
        let admit = *admitted.get(at);
        follow(&mut departs, admit, arrive, demand)?;
    }
    Ok(departs)
}

// Whether two guesses are the same.
fn same(guess: &List<bool>, other: &List<bool>) -> bool
    requires { length guess.now ≡ length other.now }
    ensures { IsTrue result ↔ (guess.now ≡ other.now) }
{
    guess.as_slice() == other.as_slice()
}

/// Returns which arrivals of the stream a loss station with these places admits, and when they
/// depart. Rounds over all arrivals settle this: they begin with all guessed admitted, and end with
/// the first round that changes nothing. There is at most one more round than there are arrivals,
/// and each makes one judgement per arrival.
///
/// Times and departures are in ticks, demands in ticks of service; there is one demand per item
/// of the stream, and at least one place. The only error is that memory runs out.
pub fn settle_whole(
    alloc: Global,
    stream: &Stream,
    demands: &List<u64>,
    places: u32,
) -> Result<Settled, OutOfMemory>
    requires load { IsSoundLoad stream.now.time demands.now }
    requires places { 1 ≤ places }
    ensures settled { IfOk result (λ settled. IsSettled places stream.now.time demands.now settled) }
    ensures run { IfOk result (λ settled. IsWholeRun places stream.now.time demands.now settled.rounds settled.judged) }
    ensures rounds { IfOk result (λ settled. settled.rounds ≤ length stream.now.time + 1) }
{
    let count = stream.time.len();
    let mut guess = all_of(alloc, count)?;
    let mut rounds = 0;
    let mut stays = false;
    while !stays {
        let next = round(alloc, stream, demands, places, &guess)?;
        rounds += 1;
        stays = same(&next, &guess);
        guess = next;
    }
    let departs = departures(alloc, stream, demands, &guess)?;
    Ok(Settled {
        admitted: guess,
        departs,
        rounds,
        judged: rounds as u64 * count as u64,
    })
}
