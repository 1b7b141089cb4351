ghost use Rattle.std.specs.Prelude.{◌≡◌, ◌+◌, ◌^◌, ◌≤◌, ◌++◌, ◌∷◌, [], reverse, slice_get, OnOk};
ghost use Rattle.mq_core.specs.Recurrences.{is_admitted, time_or_none};
ghost use Rattle.mq_loss.specs.Rounds.{departure_behind};
ghost use Rattle.mq_rounds.specs.Rounds.{departures_from};

use mq_base::{List, OutOfMemory, Steps};
use std::sync::ledger::Ledger;

// Whether an arrival finds a place, given the departures of those admitted before it, in order.
pub fn finds_place(departs: &[u64], places: u32, arrive: u64) -> bool
    requires { 1 ≤ places }
    ensures { result ≡ is_admitted places (reverse departs.now) arrive }
{
    let count = departs.len();
    count < places as usize || departs[count - places as usize] <= arrive
}

// Whether an arrival finds a place, as `finds_place` says; counts one step.
pub fn judge_behind<L: Ledger>(
    departs: &[u64],
    places: u32,
    arrive: u64,
    steps: &mut Steps<L>,
) -> bool
    requires { 1 ≤ places }
    ensures answer { result ≡ is_admitted places (reverse departs.now) arrive }
    ensures cost { steps.new ≡ steps.old + 1 }
{
    steps.tick();
    finds_place(departs, places, arrive)
}

/// Returns whether an arrival is admitted: fewer than `places` were admitted before it, or the
/// `places`-th last of them has departed by then. `departs` contains the departures of those
/// admitted before it, in order; times are in ticks. Counts one step, takes no memory and can't
/// fail.
pub fn judge<L: Ledger>(departs: &List<u64>, places: u32, arrive: u64, steps: &mut Steps<L>) -> bool
    requires { 1 ≤ places }
    ensures answer { result ≡ is_admitted places (reverse departs.now) arrive }
    ensures cost { steps.new ≡ steps.old + 1 }
{
    judge_behind(departs.as_slice(), places, arrive, steps)
}

// The last of these departures, or 0 if there are none.
pub fn last_of(departs: &[u64]) -> u64
    ensures { result ≡ time_or_none (slice_get (reverse departs.now) 0) }
{
    if departs.is_empty() {
        return 0;
    }
    departs[departs.len() - 1]
}

// Appends the departure of one more job.
pub fn serve(departs: &mut List<u64>, arrive: u64, demand: u64) -> Result<(), OutOfMemory>
    requires last { time_or_none (slice_get (reverse departs.old) 0) ≤ 2 ^ 61 }
    requires arrive { arrive ≤ 2 ^ 60 }
    requires demand { demand ≤ 2 ^ 36 }
    ensures { OnOk result (departs.new ≡ departs.old ++ departure_behind (reverse departs.old) arrive demand ∷ []) }
{
    let begins = last_of(departs.as_slice()).max(arrive);
    departs.push(begins + demand)
}

// Appends the departure of a job if it is admitted, and otherwise changes nothing.
pub fn follow(
    departs: &mut List<u64>,
    admit: bool,
    arrive: u64,
    demand: u64,
) -> Result<(), OutOfMemory>
    requires last { time_or_none (slice_get (reverse departs.old) 0) ≤ 2 ^ 61 }
    requires arrive { arrive ≤ 2 ^ 60 }
    requires demand { demand ≤ 2 ^ 36 }
    ensures { OnOk result (departs.new ≡ departs.old ++ departures_from departure_behind (reverse departs.old) (arrive ∷ []) (demand ∷ []) (admit ∷ [])) }
{
    if admit {
        serve(departs, arrive, demand)?;
    }
    Ok(())
}
