// The law of a fork-join's scan.
ghost use Rattle.mq_forkjoin.specs.Servers.{CarriesHoldDepartures};

use crate::step::ForkJoinStep;

/// Law: the times of the carries of the fold of a fork-join's jobs are its departures. It does nothing when it runs.
pub fn carries_hold_departures(step: &ForkJoinStep)
    ensures { CarriesHoldDepartures step.now }
{
    let _ = step;
}
