ghost use Rattle.std.specs.Prelude.{◌≡◌, ◌+◌, length, nat_lt, refl};
ghost use Rattle.mq_core.specs.Recurrences.{busy_at};
ghost use Rattle.mq_trunk.specs.Kept.{IsFalling, IsKept};
ghost use Rattle.mq_trunk.specs.Rounds.{trunk_rule};

use crate::judging::{busy_at_most, judge_trunk, keep_latest};
use mq_base::{List, Steps};
use mq_core::Stream;
use mq_rounds::Judge;
use std::sync::ledger::Ledger;

// A trunk group with this many servers, and its latest departures, one per server. It judges no
// arrival of a window after the first that the round changes, since nothing is settled there.
#[derive(Drop)]
pub struct Group {
    pub servers: u8,
    pub latest: Vec<u64>,
}

// Whether an arrival finds a server, given the latest departures, one per server; counts one step.
fn judge_arrival<L: Ledger>(latest: &[u64], servers: u8, arrive: u64, steps: &mut Steps<L>) -> bool
    requires falls { IsFalling latest.now }
    requires number { length latest.now ≡ servers }
    ensures answer { result ≡ nat_lt (busy_at arrive latest.now) servers }
    ensures cost { steps.new ≡ steps.old + 1 }
{
    judge_trunk(busy_at_most(latest, arrive) as u32, servers, steps)
}

impl Judge for Group {
    ghost rule = { λ group. trunk_rule group.servers };

    ghost behind = { λ group left. IsKept group.servers group.latest.items left };

    ghost counted = { λ settled judged. settled };

    fn judge_window<L: Ledger>(
        &mut self,
        stream: &Stream,
        demands: &List<u64>,
        from: usize,
        to: usize,
        admitted: &mut Vec<bool>,
        departs: &mut Vec<u64>,
        steps: &mut Steps<L>,
    ) {
        for at in from..to {
            let arrive = *stream.time.get(at);
            let demand = *demands.get(at);
            let free = judge_arrival(self.latest.as_slice(), self.servers, arrive, steps);
            admitted.push_reserved(free);
            if !free {
                return;
            }
            departs.push_reserved(arrive + demand);
            keep_latest(&mut self.latest, arrive + demand);
        }
    }

    ghost adds = { λ settled judged more others. refl };
}
