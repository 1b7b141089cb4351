ghost use Rattle.std.specs.Prelude.{◌≡◌, ◌+◌, length, nat_lt, replicate, if◌then◌else◌, IfOk};
ghost use Rattle.mq_core.specs.Sequences.{IsSoundLoad};
ghost use Rattle.mq_trunk.specs.Kept.{IsFalling, take_place};
ghost use Rattle.mq_core.specs.Recurrences.{busy_at};
ghost use Rattle.mq_rounds.specs.Rounds.{round_of};
ghost use Rattle.mq_trunk.specs.Rounds.{trunk_rule};

use crate::judging::{busy_among, keep_latest};
use mq_base::{List, OutOfMemory};
use mq_core::Stream;
use std::alloc::Global;

// The latest departures, one per server, before the first job: all 0, so none is after an arrival.
pub fn all_free(alloc: Global, servers: u8) -> Result<Vec<u64>, OutOfMemory>
    ensures { IfOk result (λ latest. latest.items ≡ replicate servers 0) }
{
    Ok(vec![in alloc; 0; servers as usize]?)
}

// Whether fewer of these departures, the latest first, come after an arrival than there are servers.
fn has_server(latest: &[u64], servers: u8, arrive: u64) -> bool
    requires { IsFalling latest.now }
    ensures { result ≡ nat_lt (busy_at arrive latest.now) servers }
{
    busy_among(latest, arrive) < servers as usize
}

// Updates the latest departures for one more job, which departs at `depart` if it is admitted.
fn follow(latest: &mut Vec<u64>, admit: bool, depart: u64)
    requires { IsFalling latest.old.items }
    ensures { latest.new.items ≡ (if admit then take_place depart latest.old.items else latest.old.items) }
{
    if admit {
        keep_latest(latest, depart);
    }
}

/// Makes one round. Returns which arrivals of the stream a trunk group with these servers admits if,
/// of those before each, the ones that the guess admits were admitted and departed their demand
/// after they came.
///
/// Times are in ticks and demands in ticks of service; there is one demand and one guess per item of
/// the stream. The only error is that memory runs out.
pub fn trunk_round(
    alloc: Global,
    stream: &Stream,
    demands: &List<u64>,
    servers: u8,
    guess: &List<bool>,
) -> Result<List<bool>, OutOfMemory>
    requires load { IsSoundLoad stream.now.time demands.now }
    requires guess { length guess.now ≡ length stream.now.time }
    ensures { IfOk result (λ answer. answer ≡ round_of (trunk_rule servers) stream.now.time demands.now guess.now) }
{
    let mut answer = List::new(alloc);
    let mut latest = all_free(alloc, servers)?;
    for at in 0..stream.time.len() {
        let arrive = *stream.time.get(at);
        let demand = *demands.get(at);
        let admit = *guess.get(at);
        answer.push(has_server(latest.as_slice(), servers, arrive))?;
        follow(&mut latest, admit, arrive + demand);
    }
    Ok(answer)
}
