ghost use Rattle.std.specs.Prelude.{◌≡◌, ◌+◌, ◌<◌, ◌≤◌, length, nat_lt};
ghost use Rattle.mq_trunk.specs.Kept.{IsFalling, take_place};
ghost use Rattle.mq_core.specs.Recurrences.{busy_at};

use mq_base::Steps;
use std::sync::ledger::Ledger;

/// Returns whether a trunk group has a server for one more job: whether fewer are busy than there
/// are. Counts one step, takes no memory and can't fail.
pub fn judge_trunk<L: Ledger>(busy: u32, servers: u8, steps: &mut Steps<L>) -> bool
    ensures answer { result ≡ nat_lt busy servers }
    ensures cost { steps.new ≡ steps.old + 1 }
{
    steps.tick();
    busy < servers as u32
}

// How many of these departures, the latest first, come after this time; found by halving.
pub fn busy_among(latest: &[u64], now: u64) -> usize
    requires { IsFalling latest.now }
    ensures { result ≡ busy_at now latest.now }
{
    let mut low = 0;
    let mut high = latest.len();
    while low < high {
        let middle = low + (high - low) / 2;
        if now < latest[middle] {
            low = middle + 1;
        } else {
            high = middle;
        }
    }
    low
}

// An upper bound on how many of these departures, the latest first, come after this time, which is enough
// for a judgement: all of them, or one fewer if the earliest doesn't.
pub fn busy_at_most(latest: &[u64], now: u64) -> usize
    requires { IsFalling latest.now }
    ensures within { result ≤ length latest.now }
    ensures most { busy_at now latest.now ≤ result }
    ensures all { length latest.now ≤ result → busy_at now latest.now ≡ result }
{
    let servers = latest.len();
    if servers > 0 && latest[servers - 1] <= now {
        servers - 1
    } else {
        servers
    }
}

// Inserts a departure among these, the latest first: each after it moves one place further, and the
// earliest goes.
fn put_in_place(latest: &mut [u64], depart: u64)
    requires { IsFalling latest.old }
    ensures { latest.new ≡ take_place depart latest.old }
{
    let place = busy_among(latest, depart);
    let mut held = depart;
    for at in place..latest.len() {
        let other = latest[at];
        latest[at] = held;
        held = other;
    }
}

// Inserts a departure in a vector of the latest ones; the earliest goes.
pub fn keep_latest(latest: &mut Vec<u64>, depart: u64)
    requires { IsFalling latest.old.items }
    ensures { latest.new.items ≡ take_place depart latest.old.items }
{
    put_in_place(latest.as_mut_slice(), depart);
}
