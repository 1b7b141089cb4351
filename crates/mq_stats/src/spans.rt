// The span of a run.
ghost use Rattle.std.specs.Prelude.{◌≡◌, max, fold, map};
ghost use Rattle.mq_core.specs.Sequences.{sequence_span, greatest_time, time_of_fate};
ghost use Rattle.mq_stats.specs.Lasts.{last_left, last_time};

use mq_base::List;
use mq_core::{Fate, Fates, Stream, Visits};

// Returns the time of a departure, in ticks, or 0 for a lost or held visit.
fn time_of(fate: Fate) -> u64
    ensures { result ≡ time_of_fate fate }
{
    match fate {
        Fate::Departs(time) => time,
        Fate::Lost | Fate::Held => 0,
    }
}

// Returns the greatest of these times, or 0 if there are none.
fn latest(times: &[u64]) -> u64
    ensures { result ≡ fold max 0 times.now }
{
    let mut latest = 0;
    for time in times {
        latest = latest.max(*time);
    }
    latest
}

// Returns the greatest departure time, or 0 if there is none.
// Not inlined, so that its loop has the registers to itself.
#[inline(never)]
fn latest_departure(fates: &Fates) -> u64
    ensures { result ≡ fold max 0 (map time_of_fate fates.now) }
{
    let mut latest = 0u64;
    for at in 0..fates.len() {
        latest = latest.max(time_of(fates.at(at)));
    }
    latest
}

// Returns the greatest time of a visit, or 0 if there is none.
fn latest_visit(visits: &Visits) -> u64
    ensures { result ≡ greatest_time visits.now }
{
    latest(visits.arrive.as_slice()).max(latest_departure(&visits.fate))
}

/// Returns the span of a run: the greatest time, in ticks, at which a job arrives at a node or departs from one, or 0 without
/// visits.
pub fn span(visits: &List<Visits>) -> u64
    ensures { result ≡ sequence_span visits.now }
{
    let mut span = 0;
    for node in visits.as_slice() {
        span = span.max(latest_visit(node));
    }
    span
}

/// Returns the last of these times, or 0 if there are none.
pub fn last(times: &[u64]) -> u64
    ensures { result ≡ last_time times.now }
{
    if times.is_empty() {
        return 0;
    }
    times[times.len() - 1]
}

/// Returns the greatest of the last arrival time at a node and the last time of each of its output streams, in ticks, or 0 if
/// there are none. In a run it is the greatest time at the node, since arrivals and streams never go back in time.
pub fn last_at(arrive: &List<u64>, streams: &List<Stream>) -> u64
    ensures { result ≡ last_left (last_time arrive.now) streams.now }
{
    let mut latest = last(arrive.as_slice());
    for stream in streams.as_slice() {
        latest = latest.max(last(stream.time.as_slice()));
    }
    latest
}
