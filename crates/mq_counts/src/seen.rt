// What came to a node and what left it, in one of two forms: the lists that are kept, or, if all jobs leave by one output in order of
// arrival, what came and when each job departs. The second form makes no list of what visits found: that is computed for a part when the
// part is counted.
ghost use Rattle.std.specs.Prelude.{◌≡◌, ◌↔◌, ◌<◌, ◌≤◌, length, slice_get, IfOk, IfSome, IsSome, Some};
ghost use Rattle.std.specs.List.{AllByRecursion};
ghost use Rattle.mq_core.specs.declared.model.Rows.{Rows as TheRows};
ghost use Rattle.mq_core.specs.declared.model.Stream.{Stream as TheStream};
ghost use Rattle.mq_counts.specs.Seen.{AreSeen, streams_in, visits_in};
ghost use Rattle.mq_stats.specs.Blocks.{IsBlock};
ghost use Rattle.mq_stats.specs.Exits.{IsExitOf, stream_between};
ghost use Rattle.mq_stats.specs.Lasts.{last_event};
ghost use Rattle.mq_stats.specs.Numbers.{AreLeaving, visits_between};
ghost use Rattle.mq_stats.specs.Percentiles.{ArePercentiles, longest_wait, waits_at};
ghost use Rattle.mq_stats.specs.WaitCounts.{AreWaitCounts};

use mq_base::{List, OutOfMemory};
use mq_core::{Kind, Rows, Stream, Visits};
use mq_stats::{
    BlockCount, Exit, Percentiles, WaitCounts, columns_between, count_between, count_block,
    count_in_turn, last, last_at, leaving_between, tail_below, tail_in_turn, waits_in_turn,
};
use std::alloc::Global;

/// The visits to a node.
#[derive(Clone, Copy)]
pub enum SeenVisits<'a> {
    /// The visits as they are kept.
    Kept(&'a Visits),
    /// What came, all of which leaves by one output in order of arrival, and when each job departs, in ticks.
    InTurn(&'a Stream, &'a List<u64>),
}

/// What leaves a node by each output.
#[derive(Clone, Copy)]
pub enum SeenStreams<'a> {
    /// The streams as they are kept.
    Kept(&'a List<Stream>),
    /// What came, all of which leaves by one output in order of arrival, and when each job departs, in ticks.
    InTurn(&'a Stream, &'a List<u64>),
}

/// Returns the number of visits.
pub fn visit_count(visits: &SeenVisits) -> usize
    ensures { result ≡ length (visits_in visits.now).job }
{
    match *visits {
        SeenVisits::Kept(visits) => visits.job.len(),
        SeenVisits::InTurn(arrivals, _) => arrivals.job.len(),
    }
}

/// Returns the arrival times of the visits, in ticks.
pub fn arrivals_in<'a>(visits: &SeenVisits<'a>) -> &'a List<u64>
    ensures { result.now ≡ (visits_in visits.now).arrive }
{
    match *visits {
        SeenVisits::Kept(visits) => &visits.arrive,
        SeenVisits::InTurn(arrivals, _) => &arrivals.time,
    }
}

/// Returns what `count_block` returns, for these visits.
pub fn block_seen(
    alloc: Global,
    rows: &Rows,
    kind: &Kind,
    visits: &SeenVisits,
    span: u64,
    most: u32,
    from: u32,
    to: u32,
) -> Result<BlockCount, OutOfMemory>
    requires visits { AreSeen rows.now kind.now visits.now }
    requires most { most ≤ 1048576 }
    requires order { from ≤ to }
    requires within { to ≤ length (visits_in visits.now).job }
    ensures { IfOk result (IsBlock rows.now kind.now (visits_in visits.now) span most from to) }
{
    match *visits {
        SeenVisits::Kept(visits) => { count_block(alloc, rows, kind, visits, span, most, from, to) }
        SeenVisits::InTurn(arrivals, departs) => count_in_turn(
            alloc, rows, kind, arrivals, departs, most, from, to,
        ),
    }
}

/// Returns what `count_between` returns, for these visits.
pub fn waits_seen(
    alloc: Global,
    rows: &Rows,
    kind: &Kind,
    visits: &SeenVisits,
    most: u32,
    from: u32,
    to: u32,
) -> Result<Option<WaitCounts>, OutOfMemory>
    requires visits { AreSeen rows.now kind.now visits.now }
    requires most { most ≤ 1048576 }
    requires order { from ≤ to }
    requires within { to ≤ length (visits_in visits.now).job }
    ensures told { IfOk result (λ counts. IsSome counts ↔ (longest_wait rows.now kind.now (visits_between from to (visits_in visits.now)) ≤ most)) }
    ensures counts { IfOk result (λ counts. IfSome counts (AreWaitCounts (waits_at rows.now kind.now (visits_between from to (visits_in visits.now))))) }
{
    match *visits {
        SeenVisits::Kept(visits) => count_between(alloc, rows, kind, visits, most, from, to),
        SeenVisits::InTurn(arrivals, departs) => {
            waits_in_turn(alloc, rows, kind, arrivals, departs, most, from, to)
        }
    }
}

/// Returns what `tail_below` returns, for these visits.
pub fn tail_seen(
    alloc: Global,
    rows: &Rows,
    kind: &Kind,
    visits: &SeenVisits,
    longest: u64,
) -> Result<Percentiles, OutOfMemory>
    requires { AreSeen rows.now kind.now visits.now }
    ensures { IfOk result (ArePercentiles (waits_at rows.now kind.now (visits_in visits.now))) }
{
    match *visits {
        SeenVisits::Kept(visits) => tail_below(alloc, rows, kind, visits, longest),
        SeenVisits::InTurn(arrivals, departs) => {
            tail_in_turn(alloc, rows, kind, arrivals, departs, longest)
        }
    }
}

/// Returns the number of outputs by which jobs leave.
pub fn output_count(streams: &SeenStreams) -> usize
    ensures { result ≡ length (streams_in streams.now) }
{
    match *streams {
        SeenStreams::Kept(streams) => streams.len(),
        SeenStreams::InTurn(_, _) => 1,
    }
}

/// Returns the number of jobs that leave by an output.
pub fn leaving_count(streams: &SeenStreams, output: usize) -> u32
    requires leaving { (rows : TheRows) × AllByRecursion (AreLeaving rows) (streams_in streams.now) }
    requires inside { output < length (streams_in streams.now) }
    ensures all { (stream : TheStream) → slice_get (streams_in streams.now) output ≡ Some stream → result ≡ length stream.job }
    ensures few { result ≤ 1048576 }
{
    match *streams {
        SeenStreams::Kept(streams) => streams.get(output).job.len() as u32,
        SeenStreams::InTurn(arrivals, _) => arrivals.job.len() as u32,
    }
}

/// Returns what leaves by an output, from one position up to another.
pub fn exit_seen(rows: &Rows, streams: &SeenStreams, output: usize, from: u32, to: u32) -> Exit
    requires leaving { AllByRecursion (AreLeaving rows.now) (streams_in streams.now) }
    requires inside { output < length (streams_in streams.now) }
    requires order { from ≤ to }
    requires within { (stream : TheStream) → slice_get (streams_in streams.now) output ≡ Some stream → to ≤ length stream.job }
    ensures { (stream : TheStream) → slice_get (streams_in streams.now) output ≡ Some stream → IsExitOf rows.now (stream_between from to stream) result }
{
    match *streams {
        SeenStreams::Kept(streams) => leaving_between(rows, streams.get(output), from, to),
        SeenStreams::InTurn(arrivals, departs) => {
            columns_between(rows, &arrivals.job, departs, from, to)
        }
    }
}

/// Returns the time of the last event at a node with these visits and streams, in ticks, or 0 if there is none.
pub fn last_seen(visits: &SeenVisits, streams: &SeenStreams) -> u64
    ensures { result ≡ last_event (visits_in visits.now) (streams_in streams.now) }
{
    let arrive = arrivals_in(visits);
    match *streams {
        SeenStreams::Kept(streams) => last_at(arrive, streams),
        SeenStreams::InTurn(_, departs) => { last(arrive.as_slice()).max(last(departs.as_slice())) }
    }
}
