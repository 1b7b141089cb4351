//! The split, which sends each job on by one of its outputs.
#![tactic(auto)]

ghost use Rattle.std.specs.Prelude.{◌≡◌, ◌==◌, ◌+◌, ◌<◌, ◌≤◌, length, count_by, nat_le, IfOk};
ghost use Rattle.mq_base.specs.Lists.{between};
ghost use Rattle.mq_core.specs.Sequences.{IsStream};
ghost use Rattle.mq_core.specs.Streams.{picked};
ghost use Rattle.mq_core.specs.Kinds.Split.{output_at, outputs_by};
ghost use Rattle.mq_split.specs.Outs.{AreParts, ArePartsBetween, ArePicked, ArePieces, HasOutputs, PiecesJoin, outs_from};

mod step;

use mq_base::{List, OutOfMemory};
use mq_core::{Route, Stream, outputs_of_route};
use std::alloc::Global;
pub use step::RouteStep;

// The number of thresholds that are at most the value.
fn passed(thresholds: &[u64], value: u64) -> usize
    ensures count { result ≡ count_by (λ threshold. nat_le threshold value) thresholds.now }
    ensures most { result ≤ length thresholds.now }
{
    thresholds
        .iter()
        .filter(|threshold| **threshold <= value)
        .count()
}

/// Returns the output that a route gives to a job: by the value modulo the number of outputs, by turns
/// of the position, or by the number of thresholds that are at most the value. By turns the value is
/// ignored. Outputs count from 0; the route must have 2 to 8 of them. Its column and the order of its
/// thresholds don't matter.
pub fn route_of(route: &Route, value: u64, position: u32) -> u8
    requires { HasOutputs route.now }
    ensures output { result ≡ output_at route.now value position }
    ensures within { result < outputs_by route.now }
{
    match route {
        Route::Modulo { outputs, .. } => (value % *outputs as u64) as u8,
        Route::Turn { outputs } => (position % *outputs as u32) as u8,
        Route::Cut { thresholds, .. } => passed(thresholds.as_slice(), value) as u8,
    }
}

// The items of a list from an index up to another.
fn part<T>(items: &List<T>, from: usize, to: usize) -> &[T]
    requires order { from ≤ to }
    requires within { to ≤ length items.now }
    ensures { result.now ≡ between from to items.now }
{
    &items.as_slice()[from..to]
}

// The output of each job; the first is at this position.
// Its loop, like others below, isn't inlined, so that it has the registers to itself.
#[inline(never)]
fn outs_of(
    alloc: Global,
    values: &[u64],
    route: &Route,
    first: usize,
) -> Result<Vec<u8>, OutOfMemory>
    requires route { HasOutputs route.now }
    requires few { first + length values.now ≤ 1048576 }
    ensures { IfOk result (λ outs. outs.items ≡ outs_from route.now first values.now) }
{
    let mut outs = Vec::with_capacity(alloc, values.len())?;
    for at in 0..values.len() {
        outs.push_reserved(route_of(route, values[at], (first + at) as u32));
    }
    Ok(outs)
}

// How many of these outputs are this one.
fn count_of(outs: &[u8], out: u8) -> usize
    ensures { result ≡ count_by (λ other. other == out) outs.now }
{
    let mut count = 0;
    for other in outs {
        if *other == out {
            count += 1;
        }
    }
    count
}

// The jobs and times, in their order, whose output is this one. `outs` contains the output of each.
#[inline(never)]
fn pick(
    alloc: Global,
    jobs: &[u32],
    times: &[u64],
    outs: &[u8],
    out: u8,
) -> Result<Stream, OutOfMemory>
    requires jobs { length jobs.now ≡ length outs.now }
    requires times { length times.now ≡ length outs.now }
    ensures jobs { IfOk result (λ part. part.job ≡ picked out outs.now jobs.now) }
    ensures times { IfOk result (λ part. part.time ≡ picked out outs.now times.now) }
{
    let count = count_of(outs, out);
    let mut job = Vec::with_capacity(alloc, count)?;
    let mut time = Vec::with_capacity(alloc, count)?;
    for at in 0..outs.len() {
        if outs[at] != out {
            continue;
        }
        job.push_reserved(jobs[at]);
        time.push_reserved(times[at]);
    }
    Ok(Stream {
        job: List::from_vec(job),
        time: List::from_vec(time),
    })
}

/// Returns one stream for each output of a route, by its number: the jobs and times whose output it is, in their
/// order. There is one time and one output per job, by position. The only error is that memory runs out.
pub fn streams_by(
    alloc: Global,
    jobs: &[u32],
    times: &[u64],
    outs: &[u8],
    route: &Route,
) -> Result<List<Stream>, OutOfMemory>
    requires route { HasOutputs route.now }
    requires jobs { length jobs.now ≡ length outs.now }
    requires times { length times.now ≡ length outs.now }
    ensures { IfOk result (ArePicked route.now jobs.now times.now outs.now) }
{
    let mut streams = List::new(alloc);
    for out in 0..outputs_of_route(route) {
        streams.push(pick(alloc, jobs, times, outs, out)?)?;
    }
    Ok(streams)
}

/// Returns the items at the indices from `from` up to `to` as they leave a split: one stream per output, by
/// its number, each with the jobs that its route sends there, in their order. `values` has one value of the
/// route's column for each of these items, in their order. The route must have 2 to 8 outputs. The only
/// error is that memory runs out.
pub fn split_between(
    alloc: Global,
    stream: &Stream,
    values: &[u64],
    route: &Route,
    from: u32,
    to: u32,
) -> Result<List<Stream>, OutOfMemory>
    requires route { HasOutputs route.now }
    requires stream { IsStream stream.now }
    requires few { to ≤ 1048576 }
    requires within { to ≤ length stream.now.job }
    requires values { from + length values.now ≡ to }
    ensures { IfOk result (λ streams. ArePartsBetween route.now stream.now values.now from to streams) }
{
    let (first, end) = (from as usize, to as usize);
    let jobs = part(&stream.job, first, end);
    let times = part(&stream.time, first, end);
    let outs = outs_of(alloc, values, route, first)?;
    let streams = streams_by(alloc, jobs, times, outs.as_slice(), route)?;
    Ok(streams)
}

/// Returns the items from `from` up to `to` as they leave a split, as `split_between` does. `values` has one
/// value of the route's column per item of the whole stream, by position. The only error is that memory
/// runs out.
pub fn split_piece(
    alloc: Global,
    stream: &Stream,
    values: &List<u64>,
    route: &Route,
    from: u32,
    to: u32,
) -> Result<List<Stream>, OutOfMemory>
    requires route { HasOutputs route.now }
    requires stream { IsStream stream.now }
    requires values { length values.now ≡ length stream.now.job }
    requires few { length values.now ≤ 1048576 }
    requires order { from ≤ to }
    requires within { to ≤ length values.now }
    ensures { IfOk result (λ streams. ArePieces route.now stream.now values.now from to streams) }
{
    let own = part(values, from as usize, to as usize);
    let streams = split_between(alloc, stream, own, route, from, to)?;
    Ok(streams)
}

/// Returns the streams that leave a split: one per output, by its number, each with the jobs that its
/// route sends there, in their order. `values` has one value of the route's column per item of the
/// stream, by position. The route must have 2 to 8 outputs. The only error is that memory runs out.
pub fn split(
    alloc: Global,
    stream: &Stream,
    values: &List<u64>,
    route: &Route,
) -> Result<List<Stream>, OutOfMemory>
    requires route { HasOutputs route.now }
    requires stream { IsStream stream.now }
    requires values { length values.now ≡ length stream.now.job }
    requires few { length values.now ≤ 1048576 }
    ensures { IfOk result (λ streams. AreParts route.now stream.now values.now streams) }
{
    let streams = split_piece(alloc, stream, values, route, 0, values.len() as u32)?;
    Ok(streams)
}

/// Law: consecutive pieces of `split_piece`, one after another, are one piece, and the piece of all
/// indices is what `split` returns. It does nothing when it runs.
pub fn pieces_join()
    ensures { PiecesJoin }
{}
