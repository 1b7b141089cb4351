// Thresholds that don't rise, and pieces of a split.
ghost use Rattle.std.specs.Prelude.{◌≡◌, length, IfOk};
ghost use Rattle.mq_core.specs.Sequences.{IsStream};
ghost use Rattle.mq_split.specs.Outs.{HasOutputs};

use mq_base::{List, OutOfMemory};
use mq_core::{Route, Stream};
use mq_split::{route_of, split_between, split_piece};
use std::alloc::Global;
use std::test::Fail;

// Returns a cut at two thresholds, which needn't rise.
fn cut(alloc: Global, thresholds: [u64; 2]) -> Result<Route, OutOfMemory>
    ensures { IfOk result (λ route. HasOutputs route) }
{
    Ok(Route::Cut {
        column: 0,
        thresholds: List::from_vec(Vec::from_slice(alloc, &thresholds)?),
    })
}

// Returns the output of a value by a cut at these thresholds.
fn by_cut(alloc: Global, thresholds: [u64; 2], value: u64) -> Result<u8, OutOfMemory> {
    let route = cut(alloc, thresholds)?;
    Ok(route_of(&route, value, 5))
}

#[test]
fn thresholds_need_not_rise(rt: HostRuntime) -> Result<(), Fail> {
    assert!(rt; by_cut(rt.alloc(), [20, 10], 15)? == 1);
    Ok(())
}

// Returns jobs 0, 1 and 2 at 0, 1 and 2.
fn three(alloc: Global) -> Result<Stream, OutOfMemory>
    ensures stream { IfOk result (λ stream. IsStream stream) }
    ensures many { IfOk result (λ stream. length stream.time ≡ 3) }
{
    Ok(Stream {
        job: List::from_vec(Vec::from_slice(alloc, &[0, 1, 2])?),
        time: List::from_vec(Vec::from_slice(alloc, &[0, 1, 2])?),
    })
}

// Returns whether a stream has these jobs at these times.
fn has(stream: &Stream, jobs: &[u32], times: &[u64]) -> bool {
    stream.job.as_slice() == jobs && stream.time.as_slice() == times
}

// Returns whether the first of three streams is empty, and the others have jobs
// 1 and 2.
fn are_parts(streams: &List<Stream>) -> bool {
    streams.len() == 3
        && has(streams.get(0), &[], &[])
        && has(streams.get(1), &[1], &[1])
        && has(streams.get(2), &[2], &[2])
}

// Returns whether the last two of three items leave that way by a route, with
// the values of all three in a list.
fn piece_sends(
    alloc: Global,
    stream: &Stream,
    values: &List<u64>,
    route: &Route,
) -> Result<bool, OutOfMemory>
    requires stream { IsStream stream.now }
    requires three { length stream.now.time ≡ 3 }
    requires values { length values.now ≡ 3 }
    requires route { HasOutputs route.now }
{
    let streams = split_piece(alloc, stream, values, route, 1, 3)?;
    Ok(are_parts(&streams))
}

// Returns the same with only their own values, 10 and 20.
fn own_values_send(alloc: Global, stream: &Stream, route: &Route) -> Result<bool, OutOfMemory>
    requires stream { IsStream stream.now }
    requires three { length stream.now.time ≡ 3 }
    requires route { HasOutputs route.now }
{
    let streams = split_between(alloc, stream, &[10, 20], route, 1, 3)?;
    Ok(are_parts(&streams))
}

// Returns whether they leave that way with both forms of values.
fn both_send(
    alloc: Global,
    stream: &Stream,
    values: &List<u64>,
    route: &Route,
) -> Result<bool, OutOfMemory>
    requires stream { IsStream stream.now }
    requires three { length stream.now.time ≡ 3 }
    requires values { length values.now ≡ 3 }
    requires route { HasOutputs route.now }
{
    Ok(piece_sends(alloc, stream, values, route)? && own_values_send(alloc, stream, route)?)
}

// Returns whether they do by a cut, with values 9, 10 and 20.
fn cuts_send(alloc: Global) -> Result<bool, OutOfMemory> {
    let stream = three(alloc)?;
    let values = List::from_vec(Vec::from_slice(alloc, &[9, 10, 20])?);
    let route = cut(alloc, [10, 20])?;
    both_send(alloc, &stream, &values, &route)
}

#[test]
fn the_items_of_a_piece_leave_by_their_outputs(rt: HostRuntime) -> Result<(), Fail> {
    assert!(rt; cuts_send(rt.alloc())?);
    Ok(())
}
