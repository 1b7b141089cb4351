// Two lists, one after the other: the indices of their items by time, and the items at indices.
ghost use Rattle.std.specs.Prelude.{◌≡◌, ◌+◌, ◌<◌, ◌≤◌, ◌++◌, IfOk, length, map, slice_index};
ghost use Rattle.std.specs.List.{range_with_len, zip};
ghost use Rattle.mq_core.specs.Laws.{Rises};
ghost use Rattle.mq_core.specs.Sequences.{IsStream};
ghost use Rattle.mq_core.specs.Streams.{by_first, pairs_of};
ghost use Rattle.mq_join.specs.Below.{AreBelow};
ghost use Rattle.mq_join.specs.Items.{port_at};

use crate::copies::with_times;
use mq_base::{List, OutOfMemory};
use mq_core::Stream;
use mq_merge::merge_two;
use std::alloc::Global;

// `count` indices, from `first` on.
fn indices_from(alloc: Global, first: usize, count: usize) -> Result<List<u32>, OutOfMemory>
    requires { first + count ≤ 1048576 }
    ensures { IfOk result (λ indices. indices ≡ range_with_len first count) }
{
    let mut indices = Vec::with_capacity(alloc, count)?;
    for at in 0..count {
        indices.push_reserved((first + at) as u32);
    }
    Ok(List::from_vec(indices))
}

// The stream of these times, with the index of each item, from `first` on, in place of a job.
fn numbered(alloc: Global, times: &List<u64>, first: usize) -> Result<Stream, OutOfMemory>
    requires { first + length times.now ≤ 1048576 }
    ensures job { IfOk result (λ stream. stream.job ≡ range_with_len first (length times.now)) }
    ensures time { IfOk result (λ stream. stream.time ≡ times.now) }
{
    let job = indices_from(alloc, first, times.len())?;
    with_times(alloc, job, times)
}

// Returns the indices of the items of two lists, one list after the other, sorted by these times; those
// with equal times keep their order.
pub fn indices_by_time(
    alloc: Global,
    first: &List<u64>,
    second: &List<u64>,
) -> Result<Stream, OutOfMemory>
    requires first { Rises (λ a b. a ≤ b) first.now }
    requires second { Rises (λ a b. a ≤ b) second.now }
    requires few { length first.now + length second.now ≤ 1048576 }
    ensures stream { IfOk result (λ order. IsStream order) }
    ensures many { IfOk result (λ order. length order.job ≡ length first.now + length second.now) }
    ensures inside { IfOk result (λ order. AreBelow (length first.now + length second.now) order.job) }
    ensures items { IfOk result (λ order. pairs_of order ≡ by_first (zip (first.now ++ second.now) (range_with_len 0 (length first.now + length second.now)))) }
{
    let front = numbered(alloc, first, 0)?;
    let Ok(behind) = numbered(alloc, second, first.len()) else {
        drop(front);
        return Err(OutOfMemory);
    };
    let order = merge_two(alloc, &front, &behind);
    drop(front);
    drop(behind);
    order
}

// The job at an index of two lists, one after the other.
fn job_of(first: &List<u32>, second: &List<u32>, index: usize) -> u32
    requires { index < length first.now + length second.now }
    ensures { result ≡ slice_index (first.now ++ second.now) index }
{
    if index < first.len() {
        *first.get(index)
    } else {
        *second.get(index - first.len())
    }
}

// The jobs at these indices.
pub fn jobs_at(
    alloc: Global,
    first: &List<u32>,
    second: &List<u32>,
    indices: &List<u32>,
) -> Result<List<u32>, OutOfMemory>
    requires { AreBelow (length first.now + length second.now) indices.now }
    ensures { IfOk result (λ jobs. jobs ≡ map (slice_index (first.now ++ second.now)) indices.now) }
{
    let mut jobs = Vec::with_capacity(alloc, indices.len())?;
    for at in 0..indices.len() {
        jobs.push_reserved(job_of(first, second, *indices.get(at) as usize));
    }
    Ok(List::from_vec(jobs))
}

// The port of the item at an index, if all items after those in `first` come by a further port.
fn port_of(first: &List<u8>, further: u8, index: usize) -> u8
    ensures { result ≡ port_at first.now further index }
{
    if index < first.len() {
        *first.get(index)
    } else {
        further
    }
}

// The ports at these indices.
pub fn ports_at(
    alloc: Global,
    first: &List<u8>,
    further: u8,
    indices: &List<u32>,
) -> Result<List<u8>, OutOfMemory>
    ensures { IfOk result (λ ports. ports ≡ map (port_at first.now further) indices.now) }
{
    let mut ports = Vec::with_capacity(alloc, indices.len())?;
    for at in 0..indices.len() {
        ports.push_reserved(port_of(first, further, *indices.get(at) as usize));
    }
    Ok(List::from_vec(ports))
}
