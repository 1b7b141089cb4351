// Sorts jobs by their times.
ghost use Rattle.std.specs.Prelude.{◌≡◌, ◌≤◌, length, IfOk};
ghost use Rattle.std.specs.List.{zip};
ghost use Rattle.mq_core.specs.Sequences.{IsStream};
ghost use Rattle.mq_core.specs.Streams.{by_first, pairs_of};
ghost use Rattle.mq_core.specs.Laws.{Rises};

use crate::sort::{par_sort_by_first, sort_by_first};
use mq_base::{List, OutOfMemory};
use mq_core::Stream;
use std::alloc::Global;
use std::thread::Threads;

/// Returns the stream of these jobs at these times, in order of time; jobs with the same time keep
/// their order. The times, in ticks, may be in any order; there must be a job for each. The only
/// error is that memory runs out.
pub fn by_time(alloc: Global, jobs: &List<u32>, times: &List<u64>) -> Result<Stream, OutOfMemory>
    requires { length times.now ≤ length jobs.now }
    ensures stream { IfOk result (λ stream. IsStream stream) }
    ensures items { IfOk result (λ stream. pairs_of stream ≡ by_first (zip times.now jobs.now)) }
{
    let mut items = items_of(alloc, jobs, times)?;
    sort_by_first(&mut items)?;
    stream_from_items(alloc, &items)
}

/// Returns the stream that `by_time` returns, sorted in several threads if they can be started. The
/// only error is that memory runs out.
pub fn par_by_time<R: Threads + Sync>(
    rt: &R,
    alloc: Global,
    jobs: &List<u32>,
    times: &List<u64>,
) -> Result<Stream, OutOfMemory>
    requires { length times.now ≤ length jobs.now }
    ensures stream { IfOk result (λ stream. IsStream stream) }
    ensures items { IfOk result (λ stream. pairs_of stream ≡ by_first (zip times.now jobs.now)) }
{
    let mut items = items_of(alloc, jobs, times)?;
    par_sort_by_first(rt, alloc, &mut items)?;
    stream_from_items(alloc, &items)
}

// The time of each job, with the job.
fn items_of(
    alloc: Global,
    jobs: &List<u32>,
    times: &List<u64>,
) -> Result<Vec<(u64, u32)>, OutOfMemory>
    requires { length times.now ≤ length jobs.now }
    ensures { IfOk result (λ items. items.items ≡ zip times.now jobs.now) }
{
    let mut items = Vec::with_capacity(alloc, times.len())?;
    for at in 0..times.len() {
        items.push_reserved((*times.get(at), *jobs.get(at)));
    }
    Ok(items)
}

// The stream of items that are in order of time.
fn stream_from_items(alloc: Global, items: &[(u64, u32)]) -> Result<Stream, OutOfMemory>
    requires { Rises (λ p q. p.0 ≤ q.0) items.now }
    ensures stream { IfOk result (λ stream. IsStream stream) }
    ensures items { IfOk result (λ stream. pairs_of stream ≡ items.now) }
{
    let mut job = Vec::with_capacity(alloc, items.len())?;
    let mut time = Vec::with_capacity(alloc, items.len())?;
    for item in items {
        time.push_reserved(item.0);
        job.push_reserved(item.1);
    }
    Ok(Stream {
        job: List::from_vec(job),
        time: List::from_vec(time),
    })
}
