// From where it comes: the rows of a source, and the streams that ports read.
ghost use Rattle.std.specs.Prelude.{◌≡◌, ◌==◌, ◌<◌, ◌≤◌, count_by, drop, length, IfOk, IsTrue};
ghost use Rattle.mq_core.specs.Sequences.{IsStream, rows_at};
ghost use Rattle.mq_core.specs.Streams.{by_first, pairs_of};
ghost use Rattle.mq_core.specs.Laws.{Rises};
ghost use Rattle.mq_arrivals.specs.Arrivals.{AreOrdered, IsThere, pairs_read};

use mq_base::{List, OutOfMemory};
use mq_core::{Input, Stream};
use mq_merge::by_time;
use std::alloc::Global;

/// The rows of a source from one of all rows on, by time, those of one time in file order. There are at most 1,048,576 rows,
/// each with its source and its time. It refuses for want of memory alone.
pub fn rows_by_time(
    alloc: Global,
    node: u32,
    source: &List<u32>,
    time: &List<u64>,
    from: usize,
) -> Result<Stream, OutOfMemory>
    requires even { length source.now ≡ length time.now }
    requires few { length time.now ≤ 1048576 }
    ensures stream { IfOk result (λ stream. IsStream stream) }
    ensures items { IfOk result (λ stream. pairs_of stream ≡ by_first (rows_at node from (drop from source.now) (drop from time.now))) }
{
    let rows = rows_of(alloc, node, source, time, from)?;
    if rises(&rows.time) {
        return Ok(rows);
    }
    by_time(alloc, &rows.job, &rows.time)
}

// How many rows from one of them on come from a source.
fn count_of(node: u32, source: &List<u32>, from: usize) -> usize
    ensures { result ≡ count_by (λ other. other == node) (drop from source.now) }
{
    let mut count = 0;
    for at in from..source.len() {
        if *source.get(at) == node {
            count += 1;
        }
    }
    count
}

// The rows of a source from one of all rows on, in file order.
// It is not inlined, so that its loop has the registers to itself.
#[inline(never)]
fn rows_of(
    alloc: Global,
    node: u32,
    source: &List<u32>,
    time: &List<u64>,
    from: usize,
) -> Result<Stream, OutOfMemory>
    requires even { length source.now ≡ length time.now }
    requires few { length time.now ≤ 1048576 }
    ensures even { IfOk result (λ rows. length rows.job ≡ length rows.time) }
    ensures items { IfOk result (λ rows. pairs_of rows ≡ rows_at node from (drop from source.now) (drop from time.now)) }
{
    let count = count_of(node, source, from);
    let mut jobs = Vec::with_capacity(alloc, count)?;
    let mut times = Vec::with_capacity(alloc, count)?;
    for job in from..source.len() {
        if *source.get(job) == node {
            jobs.push_reserved(job as u32);
            times.push_reserved(*time.get(job));
        }
    }
    Ok(Stream {
        job: List::from_vec(jobs),
        time: List::from_vec(times),
    })
}

// Whether no time falls.
fn rises(times: &List<u64>) -> bool
    ensures { IsTrue result → Rises (λ a b. a ≤ b) times.now }
{
    times.as_slice().is_sorted()
}

/// The stream that an input reads, of those that left the nodes, by output.
pub fn stream_of<'a>(outputs: &'a [List<Stream>], input: &Input) -> &'a Stream
    requires there { IsThere outputs.now input.now }
    requires ordered { AreOrdered outputs.now }
    ensures stream { IsStream result.now }
    ensures items { pairs_of result.now ≡ pairs_read outputs.now input.now }
{
    outputs[input.node as usize].get(input.out as usize)
}
