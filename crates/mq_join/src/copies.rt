// Copies of streams.
ghost use Rattle.std.specs.Prelude.{◌≡◌, IfOk, replicate};
ghost use Rattle.mq_core.specs.Came.{came_in};
ghost use Rattle.mq_join.specs.Copies.{AreForked};

use mq_base::{List, OutOfMemory};
use mq_core::Stream;
use std::alloc::Global;

// A stream of these jobs and a copy of these times.
pub fn with_times(alloc: Global, job: List<u32>, times: &List<u64>) -> Result<Stream, OutOfMemory>
    ensures job { IfOk result (λ stream. stream.job ≡ job) }
    ensures time { IfOk result (λ stream. stream.time ≡ times.now) }
{
    let time = List::from_vec(Vec::from_slice(alloc, times.as_slice())?);
    Ok(Stream { job, time })
}

// A copy of a stream.
pub fn copy_of(alloc: Global, stream: &Stream) -> Result<Stream, OutOfMemory>
    ensures { IfOk result (λ copy. copy ≡ stream.now) }
{
    let job = List::from_vec(Vec::from_slice(alloc, stream.job.as_slice())?);
    with_times(alloc, job, &stream.time)
}

/// Returns the streams that leave a fork to which this stream comes: one per output, each with all
/// items of the stream, in their order. The only error is that memory runs out.
pub fn fork_copies(alloc: Global, stream: &Stream, outputs: u8) -> Result<List<Stream>, OutOfMemory>
    ensures copies { IfOk result (λ streams. streams ≡ replicate outputs stream.now) }
    ensures leaving { IfOk result (λ streams. AreForked (came_in stream.now) outputs streams) }
{
    let mut streams = List::new(alloc);
    for _ in 0..outputs {
        let Ok(copy) = copy_of(alloc, stream) else {
            drop(streams);
            return Err(OutOfMemory);
        };
        streams.push(copy)?;
    }
    Ok(streams)
}
