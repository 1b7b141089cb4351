// The last jobs that come to a node, and the carry before them.
ghost use Rattle.std.specs.Prelude.{◌≡◌, ◌≤◌, ◌∷◌, Some, length, slice_get, IfOk};
ghost use Rattle.mq_redo.specs.Behind.{stream_behind, stream_in};

use mq_base::{List, OutOfMemory};
use mq_core::Stream;
use std::alloc::Global;

/// What comes to a node from some job on: a whole stream, or a copy of its last items.
#[derive(Drop)]
pub enum Last<'a> {
    All(&'a Stream),
    Copied(Stream),
}

impl<'a> Last<'a> {
    /// Returns these jobs as a stream.
    pub fn stream(&self) -> &Stream
        ensures { result.now ≡ stream_in self.now }
    {
        match self {
            Last::All(stream) => stream,
            Last::Copied(stream) => stream,
        }
    }
}

/// Returns the items of a stream from an index on, which is at most the stream's length. Fails only if memory runs out.
pub fn last_of<'a>(alloc: Global, stream: &'a Stream, from: u32) -> Result<Last<'a>, OutOfMemory>
    requires job { from ≤ length stream.now.job }
    requires time { from ≤ length stream.now.time }
    ensures { IfOk result (λ last. stream_in last ≡ stream_behind from stream.now) }
{
    if from == 0 {
        return Ok(Last::All(stream));
    }
    let from = from as usize;
    let job = Vec::from_slice(alloc, &stream.job.as_slice()[from..])?;
    let time = Vec::from_slice(alloc, &stream.time.as_slice()[from..])?;
    Ok(Last::Copied(Stream {
        job: List::from_vec(job),
        time: List::from_vec(time),
    }))
}

/// Returns the carry before the first job after the first `first` blocks: the item of `carries` for the last of those
/// blocks, or `start` if `first` is 0. `carries` may go on with the carries of later blocks.
pub fn carry_before<C: Copy>(carries: &[C], first: u32, start: C) -> C
    requires { first ≤ length carries.now }
    ensures { slice_get (start ∷ carries.now) first ≡ Some result }
{
    if first == 0 {
        start
    } else {
        carries[first as usize - 1]
    }
}
