// The streams of a node with one output or two.
ghost use Rattle.std.specs.Prelude.{◌≡◌, ◌∷◌, [], IfOk};

use mq_base::{List, OutOfMemory};
use mq_core::Stream;
use std::alloc::Global;

/// The streams of a node with one output, of which this is the stream. It refuses for want of memory
/// alone.
pub fn only(alloc: Global, stream: Stream) -> Result<List<Stream>, OutOfMemory>
    ensures { IfOk result (λ streams. streams ≡ stream ∷ []) }
{
    let mut streams = List::new(alloc);
    streams.push(stream)?;
    Ok(streams)
}

// These two streams. It refuses for want of memory alone.
pub fn both(alloc: Global, first: Stream, second: Stream) -> Result<List<Stream>, OutOfMemory>
    ensures { IfOk result (λ streams. streams ≡ first ∷ second ∷ []) }
{
    let Ok(mut streams) = only(alloc, first) else {
        drop(second);
        return Err(OutOfMemory);
    };
    let Ok(()) = streams.push(second) else {
        drop(streams);
        return Err(OutOfMemory);
    };
    Ok(streams)
}
