// What came to a node, merged or borrowed.
ghost use Rattle.std.specs.Prelude.{◌≡◌};
ghost use Rattle.mq_merge.specs.Borrowed.{stream_in};

use mq_core::Stream;

/// The jobs that came to a node and when, in order of time.
#[derive(Drop)]
pub enum Arrivals<'a> {
    /// The rows of a source, or the merged streams that several ports read; empty without a port.
    Merged(Stream),
    /// The stream that the node's only port reads.
    Read(&'a Stream),
}

impl<'a> Arrivals<'a> {
    /// Returns the arrivals as a stream.
    pub fn stream(&self) -> &Stream
        ensures { result.now ≡ stream_in self.now }
    {
        match self {
            Arrivals::Merged(stream) => stream,
            Arrivals::Read(stream) => stream,
        }
    }
}
