// What comes to a join by its ports, gathered port by port.
ghost use Rattle.std.specs.Prelude.{◌≡◌, ◌+◌, ◌<◌, ◌≤◌, [], length, OnOk, OnErr};
ghost use Rattle.mq_core.specs.Laws.{Rises};
ghost use Rattle.mq_core.specs.Sequences.{IsStream};
ghost use Rattle.mq_join.specs.Below.{AreBelow};
ghost use Rattle.mq_join.specs.Rising.{rising-prop};

use crate::order::{indices_by_time, jobs_at, ports_at};
use mq_base::{List, OutOfMemory};
use mq_core::Stream;
use std::alloc::Global;

/// What comes to a join by its ports, in order of time. For equal times the items of an earlier port
/// come first, and those of one port keep their order.
///
/// The type guarantees that the stream's times never fall, and that each of its items, at most
/// 1,048,576, has a port.
#[derive(Drop)]
pub struct Gathered {
    /// The job of each item, and its time in ticks.
    pub stream: Stream,
    /// The port of each item, from 0, below the number of ports.
    pub port: List<u8>,
    /// The number of ports, at most 8.
    pub ports: u8,
    ghost jobs: { length stream.job ≡ length port },
    ghost times: { length stream.time ≡ length port },
    ghost rising: { Rises (λ a b. a ≤ b) stream.time } by { rising-prop stream.time },
    ghost below: { AreBelow ports port },
    ghost most: { ports ≤ 8 },
    ghost few: { length port ≤ 1048576 },
}

impl Gathered {
    ghost use Rattle.mq_join.specs.Gathers.{AddsPort, arrivals_of};

    /// Returns the arrivals at a join without ports: none. Takes no memory.
    pub fn new(alloc: Global) -> Self
        ensures ports { result.ports ≡ 0 }
        ensures items { result.port ≡ [] }
        ensures arrivals { arrivals_of result ≡ [] }
    {
        Gathered {
            stream: Stream {
                job: List::new(alloc),
                time: List::new(alloc),
            },
            port: List::new(alloc),
            ports: 0,
        }
    }

    /// Adds a port, by which this stream comes: its items are sorted in by time, after those of the same
    /// time. There must be fewer than 8 ports so far, and at most 1,048,576 items in all. The only error
    /// is that memory runs out; then nothing is added.
    pub fn add(&mut self, alloc: Global, stream: &Stream) -> Result<(), OutOfMemory>
        requires stream { IsStream stream.now }
        requires free { self.old.ports < 8 }
        requires few { length self.old.port + length stream.now.time ≤ 1048576 }
        ensures ok { OnOk result (AddsPort self.old self.new stream.now) }
        ensures err { OnErr result (self.new ≡ self.old) }
    {
        let Stream { job: indices, time } = indices_by_time(
            alloc,
            &self.stream.time,
            &stream.time,
        )?;
        let Ok(job) = jobs_at(alloc, &self.stream.job, &stream.job, &indices) else {
            drop(indices);
            drop(time);
            return Err(OutOfMemory);
        };
        let ports = ports_at(alloc, &self.port, self.ports, &indices);
        drop(indices);
        let Ok(port) = ports else {
            drop(job);
            drop(time);
            return Err(OutOfMemory);
        };
        self.stream = Stream { job, time };
        self.port = port;
        self.ports += 1;
        Ok(())
    }
}
