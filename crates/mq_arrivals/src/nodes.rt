// The nodes that are ready, and what came to each.
use mq_base::List;
use mq_core::{Plan, Rows, Stream};
use mq_merge::Arrivals;

/// The nodes that are ready, and the streams of those that are done.
#[derive(Clone, Copy)]
pub struct Arriving<'a, 'r> {
    pub plan: &'a Plan,
    pub rows: &'a Rows,
    /// What left each node, by output. Of one that isn't done there is none, or what left it in a kept run, which nobody reads.
    pub outputs: &'a [List<Stream>],
    /// The nodes that are ready, at most 64, by order of declaration.
    pub ready: &'r [u32],
    /// How many items a block has at least: 1 at least.
    pub block: u32,
}

/// What came to a node.
#[derive(Drop)]
pub struct Arrived<'a> {
    /// The node, by order of declaration.
    pub number: u32,
    pub arrivals: Arrivals<'a>,
}
