// Why a run has no report.

/// A visit that departs after the bound.
#[derive(Clone, Copy, PartialEq, Eq)]
pub struct PastFault {
    /// The node, by order of declaration, from 0.
    pub node: u32,
    /// The position of the visit among those to the node, from 0.
    pub position: u32,
    /// When it departs, in ticks.
    pub time: u64,
}

/// A node with more than the 1,048,576 visits that it may have.
#[derive(Clone, Copy, PartialEq, Eq)]
pub struct OverFault {
    /// The node, by order of declaration, from 0.
    pub node: u32,
    /// The number of its visits.
    pub count: u32,
}
