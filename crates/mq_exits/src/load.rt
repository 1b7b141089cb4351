// What comes to a node.
ghost use Rattle.std.specs.Prelude.{◌≡◌, ◌≤◌};
ghost use Rattle.mq_exits.specs.Loads.{IsLoaded, IsStationOf, told_by, told_of};

use mq_core::{Plan, Rows, Stream};
use mq_kinds::Load as StationLoad;
use mq_merge::Arrivals;

/// What comes to a node of a plan, of which its station is worked out.
#[derive(Clone, Copy)]
pub struct Load<'a> {
    pub plan: &'a Plan,
    pub rows: &'a Rows,
    /// The node, by order of declaration.
    pub number: u32,
    pub arrivals: &'a Stream,
    /// How many jobs a block has at least, and the first window of a loss station or a trunk
    /// group: 1 at least.
    pub block: u32,
}

/// The same, as a wave holds it: with what was merged, or what the node reads.
#[derive(Drop)]
pub struct Held<'a> {
    pub plan: &'a Plan,
    pub rows: &'a Rows,
    /// The node, by order of declaration.
    pub number: u32,
    pub arrivals: Arrivals<'a>,
    /// As in a load.
    pub block: u32,
}

impl<'a> Held<'a> {
    /// The load.
    pub fn load(&self) -> Load
        ensures told { told_of result ≡ told_by self.now }
        ensures block { result.block ≡ self.now.block }
    {
        Load {
            plan: self.plan,
            rows: self.rows,
            number: self.number,
            arrivals: self.arrivals.stream(),
            block: self.block,
        }
    }
}

/// Returns what a station of the plan needs to be computed from these arrivals.
pub fn station_of<'r, 's>(
    plan: &'r Plan,
    rows: &'r Rows,
    number: u32,
    arrivals: &'s Stream,
    block: u32,
) -> StationLoad<'r, 's>
    requires loaded { IsLoaded plan.now rows.now number arrivals.now }
    requires some { 1 ≤ block }
    ensures { IsStationOf plan.now rows.now number arrivals.now result }
{
    let kind = &plan.net.nodes.get(number as usize).kind;
    StationLoad {
        rows,
        kind,
        arrivals,
        block,
    }
}
