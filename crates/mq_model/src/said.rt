// What a line of a model says. Nodes and columns are still names.
use mq_base::List;

/// A demand: a column by its name, or ticks of service, at most 2^36.
#[derive(Drop)]
pub enum SaidDemand {
    Column(List<u8>),
    Fixed(u64),
}

/// An input: the name of a node, and one of its outputs.
#[derive(Drop)]
pub struct SaidInput {
    pub name: List<u8>,
    pub out: u8,
}

/// A route, with the name of its column, if it has one.
#[derive(Drop)]
pub enum SaidRoute {
    Modulo {
        outputs: u8,
        column: List<u8>,
    },
    Turn {
        outputs: u8,
    },
    Cut {
        column: List<u8>,
        thresholds: List<u64>,
    },
}

/// A stage of a tandem: its places, 0 at the first, and its demand.
#[derive(Drop)]
pub struct SaidStage {
    pub places: u8,
    pub demand: SaidDemand,
}

/// What a node does with its jobs.
#[derive(Drop)]
pub enum SaidKind {
    Source,
    Server(SaidDemand),
    Delay(SaidDemand),
    Loss { places: u32, demand: SaidDemand },
    Tandem(List<SaidStage>),
    ForkJoin(List<List<SaidDemand>>),
    Split(SaidRoute),
    Fork { outputs: u8 },
    Join,
    Trunk { servers: u8, demand: SaidDemand },
}

/// A line: the bound of the times, in ticks, or a node with its inputs by port.
#[derive(Drop)]
pub enum Said {
    Bound(u64),
    Node {
        name: List<u8>,
        kind: SaidKind,
        reads: List<SaidInput>,
    },
}
