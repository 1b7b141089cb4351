// Models, the rows of a trace, and runs, as the simulator keeps them.
ghost use Rattle.std.specs.Prelude.{◌≡◌, ℕ, ◌<◌, length, IsTrue};
ghost use Rattle.mq_core.specs.Sound.{is_sound};
ghost use Rattle.mq_core.specs.Wiring.{has, ranking};

use crate::fate_lists::Fates;
use mq_base::List;

/// The service demand of a job, in ticks.
#[derive(Clone, Copy)]
pub enum Demand {
    /// The job's value in this column of the model, from 0.
    Column(u8),
    /// The same number for each job, at most 2^36.
    Fixed(u64),
}

/// What a port reads: an output of a node.
#[derive(Clone, Copy)]
pub struct Input {
    /// The node, by order of declaration, from 0.
    pub node: u32,
    /// Its output, from 0.
    pub out: u8,
}

/// How a split chooses the output for a job.
#[derive(Drop)]
pub enum Route {
    /// The job's value in a column, modulo the number of outputs, which is 2 to 8.
    Modulo { outputs: u8, column: u8 },
    /// The job's position modulo the number of outputs, which is 2 to 8: the outputs take turns.
    Turn { outputs: u8 },
    /// The number of thresholds that are at most the job's value in a column. There are 1 to 7 rising
    /// thresholds, each at most 2^36, and one more output than thresholds.
    Cut { column: u8, thresholds: List<u64> },
}

/// A stage of a tandem: one server, and the places before and at it.
#[derive(Clone, Copy)]
pub struct Stage {
    /// The number of jobs that the stage has room for, including the one in service, 1 to 4; 0 at the
    /// first stage, which has an unlimited queue.
    pub places: u8,
    /// The demand of each job at its server.
    pub demand: Demand,
}

/// What kind of node it is.
#[derive(Drop)]
pub enum Kind {
    /// Where jobs come from: one for each row of this source in the trace, at the row's time.
    Source,
    /// One server with an unlimited queue, first come first served.
    Server(Demand),
    /// Serves each job at once, for its demand, however many jobs there are.
    Delay(Demand),
    /// One server, and places for 1 to 1,048,576 jobs, including the one in service. A job that finds
    /// them all taken is lost: it leaves at once, by output 1.
    Loss { places: u32, demand: Demand },
    /// Stages in series, 2 to 4. A job that is served stays at its stage until the next one has a place
    /// for it.
    Tandem(List<Stage>),
    /// Branches side by side, each of servers in series with unlimited queues. A job goes through all
    /// branches at once, and leaves when the last has let it through. There are 2 to 8 branches of 1 to
    /// 4 servers, with at most 8 servers in all.
    ForkJoin(List<List<Demand>>),
    /// Sends each job on at once, by one of its outputs.
    Split(Route),
    /// Sends each job on at once by each of its outputs, 2 to 4.
    Fork { outputs: u8 },
    /// Puts together what comes by all its ports, 2 to 8. The first visits of a job by each port go on
    /// as one when the last of them comes; so do the second visits, and so on.
    Join,
    /// 1 to 255 servers, each serving one job, and no place to wait. A job that finds all servers busy
    /// is lost: it leaves at once, by output 1.
    Trunk { servers: u8, demand: Demand },
}

/// A node of a network.
#[derive(Drop)]
pub struct Node {
    /// 1 to 32 bytes: a small letter, then small letters, digits and underscores, other than `from`.
    pub name: List<u8>,
    /// What it does with the jobs that come.
    pub kind: Kind,
    /// What each port reads, by port: none at a source, 2 to 8 at a join, otherwise 1 to 8.
    pub inputs: List<Input>,
}

/// A queueing network, as a model text declares it.
#[derive(Drop)]
pub struct Network {
    /// The nodes in order of declaration.
    pub nodes: List<Node>,
    /// The names of the columns that the nodes mention, in order of first mention.
    pub columns: List<List<u8>>,
    /// The latest time at which a job may depart, in ticks.
    pub bound: u64,
    /// The version of the language in which the model is written, 1 or 2. Only models of version 2 have
    /// forks, joins and trunk groups.
    pub version: u8,
}

/// A network that is sound and has no cycle, with its nodes in an order of simulation.
///
/// The type keeps the limits and ranges of the network: 1 to 64 nodes, at least one of them a source,
/// at most 16 columns, a bound of at most 2^60, a version that has the kinds of all nodes, distinct
/// names, inputs that name an output of the network, no output that is read twice, and columns that are
/// all mentioned, in order of first mention. It also keeps that `order` is the ranking of the nodes and
/// contains them all.
#[derive(Drop)]
pub struct Plan {
    /// The network.
    pub net: Network,
    /// The nodes by rank: each after all that it reads, and of the nodes that may come next always the
    /// first declared.
    pub order: List<u32>,
    ghost sound: { IsTrue (is_sound net) },
    ghost ranked: { order ≡ ranking net.nodes },
    ghost whole: { (n : ℕ) → n < length net.nodes → IsTrue (has order n) },
}

/// The rows of a trace, one item per job, in file order.
///
/// Rows that are read for a network have lists of one length, at most 1,048,576.
#[derive(Drop)]
pub struct Rows {
    /// The source node of each job.
    pub source: List<u32>,
    /// When each job comes, in ticks, at most 2^60. The times may be in any order.
    pub time: List<u64>,
    /// For each column of the model, the value of each job, at most 2^36.
    pub demands: List<List<u64>>,
}

/// Jobs that pass along a connection, by time: two lists of one length, whose times never fall.
#[derive(Drop)]
pub struct Stream {
    /// The jobs, in the order in which they pass.
    pub job: List<u32>,
    /// When each job passes, in ticks.
    pub time: List<u64>,
}

/// How a visit ends.
#[derive(Clone, Copy)]
pub enum Fate {
    /// The job leaves the node at this time, in ticks.
    Departs(u64),
    /// The job found no place and was lost when it came.
    Lost,
    /// The job is in the node for good: what it waits for never comes.
    Held,
}

/// The visits of jobs to a node: four lists of one length, one item per visit, by position.
#[derive(Drop)]
pub struct Visits {
    /// The job of each visit.
    pub job: List<u32>,
    /// When each job came, in ticks. The times never fall.
    pub arrive: List<u64>,
    /// How many jobs were in the node just before each visit came.
    pub found: List<u32>,
    /// How each visit ended.
    pub fate: Fates,
}

/// What a run gives.
#[derive(Drop)]
pub struct Run {
    /// The visits to each node, by order of declaration.
    pub visits: List<Visits>,
    /// What left each node by each of its outputs, by node and output.
    pub outputs: List<List<Stream>>,
}
