// The nodes of a wave, by how they are worked out: those with too many visits not at all, forks and joins
// each as one piece, and stations in lists of pieces.
ghost use Rattle.std.specs.Prelude.{◌≡◌, ◌+◌, ◌≤◌, ℕ, List as Items, Contains, Some, length, slice_get, IfOk};
ghost use Rattle.std.specs.List.{AllByRecursion, flat_map};
ghost use Rattle.mq_core.specs.SequenceLaws.{sends_once};
ghost use Rattle.mq_core.specs.declared.model.Node.{Node as TheNode};
ghost use Rattle.mq_core.specs.declared.model.Plan.{Plan as ThePlan};
ghost use Rattle.mq_core.specs.declared.model.Rows.{Rows as TheRows};
ghost use Rattle.mq_arrivals.specs.Arrivals.{pairs_read};
ghost use Rattle.mq_exits.specs.Results.{IsResultOf};
ghost use Rattle.mq_exits.specs.Turns.{IsGiven};
ghost use Rattle.mq_engine.specs.Waves.{AreGiven, AreSorted, IsSide, IsWave, IsWay};
ghost use Rattle.mq_exits.specs.declared.keeping.Keep.{Keep as TheKeep};
ghost use Rattle.mq_exits.specs.declared.working.Ending.TheVariants.{TooMany};

use crate::gathering::apart_results;
use crate::laws::core_laws;
use crate::ready::given_by;
use crate::sides::{appended, shares, side_by_side, sides_of};
use mq_arrivals::{Arriving, stream_of};
use mq_base::{List, OutOfMemory};
use mq_core::{Kind, OverFault, is_source};
use mq_crew::{Crew, Gate};
use mq_exits::{Ending, Given, Keep, NodeResult, with_ended};
use std::alloc::Global;
use std::thread::Threads;

// How many visits a node may have.
const MOST_VISITS: u32 = 1_048_576;

/// How a node is worked out.
#[derive(Drop)]
pub enum Way {
    /// Not at all: it has so many visits, more than it may.
    Crowded(u32),
    /// As a fork or a join.
    Apart,
    /// As a station, which lets each job out once.
    Station,
}

/// The nodes of a wave.
#[derive(Drop)]
pub struct Wave {
    /// How those end that have too many visits.
    pub crowded: List<NodeResult>,
    /// The forks and the joins.
    pub apart: Vec<u32>,
    pub stations: Vec<u32>,
}

// How many jobs come to a node by its ports: 8 times as many at most as a node may let out.
pub fn coming_by_ports(arriving: &Arriving, number: u32) -> u32
    requires wave { IsWave arriving.now }
    requires ready { Contains arriving.now.ready.now number }
    ensures { (node : TheNode) → slice_get arriving.now.plan.now.net.nodes number ≡ Some node → result ≡ length (flat_map (pairs_read arriving.now.outputs.now) node.inputs) }
{
    core_laws();
    let inputs = &arriving.plan.net.nodes.get(number as usize).inputs;
    let mut count = 0;
    for port in 0..inputs.len() {
        count += stream_of(arriving.outputs, inputs.get(port)).time.len() as u32;
    }
    count
}

// Whether a node of this kind lets each job out once, alone.
// A further kind adds its case here.
fn lets_out_once(kind: &Kind) -> bool
    ensures { result ≡ sends_once kind.now }
{
    match kind {
        Kind::Source
        | Kind::Server(_)
        | Kind::Delay(_)
        | Kind::Loss { .. }
        | Kind::Tandem(_)
        | Kind::ForkJoin(_)
        | Kind::Split(_)
        | Kind::Trunk { .. } => true,
        Kind::Fork { .. } | Kind::Join => false,
    }
}

/// How a node is worked out to which all has come. A source has no more visits than a trace may have rows. It takes no
/// memory.
pub fn way_of(arriving: &Arriving, number: u32) -> Way
    requires wave { IsWave arriving.now }
    requires ready { Contains arriving.now.ready.now number }
    ensures { IsWay arriving.now number result }
{
    let kind = &arriving.plan.net.nodes.get(number as usize).kind;
    if is_source(kind) {
        return Way::Station;
    }
    let count = coming_by_ports(arriving, number);
    if count > MOST_VISITS {
        return Way::Crowded(count);
    }
    if lets_out_once(kind) {
        Way::Station
    } else {
        Way::Apart
    }
}

// How a node ends that has so many visits, more than it may.
fn crowded(number: u32, count: u32) -> NodeResult
    ensures number { result.number ≡ number }
    ensures ending { result.ending ≡ TooMany (record { node = number; count = count }) }
{
    let over = OverFault {
        node: number,
        count,
    };
    NodeResult {
        number,
        ending: Ending::TooMany(over),
    }
}

// The nodes that are ready, told apart.
fn sorted_out(alloc: Global, arriving: &Arriving) -> Result<Wave, OutOfMemory>
    requires wave { IsWave arriving.now }
    ensures len { IfOk result (λ wave. length wave.crowded + length wave.apart.items + length wave.stations.items ≡ length arriving.now.ready.now) }
    ensures sorted { IfOk result (AreSorted arriving.now) }
{
    let mut wave = Wave {
        crowded: List::new(alloc),
        apart: Vec::new(alloc),
        stations: Vec::new(alloc),
    };
    for at in 0..arriving.ready.len() {
        let number = arriving.ready[at];
        match way_of(arriving, number) {
            Way::Crowded(count) => wave.crowded.push(crowded(number, count))?,
            Way::Apart => wave.apart.push(number)?,
            Way::Station => wave.stations.push(number)?,
        }
    }
    Ok(wave)
}

// What a wave gives: these, and its nodes with too many visits and what was gathered. Nothing else of the wave is looked at.
fn all_given<'a>(
    wave: Wave,
    gathered: List<NodeResult>,
    served: List<Given<'a>>,
) -> Result<List<Given<'a>>, OutOfMemory>
    ensures len { IfOk result (λ all. length all ≡ length wave.crowded + length gathered + length served.entry) }
    ensures known { IfOk result (λ all. (keep : TheKeep) (plan : ThePlan) (rows : TheRows) (ready : Items ℕ) → AllByRecursion (IsResultOf plan rows ready) wave.crowded → AllByRecursion (IsResultOf plan rows ready) gathered → AllByRecursion (IsGiven keep plan rows ready) served.entry → AllByRecursion (IsGiven keep plan rows ready) all) }
{
    let Ok(given) = with_ended(served, gathered) else {
        drop(wave);
        return Err(OutOfMemory);
    };
    with_ended(given, wave.crowded)
}

// What these nodes give, by all workers together.
pub fn side_of<'a, R: Threads + Sync, G: Gate>(
    crew: &Crew<R, G>,
    keep: Keep,
    arriving: &Arriving<'a, '_>,
) -> Result<List<Given<'a>>, OutOfMemory>
    requires { IsSide arriving.now }
    ensures { IfOk result (AreGiven keep arriving.now) }
{
    let wave = sorted_out(crew.alloc, arriving)?;
    let gathering = Arriving {
        ready: &wave.apart,
        ..*arriving
    };
    let Ok(gathered) = apart_results(crew, &gathering) else {
        drop(wave);
        return Err(OutOfMemory);
    };
    let serving = Arriving {
        ready: &wave.stations,
        ..*arriving
    };
    let Ok(served) = given_by(crew, keep, &serving) else {
        drop(wave);
        drop(gathered);
        return Err(OutOfMemory);
    };
    all_given(wave, gathered, served)
}

/// Returns what the nodes that are ready give, in a run that keeps this: stations of one long piece beside all others, if there are
/// both. The only error is out of memory.
pub fn wave_of<'a, R: Threads + Sync, G: Gate>(
    crew: &Crew<R, G>,
    keep: Keep,
    arriving: &Arriving<'a, '_>,
) -> Result<List<Given<'a>>, OutOfMemory>
    requires wave { IsWave arriving.now }
    requires few { length arriving.now.ready.now ≤ 64 }
    ensures len { IfOk result (λ given. length given ≡ length arriving.now.ready.now) }
    ensures known { IfOk result (λ given. AllByRecursion (IsGiven keep arriving.now.plan.now arriving.now.rows.now arriving.now.ready.now) given) }
{
    let sides = sides_of(crew.alloc, arriving, crew.workers)?;
    if crew.workers == 1 || sides.long.is_empty() || sides.others.is_empty() {
        drop(sides);
        return side_of(crew, keep, arriving);
    }
    let (few, many) = shares(crew.workers, sides.long.len() as u32);
    let long = Arriving {
        ready: &sides.long,
        ..*arriving
    };
    let others = Arriving {
        ready: &sides.others,
        ..*arriving
    };
    let (first, second) = side_by_side(keep, &crew.with(few), &long, &crew.with(many), &others);
    drop(sides);
    appended(first, second)
}
