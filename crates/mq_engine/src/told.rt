// What is told of the nodes of a wave in a run that is counted as it goes, and what leaves them.
ghost use Rattle.std.specs.Prelude.{◌≡◌, ◌≤◌, ◌∷◌, ℕ, List as Items, [], length, map, IfOk};
ghost use Rattle.std.specs.List.{AllByRecursion};
ghost use Rattle.mq_core.specs.Theorems.{IsReadFor};
ghost use Rattle.mq_core.specs.declared.model.Plan.{Plan as ThePlan};
ghost use Rattle.mq_core.specs.declared.model.Rows.{Rows as TheRows};
ghost use Rattle.mq_counts.specs.Counts.{AreCountable};
ghost use Rattle.mq_exits.specs.Results.{IsResultOf, IsWorkedOut};
ghost use Rattle.mq_exits.specs.Turns.{result_given, result_in_turn};
ghost use Rattle.mq_merge.specs.Borrowed.{stream_in};
ghost use Rattle.mq_stats.specs.InTurn.{KeepTurn, stream_in_turn};
ghost use Rattle.mq_engine.specs.Counting.{AreResultSequences, AreTold, AreWaveSequences, IsKeepingTurn, IsNobody, IsToldAmong, IsToldOf, handed_on, reads_some};
ghost use Rattle.mq_engine.specs.Progress.{AreWorkedOut};

use crate::counting::reads;
use crate::progress::no_visits;
use mq_base::{List, OutOfMemory};
use mq_core::{Node, OverFault, PastFault, Plan, Rows, Stream, Visits};
use mq_counts::{NodeCount, NodeSequences, SeenStreams, SeenVisits, counts_of};
use mq_crew::{Crew, Gate};
use mq_exits::{Ending, Given, Held, InTurn, NodeResult};
use mq_merge::Arrivals;
use mq_stations::only;
use mq_stats::{runs_give_streams, runs_give_visits};
use std::alloc::Global;
use std::thread::Threads;

/// How a node ends in a run that is counted as it goes.
#[derive(Drop)]
pub enum ToldEnding {
    /// With what leaves it by each output, and what is told of it: no visit departs after the bound.
    Told(List<Stream>, NodeCount),
    /// With more visits than it may have: it is not worked out.
    TooMany(OverFault),
    /// With the first visit that departs after the bound.
    TooLate(PastFault),
}

/// A node of a run that is counted as it goes: how it ends.
#[derive(Drop)]
pub struct ToldNode {
    /// The node, by order of declaration.
    pub number: u32,
    pub ending: ToldEnding,
}

// What came to a node that ended and what left it. Where it is refused nothing is looked at: neither is told.
fn sequences_ended<'a>(
    plan: &'a Plan,
    rows: &Rows,
    node_result: &'a NodeResult,
    nobody: &'a Visits,
    nothing: &'a List<Stream>,
) -> NodeSequences<'a>
    requires read { IsReadFor plan.now.net rows.now }
    requires known { IsWorkedOut plan.now rows.now node_result.now }
    requires nobody { IsNobody nobody.now }
    requires nothing { nothing.now ≡ [] }
    ensures countable { AreCountable rows.now result }
    ensures of { AreResultSequences plan.now node_result.now result }
{
    runs_give_visits();
    runs_give_streams();
    let kind = &plan.net.nodes.get(node_result.number as usize).kind;
    let number = node_result.number;
    match &node_result.ending {
        Ending::OnTime(visits, streams) => NodeSequences {
            number,
            kind,
            visits: SeenVisits::Kept(visits),
            streams: SeenStreams::Kept(streams),
        },
        Ending::TooMany(_) | Ending::TooLate(_) => NodeSequences {
            number,
            kind,
            visits: SeenVisits::Kept(nobody),
            streams: SeenStreams::Kept(nothing),
        },
    }
}

// The same of a station whose jobs leave in their order.
fn sequences_in_turn<'a>(plan: &'a Plan, rows: &Rows, it: &'a InTurn) -> NodeSequences<'a>
    requires read { IsReadFor plan.now.net rows.now }
    requires known { IsWorkedOut plan.now rows.now (result_in_turn it.now) }
    requires turn { KeepTurn (stream_in it.now.held.arrivals) it.now.departs }
    ensures countable { AreCountable rows.now result }
    ensures of { AreResultSequences plan.now (result_in_turn it.now) result }
{
    runs_give_visits();
    runs_give_streams();
    let number = it.held.number;
    let kind = &plan.net.nodes.get(number as usize).kind;
    let arrivals = it.held.arrivals.stream();
    NodeSequences {
        number,
        kind,
        visits: SeenVisits::InTurn(arrivals, &it.departs),
        streams: SeenStreams::InTurn(arrivals, &it.departs),
    }
}

// The same of what a node gives.
fn sequences_of<'a>(
    plan: &'a Plan,
    rows: &Rows,
    given: &'a Given,
    nobody: &'a Visits,
    nothing: &'a List<Stream>,
) -> NodeSequences<'a>
    requires read { IsReadFor plan.now.net rows.now }
    requires known { IsWorkedOut plan.now rows.now (result_given given.now) }
    requires turn { IsKeepingTurn given.now }
    requires nobody { IsNobody nobody.now }
    requires nothing { nothing.now ≡ [] }
    ensures countable { AreCountable rows.now result }
    ensures of { AreResultSequences plan.now (result_given given.now) result }
{
    match given {
        Given::Ended(node_result) => sequences_ended(plan, rows, node_result, nobody, nothing),
        Given::InTurn(it) => sequences_in_turn(plan, rows, it),
    }
}

// The same of each node.
fn all_sequences<'a>(
    alloc: Global,
    plan: &'a Plan,
    rows: &Rows,
    given: &'a List<Given>,
    nobody: &'a Visits,
    nothing: &'a List<Stream>,
) -> Result<List<NodeSequences<'a>>, OutOfMemory>
    requires read { IsReadFor plan.now.net rows.now }
    requires known { AreWorkedOut plan.now rows.now (map result_given given.now) }
    requires turn { AllByRecursion IsKeepingTurn given.now }
    requires nobody { IsNobody nobody.now }
    requires nothing { nothing.now ≡ [] }
    ensures { IfOk result (AreWaveSequences plan.now rows.now (map result_given given.now) (length (map result_given given.now))) }
{
    let mut all = List::new(alloc);
    for at in 0..given.len() {
        all.push(sequences_of(plan, rows, given.get(at), nobody, nothing))?;
    }
    Ok(all)
}

// What is told of the nodes of a wave, where nobody has come to those that are refused.
fn counts_beside<R: Threads + Sync, G: Gate>(
    crew: &Crew<R, G>,
    plan: &Plan,
    rows: &Rows,
    given: &List<Given>,
    form: u8,
    nobody: &Visits,
    nothing: &List<Stream>,
) -> Result<List<NodeCount>, OutOfMemory>
    requires few { length given.now ≤ 64 }
    requires read { IsReadFor plan.now.net rows.now }
    requires known { AreWorkedOut plan.now rows.now (map result_given given.now) }
    requires turn { AllByRecursion IsKeepingTurn given.now }
    requires nobody { IsNobody nobody.now }
    requires nothing { nothing.now ≡ [] }
    ensures { IfOk result (AreTold plan.now rows.now form (map result_given given.now)) }
{
    let all = all_sequences(crew.alloc, plan, rows, given, nobody, nothing)?;
    let nodes = plan.net.nodes.as_slice();
    let counts = counts_of(crew, nodes, rows, &all, form);
    drop(all);
    counts
}

/// What is told of the nodes of a wave that give this, at most 64, in a report of this form, by 1 to 64 workers.
/// It refuses for want of memory alone.
pub fn counts_of_wave<R: Threads + Sync, G: Gate>(
    crew: &Crew<R, G>,
    plan: &Plan,
    rows: &Rows,
    given: &List<Given>,
    form: u8,
) -> Result<List<NodeCount>, OutOfMemory>
    requires few { length given.now ≤ 64 }
    requires read { IsReadFor plan.now.net rows.now }
    requires known { AreWorkedOut plan.now rows.now (map result_given given.now) }
    requires turn { AllByRecursion IsKeepingTurn given.now }
    ensures { IfOk result (AreTold plan.now rows.now form (map result_given given.now)) }
{
    let (nobody, nothing) = (no_visits(crew.alloc), List::new(crew.alloc));
    let counts = counts_beside(crew, plan, rows, given, form, &nobody, &nothing);
    drop(nobody);
    drop(nothing);
    counts
}

// How a node ended of which this is told: its visits are let go.
fn told_ended(node_result: NodeResult, count: NodeCount) -> ToldNode
    ensures number { result.number ≡ node_result.number }
    ensures told { (plan : ThePlan) (rows : TheRows) (form : ℕ) (ready : Items ℕ) → IsResultOf plan rows ready node_result → IsToldOf plan rows form node_result.number node_result.ending count → IsToldAmong plan rows form ready result }
{
    let NodeResult { number, ending } = node_result;
    match ending {
        Ending::OnTime(visits, streams) => {
            drop(visits);
            let ending = ToldEnding::Told(streams, count);
            ToldNode { number, ending }
        }
        Ending::TooMany(over) => {
            drop(count);
            let ending = ToldEnding::TooMany(over);
            ToldNode { number, ending }
        }
        Ending::TooLate(past) => {
            drop(count);
            let ending = ToldEnding::TooLate(past);
            ToldNode { number, ending }
        }
    }
}

// The jobs that came to a node, as a list of its own: what was merged is let go.
fn jobs_of(alloc: Global, arrivals: Arrivals) -> Result<List<u32>, OutOfMemory>
    ensures { IfOk result (λ jobs. jobs ≡ (stream_in arrivals.entry).job) }
{
    match arrivals {
        Arrivals::Merged(stream) => {
            let Stream { job, time } = stream;
            drop(time);
            Ok(job)
        }
        Arrivals::Read(stream) => {
            let jobs = Vec::from_slice(alloc, stream.job.as_slice())?;
            Ok(List::from_vec(jobs))
        }
    }
}

// Whether some input of these nodes reads an output of the node.
fn is_read_by(nodes: &[Node], node: u32) -> bool
    ensures { result ≡ reads_some nodes.now node }
{
    nodes
        .iter()
        .any(|other| reads(other.inputs.as_slice(), node))
}

// What leaves a station whose jobs leave in their order: its departures are handed on. Where no input reads it there is nothing to hand on.
fn stream_of_turn(alloc: Global, it: InTurn, read: bool) -> Result<List<Stream>, OutOfMemory>
    ensures { IfOk result (λ streams. streams ≡ handed_on read (stream_in_turn (stream_in it.entry.held.arrivals) it.entry.departs)) }
{
    if !read {
        drop(it);
        return Ok(List::new(alloc));
    }
    let InTurn { held, departs } = it;
    let Held { arrivals, .. } = held;
    match jobs_of(alloc, arrivals) {
        Ok(job) => only(alloc, Stream { job, time: departs }),
        Err(fault) => {
            drop(departs);
            Err(fault)
        }
    }
}

// How such a station ended of which this is told.
fn told_in_turn(
    alloc: Global,
    nodes: &[Node],
    it: InTurn,
    count: NodeCount,
) -> Result<ToldNode, OutOfMemory>
    ensures number { IfOk result (λ told. told.number ≡ it.entry.held.number) }
    ensures told { IfOk result (λ told. (plan : ThePlan) (rows : TheRows) (form : ℕ) (ready : Items ℕ) → plan.net.nodes ≡ nodes.now → IsResultOf plan rows ready (result_in_turn it.entry) → IsToldOf plan rows form it.entry.held.number (result_in_turn it.entry).ending count → IsToldAmong plan rows form ready told) }
{
    let number = it.held.number;
    let read = is_read_by(nodes, number);
    match stream_of_turn(alloc, it, read) {
        Ok(streams) => {
            let ending = ToldEnding::Told(streams, count);
            Ok(ToldNode { number, ending })
        }
        Err(fault) => {
            drop(count);
            Err(fault)
        }
    }
}

// How a node ended that gives this, of which this is told.
fn told_of(
    alloc: Global,
    nodes: &[Node],
    given: Given,
    count: NodeCount,
) -> Result<ToldNode, OutOfMemory>
    ensures number { IfOk result (λ told. told.number ≡ (result_given given.entry).number) }
    ensures told { IfOk result (λ told. (plan : ThePlan) (rows : TheRows) (form : ℕ) (ready : Items ℕ) → plan.net.nodes ≡ nodes.now → IsResultOf plan rows ready (result_given given.entry) → IsToldOf plan rows form (result_given given.entry).number (result_given given.entry).ending count → IsToldAmong plan rows form ready told) }
{
    match given {
        Given::Ended(node_result) => Ok(told_ended(node_result, count)),
        Given::InTurn(it) => told_in_turn(alloc, nodes, it, count),
    }
}

/// How the nodes of a wave ended that give this, of which this is told: of a station whose jobs leave in their order the departures are handed
/// on, where some input of the network reads them, and no list of its visits was made. It refuses for want of memory alone.
pub fn told_nodes(
    alloc: Global,
    nodes: &[Node],
    given: List<Given>,
    counts: List<NodeCount>,
) -> Result<List<ToldNode>, OutOfMemory>
    requires even { length counts ≡ length given }
    ensures len { IfOk result (λ told. length told ≡ length given.entry) }
    ensures told { IfOk result (λ told. (plan : ThePlan) (rows : TheRows) (form : ℕ) (ready : Items ℕ) → plan.net.nodes ≡ nodes.now → AllByRecursion (IsResultOf plan rows ready) (map result_given given.entry) → AreTold plan rows form (map result_given given.entry) counts → AllByRecursion (IsToldAmong plan rows form ready) told) }
{
    let Ok(mut told) = Vec::with_capacity(alloc, given.len()) else {
        drop(given);
        drop(counts);
        return Err(OutOfMemory);
    };
    let mut given = given.into_vec();
    let mut counts = counts.into_vec();
    while let Some(one) = given.pop() {
        let Some(count) = counts.pop() else {
            unreachable!()
        };
        match told_of(alloc, nodes, one, count) {
            Ok(node) => told.push_reserved(node),
            Err(fault) => {
                drop(given);
                drop(counts);
                drop(told);
                return Err(fault);
            }
        }
    }
    Ok(List::from_vec(told))
}
