// What sources let out in a run that is counted as it goes: their jobs, as they come. What is told of a source is told
// without a look at its visits, so that none are made, and what came is handed on whole.
ghost use Rattle.std.specs.Prelude.{◌≡◌, ◌<◌, ◌≤◌, ◌∷◌, ℕ, [], Contains, IfOk, None, Some, false, length, map, slice_get, true};
ghost use Rattle.std.specs.List.{AllByRecursion};
ghost use Rattle.mq_arrivals.specs.Arrivals.{IsArriving};
ghost use Rattle.mq_core.specs.Came.{came_in};
ghost use Rattle.mq_core.specs.Results.{first_of};
ghost use Rattle.mq_core.specs.Sequences.{sequence_exit, sequence_late_from, sequence_visits};
ghost use Rattle.mq_core.specs.Theorems.{IsReadFor};
ghost use Rattle.mq_core.specs.Wiring.{is_source_kind};
ghost use Rattle.mq_core.specs.declared.model.Fate.TheVariants.{Departs};
ghost use Rattle.mq_core.specs.declared.model.Kind.TheVariants.{Source};
ghost use Rattle.mq_core.specs.declared.model.Node.{Node as TheNode};
ghost use Rattle.mq_counts.specs.Counts.{IsCountOf, is_read as reads_output};
ghost use Rattle.mq_exits.specs.Loads.{IsLoaded};
ghost use Rattle.mq_merge.specs.Borrowed.{stream_in};
ghost use Rattle.mq_stats.specs.Numbers.{AreLeaving, AreSmall, totals_from};
ghost use Rattle.mq_engine.specs.Counting.{IsToldAmong, IsToldNode};
ghost use Rattle.mq_engine.specs.Sources.{IsSourceAmong, IsSourceArrived, sent_totals};
ghost use Rattle.mq_engine.specs.Progress.{AreEarly, CanWorkAll};
ghost use Rattle.mq_engine.specs.Waves.{IsWave};

use crate::laws::core_laws;
use crate::told::{ToldEnding, ToldNode};
use mq_arrivals::{Arrived, Arriving, arrivals_of};
use mq_base::{List, OutOfMemory};
use mq_core::{
    Node, PastFault, Plan, Rows, Stream, fates_are_in_time, is_source, orders_keep_items,
    sequences_go_by_fates,
};
use mq_counts::{NodeCount, is_read};
use mq_crew::{Crew, Gate};
use mq_join::fork_copies;
use mq_merge::Arrivals;
use mq_stations::{first_late_in_turn, only};
use mq_stats::{Exit, NodeTotals, Percentiles, last, leaving, runs_give_visits};
use std::alloc::Global;
use std::thread::Threads;

// Those of these nodes that are sources.
fn sources_among(alloc: Global, plan: &Plan, ready: &[u32]) -> Result<Vec<u32>, OutOfMemory>
    requires { (v : ℕ) → Contains ready.now v → v < length plan.now.net.nodes }
    ensures few { IfOk result (λ sources. length sources.items ≤ length ready.now) }
    ensures each { IfOk result (λ sources. AllByRecursion (IsSourceAmong plan.now ready.now) sources.items) }
{
    let mut sources = Vec::new(alloc);
    for at in 0..ready.len() {
        let number = ready[at];
        if is_source(&plan.net.nodes.get(number as usize).kind) {
            sources.push(number)?;
        }
    }
    Ok(sources)
}

// What leaves a source, by its one output: what came to it, handed on whole. It reads no port, so that what came is its own already.
fn passed_on(alloc: Global, arrivals: Arrivals) -> Result<List<Stream>, OutOfMemory>
    ensures { IfOk result (λ streams. streams ≡ stream_in arrivals.entry ∷ []) }
{
    match arrivals {
        Arrivals::Merged(stream) => only(alloc, stream),
        Arrivals::Read(stream) => fork_copies(alloc, stream, 1),
    }
}

// The totals of so many visits that depart as they come.
fn totals_sent(came: u32) -> NodeTotals
    requires { came ≤ 1048576 }
    ensures totals { totals_from result ≡ sent_totals came }
    ensures small { AreSmall result }
{
    NodeTotals {
        came,
        left: came,
        lost: 0,
        held: 0,
        wait: 0,
        longest: 0,
        busy: 0,
        area: 0,
        peak: 0,
    }
}

// What leaves by the output of a source, unless some input reads it.
fn exit_sent(nodes: &[Node], rows: &Rows, node: u32, stream: &Stream) -> Exit
    requires { AreLeaving rows.now stream.now }
    ensures { reads_output nodes.now node 0 ≡ false → (result.count, result.sojourn) ≡ sequence_exit rows.now stream.now }
{
    if is_read(nodes, node, 0) {
        return Exit {
            count: 0,
            sojourn: 0,
        };
    }
    leaving(rows, stream)
}

// What is told of a source whose jobs come so.
fn count_sent(
    alloc: Global,
    nodes: &[Node],
    rows: &Rows,
    node: u32,
    stream: &Stream,
) -> Result<NodeCount, OutOfMemory>
    requires { AreLeaving rows.now stream.now }
    ensures { IfOk result (λ count. (form : ℕ) → IsCountOf nodes.now rows.now form node Source (sequence_visits rows.now Source (came_in stream.now)) (stream.now ∷ []) count) }
{
    let mut exits = List::new(alloc);
    exits.push(exit_sent(nodes, rows, node, stream))?;
    Ok(NodeCount {
        totals: totals_sent(stream.job.len() as u32),
        last: last(stream.time.as_slice()),
        tail: Percentiles {
            p50: 0,
            p90: 0,
            p99: 0,
        },
        exits,
    })
}

// How a source ends to which this came, nothing after the bound.
fn sent_on_time(
    alloc: Global,
    plan: &Plan,
    rows: &Rows,
    number: u32,
    arrivals: Arrivals,
) -> Result<ToldNode, OutOfMemory>
    requires read { IsReadFor plan.now.net rows.now }
    requires loaded { IsLoaded plan.now rows.now number (stream_in arrivals) }
    requires source { (node : TheNode) → slice_get plan.now.net.nodes number ≡ Some node → is_source_kind node.kind ≡ true }
    requires early { first_of (sequence_late_from plan.now.net.bound number 0 (map (λ time. Departs time) (stream_in arrivals).time)) ≡ None }
    ensures { IfOk result (λ sent. (sent.number ≡ number) × ((form : ℕ) → IsToldNode plan.now rows.now form sent)) }
{
    core_laws();
    orders_keep_items();
    sequences_go_by_fates();
    fates_are_in_time();
    runs_give_visits();
    let nodes = plan.net.nodes.as_slice();
    let Ok(count) = count_sent(alloc, nodes, rows, number, arrivals.stream()) else {
        drop(arrivals);
        return Err(OutOfMemory);
    };
    let Ok(streams) = passed_on(alloc, arrivals) else {
        drop(count);
        return Err(OutOfMemory);
    };
    let ending = ToldEnding::Told(streams, count);
    Ok(ToldNode { number, ending })
}

// How a source ends to which this came.
fn sent_of(
    alloc: Global,
    plan: &Plan,
    rows: &Rows,
    arrived: Arrived,
) -> Result<ToldNode, OutOfMemory>
    requires read { IsReadFor plan.now.net rows.now }
    requires loaded { IsLoaded plan.now rows.now arrived.number (stream_in arrived.arrivals) }
    requires source { (node : TheNode) → slice_get plan.now.net.nodes arrived.number ≡ Some node → is_source_kind node.kind ≡ true }
    ensures { IfOk result (λ sent. (sent.number ≡ arrived.entry.number) × ((form : ℕ) → IsToldNode plan.now rows.now form sent)) }
{
    core_laws();
    orders_keep_items();
    sequences_go_by_fates();
    let Arrived { number, arrivals } = arrived;
    match first_late_in_turn(plan.net.bound, number, &arrivals.stream().time) {
        Some(past) => {
            drop(arrivals);
            let ending = ToldEnding::TooLate(past);
            Ok(ToldNode { number, ending })
        }
        None => sent_on_time(alloc, plan, rows, number, arrivals),
    }
}

// The same of each.
fn all_sent(
    alloc: Global,
    arriving: &Arriving,
    arrived: List<Arrived>,
) -> Result<List<ToldNode>, OutOfMemory>
    requires read { IsReadFor arriving.now.plan.now.net arriving.now.rows.now }
    requires arrived { AllByRecursion (IsSourceArrived arriving.now) arrived }
    ensures len { IfOk result (λ sent. length sent ≡ length arrived.entry) }
    ensures known { IfOk result (λ sent. (form : ℕ) → AllByRecursion (IsToldAmong arriving.now.plan.now arriving.now.rows.now form arriving.now.ready.now) sent) }
{
    let Ok(mut sent) = Vec::with_capacity(alloc, arrived.len()) else {
        drop(arrived);
        return Err(OutOfMemory);
    };
    let mut arrived = arrived.into_vec();
    while let Some(one) = arrived.pop() {
        match sent_of(alloc, arriving.plan, arriving.rows, one) {
            Ok(node) => sent.push_reserved(node),
            Err(fault) => {
                drop(arrived);
                drop(sent);
                return Err(fault);
            }
        }
    }
    Ok(List::from_vec(sent))
}

// What these sources let out.
fn sent_by<R: Threads + Sync, G: Gate>(
    crew: &Crew<R, G>,
    arriving: &Arriving,
) -> Result<List<ToldNode>, OutOfMemory>
    requires arriving { IsArriving arriving.now }
    requires early { AreEarly arriving.now.outputs.now }
    requires can { CanWorkAll arriving.now.plan.now arriving.now.rows.now arriving.now.outputs.now arriving.now.ready.now }
    requires sources { (v : ℕ) → Contains arriving.now.ready.now v → (node : TheNode) → slice_get arriving.now.plan.now.net.nodes v ≡ Some node → is_source_kind node.kind ≡ true }
    ensures len { IfOk result (λ sent. length sent ≡ length arriving.now.ready.now) }
    ensures known { IfOk result (λ sent. (form : ℕ) → AllByRecursion (IsToldAmong arriving.now.plan.now arriving.now.rows.now form arriving.now.ready.now) sent) }
{
    core_laws();
    let arrived = arrivals_of(crew, arriving)?;
    all_sent(crew.alloc, arriving, arrived)
}

/// What those of the nodes that are ready let out that are sources: none, where none is one.
pub fn sources_sent<R: Threads + Sync, G: Gate>(
    crew: &Crew<R, G>,
    arriving: &Arriving,
) -> Result<List<ToldNode>, OutOfMemory>
    requires wave { IsWave arriving.now }
    requires few { length arriving.now.ready.now ≤ 64 }
    ensures { IfOk result (λ sent. (form : ℕ) → AllByRecursion (IsToldAmong arriving.now.plan.now arriving.now.rows.now form arriving.now.ready.now) sent) }
{
    let sources = sources_among(crew.alloc, arriving.plan, arriving.ready)?;
    if sources.is_empty() {
        return Ok(List::new(crew.alloc));
    }
    let sending = Arriving {
        ready: &sources,
        ..*arriving
    };
    sent_by(crew, &sending)
}
