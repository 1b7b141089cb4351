// What a report says of a run that is kept.
ghost use Rattle.std.specs.Prelude.{◌≡◌, ◌<◌, ◌^◌, ℕ, length, IfOk, Some, slice_get};
ghost use Rattle.mq_core.specs.Results.{totals_of};
ghost use Rattle.mq_core.specs.Sequences.{IsRunOf};
ghost use Rattle.mq_core.specs.StandardTable.{run_of};
ghost use Rattle.mq_core.specs.Theorems.{IsReadFor};
ghost use Rattle.mq_stats.specs.Numbers.{totals_from};
ghost use Rattle.mq_stats.specs.RunNumbers.{HasFewVisits};
ghost use Rattle.mq_counts.specs.Counts.{AreCountable, AreCounts};
ghost use Rattle.mq_counts.specs.Runs.{AreFirstSequences, AreSequencesOf};

use crate::counts::{Counts, NodeSequences, counted, counts_of};
use crate::later::{held_stay_on, totals_until};
use crate::seen::{SeenStreams, SeenVisits};
use mq_base::{List, OutOfMemory};
use mq_core::{
    Node, Plan, Rows, Run, runs_have_sequences, span_is_sequences, totals_are_sequences,
};
use mq_crew::{Crew, Gate};
use mq_stats::{NodeTotals, lasts_are_greatest, runs_give_streams, runs_give_visits};
use std::alloc::Global;
use std::thread::Threads;

// Returns what came to a node over the run, and what left it.
fn sequences_at<'a>(
    plan: &Plan,
    rows: &Rows,
    run: &'a Run,
    node: u32,
    declared: &'a Node,
) -> NodeSequences<'a>
    requires read { IsReadFor plan.now.net rows.now }
    requires run { IsRunOf plan.now rows.now run.now }
    requires few { HasFewVisits plan.now rows.now }
    requires there { slice_get plan.now.net.nodes node ≡ Some declared.now }
    ensures countable { AreCountable rows.now result }
    ensures its { AreSequencesOf plan.now rows.now node declared.now result }
{
    runs_have_sequences();
    runs_give_visits();
    runs_give_streams();
    NodeSequences {
        number: node,
        kind: &declared.kind,
        visits: SeenVisits::Kept(run.visits.get(node as usize)),
        streams: SeenStreams::Kept(run.outputs.get(node as usize)),
    }
}

// Returns what came to each node over the run, and what left it, by node.
fn sequences_by_node<'a>(
    alloc: Global,
    plan: &'a Plan,
    rows: &Rows,
    run: &'a Run,
) -> Result<List<NodeSequences<'a>>, OutOfMemory>
    requires read { IsReadFor plan.now.net rows.now }
    requires run { IsRunOf plan.now rows.now run.now }
    requires few { HasFewVisits plan.now rows.now }
    ensures { IfOk result (λ all. AreFirstSequences plan.now rows.now (length plan.now.net.nodes) all) }
{
    let mut all = List::new(alloc);
    for node in 0..plan.net.nodes.len() {
        let declared = plan.net.nodes.get(node);
        all.push(sequences_at(plan, rows, run, node as u32, declared))?;
    }
    Ok(all)
}

/// Returns what a report of this form says of a run. No node has more than 1,048,576 visits. 1 to 64 workers compute it, and
/// enter the gate with each piece. The only error is out of memory.
pub fn counts_of_run<R: Threads + Sync, G: Gate>(
    crew: &Crew<R, G>,
    plan: &Plan,
    rows: &Rows,
    run: &Run,
    form: u8,
) -> Result<Counts, OutOfMemory>
    requires read { IsReadFor plan.now.net rows.now }
    requires run { IsRunOf plan.now rows.now run.now }
    requires few { HasFewVisits plan.now rows.now }
    ensures { IfOk result (AreCounts plan.now rows.now form) }
{
    let all = sequences_by_node(crew.alloc, plan, rows, run)?;
    let nodes = plan.net.nodes.as_slice();
    match counts_of(crew, nodes, rows, &all, form) {
        Ok(counts) => {
            drop(all);
            Ok(counted(plan, rows, counts))
        }
        Err(fault) => {
            drop(all);
            Err(fault)
        }
    }
}

/// Returns the totals of a node up to the end of the run, until which held visits stay on.
pub fn totals_at(
    plan: &Plan,
    rows: &Rows,
    counts: &Counts,
    node: u32,
    declared: &Node,
) -> NodeTotals
    requires read { IsReadFor plan.now.net rows.now }
    requires few { HasFewVisits plan.now rows.now }
    requires counts { (form : ℕ) × AreCounts plan.now rows.now form counts.now }
    requires there { slice_get plan.now.net.nodes node ≡ Some declared.now }
    ensures totals { totals_from result ≡ totals_of rows.now declared.now.kind ((run_of plan.now rows.now).stations node) }
    ensures small { result.busy < 2 ^ 100 }
{
    totals_are_sequences();
    span_is_sequences();
    lasts_are_greatest();
    runs_give_visits();
    held_stay_on();
    let count = counts.nodes.get(node as usize);
    totals_until(&count.totals, count.last, counts.span)
}
