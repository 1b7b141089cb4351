// The sections of a report, and the whole report.
ghost use Rattle.std.specs.Prelude.{◌≡◌, ◌≤◌, ◌<◌, ℕ, false, is_some, length, IfSome, OnOk, OnErr, Some, slice_get};
ghost use Rattle.mq_outside.specs.Outside.{Adds, Rose, TakesFirst, TakesPrefix};
ghost use Rattle.mq_core.specs.Sequences.{IsRunOf};
ghost use Rattle.mq_core.specs.Results.{exit_of};
ghost use Rattle.mq_core.specs.Sound.{outputs_in};
ghost use Rattle.mq_core.specs.StandardTable.{run_of};
ghost use Rattle.mq_core.specs.Theorems.{IsReadFor};
ghost use Rattle.mq_counts.specs.Counts.{AreCounts, is_read as reads_output};
ghost use Rattle.mq_stats.specs.RunNumbers.{HasFewVisits};
ghost use Rattle.mq_report.specs.Text.{exit_lines, exit_lines_at, exits_text, line_of, nodes_text, report_in, report_text};

use crate::jobs::add_jobs;
use crate::lines::{add_exit, add_head, add_node};
use crate::tails::told_tail;
use mq_core::{
    Node, Plan, Rows, Run, exits_are_streams, nodes_are_in_limits, orders_rank,
    outputs_have_streams, outputs_of, runs_are_of_networks,
};
use mq_counts::{Counts, is_read, totals_at};
use mq_outside::{Gather, Sink, SinkFault, flush};
use mq_stats::Exit;

// Adds the line of a node.
fn add_node_at<O: Sink>(
    out: &mut O,
    pending: &mut Gather,
    plan: &Plan,
    rows: &Rows,
    counts: &Counts,
    form: u8,
    node: u32,
    declared: &Node,
) -> Result<(), SinkFault>
    requires read { IsReadFor plan.now.net rows.now }
    requires few { HasFewVisits plan.now rows.now }
    requires counts { AreCounts plan.now rows.now form counts.now }
    requires there { slice_get plan.now.net.nodes node ≡ Some declared.now }
    ensures { Adds O.taken O.sure O.faults out.old out.new pending.old pending.new result (line_of plan.now.net.version form rows.now (run_of plan.now rows.now) node declared.now) }
{
    nodes_are_in_limits();
    let own = totals_at(plan, rows, counts, node, declared);
    let tail = told_tail(plan, rows, counts, form, node, declared);
    add_node(
        out,
        pending,
        plan.net.version == 2 || form == 2,
        declared.name.as_slice(),
        &declared.kind,
        &own,
        tail,
        counts.span,
    )
}

// Adds the lines of the nodes, by rank.
fn add_nodes<O: Sink>(
    out: &mut O,
    pending: &mut Gather,
    plan: &Plan,
    rows: &Rows,
    counts: &Counts,
    form: u8,
) -> Result<(), SinkFault>
    requires read { IsReadFor plan.now.net rows.now }
    requires few { HasFewVisits plan.now rows.now }
    requires counts { AreCounts plan.now rows.now form counts.now }
    ensures { Adds O.taken O.sure O.faults out.old out.new pending.old pending.new result (nodes_text form plan.now.net rows.now (run_of plan.now rows.now) plan.now.order) }
{
    orders_rank();
    for rank in 0..plan.order.len() {
        let node = *plan.order.get(rank);
        let declared = plan.net.nodes.get(node as usize);
        add_node_at(out, pending, plan, rows, counts, form, node, declared)?;
    }
    Ok(())
}

// Returns what leaves a node by an output that no input reads.
fn exit_at(
    plan: &Plan,
    rows: &Rows,
    counts: &Counts,
    node: u32,
    declared: &Node,
    output: u8,
) -> Exit
    requires counts { (form : ℕ) × AreCounts plan.now rows.now form counts.now }
    requires there { slice_get plan.now.net.nodes node ≡ Some declared.now }
    requires output { output < outputs_in declared.now.kind }
    requires free { reads_output plan.now.net.nodes node output ≡ false }
    ensures { (result.count, result.sojourn) ≡ exit_of rows.now ((run_of plan.now rows.now).stations node) output }
{
    exits_are_streams();
    outputs_have_streams();
    *counts.nodes.get(node as usize).exits.get(output as usize)
}

// Adds the line of an output that no input reads.
fn add_exit_at<O: Sink>(
    out: &mut O,
    pending: &mut Gather,
    plan: &Plan,
    rows: &Rows,
    counts: &Counts,
    node: u32,
    declared: &Node,
    output: u8,
) -> Result<(), SinkFault>
    requires counts { (form : ℕ) × AreCounts plan.now rows.now form counts.now }
    requires there { slice_get plan.now.net.nodes node ≡ Some declared.now }
    requires output { output < outputs_in declared.now.kind }
    ensures { Adds O.taken O.sure O.faults out.old out.new pending.old pending.new result (exit_lines_at plan.now.net.nodes rows.now node declared.now.name ((run_of plan.now rows.now).stations node) output) }
{
    if is_read(plan.net.nodes.as_slice(), node, output as usize) {
        return Ok(());
    }
    let exit = exit_at(plan, rows, counts, node, declared, output);
    add_exit(out, pending, declared.name.as_slice(), output, &exit)
}

// Adds the lines of the outputs of a node that no input reads.
fn add_exits_at<O: Sink>(
    out: &mut O,
    pending: &mut Gather,
    plan: &Plan,
    rows: &Rows,
    counts: &Counts,
    node: u32,
    declared: &Node,
) -> Result<(), SinkFault>
    requires counts { (form : ℕ) × AreCounts plan.now rows.now form counts.now }
    requires there { slice_get plan.now.net.nodes node ≡ Some declared.now }
    ensures { Adds O.taken O.sure O.faults out.old out.new pending.old pending.new result (exit_lines plan.now.net.nodes rows.now node declared.now.name ((run_of plan.now rows.now).stations node) 0 (outputs_in declared.now.kind)) }
{
    nodes_are_in_limits();
    for output in 0..outputs_of(&declared.kind) {
        add_exit_at(out, pending, plan, rows, counts, node, declared, output)?;
    }
    Ok(())
}

// Adds the lines of the exits, by rank of their nodes.
fn add_exits<O: Sink>(
    out: &mut O,
    pending: &mut Gather,
    plan: &Plan,
    rows: &Rows,
    counts: &Counts,
) -> Result<(), SinkFault>
    requires counts { (form : ℕ) × AreCounts plan.now rows.now form counts.now }
    ensures { Adds O.taken O.sure O.faults out.old out.new pending.old pending.new result (exits_text plan.now.net rows.now (run_of plan.now rows.now) plan.now.order) }
{
    orders_rank();
    for rank in 0..plan.order.len() {
        let node = *plan.order.get(rank);
        let declared = plan.net.nodes.get(node as usize);
        add_exits_at(out, pending, plan, rows, counts, node, declared)?;
    }
    Ok(())
}

// Adds the whole report.
fn add_report<O: Sink>(
    out: &mut O,
    pending: &mut Gather,
    plan: &Plan,
    rows: &Rows,
    counts: &Counts,
    jobs: Option<&Run>,
    form: u8,
) -> Result<(), SinkFault>
    requires read { IsReadFor plan.now.net rows.now }
    requires few { HasFewVisits plan.now rows.now }
    requires counts { AreCounts plan.now rows.now form counts.now }
    requires jobs { IfSome jobs (λ run. IsRunOf plan.now rows.now run.now) }
    ensures { Adds O.taken O.sure O.faults out.old out.new pending.old pending.new result (report_text plan.now.net plan.now.order rows.now (run_of plan.now rows.now) form (is_some jobs.entry)) }
{
    add_head(out, pending, form, rows.time.len(), counts.span)?;
    add_nodes(out, pending, plan, rows, counts, form)?;
    add_exits(out, pending, plan, rows, counts)?;
    let Some(run) = jobs else {
        return Ok(());
    };
    add_jobs(out, pending, plan, rows, run)
}

/// Writes the report of a run, of form 1 or 2, from these counts: the numbers of each node by rank, what leaves by each output
/// that no input reads, and, if the run is given, a line for each visit by rank of its node and then by position. Form 2 has
/// the percentiles of each node's waits; form 1 doesn't look at them. No node has more than 1,048,576 visits, which holds for
/// each run that isn't refused. It allocates no memory.
///
/// If the sink fails, it has taken a first part of the report.
pub fn report<O: Sink>(
    plan: &Plan,
    rows: &Rows,
    counts: &Counts,
    jobs: Option<&Run>,
    form: u8,
    out: &mut O,
) -> Result<(), SinkFault>
    requires read { IsReadFor plan.now.net rows.now }
    requires few { HasFewVisits plan.now rows.now }
    requires counts { AreCounts plan.now rows.now form counts.now }
    requires jobs { IfSome jobs (λ run. IsRunOf plan.now rows.now run.now) }
    ensures ok { OnOk result (TakesFirst (O.taken out.old) (O.taken out.new) (O.sure out.old) (O.sure out.new) (report_in plan.now.net rows.now form (is_some jobs.entry)) (length (report_in plan.now.net rows.now form (is_some jobs.entry)))) }
    ensures err { OnErr result (TakesPrefix (O.taken out.old) (O.taken out.new) (O.sure out.old) (O.sure out.new) (report_in plan.now.net rows.now form (is_some jobs.entry))) }
    ensures later { O.faults out.old ≤ O.faults out.new }
    ensures rose { OnErr result (Rose (O.faults out.old) (O.faults out.new)) }
    ensures quiet { OnOk result (O.faults out.new ≡ O.faults out.old) }
    ensures sure { length (report_in plan.now.net rows.now form (is_some jobs.entry)) ≤ O.sure out.old → O.faults out.new ≡ O.faults out.old }
{
    let mut pending = Gather::new();
    runs_are_of_networks();
    add_report(out, &mut pending, plan, rows, counts, jobs, form)?;
    flush(out, &mut pending)
}
