// The job lines of a report: one per visit, by rank of its node and then by position.
ghost use Rattle.std.specs.Prelude.{◌≡◌, ◌≤◌, ◌++◌, length, Some, slice_get};
ghost use Rattle.mq_outside.specs.Outside.{Adds};
ghost use Rattle.mq_core.specs.Asked.{HasDemands};
ghost use Rattle.mq_core.specs.Sequences.{IsRunOf, sequence_wait};
ghost use Rattle.mq_core.specs.StandardTable.{run_of};
ghost use Rattle.mq_core.specs.Theorems.{IsReadFor};
ghost use Rattle.mq_stats.specs.Numbers.{AreVisits};
ghost use Rattle.mq_stats.specs.RunNumbers.{HasFewVisits};
ghost use Rattle.mq_report.specs.Sequences.{sequence_lines};
ghost use Rattle.mq_report.specs.Text.{fate_words, jobs_text, node_jobs, visit_line, visit_words};

use crate::line::Line;
use mq_core::{
    Fate, Kind, Node, Plan, Rows, Run, Visits, nodes_are_in_limits, orders_rank,
    runs_have_sequences,
};
use mq_outside::{Gather, Sink, SinkFault, add_bytes};
use mq_stats::{runs_give_visits, wait_of};

// Replaces the line by how a visit ended, and the line feed.
#[tactic(auto, unfolding(crate::specs::Text::departs_words, crate::specs::Text::lost_words, crate::specs::Text::held_words))]
fn put_fate(line: &mut Line, wait: u64, fate: Fate)
    ensures text { line.new ≡ fate_words wait fate }
    ensures short { length line.new ≤ 55 }
{
    line.clear();
    match fate {
        Fate::Departs(time) => {
            line.put_text(b"\n");
            line.put_number(time);
            line.put_text(b" depart ");
            line.put_number(wait);
            line.put_text(b" wait ");
        }
        Fate::Lost => line.put_text(b" lost\n"),
        Fate::Held => line.put_text(b" held\n"),
    }
}

// Puts the job, the node's name and the arrival time of a visit in front of how it ended.
#[tactic(auto, unfolding(crate::specs::Text::visit_words))]
fn put_words(line: &mut Line, name: &[u8], job: u32, arrive: u64)
    requires name { length name.now ≤ 32 }
    requires short { length line.old ≤ 55 }
    ensures { line.new ≡ visit_words name.now job arrive ++ line.old }
{
    line.put_number(arrive);
    line.put_text(b" arrive ");
    line.put_text(name);
    line.put_text(b" ");
    line.put_number(job as u64 + 1);
    line.put_text(b"job ");
}

// Adds the line of a visit. It uses `line` to write in, and overwrites what it holds.
fn add_visit<O: Sink>(
    out: &mut O,
    pending: &mut Gather,
    line: &mut Line,
    rows: &Rows,
    name: &[u8],
    kind: &Kind,
    job: u32,
    arrive: u64,
    fate: Fate,
) -> Result<(), SinkFault>
    requires name { length name.now ≤ 32 }
    requires told { HasDemands rows.now kind.now job }
    ensures { Adds O.taken O.sure O.faults out.old out.new pending.old pending.new result (visit_line name.now job arrive (sequence_wait rows.now kind.now job arrive fate) fate) }
{
    put_fate(line, wait_of(rows, kind, job, arrive, fate), fate);
    put_words(line, name, job, arrive);
    add_bytes(out, pending, line.as_slice())
}

/// Adds the lines of the visits to a node of this name and kind, by position.
pub fn add_visits<O: Sink>(
    out: &mut O,
    pending: &mut Gather,
    rows: &Rows,
    name: &[u8],
    kind: &Kind,
    visits: &Visits,
) -> Result<(), SinkFault>
    requires name { length name.now ≤ 32 }
    requires visits { AreVisits rows.now kind.now visits.now }
    ensures { Adds O.taken O.sure O.faults out.old out.new pending.old pending.new result (sequence_lines rows.now name.now kind.now visits.now.job visits.now.arrive visits.now.fate) }
{
    let mut line = Line::new();
    for at in 0..visits.job.len() {
        let (job, arrive, fate) = (
            *visits.job.get(at),
            *visits.arrive.get(at),
            visits.fate.at(at),
        );
        add_visit(out, pending, &mut line, rows, name, kind, job, arrive, fate)?;
    }
    Ok(())
}

// Adds the job lines of a node of the run.
fn add_jobs_at<O: Sink>(
    out: &mut O,
    pending: &mut Gather,
    plan: &Plan,
    rows: &Rows,
    run: &Run,
    node: u32,
    declared: &Node,
) -> Result<(), SinkFault>
    requires read { IsReadFor plan.now.net rows.now }
    requires run { IsRunOf plan.now rows.now run.now }
    requires few { HasFewVisits plan.now rows.now }
    requires there { slice_get plan.now.net.nodes node ≡ Some declared.now }
    ensures { Adds O.taken O.sure O.faults out.old out.new pending.old pending.new result (node_jobs rows.now declared.now ((run_of plan.now rows.now).stations node)) }
{
    nodes_are_in_limits();
    runs_have_sequences();
    runs_give_visits();
    let name = declared.name.as_slice();
    let visits = run.visits.get(node as usize);
    add_visits(out, pending, rows, name, &declared.kind, visits)
}

/// Adds the job lines of all nodes, by rank.
pub fn add_jobs<O: Sink>(
    out: &mut O,
    pending: &mut Gather,
    plan: &Plan,
    rows: &Rows,
    run: &Run,
) -> Result<(), SinkFault>
    requires read { IsReadFor plan.now.net rows.now }
    requires run { IsRunOf plan.now rows.now run.now }
    requires few { HasFewVisits plan.now rows.now }
    ensures { Adds O.taken O.sure O.faults out.old out.new pending.old pending.new result (jobs_text plan.now.net rows.now (run_of plan.now rows.now) plan.now.order) }
{
    orders_rank();
    for rank in 0..plan.order.len() {
        let node = *plan.order.get(rank);
        let declared = plan.net.nodes.get(node as usize);
        add_jobs_at(out, pending, plan, rows, run, node, declared)?;
    }
    Ok(())
}
