// What a source gives whose rows were edited: its kept lists, edited in place.
ghost use Rattle.std.specs.Prelude.{◌≡◌, ◌+◌, ◌<◌, ◌≤◌, IfErr, IfOk, Some};
ghost use Rattle.mq_alike.specs.Again.{alike};
ghost use Rattle.mq_core.specs.Theorems.{IsReadFor};
ghost use Rattle.mq_core.specs.declared.model.Kind.TheVariants.{Source};
ghost use Rattle.mq_core.specs.declared.model.Rows.{Rows as TheRows};
ghost use Rattle.mq_edits.specs.Former.{IsFormerOf, rows_before};
ghost use Rattle.mq_kept.specs.KeptNodes.{IsNodeOf, coming_of};
ghost use Rattle.mq_kept.specs.NodeRuns.{IsFaultAt, IsNodeKept, IsNodeRun};
ghost use Rattle.mq_kept.specs.SourceRuns.{IsEdited};
ghost use Rattle.mq_kept.specs.Tails.{IsTailFor, coming_behind};
ghost use Rattle.mq_redo.specs.Kept.{coming_as};

use crate::checkpoints::Checkpoints;
use crate::former::{Former, NodeLists};
use crate::nodes::{NodeRefusal, NodeRun, unchanged_run};
use crate::sources::{SourceTail, before_changes, source_tail};
use crate::tails::edit_tail;
use mq_alike::{alike_is_first, sequences_stay};
use mq_arrivals::Arriving;
use mq_edits::FormerRows;
use mq_engine::{RunFault, core_laws};
use mq_redo::counted;
use mq_scan::cut;
use std::alloc::Global;
use std::mem::replace;

/// What becomes of the kept lists of a source.
#[derive(Drop)]
pub enum Edited {
    /// They are edited: this is what the source gives.
    Done(NodeRun),
    /// They are as they were, because less than half of the visits would stay, or the lists would become shorter.
    AsBefore(NodeLists),
}

/// Returns what a source gives, given the lists that are kept of it from before edits of rows. Does nothing if less
/// than half of the visits come before the rows that may have changed, or if fewer jobs come now, because that would
/// save little. Fails if a visit departs after the bound or memory runs out; then the lists are as they were.
pub fn source_run(
    alloc: Global,
    arriving: &Arriving,
    former: &FormerRows,
    number: u32,
    lists: NodeLists,
) -> Result<Edited, NodeRefusal>
    requires source { IsNodeOf arriving.now.plan.now number Source }
    requires read { IsReadFor arriving.now.plan.now.net arriving.now.rows.now }
    requires former { IsFormerOf former.now arriving.now.rows.now }
    requires earlier { IsReadFor arriving.now.plan.now.net (rows_before former.now arriving.now.rows.now) }
    requires kept { IsNodeKept arriving.now.plan.now (rows_before former.now arriving.now.rows.now) arriving.now.block number lists }
    requires block { 1 ≤ arriving.now.block }
    ensures gives { IfOk result (IsEdited arriving.now (rows_before former.now arriving.now.rows.now) lists number) }
    ensures cause { IfErr result (λ refusal. IsFaultAt arriving.now.plan.now arriving.now.rows.now number refusal.fault) }
    ensures back { IfErr result (λ refusal. refusal.lists ≡ lists) }
{
    core_laws();
    alike_is_first();
    sequences_stay();
    let visits = lists.visits.job.len();
    let first = before_changes(
        former,
        arriving.rows,
        number,
        lists.visits.arrive.as_slice(),
    );
    if first < visits / 2 {
        return Ok(Edited::AsBefore(lists));
    }
    let Ok(tail) = source_tail(alloc, former, arriving.rows, number, &lists, first) else {
        return Err(NodeRefusal {
            fault: RunFault::Memory,
            lists,
        });
    };
    let count = tail.from + tail.arrivals.job.len();
    if count < visits {
        drop(tail);
        return Ok(Edited::AsBefore(lists));
    }
    if tail.from == visits && count == visits {
        drop(tail);
        let kind = &arriving.plan.net.nodes.get(number as usize).kind;
        return Ok(Edited::Done(unchanged_run(kind, lists, arriving.block)));
    }
    match edited_run(alloc, arriving, number, lists, tail) {
        Ok(gives) => Ok(Edited::Done(gives)),
        Err(refusal) => Err(refusal),
    }
}

// Returns what a source gives, whose last visits are these.
fn edited_run(
    alloc: Global,
    arriving: &Arriving,
    number: u32,
    lists: NodeLists,
    tail: SourceTail,
) -> Result<NodeRun, NodeRefusal>
    requires source { IsNodeOf arriving.now.plan.now number Source }
    requires kept { (old : TheRows) × IsReadFor arriving.now.plan.now.net old × IsNodeKept arriving.now.plan.now old arriving.now.block number lists × (tail.from ≡ alike Source (coming_of old lists.visits) (coming_as arriving.now.rows.now (coming_behind tail.from lists.visits tail.arrivals.job tail.arrivals.time))) }
    requires tail { IsTailFor arriving.now.plan.now arriving.now.rows.now number lists tail.from tail.arrivals.job tail.arrivals.time tail.arrivals.time }
    requires block { 1 ≤ arriving.now.block }
    ensures gives { (old : TheRows) → IsReadFor arriving.now.plan.now.net old → IsNodeKept arriving.now.plan.now old arriving.now.block number lists → tail.from ≡ alike Source (coming_of old lists.visits) (coming_as arriving.now.rows.now (coming_behind tail.from lists.visits tail.arrivals.job tail.arrivals.time)) → IfOk result (IsNodeRun arriving.now (Some old) lists number) }
    ensures cause { IfErr result (λ refusal. IsFaultAt arriving.now.plan.now arriving.now.rows.now number refusal.fault) }
    ensures back { IfErr result (λ refusal. refusal.lists ≡ lists) }
{
    let mut lists = lists;
    let visits = lists.visits.job.len() as u32;
    let blocks = cut((tail.from + tail.arrivals.job.len()) as u32, arriving.block);
    let kind = &arriving.plan.net.nodes.get(number as usize).kind;
    let (again, all) = counted(kind, &blocks, tail.from as u32, visits);
    let jobs = tail.arrivals.job.as_slice();
    let times = tail.arrivals.time.as_slice();
    let edited = edit_tail(
        alloc,
        arriving.plan,
        number,
        &mut lists,
        tail.from,
        jobs,
        times,
        times,
    );
    drop(tail);
    match edited {
        Ok(former) => {
            let checkpoints = replace(&mut lists.checkpoints, Checkpoints::Nothing);
            Ok(NodeRun {
                lists,
                former: Former::Tail(former, checkpoints),
                again: again as u64,
                all: all as u64,
            })
        }
        Err(fault) => Err(NodeRefusal { fault, lists }),
    }
}
