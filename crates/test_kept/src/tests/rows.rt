// Rows that are edited in place and put back, compared with rows that are edited in a copy.
ghost use Rattle.std.specs.Prelude.{length};
ghost use Rattle.mq_core.specs.Theorems.{IsReadFor};
ghost use Rattle.mq_core.specs.declared.model.Network.{Network};
ghost use Rattle.mq_edits.specs.Edited.{AreEditsFor};

use super::cases::{MODEL, TRACE};
use super::kept::plan_of;
use mq_base::{List, OutOfMemory};
use mq_core::{Plan, Rows};
use mq_edits::{Edit, edit_rows, edited, read_edits};
use mq_trace::read_trace;
use std::alloc::Global;
use std::test::Fail;
use std::thread::Threads;

// Whether rows of one column have these source nodes, times and values.
fn are(rows: &Rows, sources: &[u32], times: &[u64], values: &[u64]) -> bool {
    rows.source.as_slice() == sources
        && rows.time.as_slice() == times
        && rows.demands.len() == 1
        && rows.demands.get(0).as_slice() == values
}

fn are_edited(rows: &Rows) -> bool {
    are(rows, &[0, 0, 0, 0], &[0, 5, 2, 9], &[4, 7, 3, 8])
}

fn are_edited_in_a_copy(alloc: Global, rows: &Rows, edits: &List<Edit>) -> Result<bool, OutOfMemory>
    requires { (net : Network) × IsReadFor net rows.now × AreEditsFor net (length rows.now.source) edits.now }
{
    let copy = edited(alloc, rows, edits)?;
    let so = are_edited(&copy);
    drop(copy);
    Ok(so)
}

// Whether editing in place gives the same rows, and putting back then gives the rows as they were.
fn come_back(alloc: Global, rows: &mut Rows, edits: &List<Edit>) -> Result<bool, OutOfMemory>
    requires { (net : Network) × IsReadFor net rows.old × AreEditsFor net (length rows.old.source) edits.now }
{
    let former = edit_rows(alloc, rows, edits)?;
    let so = former.from == 1 && are(&former.rows, &[0, 0], &[1, 2], &[1, 3]) && are_edited(rows);
    former.put_back(alloc, rows);
    drop(former);
    Ok(so && are(rows, &[0, 0, 0], &[0, 1, 2], &[4, 1, 3]))
}

// Whether this holds for rows that were read for a plan.
fn edits_come_back(alloc: Global, plan: &Plan, rows: &mut Rows) -> Result<bool, OutOfMemory>
    requires { IsReadFor plan.now.net rows.old }
{
    let text = b"add src 3 2\nset 2 src 5 7\nset 4 src 9 8";
    let Ok(edits) = read_edits(alloc, text, &plan.net, rows.source.len() as u32) else {
        return Err(OutOfMemory);
    };
    let copied = are_edited_in_a_copy(alloc, rows, &edits);
    let so = come_back(alloc, rows, &edits);
    drop(edits);
    Ok(copied? && so?)
}

// Whether this holds for the rows of the trace.
fn rows_come_back<R: Threads + Sync>(
    rt: &R,
    alloc: Global,
    plan: &Plan,
) -> Result<bool, OutOfMemory> {
    match read_trace(rt, alloc, 1, TRACE, &plan.net) {
        Ok(mut rows) => {
            let so = edits_come_back(alloc, plan, &mut rows);
            drop(rows);
            so
        }
        Err(_) => Err(OutOfMemory),
    }
}

fn all_come_back<R: Threads + Sync>(rt: &R, alloc: Global) -> Result<bool, OutOfMemory> {
    let plan = plan_of(alloc, MODEL)?;
    let so = rows_come_back(rt, alloc, &plan);
    drop(plan);
    so
}

#[test]
fn edited_rows_come_back(rt: HostRuntime) -> Result<(), Fail> {
    assert!(rt; all_come_back(&rt, rt.alloc())?);
    Ok(())
}
