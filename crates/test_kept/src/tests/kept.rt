// Runs that are kept and edited. A text that can't be read is reported as out of memory.
ghost use Rattle.std.specs.Prelude.{◌≡◌, ◌<◌, ◌≤◌, IfOk};

use super::same::same_run;
use mq_base::{OutOfMemory, Steps};
use mq_core::Plan;
use mq_crew::Open;
use mq_edits::read_edits;
use mq_engine::run;
use mq_kept::{Kept, Redone, RunFault};
use mq_model::read_model;
use mq_trace::read_trace;
use std::alloc::Global;
use std::marker::Brand;
use std::sync::ledger::{Blank, Ledger};
use std::thread::Threads;

/// Reads a model.
pub fn plan_of(alloc: Global, model: &[u8]) -> Result<Plan, OutOfMemory> {
    match read_model(alloc, model) {
        Ok(plan) => Ok(plan),
        Err(_) => Err(OutOfMemory),
    }
}

/// Runs a trace with `workers` workers, in blocks of `block` jobs.
pub fn kept_of<'p, R: Threads + Sync>(
    rt: &R,
    alloc: Global,
    plan: &'p Plan,
    trace: &[u8],
    workers: u32,
    block: u32,
) -> Result<Kept<'p>, RunFault>
    requires some { 1 ≤ workers }
    requires most { workers ≤ 64 }
    requires block { 64 ≤ block }
    requires large { block ≤ 65536 }
    ensures plan { IfOk result (λ kept. kept.plan ≡ plan.now) }
{
    match read_trace(rt, alloc, 1, trace, &plan.net) {
        Ok(rows) => Kept::start(rt, alloc, plan, rows, workers, block),
        Err(_) => Err(RunFault::Memory),
    }
}

// Makes the edits of a text in a kept run, whose steps a new counter counts.
fn edit_with<R: Threads + Sync, L: Ledger>(
    rt: &R,
    alloc: Global,
    plan: &Plan,
    kept: &mut Kept,
    text: &[u8],
    blank: Blank,
) -> Result<Redone, RunFault>
    requires plan { kept.old.plan ≡ plan.now }
    requires name { blank.name ≡ L.name }
    requires parts { blank.parts ≡ L.parts }
    requires some { 0 < blank.parts }
    ensures plan { kept.new.plan ≡ kept.old.plan }
{
    // The type of the run ensures that its rows are read for the plan.
    let _ = kept.run();
    let edits = match read_edits(alloc, text, &plan.net, kept.rows().source.len() as u32) {
        Ok(edits) => edits,
        Err(_) => return Err(RunFault::Memory),
    };
    let mut steps = Steps::<L>::new(blank);
    let made = kept.edit(rt, alloc, &edits, &mut steps);
    drop(edits);
    made
}

/// Makes the edits of a text in a kept run, with a counter that nothing reads.
pub fn edited<R: Threads + Sync>(
    rt: &R,
    alloc: Global,
    plan: &Plan,
    kept: &mut Kept,
    text: &[u8],
) -> Result<Redone, RunFault>
    requires plan { kept.old.plan ≡ plan.now }
    ensures plan { kept.new.plan ≡ kept.old.plan }
{
    edit_with::<R, Brand>(rt, alloc, plan, kept, text, Blank::new(1))
}

/// Returns whether all visits, fates and streams of a kept run are those of a whole run over its rows.
pub fn is_as_from_nothing<R: Threads + Sync>(
    rt: &R,
    alloc: Global,
    plan: &Plan,
    kept: &Kept,
) -> bool
    requires plan { kept.now.plan ≡ plan.now }
{
    let found = kept.run();
    match run(rt, alloc, plan, kept.rows(), 1, 4096, &Open) {
        Ok(whole) => {
            let so = same_run(found, &whole);
            drop(whole);
            so
        }
        Err(_) => false,
    }
}
