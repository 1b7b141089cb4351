// The three files: each is read and checked.
ghost use Rattle.std.specs.Prelude.{◌≡◌, ◌≤◌, ◌<◌, false, ◌^◌, [], ◌∷◌, IfErr, IfOk, IfSome, IsErrOf, length, None, Some};
ghost use Rattle.mq_core.specs.Theorems.{IsReadFor};
ghost use Rattle.mq_edits.specs.Edited.{AreEditsFor};
ghost use Rattle.mq_edits.specs.Edits.{edits_fault, edits_in};
ghost use Rattle.mq_model.specs.Model.{model_fault};
ghost use Rattle.mq_model.specs.NetworkOf.{network_in};
ghost use Rattle.mq_outside.specs.Reading.{ReadsNames, has_failed};
ghost use Rattle.mq_trace.specs.Trace.{rows_in, trace_fault};
ghost use Rattle.mq_edit.specs.Ends.{RefusesEdits, RefusesModel, RefusesTrace, stops_unread};

use crate::outcome::EditOutcome;
use mq_base::List;
use mq_core::{Network, Plan, Rows};
use mq_edits::{Edit, EditFault, read_edits};
use mq_model::{ModelFault, read_model};
use mq_outside::{FileFault, Files};
use mq_trace::{TraceFault, read_trace};
use std::alloc::Global;
use std::thread::Threads;

// The limit of a model's text, in bytes.
const MODEL_LIMIT: u64 = 65_536;

// The limit of a trace's text, in bytes.
const TRACE_LIMIT: u64 = 134_217_728;

// The limit of a text of edits, in bytes.
const EDITS_LIMIT: u64 = 16_777_216;

/// The number of workers that read a trace and compute the runs.
pub const WORKERS: u32 = 4;

// Reads the file of this name, up to a limit in bytes.
fn read_named<F: Files>(
    alloc: Global,
    name: &str,
    limit: u64,
    files: &mut F,
) -> Result<Vec<u8>, FileFault>
    ensures reads { ReadsNames F.told F.is_sure F.reads F.faults files.old files.new (name.now ∷ []) (has_failed result) }
    ensures told { IfOk result (λ bytes. IfSome (F.told files.old name.now) (λ told. bytes.items ≡ told)) }
    ensures too_long { IsErrOf result FileFault.TooLong → IfSome (F.told files.old name.now) (λ bytes. limit < length bytes) }
{
    let mut bytes = Vec::new(alloc);
    match files.read(name, limit, &mut bytes) {
        Ok(()) => Ok(bytes),
        Err(fault) => {
            drop(bytes);
            Err(fault)
        }
    }
}

// Checks the bytes of a model.
fn judge_model(alloc: Global, bytes: &[u8]) -> Result<Plan, EditOutcome>
    ensures accepted { IfOk result (λ plan. (model_fault bytes.now ≡ None) × (plan.net ≡ network_in bytes.now)) }
    ensures refused { IfErr result (λ outcome. RefusesModel (Some bytes.now) outcome) }
    ensures read { stops_unread result ≡ false }
{
    match read_model(alloc, bytes) {
        Ok(plan) => Ok(plan),
        Err(ModelFault::Memory) => Err(EditOutcome::Memory),
        Err(fault) => Err(EditOutcome::Model(fault)),
    }
}

// Checks the bytes of a trace for the network of a plan.
fn judge_trace<R: Threads + Sync>(
    rt: &R,
    alloc: Global,
    plan: &Plan,
    bytes: &[u8],
) -> Result<Rows, EditOutcome>
    ensures good { IfOk result (λ rows. IsReadFor plan.now.net rows) }
    ensures accepted { IfOk result (λ rows. (trace_fault plan.now.net bytes.now ≡ None) × (rows ≡ rows_in plan.now.net bytes.now)) }
    ensures refused { IfErr result (λ outcome. RefusesTrace plan.now.net (Some bytes.now) outcome) }
    ensures read { stops_unread result ≡ false }
{
    match read_trace(rt, alloc, WORKERS, bytes, &plan.net) {
        Ok(rows) => Ok(rows),
        Err(TraceFault::Memory) => Err(EditOutcome::Memory),
        Err(fault) => Err(EditOutcome::Trace(fault)),
    }
}

// Checks the bytes of edits for the network of a plan and this number of rows.
fn judge_edits(
    alloc: Global,
    plan: &Plan,
    rows: u32,
    bytes: &[u8],
) -> Result<List<Edit>, EditOutcome>
    requires { rows ≤ 1048576 }
    ensures good { IfOk result (λ edits. AreEditsFor plan.now.net rows edits) }
    ensures accepted { IfOk result (λ edits. (edits_fault plan.now.net rows bytes.now ≡ None) × (edits ≡ edits_in plan.now.net bytes.now)) }
    ensures refused { IfErr result (λ outcome. RefusesEdits plan.now.net rows (Some bytes.now) outcome) }
    ensures read { stops_unread result ≡ false }
{
    match read_edits(alloc, bytes, &plan.net, rows) {
        Ok(edits) => Ok(edits),
        Err(EditFault::Memory) => Err(EditOutcome::Memory),
        Err(fault) => Err(EditOutcome::Edits(fault)),
    }
}

/// Reads and checks the model of this name. Fails with the outcome of the call.
pub fn accept_model<F: Files>(alloc: Global, name: &str, files: &mut F) -> Result<Plan, EditOutcome>
    ensures reads { ReadsNames F.told F.is_sure F.reads F.faults files.old files.new (name.now ∷ []) (stops_unread result) }
    ensures accepted { IfOk result (λ plan. IfSome (F.told files.old name.now) (λ bytes. (model_fault bytes ≡ None) × (plan.net ≡ network_in bytes))) }
    ensures refused { IfErr result (λ outcome. RefusesModel (F.told files.old name.now) outcome) }
{
    match read_named(alloc, name, MODEL_LIMIT, files) {
        Ok(bytes) => judge_model(alloc, &bytes),
        Err(FileFault::Failed) => Err(EditOutcome::ReadFault { file: 0 }),
        Err(FileFault::TooLong) => Err(EditOutcome::Model(ModelFault::TooLong)),
        Err(FileFault::Memory) => Err(EditOutcome::Memory),
    }
}

/// Reads the trace of this name, and checks it for the network of a plan. Fails with the outcome of the call.
pub fn accept_trace<R: Threads + Sync, F: Files>(
    rt: &R,
    alloc: Global,
    plan: &Plan,
    name: &str,
    files: &mut F,
) -> Result<Rows, EditOutcome>
    ensures reads { ReadsNames F.told F.is_sure F.reads F.faults files.old files.new (name.now ∷ []) (stops_unread result) }
    ensures good { IfOk result (λ rows. IsReadFor plan.now.net rows) }
    ensures accepted { IfOk result (λ rows. IfSome (F.told files.old name.now) (λ bytes. (trace_fault plan.now.net bytes ≡ None) × (rows ≡ rows_in plan.now.net bytes))) }
    ensures refused { IfErr result (λ outcome. RefusesTrace plan.now.net (F.told files.old name.now) outcome) }
{
    match read_named(alloc, name, TRACE_LIMIT, files) {
        Ok(bytes) => judge_trace(rt, alloc, plan, &bytes),
        Err(FileFault::Failed) => Err(EditOutcome::ReadFault { file: 1 }),
        Err(FileFault::TooLong) => Err(EditOutcome::Trace(TraceFault::TooLong)),
        Err(FileFault::Memory) => Err(EditOutcome::Memory),
    }
}

/// Reads the edits of this name, and checks them for the network of a plan and this number of rows, at most 1,048,576.
/// Fails with the outcome of the call.
pub fn accept_edits<F: Files>(
    alloc: Global,
    plan: &Plan,
    rows: u32,
    name: &str,
    files: &mut F,
) -> Result<List<Edit>, EditOutcome>
    requires { rows ≤ 1048576 }
    ensures reads { ReadsNames F.told F.is_sure F.reads F.faults files.old files.new (name.now ∷ []) (stops_unread result) }
    ensures good { IfOk result (λ edits. AreEditsFor plan.now.net rows edits) }
    ensures accepted { IfOk result (λ edits. IfSome (F.told files.old name.now) (λ bytes. (edits_fault plan.now.net rows bytes ≡ None) × (edits ≡ edits_in plan.now.net bytes))) }
    ensures refused { IfErr result (λ outcome. RefusesEdits plan.now.net rows (F.told files.old name.now) outcome) }
{
    match read_named(alloc, name, EDITS_LIMIT, files) {
        Ok(bytes) => judge_edits(alloc, plan, rows, &bytes),
        Err(FileFault::Failed) => Err(EditOutcome::ReadFault { file: 2 }),
        Err(FileFault::TooLong) => Err(EditOutcome::Edits(EditFault::TooLong)),
        Err(FileFault::Memory) => Err(EditOutcome::Memory),
    }
}
