// One model over the trace.
ghost use Rattle.std.specs.Prelude.{◌≡◌, ◌≢◌, ◌++◌, IfOk, OnOk};
ghost use Rattle.mq_sweep.specs.Book.{IsEntryOf};

use crate::Entry;
use mq_base::{List, OutOfMemory};
use mq_outside::MemSink;
use mq_top::{Outcome, simulate_bytes};
use std::alloc::Global;
use std::thread::Threads;

// The number of jobs in a block of a station.
const BLOCK: u32 = 4_096;

// The form of the report.
const FORM: u8 = 2;

// Returns both of these, one after the other.
fn joined(alloc: Global, first: &[u8], second: &[u8]) -> Result<List<u8>, OutOfMemory>
    ensures { IfOk result (λ both. both ≡ first.now ++ second.now) }
{
    let mut both = Vec::with_capacity(alloc, first.len())?;
    both.extend_from_slice(first)?;
    both.extend_from_slice(second)?;
    Ok(List::from_vec(both))
}

// Returns what a run with this outcome wrote to two sinks in memory, one after the other. It fails if the run or a sink ran out
// of memory. It only borrows its arguments, so that its exits drop none of them.
fn text_of(
    alloc: Global,
    outcome: &Outcome,
    out: &MemSink,
    err: &MemSink,
) -> Result<List<u8>, OutOfMemory>
    ensures ran { OnOk result (outcome.now ≢ Outcome.Memory) }
    ensures out_calm { OnOk result (out.now.faults ≡ 0) }
    ensures err_calm { OnOk result (err.now.faults ≡ 0) }
    ensures text { IfOk result (λ text. text ≡ out.now.taken ++ err.now.taken) }
{
    match outcome {
        Outcome::Memory => return Err(OutOfMemory),
        _ => {}
    }
    if out.faults() != 0 || err.faults() != 0 {
        return Err(OutOfMemory);
    }
    joined(alloc, out.bytes(), err.bytes())
}

/// Returns the result of running a model over a trace with one worker, form 2 of the report and no job lines. It fails if
/// memory runs out, which a fault counted by one of the two sinks in memory shows too.
pub fn run_scenario<R: Threads + Sync>(
    rt: &R,
    alloc: Global,
    number: u32,
    model: &[u8],
    trace: &[u8],
) -> Result<Entry, OutOfMemory>
    ensures number { IfOk result (λ entry. entry.number ≡ number) }
    ensures model { IfOk result (λ entry. entry.model ≡ model.now) }
    ensures right { IfOk result (λ entry. IsEntryOf trace.now entry) }
{
    let mut out = MemSink::new(alloc, usize::MAX, Vec::new(alloc));
    let mut err = MemSink::new(alloc, usize::MAX, Vec::new(alloc));
    let outcome = simulate_bytes(
        rt, alloc, model, trace, 1, BLOCK, FORM, false, &mut out, &mut err,
    );
    let Ok(text) = text_of(alloc, &outcome, &out, &err) else {
        drop(out);
        drop(err);
        return Err(OutOfMemory);
    };
    drop(out);
    drop(err);
    let Ok(model) = Vec::from_slice(alloc, model) else {
        drop(text);
        return Err(OutOfMemory);
    };
    Ok(Entry {
        number,
        model: List::from_vec(model),
        status: outcome.status(),
        text,
    })
}
