// The call that the program makes, stage by stage.
ghost use Rattle.std.specs.Prelude.{◌≡◌, ◌≢◌, ◌↔◌, ◌+◌, ◌<◌, ◌≤◌, [], ◌∷◌, ℕ, List, false, true, take, length, IfErr, IfOk, IfSome, None, OnErr, OnOk, Some};
ghost use Rattle.mq_base.specs.Text.{texts};
ghost use Rattle.mq_core.specs.Theorems.{IsReadFor};
ghost use Rattle.mq_edits.specs.Edited.{AreEditsFor, edited_rows};
ghost use Rattle.mq_engine.specs.Answer.{IsCause};
ghost use Rattle.mq_alike.specs.Again.{again, all_blocks};
ghost use Rattle.mq_kept.specs.Keeping.{IsKeptRun};
ghost use Rattle.mq_model.specs.Model.{model_fault};
ghost use Rattle.mq_model.specs.NetworkOf.{network_in};
ghost use Rattle.mq_model.specs.declared.fault.ModelFault.{ModelFault};
ghost use Rattle.mq_outcome.specs.Lines.{PutsLine};
ghost use Rattle.mq_outside.specs.Reading.{IsReadCount, ReadsFirst, ReadsNames, is_unread};
ghost use Rattle.mq_outside.specs.Writing.{Writes};
ghost use Rattle.mq_trace.specs.Trace.{trace_fault};
ghost use Rattle.mq_trace.specs.declared.fault.TraceFault.{TraceFault};
ghost use Rattle.mq_edits.specs.declared.fault.EditFault.{EditFault};
ghost use Rattle.mq_edit.specs.Answer.{answer_of, edited_report, edits_told, refused_by, run_answer, trace_told};
ghost use Rattle.mq_edit.specs.Ends.{Ends, IsBehindModel, IsBehindTrace, IsOfRun, IsReportOf, IsText, reading_of, writing_of};
ghost use Rattle.mq_edit.specs.Lines.{line_text, name_of as name_of_outcome};
ghost use Rattle.mq_edit.specs.Words.{name_at, names_read, refuses_words};

use crate::files::{WORKERS, accept_edits, accept_model, accept_trace};
use crate::line::{name_of, put_line};
use crate::outcome::EditOutcome;
use crate::words::refuses_words;
use crate::write::write_kept;
use mq_base::{List, Steps};
use mq_core::{Plan, Rows, runs_are_of_networks};
use mq_edits::{Edit, EditFault};
use mq_kept::{Kept, Redone, RunFault};
use mq_model::ModelFault;
use mq_outside::{Files, Sink};
use mq_trace::TraceFault;
use std::alloc::Global;
use std::marker::Brand;
use std::sync::ledger::{Blank, Ledger};
use std::thread::Threads;

// The number of jobs in a block.
const BLOCK: u32 = 4096;

// Returns how a call ends whose run is refused, before or after the edits.
fn refused_run(edited: bool, fault: RunFault) -> EditOutcome
    ensures { result ≡ refused_by edited fault }
{
    match fault {
        RunFault::Over(fault) => EditOutcome::Over { edited, fault },
        RunFault::Past(fault) => EditOutcome::Past { edited, fault },
        RunFault::Memory => EditOutcome::Memory,
    }
}

// Makes edits in a kept run, whose steps a new counter counts.
fn edit_kept<R: Threads + Sync, L: Ledger>(
    rt: &R,
    alloc: Global,
    kept: &mut Kept,
    edits: &List<Edit>,
    blank: Blank,
) -> Result<Redone, RunFault>
    requires edits { AreEditsFor kept.old.plan.net (length kept.old.rows.source) edits.now }
    requires name { blank.name ≡ L.name }
    requires parts { blank.parts ≡ L.parts }
    requires some { 0 < blank.parts }
    ensures plan { kept.new.plan ≡ kept.old.plan }
    ensures rows { OnOk result (kept.new.rows ≡ edited_rows kept.old.rows edits.now) }
    ensures kept { IsKeptRun kept.new }
    ensures redone { IfOk result (λ redone. redone ≡ record { again = again kept.old.plan.net kept.old.rows (edited_rows kept.old.rows edits.now) kept.old.block; all = all_blocks kept.old.plan.net (edited_rows kept.old.rows edits.now) kept.old.block }) }
    ensures cause { IfErr result (λ fault. IsCause kept.old.plan (edited_rows kept.old.rows edits.now) fault) }
{
    let mut steps = Steps::<L>::new(blank);
    kept.edit(rt, alloc, edits, &mut steps)
}

// Runs a plan over its rows, makes edits in them, and writes the report of the edited rows.
fn edit_rows<R: Threads + Sync, O: Sink>(
    rt: &R,
    alloc: Global,
    plan: &Plan,
    rows: Rows,
    edits: &List<Edit>,
    out: &mut O,
) -> EditOutcome
    requires read { IsReadFor plan.now.net rows }
    requires edits { AreEditsFor plan.now.net (length rows.source) edits.now }
    ensures ends { Ends (run_answer plan.now.net rows (edited_rows rows edits.now)) result }
    ensures of_run { IsOfRun result }
    ensures writes { Writes O.taken O.sure O.faults out.old out.new (writing_of result) (λ text. text ≡ edited_report plan.now.net rows (edited_rows rows edits.now)) }
{
    runs_are_of_networks();
    let mut kept = match Kept::start(rt, alloc, plan, rows, WORKERS, BLOCK) {
        Ok(kept) => kept,
        Err(fault) => return refused_run(false, fault),
    };
    match edit_kept::<R, Brand>(rt, alloc, &mut kept, edits, Blank::new(1)) {
        Ok(redone) => {
            let outcome = write_kept(rt, alloc, plan, &kept, redone, out);
            drop(kept);
            outcome
        }
        Err(fault) => {
            drop(kept);
            refused_run(true, fault)
        }
    }
}

// Reads the edits of this name for a plan and its rows, makes them, and writes the report.
fn edit_read<R: Threads + Sync, F: Files, O: Sink>(
    rt: &R,
    alloc: Global,
    plan: &Plan,
    rows: Rows,
    edits: &str,
    files: &mut F,
    out: &mut O,
) -> EditOutcome
    requires read { IsReadFor plan.now.net rows }
    ensures ends { IfSome (edits_told plan.now.net rows (F.told files.old edits.now)) (λ answer. Ends answer result) }
    ensures behind { IsBehindTrace result }
    ensures reads { ReadsNames F.told F.is_sure F.reads F.faults files.old files.new (edits.now ∷ []) (is_unread (reading_of result)) }
    ensures writes { Writes O.taken O.sure O.faults out.old out.new (writing_of result) (λ text. IfSome (edits_told plan.now.net rows (F.told files.old edits.now)) (IsText text)) }
{
    match accept_edits(alloc, plan, rows.source.len() as u32, edits, files) {
        Ok(edits) => {
            let outcome = edit_rows(rt, alloc, plan, rows, &edits, out);
            drop(edits);
            outcome
        }
        Err(outcome) => {
            drop(rows);
            outcome
        }
    }
}

// Reads the trace and the edits of these names for a plan, runs it, makes the edits, and writes the report.
fn run_edits<R: Threads + Sync, F: Files, O: Sink>(
    rt: &R,
    alloc: Global,
    plan: &Plan,
    trace: &str,
    edits: &str,
    files: &mut F,
    out: &mut O,
) -> EditOutcome
    ensures ends { IfSome (trace_told plan.now.net (F.told files.old trace.now) (F.told files.old edits.now)) (λ answer. Ends answer result) }
    ensures behind { IsBehindModel result }
    ensures trace { (fault : TraceFault) → result ≡ EditOutcome.Trace fault → IfSome (F.told files.old trace.now) (λ bytes. trace_fault plan.now.net bytes ≡ Some fault) }
    ensures reads { (n : ℕ) × IsReadCount (reading_of result) 3 (n + 2) × ReadsNames F.told F.is_sure F.reads F.faults files.old files.new (trace.now ∷ take n (edits.now ∷ [])) (is_unread (reading_of result)) }
    ensures writes { Writes O.taken O.sure O.faults out.old out.new (writing_of result) (λ text. IfSome (trace_told plan.now.net (F.told files.old trace.now) (F.told files.old edits.now)) (IsText text)) }
{
    match accept_trace(rt, alloc, plan, trace, files) {
        Ok(rows) => edit_read(rt, alloc, plan, rows, edits, files, out),
        Err(outcome) => outcome,
    }
}

/// Reads the model, the trace and the edits that the three words name, in this order. Runs the network over the trace,
/// makes the edits in that kept run, and writes the report of the edited trace, in form 2 and without job lines. The
/// last line has two numbers: of the nodes whose blocks are counted, the blocks of 4,096 jobs from the first difference
/// on, and all blocks. The words are those after the program's name. There are 4 workers.
///
/// The call ends with the first of these: `Usage`; the model's fault, the trace's, that of the edits; the refusal of
/// the run over the trace, then of the run over the edited trace. A file that can't be read ends it before that file is
/// checked, and it also ends if memory runs out or the report can't be written.
///
/// Every outcome but `Done` puts one line on `err`, whose faults change no outcome. `out` gains the whole text with
/// `Done`, a first part of it with `WriteFault`, and nothing otherwise, so memory can run out only before the first
/// byte is written.
pub fn edit_trace<R: Threads + Sync, F: Files, O: Sink, E: Sink>(
    rt: &R,
    alloc: Global,
    words: &[&str],
    files: &mut F,
    out: &mut O,
    err: &mut E,
) -> EditOutcome
    // The call ends with the answer of the definitions, as far as the contents of the files are known, or with a device
    // fault or for lack of memory.
    ensures ends { refuses_words (texts words.now) ≡ false → IfSome (answer_of (F.told files.old) (texts words.now)) (λ answer. Ends answer result) }

    // `Usage` comes exactly if the words are refused. A fault of the model or of the trace is theirs, whatever is known
    // of later files.
    ensures usage { (result ≡ EditOutcome.Usage) ↔ (refuses_words (texts words.now) ≡ true) }
    ensures model { (fault : ModelFault) → result ≡ EditOutcome.Model fault → IfSome (F.told files.old (name_at (texts words.now) 0)) (λ bytes. model_fault bytes ≡ Some fault) }
    ensures trace { (fault : TraceFault) → result ≡ EditOutcome.Trace fault → IfSome (F.told files.old (name_at (texts words.now) 0)) (λ model.
        IfSome (F.told files.old (name_at (texts words.now) 1)) (λ bytes. trace_fault (network_in model) bytes ≡ Some fault)) }
    ensures never { (result ≢ EditOutcome.Model ModelFault.Memory) × (result ≢ EditOutcome.Trace TraceFault.Memory) × (result ≢ EditOutcome.Edits EditFault.Memory) }

    // What is read of the files, in order, and what the two outputs gain. A fault of a file or of `out` is counted if and
    // only if the call ends with it.
    ensures reads { ReadsFirst F.told F.is_sure F.reads F.faults files.old files.new (names_read (texts words.now)) (reading_of result) }
    ensures writes { Writes O.taken O.sure O.faults out.old out.new (writing_of result) (IsReportOf (F.told files.old) (texts words.now)) }
    ensures line { (name : List ℕ) × PutsLine E.taken E.sure E.faults err.old err.new (line_text name result) ×
        IfSome (F.told files.old (name_at (texts words.now) 0)) (λ model. name ≡ name_of_outcome (network_in model) result) }
{
    if refuses_words(words) {
        let outcome = EditOutcome::Usage;
        put_line(err, &[], &outcome);
        return outcome;
    }
    match accept_model(alloc, words[0], files) {
        Ok(plan) => {
            let outcome = run_edits(rt, alloc, &plan, words[1], words[2], files, out);
            put_line(err, name_of(&plan.net, &outcome), &outcome);
            drop(plan);
            outcome
        }
        Err(outcome) => {
            put_line(err, &[], &outcome);
            outcome
        }
    }
}
