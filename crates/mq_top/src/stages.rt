// The call that the program makes, stage by stage.
ghost use Rattle.std.specs.Prelude.{◌≡◌, ◌≢◌, ◌⊎◌, ◌≤◌, ℕ, List, Bool, true, false, IfOk, IfErr, IfSome, IsTrue, is_some, Some, None, [], ◌∷◌};
ghost use Rattle.mq_outside.specs.Reading.{ReadsFirst, ReadsNames, is_unread};
ghost use Rattle.mq_outside.specs.Writing.{Writes};
ghost use Rattle.mq_base.specs.Text.{texts};
ghost use Rattle.mq_core.specs.NetworkRun.{refusal_in};
ghost use Rattle.mq_core.specs.Theorems.{IsReadFor};
ghost use Rattle.mq_gen.specs.Made.{made_model, made_trace};
ghost use Rattle.mq_model.specs.Model.{model_fault};
ghost use Rattle.mq_model.specs.NetworkOf.{network_in};
ghost use Rattle.mq_core.specs.Sequences.{IsRunOf};
ghost use Rattle.mq_counts.specs.Counts.{AreCounts};
ghost use Rattle.mq_report.specs.Text.{report_in};
ghost use Rattle.mq_stats.specs.RunNumbers.{HasFewVisits};
ghost use Rattle.mq_trace.specs.Trace.{trace_fault, rows_in};
ghost use Rattle.mq_top.specs.Answer.{answer, answer_over, run_answer, wanted_by};
ghost use Rattle.mq_top.specs.Answer.Answer.{Reported};
ghost use Rattle.mq_top.specs.Ends.{Ends, IsLate, IsOfMade, IsReportOf, IsText, RefusesCall, RefusesModel, RefusesTrace, names_read, reading_of, stops_unread, takings, writing_of};
ghost use Rattle.mq_outcome.specs.Lines.{PutsLine, line_text, name_of as name_of_outcome};
ghost use Rattle.mq_words.specs.Words.{Asks, Makes, Names, refuses_words, usage_fault};

use mq_core::{Plan, Rows, Run, runs_are_of_networks};
use mq_counts::{Counts, counts_of_run};
use mq_crew::{Crew, Gate, Open};
use mq_engine::{RunFault, run, run_counted};
use mq_gen::{made, made_inputs_are_accepted};
use mq_model::{ModelFault, read_model};
use mq_outcome::{Outcome, name_of, put_line};
use mq_outside::{FileFault, Files, Sink};
use mq_report::report;
use mq_stats::runs_have_few_visits;
use mq_trace::{TraceFault, read_trace, take_trace};
use mq_words::{Settings, Subject, UsageFault, WordsFault, settings_of};
use std::alloc::Global;
use std::thread::Threads;

// The most bytes in the text of a model.
const MODEL_LIMIT: u64 = 65_536;

// The most bytes in the text of a trace.
const TRACE_LIMIT: u64 = 134_217_728;

// Rows of at most this many blocks are left to one worker: starting threads would take longer than they save.
const FEW_BLOCKS: u64 = 32;

// If blocks of fewer jobs than this are asked for, all workers share them, however few the rows are.
const LEAST_BLOCK: u32 = 64;

// Returns what the arguments ask for, or how the run ends.
fn accept_words<'a>(alloc: Global, words: &'a [&'a str]) -> Result<Settings<'a>, Outcome>
    ensures asked { IfOk result (λ settings. Asks (texts words.now) settings) }
    ensures refused { IfErr result (RefusesCall (texts words.now)) }
{
    match settings_of(alloc, words) {
        Ok(settings) => Ok(settings),
        Err(WordsFault::Usage(fault)) => Err(Outcome::Usage(fault)),
        Err(WordsFault::Memory) => Err(Outcome::Memory),
    }
}

// What reads a trace and computes runs: a crew, which works by blocks of this many jobs.
#[derive(Drop)]
struct Runner<'c, 'a, R, G> {
    crew: &'c Crew<'a, R, G>,
    block: u32,
    ghost some: { 1 ≤ block },
}

// What the report contains.
#[derive(Clone, Copy)]
struct Wanted {
    // Its form, 1 or 2.
    form: u8,
    // Whether it has job lines.
    jobs: bool,
}

// Reads the bytes of a model, and returns its plan or how the run ends.
fn judge_model(alloc: Global, bytes: &[u8]) -> Result<Plan, Outcome>
    ensures accepted { IfOk result (λ plan. (model_fault bytes.now ≡ None) × (plan.net ≡ network_in bytes.now)) }
    ensures refused { IfErr result (λ outcome. RefusesModel outcome (Some bytes.now)) }
    ensures unread { stops_unread result ≡ false }
{
    match read_model(alloc, bytes) {
        Ok(plan) => Ok(plan),
        Err(ModelFault::Memory) => Err(Outcome::Memory),
        Err(fault) => Err(Outcome::Model(fault)),
    }
}

// Reads the bytes of a trace for the network of a plan, and returns its rows or how the run ends.
fn judge_trace<R: Threads + Sync, G: Gate>(
    crew: &Crew<R, G>,
    plan: &Plan,
    bytes: &[u8],
) -> Result<Rows, Outcome>
    ensures read { IfOk result (λ rows. IsReadFor plan.now.net rows) }
    ensures accepted { IfOk result (λ rows. (trace_fault plan.now.net bytes.now ≡ None) × (rows ≡ rows_in plan.now.net bytes.now)) }
    ensures refused { IfErr result (λ outcome. RefusesTrace plan.now.net outcome (Some bytes.now)) }
    ensures unread { stops_unread result ≡ false }
{
    match read_trace(crew.rt, crew.alloc, crew.workers, bytes, &plan.net) {
        Ok(rows) => Ok(rows),
        Err(TraceFault::Memory) => Err(Outcome::Memory),
        Err(fault) => Err(Outcome::Trace(fault)),
    }
}

// Does the same with bytes that it owns. If it reads them in pieces, it drops them before it joins the rows of the pieces.
fn judge_own_trace<R: Threads + Sync, G: Gate>(
    crew: &Crew<R, G>,
    plan: &Plan,
    bytes: Vec<u8>,
) -> Result<Rows, Outcome>
    ensures read { IfOk result (λ rows. IsReadFor plan.now.net rows) }
    ensures accepted { IfOk result (λ rows. (trace_fault plan.now.net bytes.items ≡ None) × (rows ≡ rows_in plan.now.net bytes.items)) }
    ensures refused { IfErr result (λ outcome. RefusesTrace plan.now.net outcome (Some bytes.items)) }
    ensures unread { stops_unread result ≡ false }
{
    match take_trace(crew.rt, crew.alloc, crew.workers, bytes, &plan.net) {
        Ok(rows) => Ok(rows),
        Err(TraceFault::Memory) => Err(Outcome::Memory),
        Err(fault) => Err(Outcome::Trace(fault)),
    }
}

// Reads the model from the file of this name, and returns its plan or how the run ends.
fn accept_model<F: Files>(alloc: Global, name: &str, files: &mut F) -> Result<Plan, Outcome>
    ensures reads { ReadsNames F.told F.is_sure F.reads F.faults files.old files.new (name.now ∷ []) (stops_unread result) }
    ensures accepted { IfOk result (λ plan. IfSome (F.told files.old name.now) (λ bytes. (model_fault bytes ≡ None) × (plan.net ≡ network_in bytes))) }
    ensures refused { IfErr result (λ outcome. RefusesModel outcome (F.told files.old name.now)) }
{
    let mut bytes = Vec::new(alloc);
    match files.read(name, MODEL_LIMIT, &mut bytes) {
        Ok(()) => {}
        Err(FileFault::Failed) => return Err(Outcome::ReadFault { second: false }),
        Err(FileFault::TooLong) => return Err(Outcome::Model(ModelFault::TooLong)),
        Err(FileFault::Memory) => return Err(Outcome::Memory),
    }
    judge_model(alloc, &bytes)
}

// Reads the trace from the file of this name for the network of a plan, and returns its rows or how the run ends.
fn accept_trace<R: Threads + Sync, G: Gate, F: Files>(
    crew: &Crew<R, G>,
    plan: &Plan,
    name: &str,
    files: &mut F,
) -> Result<Rows, Outcome>
    ensures reads { ReadsNames F.told F.is_sure F.reads F.faults files.old files.new (name.now ∷ []) (stops_unread result) }
    ensures read { IfOk result (λ rows. IsReadFor plan.now.net rows) }
    ensures accepted { IfOk result (λ rows. IfSome (F.told files.old name.now) (λ bytes. (trace_fault plan.now.net bytes ≡ None) × (rows ≡ rows_in plan.now.net bytes))) }
    ensures refused { IfErr result (λ outcome. RefusesTrace plan.now.net outcome (F.told files.old name.now)) }
{
    let mut bytes = Vec::new(crew.alloc);
    match files.read(name, TRACE_LIMIT, &mut bytes) {
        Ok(()) => {}
        Err(FileFault::Failed) => return Err(Outcome::ReadFault { second: true }),
        Err(FileFault::TooLong) => return Err(Outcome::Trace(TraceFault::TooLong)),
        Err(FileFault::Memory) => return Err(Outcome::Memory),
    }
    judge_own_trace(crew, plan, bytes)
}

// Returns how many of these workers compute a run over these rows.
fn workers_for(rows: &Rows, workers: u32, block: u32) -> u32
    requires { 1 ≤ workers }
    ensures some { 1 ≤ result }
    ensures most { result ≤ workers }
{
    if LEAST_BLOCK <= block && rows.time.len() as u64 <= block as u64 * FEW_BLOCKS {
        1
    } else {
        workers
    }
}

// Writes the report with these counts, and with the job lines of the run if they are wanted.
fn report_told<O: Sink>(
    plan: &Plan,
    rows: &Rows,
    counts: &Counts,
    jobs: Option<&Run>,
    wanted: Wanted,
    out: &mut O,
) -> Outcome
    requires read { IsReadFor plan.now.net rows.now }
    requires few { HasFewVisits plan.now rows.now }
    requires counts { AreCounts plan.now rows.now wanted.form counts.now }
    requires jobs { IfSome jobs (λ run. IsRunOf plan.now rows.now run.now) }
    requires asked { is_some jobs ≡ wanted.jobs }
    ensures ends { Ends (Reported (report_in plan.now.net rows.now wanted.form wanted.jobs)) result (takings O.taken O.sure out.old out.new) }
    ensures unread { (second : Bool) → result ≢ Outcome.ReadFault second }
    ensures writes { Writes O.taken O.sure O.faults out.old out.new (writing_of result) (λ text. text ≡ report_in plan.now.net rows.now wanted.form wanted.jobs) }
{
    match report(plan, rows, counts, jobs, wanted.form, out) {
        Ok(()) => Outcome::Done,
        Err(_) => Outcome::WriteFault,
    }
}

// Writes the report of a run that is kept, with its job lines.
fn report_kept<R: Threads + Sync, G: Gate, O: Sink>(
    crew: &Crew<R, G>,
    plan: &Plan,
    rows: &Rows,
    run: &Run,
    wanted: Wanted,
    out: &mut O,
) -> Outcome
    requires read { IsReadFor plan.now.net rows.now }
    requires run { IsRunOf plan.now rows.now run.now }
    requires few { HasFewVisits plan.now rows.now }
    requires asked { wanted.jobs ≡ true }
    ensures ends { Ends (Reported (report_in plan.now.net rows.now wanted.form wanted.jobs)) result (takings O.taken O.sure out.old out.new) }
    ensures unread { (second : Bool) → result ≢ Outcome.ReadFault second }
    ensures writes { Writes O.taken O.sure O.faults out.old out.new (writing_of result) (λ text. text ≡ report_in plan.now.net rows.now wanted.form wanted.jobs) }
{
    let Ok(counts) = counts_of_run(crew, plan, rows, run, wanted.form) else {
        return Outcome::Memory;
    };
    let outcome = report_told(plan, rows, &counts, Some(run), wanted, out);
    drop(counts);
    outcome
}

// Runs a plan over its rows, keeps the run, and writes the report with the job lines.
fn report_jobs<R: Threads + Sync, G: Gate, O: Sink>(
    runner: &Runner<R, G>,
    plan: &Plan,
    rows: &Rows,
    wanted: Wanted,
    out: &mut O,
) -> Outcome
    requires read { IsReadFor plan.now.net rows.now }
    requires asked { wanted.jobs ≡ true }
    ensures ends { Ends (run_answer plan.now.net rows.now wanted (refusal_in plan.now.net rows.now)) result (takings O.taken O.sure out.old out.new) }
    ensures unread { (second : Bool) → result ≢ Outcome.ReadFault second }
    ensures writes { Writes O.taken O.sure O.faults out.old out.new (writing_of result) (λ text. text ≡ report_in plan.now.net rows.now wanted.form wanted.jobs) }
{
    runs_are_of_networks();
    runs_have_few_visits();
    let crew = runner.crew;
    let run = match run(
        crew.rt,
        crew.alloc,
        plan,
        rows,
        crew.workers,
        runner.block,
        crew.gate,
    ) {
        Ok(run) => run,
        Err(RunFault::Over(fault)) => return Outcome::Over(fault),
        Err(RunFault::Past(fault)) => return Outcome::Past(fault),
        Err(RunFault::Memory) => return Outcome::Memory,
    };
    let outcome = report_kept(crew, plan, rows, &run, wanted, out);
    drop(run);
    outcome
}

// Runs a plan over its rows, counts as it goes, and writes the report without job lines.
fn report_counts<R: Threads + Sync, G: Gate, O: Sink>(
    runner: &Runner<R, G>,
    plan: &Plan,
    rows: &Rows,
    wanted: Wanted,
    out: &mut O,
) -> Outcome
    requires read { IsReadFor plan.now.net rows.now }
    requires asked { wanted.jobs ≡ false }
    ensures ends { Ends (run_answer plan.now.net rows.now wanted (refusal_in plan.now.net rows.now)) result (takings O.taken O.sure out.old out.new) }
    ensures unread { (second : Bool) → result ≢ Outcome.ReadFault second }
    ensures writes { Writes O.taken O.sure O.faults out.old out.new (writing_of result) (λ text. text ≡ report_in plan.now.net rows.now wanted.form wanted.jobs) }
{
    runs_are_of_networks();
    runs_have_few_visits();
    let crew = runner.crew;
    let counts = match run_counted(
        crew.rt,
        crew.alloc,
        plan,
        rows,
        crew.workers,
        runner.block,
        wanted.form,
        crew.gate,
    ) {
        Ok(counts) => counts,
        Err(RunFault::Over(over)) => return Outcome::Over(over),
        Err(RunFault::Past(past)) => return Outcome::Past(past),
        Err(RunFault::Memory) => return Outcome::Memory,
    };
    let outcome = report_told(plan, rows, &counts, None, wanted, out);
    drop(counts);
    outcome
}

// Runs a plan over its rows, and writes the report that is wanted.
fn report_run<R: Threads + Sync, G: Gate, O: Sink>(
    runner: &Runner<R, G>,
    plan: &Plan,
    rows: &Rows,
    wanted: Wanted,
    out: &mut O,
) -> Outcome
    requires { IsReadFor plan.now.net rows.now }
    ensures ends { Ends (run_answer plan.now.net rows.now wanted (refusal_in plan.now.net rows.now)) result (takings O.taken O.sure out.old out.new) }
    ensures unread { (second : Bool) → result ≢ Outcome.ReadFault second }
    ensures writes { Writes O.taken O.sure O.faults out.old out.new (writing_of result) (λ text. text ≡ report_in plan.now.net rows.now wanted.form wanted.jobs) }
{
    let crew = runner
        .crew
        .with(workers_for(rows, runner.crew.workers, runner.block));
    let runner = &Runner {
        crew: &crew,
        block: runner.block,
    };
    if wanted.jobs {
        return report_jobs(runner, plan, rows, wanted, out);
    }
    report_counts(runner, plan, rows, wanted, out)
}

// Reads the trace from the file of this name for a plan, runs the plan, and writes the report.
fn run_trace<R: Threads + Sync, G: Gate, F: Files, O: Sink>(
    runner: &Runner<R, G>,
    plan: &Plan,
    name: &str,
    wanted: Wanted,
    files: &mut F,
    out: &mut O,
) -> Outcome
    ensures ends { IfSome (F.told files.old name.now) (λ trace. Ends (answer_over plan.now.net trace wanted) result (takings O.taken O.sure out.old out.new)) }
    ensures late { IsLate result }
    ensures reads { ReadsNames F.told F.is_sure F.reads F.faults files.old files.new (name.now ∷ []) (is_unread (reading_of result)) }
    ensures writes { Writes O.taken O.sure O.faults out.old out.new (writing_of result) (λ text. IfSome (F.told files.old name.now) (λ trace. IsText text (answer_over plan.now.net trace wanted))) }
{
    match accept_trace(runner.crew, plan, name, files) {
        Ok(rows) => {
            let outcome = report_run(runner, plan, &rows, wanted, out);
            drop(rows);
            outcome
        }
        Err(outcome) => outcome,
    }
}

// Reads the bytes of a trace for a plan, runs the plan over them, and writes the report.
fn run_text<R: Threads + Sync, G: Gate, O: Sink>(
    runner: &Runner<R, G>,
    plan: &Plan,
    trace: &[u8],
    wanted: Wanted,
    out: &mut O,
) -> Outcome
    ensures ends { Ends (answer_over plan.now.net trace.now wanted) result (takings O.taken O.sure out.old out.new) }
    ensures late { IsLate result }
    ensures unread { result ≢ Outcome.ReadFault true }
    ensures writes { Writes O.taken O.sure O.faults out.old out.new (writing_of result) (λ text. IsText text (answer_over plan.now.net trace.now wanted)) }
{
    match judge_trace(runner.crew, plan, trace) {
        Ok(rows) => {
            let outcome = report_run(runner, plan, &rows, wanted, out);
            drop(rows);
            outcome
        }
        Err(outcome) => outcome,
    }
}

// Runs the texts of a model and a trace, writes the report, and writes the line of the outcome.
fn run_bytes<R: Threads + Sync, G: Gate, O: Sink, E: Sink>(
    runner: &Runner<R, G>,
    model: &[u8],
    trace: &[u8],
    wanted: Wanted,
    out: &mut O,
    err: &mut E,
) -> Outcome
    ensures ends { Ends (answer model.now trace.now wanted) result (takings O.taken O.sure out.old out.new) }
    ensures model { (fault : ModelFault) → model_fault model.now ≡ Some fault → RefusesModel result (Some model.now) }
    ensures model_only { (fault : ModelFault) → result ≡ Outcome.Model fault → model_fault model.now ≡ Some fault }
    ensures usage { (fault : UsageFault) → result ≢ Outcome.Usage fault }
    ensures unread { (second : Bool) → result ≢ Outcome.ReadFault second }
    ensures never { (result ≢ Outcome.Model ModelFault.Memory) × (result ≢ Outcome.Trace TraceFault.Memory) }
    ensures writes { Writes O.taken O.sure O.faults out.old out.new (writing_of result) (λ text. IsText text (answer model.now trace.now wanted)) }
    ensures line { PutsLine E.taken E.sure E.faults err.old err.new (line_text (name_of_outcome (network_in model.now) result) result) }
{
    match judge_model(runner.crew.alloc, model) {
        Ok(plan) => {
            let outcome = run_text(runner, &plan, trace, wanted, out);
            put_line(err, name_of(&plan.net, &outcome), &outcome);
            drop(plan);
            outcome
        }
        Err(outcome) => {
            put_line(err, &[], &outcome);
            outcome
        }
    }
}

// Runs the made input of this number, writes the report, and writes the line of the outcome.
fn run_made<R: Threads + Sync, G: Gate, O: Sink, E: Sink>(
    runner: &Runner<R, G>,
    number: u64,
    wanted: Wanted,
    out: &mut O,
    err: &mut E,
) -> Outcome
    ensures ends { Ends (answer (made_model number) (made_trace number) wanted) result (takings O.taken O.sure out.old out.new) }
    ensures made { IsOfMade result }
    ensures writes { Writes O.taken O.sure O.faults out.old out.new (writing_of result) (λ text. IsText text (answer (made_model number) (made_trace number) wanted)) }
    ensures line { PutsLine E.taken E.sure E.faults err.old err.new (line_text [] result) }
{
    made_inputs_are_accepted();
    match made(runner.crew.alloc, number) {
        Ok(input) => run_bytes(
            runner,
            input.model.as_slice(),
            input.trace.as_slice(),
            wanted,
            out,
            err,
        ),
        Err(_) => {
            put_line(err, &[], &Outcome::Memory);
            Outcome::Memory
        }
    }
}

/// Runs the texts of a model and a trace, and writes the report: what `simulate` does once it has read both. `workers`, from 1 to 64, and
/// `block`, from 1 to 65,536 jobs, only decide which worker makes which piece. `form` is the form of the report, 1 or 2, and `jobs` asks for a
/// line per visit. The outcome is never `Usage` or `ReadFault`.
pub fn simulate_bytes<R: Threads + Sync, O: Sink, E: Sink>(
    rt: &R,
    alloc: Global,
    model: &[u8],
    trace: &[u8],
    workers: u32,
    block: u32,
    form: u8,
    jobs: bool,
    out: &mut O,
    err: &mut E,
) -> Outcome
    requires workers { (1 ≤ workers) × (workers ≤ 64) }
    requires block { (1 ≤ block) × (block ≤ 65536) }
    requires form { (1 ≤ form) × (form ≤ 2) }
    // A finished run has written exactly the report of the event list. Otherwise a run ends only with the error that the definitions give, with
    // a fault of a device, or out of memory.
    ensures ends { Ends (answer model.now trace.now (record { form = form; jobs = jobs })) result (takings O.taken O.sure out.old out.new) }
    ensures model { (fault : ModelFault) → model_fault model.now ≡ Some fault → RefusesModel result (Some model.now) }
    ensures model_only { (fault : ModelFault) → result ≡ Outcome.Model fault → model_fault model.now ≡ Some fault }
    ensures usage { (fault : UsageFault) → result ≢ Outcome.Usage fault }
    ensures unread { (second : Bool) → result ≢ Outcome.ReadFault second }
    ensures never { (result ≢ Outcome.Model ModelFault.Memory) × (result ≢ Outcome.Trace TraceFault.Memory) }

    // What the two outputs gain. A fault of the output is counted, and a counted fault shows in the outcome.
    ensures writes { Writes O.taken O.sure O.faults out.old out.new (writing_of result) (λ text. IsText text (answer model.now trace.now (record { form = form; jobs = jobs }))) }
    ensures line { PutsLine E.taken E.sure E.faults err.old err.new (line_text (name_of_outcome (network_in model.now) result) result) }
{
    let crew = Crew::new(rt, alloc, workers, &Open);
    let runner = &Runner { crew: &crew, block };
    run_bytes(runner, model, trace, Wanted { form, jobs }, out, err)
}

/// Reads the model and the trace that the arguments name, or makes those of a number, runs the network over the rows, and writes the report,
/// which is that of a sequential event list. `words` are the arguments without the program's name: two file names, or `--made` with a number,
/// and these options: `--workers`, from 1 to 64, and `--block`, from 1 to 65,536 jobs, which only decide which worker makes which piece;
/// `--jobs`, which asks for a line per visit; and `--report` with the form of the report, 1 or 2. The workers enter the gate with the pieces of
/// the run, of its totals and of its percentiles, but not with pieces of the trace.
///
/// Every outcome except `Done` writes one line to `err`, whose faults change no outcome. All memory is allocated before the first byte is
/// written. `out` gains the whole report with `Done`, a first part of it with `WriteFault`, and nothing otherwise.
pub fn simulate_gated<R: Threads + Sync, F: Files, O: Sink, E: Sink, G: Gate>(
    rt: &R,
    alloc: Global,
    words: &[&str],
    files: &mut F,
    out: &mut O,
    err: &mut E,
    gate: &G,
) -> Outcome
    // A finished run has written exactly the report of the event list. Otherwise a run ends only with the error that the definitions give, with
    // a fault of a device, or out of memory. A made input is never refused.
    ensures ends { (m t model trace : List ℕ) → Names (texts words.now) m t → F.told files.old m ≡ Some model → F.told files.old t ≡ Some trace →
        Ends (answer model trace (wanted_by (texts words.now))) result (takings O.taken O.sure out.old out.new) }
    ensures made { (number : ℕ) → Makes (texts words.now) number →
        Ends (answer (made_model number) (made_trace number) (wanted_by (texts words.now))) result (takings O.taken O.sure out.old out.new) }
    ensures made_accepted { (number : ℕ) → Makes (texts words.now) number → IsOfMade result }

    // The arguments are invalid exactly as defined, unless memory runs out; an invalid model ends the run whatever is known of the trace.
    ensures usage { (fault : UsageFault) → result ≡ Outcome.Usage fault → usage_fault (texts words.now) ≡ Some fault }
    ensures usage_comes { (fault : UsageFault) → usage_fault (texts words.now) ≡ Some fault → (result ≡ Outcome.Usage fault) ⊎ (result ≡ Outcome.Memory) }
    ensures words { IsTrue (refuses_words (texts words.now)) → result ≡ Outcome.Usage UsageFault.Words }
    ensures model { (m t model : List ℕ) (fault : ModelFault) → Names (texts words.now) m t → F.told files.old m ≡ Some model → model_fault model ≡ Some fault →
        RefusesModel result (Some model) }
    ensures model_only { (m t model : List ℕ) (fault : ModelFault) → Names (texts words.now) m t → F.told files.old m ≡ Some model → result ≡ Outcome.Model fault → model_fault model ≡ Some fault }
    ensures never { (result ≢ Outcome.Model ModelFault.Memory) × (result ≢ Outcome.Trace TraceFault.Memory) }

    // Which files are read, in order, and what the two outputs gain. A fault of a device is counted, and a counted fault shows in the outcome.
    ensures reads { ReadsFirst F.told F.is_sure F.reads F.faults files.old files.new (names_read (texts words.now)) (reading_of result) }
    ensures writes { Writes O.taken O.sure O.faults out.old out.new (writing_of result) (IsReportOf (F.told files.old) (texts words.now)) }
    ensures line { (name : List ℕ) × PutsLine E.taken E.sure E.faults err.old err.new (line_text name result) ×
        ((m t model : List ℕ) → Names (texts words.now) m t → F.told files.old m ≡ Some model → name ≡ name_of_outcome (network_in model) result) }
{
    let settings = match accept_words(alloc, words) {
        Ok(settings) => settings,
        Err(outcome) => {
            put_line(err, &[], &outcome);
            return outcome;
        }
    };
    let crew = Crew::new(rt, alloc, settings.workers as u32, gate);
    let runner = &Runner {
        crew: &crew,
        block: settings.block as u32,
    };
    let wanted = Wanted {
        form: settings.form as u8,
        jobs: settings.jobs,
    };
    let (model, trace) = match settings.subject {
        Subject::Named { model, trace } => (model, trace),
        Subject::Made(number) => return run_made(runner, number, wanted, out, err),
    };
    match accept_model(alloc, model, files) {
        Ok(plan) => {
            let outcome = run_trace(runner, &plan, trace, wanted, files, out);
            put_line(err, name_of(&plan.net, &outcome), &outcome);
            drop(plan);
            outcome
        }
        Err(outcome) => {
            put_line(err, &[], &outcome);
            outcome
        }
    }
}

/// Does all that the program does: `simulate_gated` with the gate that does nothing.
pub fn simulate<R: Threads + Sync, F: Files, O: Sink, E: Sink>(
    rt: &R,
    alloc: Global,
    words: &[&str],
    files: &mut F,
    out: &mut O,
    err: &mut E,
) -> Outcome
    // A finished run has written exactly the report of the event list. Otherwise a run ends only with the error that the definitions give, with
    // a fault of a device, or out of memory. A made input is never refused.
    ensures ends { (m t model trace : List ℕ) → Names (texts words.now) m t → F.told files.old m ≡ Some model → F.told files.old t ≡ Some trace →
        Ends (answer model trace (wanted_by (texts words.now))) result (takings O.taken O.sure out.old out.new) }
    ensures made { (number : ℕ) → Makes (texts words.now) number →
        Ends (answer (made_model number) (made_trace number) (wanted_by (texts words.now))) result (takings O.taken O.sure out.old out.new) }
    ensures made_accepted { (number : ℕ) → Makes (texts words.now) number → IsOfMade result }

    // The arguments are invalid exactly as defined, unless memory runs out; an invalid model ends the run whatever is known of the trace.
    ensures usage { (fault : UsageFault) → result ≡ Outcome.Usage fault → usage_fault (texts words.now) ≡ Some fault }
    ensures usage_comes { (fault : UsageFault) → usage_fault (texts words.now) ≡ Some fault → (result ≡ Outcome.Usage fault) ⊎ (result ≡ Outcome.Memory) }
    ensures words { IsTrue (refuses_words (texts words.now)) → result ≡ Outcome.Usage UsageFault.Words }
    ensures model { (m t model : List ℕ) (fault : ModelFault) → Names (texts words.now) m t → F.told files.old m ≡ Some model → model_fault model ≡ Some fault →
        RefusesModel result (Some model) }
    ensures model_only { (m t model : List ℕ) (fault : ModelFault) → Names (texts words.now) m t → F.told files.old m ≡ Some model → result ≡ Outcome.Model fault → model_fault model ≡ Some fault }
    ensures never { (result ≢ Outcome.Model ModelFault.Memory) × (result ≢ Outcome.Trace TraceFault.Memory) }

    // Which files are read, in order, and what the two outputs gain. A fault of a device is counted, and a counted fault shows in the outcome.
    ensures reads { ReadsFirst F.told F.is_sure F.reads F.faults files.old files.new (names_read (texts words.now)) (reading_of result) }
    ensures writes { Writes O.taken O.sure O.faults out.old out.new (writing_of result) (IsReportOf (F.told files.old) (texts words.now)) }
    ensures line { (name : List ℕ) × PutsLine E.taken E.sure E.faults err.old err.new (line_text name result) ×
        ((m t model : List ℕ) → Names (texts words.now) m t → F.told files.old m ≡ Some model → name ≡ name_of_outcome (network_in model) result) }
{
    simulate_gated(rt, alloc, words, files, out, err, &Open)
}
