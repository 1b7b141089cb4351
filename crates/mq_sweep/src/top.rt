// What the program calls.
ghost use Rattle.std.specs.Prelude.{◌≡◌, ◌<◌, ◌≤◌, ◌↔◌, ℕ, List as Items, false, length, map, Some, IsTrue, IfOk};
ghost use Rattle.mq_base.specs.Text.{texts};
ghost use Rattle.mq_outcome.specs.Lines.{PutsLine};
ghost use Rattle.mq_outside.specs.Reading.{ReadsFirst};
ghost use Rattle.mq_outside.specs.Writing.{Writes};
ghost use Rattle.mq_top.specs.Ends.{takings};
ghost use Rattle.mq_sweep.specs.Ends.{IsLong, IsOfRun, IsSweepOf, IsText, StopsBy, SweepEnds, reading_of, sweep_line, writing_of};
ghost use Rattle.mq_sweep.specs.Sweep.{AreFiles, limit_of, names_read, refuses_words as refuses_words_of, sweep_answer, swept, told_of_word};
ghost use Rattle.mq_sweep.specs.Sweep.SweepAnswer.{Swept};

use crate::crew::by_workers;
use crate::outcome::put_sweep_line;
use crate::reading::{read_files, refuses_words};
use crate::text::{Scenarios, scenarios_of};
use crate::{SweepGate, SweepOutcome};
use mq_base::{List, OutOfMemory};
use mq_outside::{Files, Sink, put_all};
use std::alloc::Global;
use std::sync::Wait;
use std::thread::Threads;

// Returns what the sweep of these files writes: of a trace and 1 to 64 models.
fn scenarios_in<R: Threads + Wait + Sync, G: SweepGate>(
    rt: &R,
    alloc: Global,
    contents: &[List<u8>],
    workers: u32,
    gate: &G,
) -> Result<Scenarios, OutOfMemory>
    requires some { 1 ≤ workers }
    requires most { workers ≤ 64 }
    requires two { 2 ≤ length contents.now }
    requires few { length contents.now ≤ 65 }
    ensures { IfOk result (λ scenarios. swept contents.now ≡ Swept scenarios.text.items scenarios.done) }
{
    let trace = contents[0].as_slice();
    let models = &contents[1..];
    let (book, _seat) = by_workers(rt, alloc, workers, trace, models, gate)?;
    scenarios_of(rt, alloc, trace, models, &book)
}

// Writes the text of a sweep.
fn write_text<O: Sink>(scenarios: &Scenarios, out: &mut O) -> SweepOutcome
    ensures ends { SweepEnds (Swept scenarios.now.text.items scenarios.now.done) result (takings O.taken O.sure out.old out.new) }
    ensures late { IsOfRun result }
    ensures writes { Writes O.taken O.sure O.faults out.old out.new (writing_of result) (λ text. text ≡ scenarios.now.text.items) }
{
    match put_all(out, &scenarios.text) {
        Ok(()) => {
            if scenarios.done {
                SweepOutcome::Done
            } else {
                SweepOutcome::Refused
            }
        }
        Err(_) => SweepOutcome::WriteFault,
    }
}

// Runs the models in these files over the trace, and writes the results.
fn run_files<R: Threads + Wait + Sync, O: Sink, G: SweepGate>(
    rt: &R,
    alloc: Global,
    contents: &[List<u8>],
    workers: u32,
    out: &mut O,
    gate: &G,
) -> SweepOutcome
    requires some { 1 ≤ workers }
    requires most { workers ≤ 64 }
    requires two { 2 ≤ length contents.now }
    requires few { length contents.now ≤ 65 }
    ensures ends { SweepEnds (swept contents.now) result (takings O.taken O.sure out.old out.new) }
    ensures late { IsOfRun result }
    ensures writes { Writes O.taken O.sure O.faults out.old out.new (writing_of result) (λ text. IsText text (swept contents.now)) }
{
    let Ok(scenarios) = scenarios_in(rt, alloc, contents, workers, gate) else {
        return SweepOutcome::Memory;
    };
    let outcome = write_text(&scenarios, out);
    drop(scenarios);
    outcome
}

// Does all of a sweep except writing the error line.
fn sweep_words<R: Threads + Wait + Sync, F: Files, O: Sink, G: SweepGate>(
    rt: &R,
    alloc: Global,
    words: &[&str],
    workers: u32,
    files: &mut F,
    out: &mut O,
    gate: &G,
) -> SweepOutcome
    requires some { 1 ≤ workers }
    requires most { workers ≤ 64 }
    ensures ends { (contents : Items (Items ℕ)) → refuses_words_of (texts words.now) ≡ false → AreFiles (map (F.told files.old) (texts words.now)) contents →
        SweepEnds (sweep_answer contents) result (takings O.taken O.sure out.old out.new) }
    ensures usage { IsTrue (refuses_words_of (texts words.now)) ↔ (result ≡ SweepOutcome.Usage) }
    ensures too_long { (w : ℕ) → result ≡ SweepOutcome.TooLong w → (1 ≤ w) × (w ≤ length words.now) × IsLong w (told_of_word (map (F.told files.old) (texts words.now)) w) }
    ensures too_long_comes { (w : ℕ) (bytes : Items ℕ) → refuses_words_of (texts words.now) ≡ false → 1 ≤ w → told_of_word (map (F.told files.old) (texts words.now)) w ≡ Some bytes → limit_of w < length bytes →
        StopsBy w result }
    ensures reads { ReadsFirst F.told F.is_sure F.reads F.faults files.old files.new (names_read (texts words.now)) (reading_of result) }
    ensures writes { Writes O.taken O.sure O.faults out.old out.new (writing_of result) (IsSweepOf (map (F.told files.old) (texts words.now))) }
{
    if refuses_words(words) {
        return SweepOutcome::Usage;
    }
    match read_files(alloc, words, files) {
        Ok(contents) => {
            let outcome = run_files(rt, alloc, contents.as_slice(), workers, out, gate);
            drop(contents);
            outcome
        }
        Err(outcome) => outcome,
    }
}

/// Runs each of up to 64 models over one trace, and writes the results in the order of the arguments. `words` are the arguments without the
/// program's name: the name of the trace, then those of the models. 1 to 64 workers take the models from a queue and enter the gate with each.
/// Each model is run by one worker, with form 2 of the report and no job lines. If a worker runs out of memory, the caller runs that model.
/// For each model the text has the line `scenario I status S`, with I from 1 and the exit status of the run, then what the run writes to its
/// output, and then its error line.
///
/// `Usage`, `TooLong`, `ReadFault`, `WriteFault` and `Memory` write one line to `err`, whose faults change no outcome. All memory is allocated
/// before the first byte is written. `out` gains the whole text with `Done` and `Refused`, a first part of it with `WriteFault`, and nothing
/// otherwise. The call may wait for its workers.
pub fn sweep<R: Threads + Wait + Sync, F: Files, O: Sink, E: Sink, G: SweepGate>(
    rt: &R,
    alloc: Global,
    words: &[&str],
    workers: u32,
    files: &mut F,
    out: &mut O,
    err: &mut E,
    gate: &G,
) -> SweepOutcome
    requires some { 1 ≤ workers }
    requires most { workers ≤ 64 }
    // A finished sweep has written exactly the text of the single runs. Otherwise a sweep ends only with a file that is too long, with a fault
    // of a device, or out of memory.
    ensures ends { (contents : Items (Items ℕ)) → refuses_words_of (texts words.now) ≡ false → AreFiles (map (F.told files.old) (texts words.now)) contents →
        SweepEnds (sweep_answer contents) result (takings O.taken O.sure out.old out.new) }

    // The arguments are invalid exactly as defined, and a file that is too long ends the sweep whatever is known of the others.
    ensures usage { IsTrue (refuses_words_of (texts words.now)) ↔ (result ≡ SweepOutcome.Usage) }
    ensures too_long { (w : ℕ) → result ≡ SweepOutcome.TooLong w → (1 ≤ w) × (w ≤ length words.now) × IsLong w (told_of_word (map (F.told files.old) (texts words.now)) w) }
    ensures too_long_comes { (w : ℕ) (bytes : Items ℕ) → refuses_words_of (texts words.now) ≡ false → 1 ≤ w → told_of_word (map (F.told files.old) (texts words.now)) w ≡ Some bytes → limit_of w < length bytes →
        StopsBy w result }

    // Which files are read, in order, and what the two outputs gain. A fault of a device is counted, and a counted fault shows in the outcome.
    ensures reads { ReadsFirst F.told F.is_sure F.reads F.faults files.old files.new (names_read (texts words.now)) (reading_of result) }
    ensures writes { Writes O.taken O.sure O.faults out.old out.new (writing_of result) (IsSweepOf (map (F.told files.old) (texts words.now))) }
    ensures line { PutsLine E.taken E.sure E.faults err.old err.new (sweep_line result) }
{
    let outcome = sweep_words(rt, alloc, words, workers, files, out, gate);
    put_sweep_line(err, &outcome);
    outcome
}
