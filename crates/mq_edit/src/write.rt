// What is written of a kept run that was edited.
ghost use Rattle.std.specs.Prelude.{◌≡◌, ◌≢◌, ◌⊎◌, ◌++◌, ◌≤◌, false, length, OnErr, OnOk};
ghost use Rattle.mq_core.specs.Theorems.{IsReadFor};
ghost use Rattle.mq_kept.specs.Keeping.{IsKeptRun};
ghost use Rattle.mq_outside.specs.Outside.{Rose, TakesFirst, TakesPrefix};
ghost use Rattle.mq_outside.specs.Writing.{Writes};
ghost use Rattle.mq_counts.specs.Counts.{AreCounts};
ghost use Rattle.mq_report.specs.Text.{report_in};
ghost use Rattle.mq_stats.specs.RunNumbers.{HasFewVisits};
ghost use Rattle.mq_edit.specs.Answer.{again_line};
ghost use Rattle.mq_edit.specs.Ends.{writing_of};

use crate::files::WORKERS;
use crate::outcome::EditOutcome;
use mq_core::{Plan, Rows};
use mq_counts::{Counts, counts_of_run};
use mq_crew::{Crew, Open};
use mq_kept::{Kept, Redone};
use mq_outside::{Gather, Piece, Sink, SinkFault, add_pieces, flush};
use mq_report::report;
use mq_stats::runs_have_few_visits;
use std::alloc::Global;
use std::thread::Threads;

// Puts the last line: the number of blocks from the first differences on, and of all blocks.
fn put_again<O: Sink>(out: &mut O, redone: Redone) -> Result<(), SinkFault>
    ensures ok { OnOk result (TakesFirst (O.taken out.old) (O.taken out.new) (O.sure out.old) (O.sure out.new) (again_line redone.again redone.all) (length (again_line redone.again redone.all))) }
    ensures err { OnErr result (TakesPrefix (O.taken out.old) (O.taken out.new) (O.sure out.old) (O.sure out.new) (again_line redone.again redone.all)) }
    ensures later { O.faults out.old ≤ O.faults out.new }
    ensures rose { OnErr result (Rose (O.faults out.old) (O.faults out.new)) }
    ensures quiet { OnOk result (O.faults out.new ≡ O.faults out.old) }
    ensures sure { length (again_line redone.again redone.all) ≤ O.sure out.old → O.faults out.new ≡ O.faults out.old }
{
    let mut pending = Gather::new();
    add_pieces(
        out,
        &mut pending,
        &[
            Piece::Text(b"again "),
            Piece::Number(redone.again as u128),
            Piece::Text(b" of "),
            Piece::Number(redone.all as u128),
            Piece::Text(b" blocks\n"),
        ],
    )?;
    flush(out, &mut pending)
}

// Puts the report of a run, in form 2 and without job lines, and then the line of blocks.
fn put_report<O: Sink>(
    plan: &Plan,
    rows: &Rows,
    counts: &Counts,
    redone: Redone,
    out: &mut O,
) -> Result<(), SinkFault>
    requires read { IsReadFor plan.now.net rows.now }
    requires few { HasFewVisits plan.now rows.now }
    requires counts { AreCounts plan.now rows.now 2 counts.now }
    ensures ok { OnOk result (TakesFirst (O.taken out.old) (O.taken out.new) (O.sure out.old) (O.sure out.new) (report_in plan.now.net rows.now 2 false ++ again_line redone.again redone.all) (length (report_in plan.now.net rows.now 2 false ++ again_line redone.again redone.all))) }
    ensures err { OnErr result (TakesPrefix (O.taken out.old) (O.taken out.new) (O.sure out.old) (O.sure out.new) (report_in plan.now.net rows.now 2 false ++ again_line redone.again redone.all)) }
    ensures later { O.faults out.old ≤ O.faults out.new }
    ensures rose { OnErr result (Rose (O.faults out.old) (O.faults out.new)) }
    ensures quiet { OnOk result (O.faults out.new ≡ O.faults out.old) }
    ensures sure { length (report_in plan.now.net rows.now 2 false ++ again_line redone.again redone.all) ≤ O.sure out.old → O.faults out.new ≡ O.faults out.old }
{
    report(plan, rows, counts, None, 2, out)?;
    put_again(out, redone)
}

/// Writes the report of a kept run, in form 2 and without job lines, and then the line of blocks.
pub fn write_kept<R: Threads + Sync, O: Sink>(
    rt: &R,
    alloc: Global,
    plan: &Plan,
    kept: &Kept,
    redone: Redone,
    out: &mut O,
) -> EditOutcome
    requires same { plan.now ≡ kept.now.plan }
    requires kept { IsKeptRun kept.now }
    ensures ends { (result ≡ EditOutcome.Done) ⊎ ((result ≡ EditOutcome.WriteFault) ⊎ (result ≡ EditOutcome.Memory)) }
    ensures writes { Writes O.taken O.sure O.faults out.old out.new (writing_of result) (λ text. text ≡ report_in plan.now.net kept.now.rows 2 false ++ again_line redone.again redone.all) }
{
    runs_have_few_visits();
    let rows = kept.rows();
    let run = kept.run();
    let crew = Crew::new(rt, alloc, WORKERS, &Open);
    let Ok(counts) = counts_of_run(&crew, plan, rows, run, 2) else {
        return EditOutcome::Memory;
    };
    let written = put_report(plan, rows, &counts, redone, out);
    drop(counts);
    match written {
        Ok(()) => EditOutcome::Done,
        Err(_) => EditOutcome::WriteFault,
    }
}
