// The rows of pieces, one piece after another.

ghost use Rattle.std.specs.Prelude.{◌≡◌, ◌≤◌, ℕ, List, length, Ok, OnOk, IfErr};
ghost use Rattle.mq_core.specs.declared.model.Rows.{Rows};
ghost use Rattle.mq_trace.specs.Joined.{AreJoined, HaveColumns};
ghost use Rattle.mq_trace.specs.Pieces.{AreReadApart, behind};
ghost use Rattle.mq_trace.specs.Trace.{Answers, Tells, records_fault, rows_in, text_records};

use crate::fault::TraceFault;
use crate::lists::{Lists, joined};
use crate::rows::MOST_ROWS;
use mq_core::{Network, Rows};
use mq_crew::{Crew, Open};
use std::thread::Threads;

// The error of a piece that follows `before` data records.
fn fault_behind(before: u32, fault: TraceFault) -> TraceFault
    requires { before ≤ 1048576 }
    ensures { result ≡ behind before fault }
{
    let most = MOST_ROWS - before;
    match fault {
        TraceFault::BadCount { row }
        | TraceFault::UnknownSource { row }
        | TraceFault::BadNumber { row, .. }
            if row > most => { TraceFault::TooManyRows }
        TraceFault::BadCount { row } => TraceFault::BadCount { row: before + row },
        TraceFault::UnknownSource { row } => TraceFault::UnknownSource { row: before + row },
        TraceFault::BadNumber { row, field } => TraceFault::BadNumber {
            row: before + row,
            field,
        },
        other => other,
    }
}

// The number of rows in all pieces. The first error is that of the first piece that has one, unless there are too many
// rows before it.
fn judge(read: &[Result<Rows, TraceFault>], net: &Network) -> Result<u32, TraceFault>
    requires { (text : List ℕ) × AreReadApart net.now text read.now }
    ensures columns { OnOk result (HaveColumns (length net.now.columns) read.now) }
    ensures rows { (text : List ℕ) → AreReadApart net.now text read.now → OnOk result ((rows : Rows) → AreJoined (length net.now.columns) read.now rows → Answers (Ok rows) (records_fault net.now (text_records text)) (rows_in net.now text)) }
    ensures fault { (text : List ℕ) → AreReadApart net.now text read.now → IfErr result (λ e. Tells e (records_fault net.now (text_records text))) }
{
    let mut before = 0u32;
    for piece in read {
        match piece {
            Err(fault) => return Err(fault_behind(before, *fault)),
            Ok(rows) => {
                if rows.source.len() > (MOST_ROWS - before) as usize {
                    return Err(TraceFault::TooManyRows);
                }
                before += rows.source.len() as u32;
            }
        }
    }
    Ok(before)
}

/// Joins what was read from each piece of a text, by `workers` workers. Errors are found before anything is joined.
/// The text itself isn't needed any more.
pub fn join_rows<R: Threads + Sync>(
    crew: &Crew<R, Open>,
    read: &[Result<Rows, TraceFault>],
    net: &Network,
) -> Result<Rows, TraceFault>
    requires columns { length net.now.columns ≤ 16 }
    requires read { (text : List ℕ) × AreReadApart net.now text read.now }
    ensures { (text : List ℕ) → AreReadApart net.now text read.now → Answers result (records_fault net.now (text_records text)) (rows_in net.now text) }
{
    let count = judge(read, net)?;
    let lists = Lists {
        read,
        count,
        columns: net.columns.len() as u32,
    };
    let rows = joined(crew, &lists)?;
    Ok(rows)
}
