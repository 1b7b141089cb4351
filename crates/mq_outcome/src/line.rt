// The lines on standard error.
ghost use Rattle.std.specs.Prelude.{◌≡◌, ◌≤◌, [], ◌∷◌, ◌++◌, length, decimal, slice_get, OnOk, OnErr};
ghost use Rattle.mq_outside.specs.Outside.{Rose, TakesFirst, TakesPrefix};
ghost use Rattle.mq_outside.specs.Pieces.{pieces_text};
ghost use Rattle.mq_outcome.specs.Lines.{PutsLine, fault_name, line_text, model_line, node_name, trace_line, over_line, past_line, usage_line, name_of as name_of_outcome};

use crate::outcome::Outcome;
use mq_core::{Network, OverFault, PastFault};
use mq_model::ModelFault;
use mq_outside::{Gather, Piece, Sink, SinkFault, add_pieces, flush};
use mq_trace::TraceFault;
use mq_words::UsageFault;

// How error lines of the program `mpsim` begin.
const MPSIM: &[u8] = b"mpsim: ";

/// Returns the name of a node, or an empty name if there is no such node.
pub fn node_name(net: &Network, node: u32) -> &[u8]
    ensures { result.now ≡ node_name (slice_get net.now.nodes node) }
{
    match net.nodes.as_slice().get(node as usize) {
        Some(node) => node.name.as_slice(),
        None => &[],
    }
}

/// Returns the name in the error line of a trace: the name of the missing column, or an empty name.
pub fn fault_name<'a>(net: &'a Network, fault: &TraceFault) -> &'a [u8]
    ensures { result.now ≡ fault_name net.now fault.now }
{
    match fault {
        TraceFault::MissingColumn { column } => {
            match net.columns.as_slice().get(*column as usize) {
                Some(name) => name.as_slice(),
                None => &[],
            }
        }
        _ => &[],
    }
}

/// Returns the name in the error line of an outcome: that of a missing column, or of the node that passed the bound
/// or has too many visits. For other outcomes it is empty.
pub fn name_of<'a>(net: &'a Network, outcome: &Outcome) -> &'a [u8]
    ensures { result.now ≡ name_of_outcome net.now outcome.now }
{
    match outcome {
        Outcome::Trace(fault) => fault_name(net, fault),
        Outcome::Past(fault) => node_name(net, fault.node),
        Outcome::Over(fault) => node_name(net, fault.node),
        _ => &[],
    }
}

// Writes these pieces, and returns whether all of them went out.
fn try_pieces<E: Sink>(err: &mut E, pieces: &[Piece<'_>]) -> Result<(), SinkFault>
    ensures ok { OnOk result (TakesFirst (E.taken err.old) (E.taken err.new) (E.sure err.old) (E.sure err.new) (pieces_text pieces.now) (length (pieces_text pieces.now))) }
    ensures err { OnErr result (TakesPrefix (E.taken err.old) (E.taken err.new) (E.sure err.old) (E.sure err.new) (pieces_text pieces.now)) }
    ensures later { E.faults err.old ≤ E.faults err.new }
    ensures rose { OnErr result (Rose (E.faults err.old) (E.faults err.new)) }
    ensures sure { length (pieces_text pieces.now) ≤ E.sure err.old → E.faults err.new ≡ E.faults err.old }
{
    let mut pending = Gather::new();
    add_pieces(err, &mut pending, pieces)?;
    flush(err, &mut pending)
}

/// Writes these pieces, which are one line or nothing. A failure to write them is ignored.
pub fn put_pieces<E: Sink>(err: &mut E, pieces: &[Piece<'_>])
    ensures { PutsLine E.taken E.sure E.faults err.old err.new (pieces_text pieces.now) }
{
    let _ = try_pieces(err, pieces);
}

/// Writes a line without numbers, which begins with a program's name.
pub fn put_text<'a, E: Sink>(err: &mut E, program: &'a [u8], text: &'a [u8])
    ensures { PutsLine E.taken E.sure E.faults err.old err.new (program.now ++ text.now ++ 10 ∷ []) }
{
    put_pieces(
        err,
        &[Piece::Text(program), Piece::Text(text), Piece::Text(b"\n")],
    );
}

// Writes a line with a name in it.
fn put_named<'a, E: Sink>(
    err: &mut E,
    program: &'a [u8],
    front: &'a [u8],
    name: &'a [u8],
    back: &'a [u8],
)
    ensures { PutsLine E.taken E.sure E.faults err.old err.new (program.now ++ front.now ++ name.now ++ back.now ++ 10 ∷ []) }
{
    put_pieces(
        err,
        &[
            Piece::Text(program),
            Piece::Text(front),
            Piece::Text(name),
            Piece::Text(back),
            Piece::Text(b"\n"),
        ],
    );
}

/// Writes a line with a number in it, which begins with a program's name.
pub fn put_numbered<'a, E: Sink>(
    err: &mut E,
    program: &'a [u8],
    front: &'a [u8],
    number: u32,
    back: &'a [u8],
)
    ensures { PutsLine E.taken E.sure E.faults err.old err.new (program.now ++ front.now ++ decimal number ++ back.now ++ 10 ∷ []) }
{
    put_pieces(
        err,
        &[
            Piece::Text(program),
            Piece::Text(front),
            Piece::Number(number as u128),
            Piece::Text(back),
            Piece::Text(b"\n"),
        ],
    );
}

// Writes a line with two numbers in it: the number of a line or record, and the number of one of its parts.
fn put_numbered_twice<'a, E: Sink>(
    err: &mut E,
    program: &'a [u8],
    front: &'a [u8],
    whole: u32,
    middle: &'a [u8],
    part: u32,
    back: &'a [u8],
)
    ensures { PutsLine E.taken E.sure E.faults err.old err.new (program.now ++ front.now ++ decimal whole ++ middle.now ++ decimal part ++ back.now ++ 10 ∷ []) }
{
    put_pieces(
        err,
        &[
            Piece::Text(program),
            Piece::Text(front),
            Piece::Number(whole as u128),
            Piece::Text(middle),
            Piece::Number(part as u128),
            Piece::Text(back),
            Piece::Text(b"\n"),
        ],
    );
}

// Writes the line of an error in the arguments.
fn put_usage_line<E: Sink>(err: &mut E, fault: &UsageFault)
    ensures { PutsLine E.taken E.sure E.faults err.old err.new (usage_line fault.now) }
{
    match fault {
        UsageFault::Words | UsageFault::Form => put_text(
            err,
            MPSIM,
            b"usage: mpsim MODEL TRACE [--workers N] [--block N] [--jobs] [--report N] \
            or mpsim --made N [--workers N] [--block N] [--jobs] [--report N]",
        ),
        UsageFault::Workers => put_text(err, MPSIM, b"--workers takes a whole number from 1 to 64"),
        UsageFault::Block => put_text(err, MPSIM, b"--block takes a whole number from 1 to 65536"),
        UsageFault::Made => put_text(
            err,
            MPSIM,
            b"--made takes a whole number from 0 to 18446744073709551615",
        ),
        UsageFault::Report => put_text(err, MPSIM, b"--report takes 1 or 2"),
    }
}

/// Writes the line of a node that passes the bound, which begins with a program's name, and `back` after it.
pub fn put_past_line<'a, E: Sink>(
    err: &mut E,
    program: &'a [u8],
    name: &'a [u8],
    fault: &PastFault,
    back: &'a [u8],
)
    ensures { PutsLine E.taken E.sure E.faults err.old err.new (past_line program.now name.now fault.now back.now) }
{
    put_pieces(
        err,
        &[
            Piece::Text(program),
            Piece::Text(b"node "),
            Piece::Text(name),
            Piece::Text(b" position "),
            Piece::Number(fault.position as u128),
            Piece::Text(b" passes the bound at time "),
            Piece::Number(fault.time as u128),
            Piece::Text(back),
            Piece::Text(b"\n"),
        ],
    );
}

/// Writes the line of a node with too many visits, which begins with a program's name, and `back` after it.
pub fn put_over_line<'a, E: Sink>(
    err: &mut E,
    program: &'a [u8],
    name: &'a [u8],
    fault: &OverFault,
    back: &'a [u8],
)
    ensures { PutsLine E.taken E.sure E.faults err.old err.new (over_line program.now name.now fault.now back.now) }
{
    put_pieces(
        err,
        &[
            Piece::Text(program),
            Piece::Text(b"node "),
            Piece::Text(name),
            Piece::Text(b" has "),
            Piece::Number(fault.count as u128),
            Piece::Text(b" visits"),
            Piece::Text(back),
            Piece::Text(b"\n"),
        ],
    );
}

/// Writes the line of an error in the model, which begins with a program's name.
pub fn put_model_line<'a, E: Sink>(err: &mut E, program: &'a [u8], fault: &ModelFault)
    ensures { PutsLine E.taken E.sure E.faults err.old err.new (model_line program.now fault.now) }
{
    let front = b"model line ";
    match fault {
        ModelFault::TooLong => put_text(err, program, b"model: longer than 65536 bytes"),
        ModelFault::BadByte { line } => {
            put_numbered(err, program, front, *line, b": byte not allowed")
        }
        ModelFault::BadHead { line } => put_numbered(
            err,
            program,
            front,
            *line,
            b": expected model 1 or model 2",
        ),
        ModelFault::BadLine { line, word } => put_numbered_twice(
            err,
            program,
            front,
            *line,
            b": word ",
            *word,
            b" not allowed",
        ),
        ModelFault::NameTwice { line } => {
            put_numbered(err, program, front, *line, b": name declared twice")
        }
        ModelFault::TooMany { line } => {
            put_numbered(err, program, front, *line, b": too many nodes or columns")
        }
        ModelFault::UnknownInput { line, input } => {
            put_numbered_twice(err, program, front, *line, b": input ", *input, b" unknown")
        }
        ModelFault::OutputTaken { line, input } => put_numbered_twice(
            err,
            program,
            front,
            *line,
            b": input ",
            *input,
            b" already read",
        ),
        ModelFault::NoSource => put_text(err, program, b"model: no source"),
        ModelFault::Cycle { line, .. } => put_numbered(
            err,
            program,
            front,
            *line,
            b": node on or behind a cycle",
        ),
        ModelFault::Memory => put_text(err, program, b"out of memory"),
    }
}

/// Writes the line of an error in the trace, which begins with a program's name and may contain the name of the
/// missing column.
pub fn put_trace_line<'a, E: Sink>(
    err: &mut E,
    program: &'a [u8],
    name: &'a [u8],
    fault: &TraceFault,
)
    ensures { PutsLine E.taken E.sure E.faults err.old err.new (trace_line program.now name.now fault.now) }
{
    let front = b"trace record ";
    match fault {
        TraceFault::TooLong => put_text(err, program, b"trace: longer than 134217728 bytes"),
        TraceFault::BadHeader { field } => put_numbered(
            err,
            program,
            b"trace header: field ",
            *field,
            b" not allowed",
        ),
        TraceFault::MissingColumn { .. } => {
            put_named(err, program, b"trace header: column ", name, b" missing")
        }
        TraceFault::TooManyRows => put_text(err, program, b"trace: more than 1048576 records"),
        TraceFault::BadCount { row } => {
            put_numbered(err, program, front, *row, b": wrong number of fields")
        }
        TraceFault::UnknownSource { row } => {
            put_numbered(err, program, front, *row, b": unknown source")
        }
        TraceFault::BadNumber { row, field } => put_numbered_twice(
            err,
            program,
            front,
            *row,
            b": field ",
            *field,
            b" is not a number in range",
        ),
        TraceFault::Memory => put_text(err, program, b"out of memory"),
    }
}

/// Writes the line of an outcome with the name that belongs in it, or nothing for `Done`. A failure to write it is
/// ignored.
pub fn put_line<E: Sink>(err: &mut E, name: &[u8], outcome: &Outcome)
    ensures { PutsLine E.taken E.sure E.faults err.old err.new (line_text name.now outcome.now) }
{
    match outcome {
        Outcome::Done => put_pieces(err, &[]),
        Outcome::Usage(fault) => put_usage_line(err, fault),
        Outcome::Model(fault) => put_model_line(err, MPSIM, fault),
        Outcome::Trace(fault) => put_trace_line(err, MPSIM, name, fault),
        Outcome::Past(fault) => put_past_line(err, MPSIM, name, fault, b""),
        Outcome::Over(fault) => put_over_line(err, MPSIM, name, fault, b""),
        Outcome::ReadFault { second: false } => put_text(err, MPSIM, b"cannot read the model"),
        Outcome::ReadFault { second: true } => put_text(err, MPSIM, b"cannot read the trace"),
        Outcome::WriteFault => put_text(err, MPSIM, b"cannot write the report"),
        Outcome::Memory => put_text(err, MPSIM, b"out of memory"),
    }
}
