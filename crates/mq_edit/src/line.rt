// The lines on the error output.
ghost use Rattle.std.specs.Prelude.{◌≡◌, ◌+◌, ◌++◌, ◌∷◌, [], codes, decimal};
ghost use Rattle.mq_outcome.specs.Lines.{PutsLine};
ghost use Rattle.mq_edit.specs.Lines.{edits_line, line_text, mpedit, name_of as name_of_outcome, not_allowed, which_run};

use crate::outcome::EditOutcome;
use mq_core::Network;
use mq_edits::EditFault;
use mq_outcome::{
    fault_name, node_name, put_model_line, put_numbered, put_over_line, put_past_line, put_pieces,
    put_text, put_trace_line,
};
use mq_outside::{Piece, Sink};

// How the lines of the program begin.
const MPEDIT: &[u8] = b"mpedit: ";

/// Returns the name in the line of an outcome: that of a missing column, or of the node that passed the bound or has
/// too many visits; empty for other outcomes.
pub fn name_of<'a>(net: &'a Network, outcome: &EditOutcome) -> &'a [u8]
    ensures { result.now ≡ name_of_outcome net.now outcome.now }
{
    match outcome {
        EditOutcome::Trace(fault) => fault_name(net, fault),
        EditOutcome::Over { fault, .. } => node_name(net, fault.node),
        EditOutcome::Past { fault, .. } => node_name(net, fault.node),
        _ => &[],
    }
}

fn which_run(edited: bool) -> &'static [u8]
    ensures { result.now ≡ which_run edited }
{
    if edited {
        b" after the edits"
    } else {
        b" before the edits"
    }
}

// Puts the line of a fault in a line of the edits.
fn put_not_allowed<E: Sink>(err: &mut E, line: u32)
    ensures { PutsLine E.taken E.sure E.faults err.old err.new (not_allowed line) }
{
    put_numbered(err, MPEDIT, b"edits line ", line, b": not allowed");
}

// Puts the line of a fault of the edits.
fn put_edits_line<E: Sink>(err: &mut E, fault: &EditFault)
    ensures { PutsLine E.taken E.sure E.faults err.old err.new (edits_line fault.now) }
{
    match fault {
        EditFault::TooLong => put_text(err, MPEDIT, b"edits: too long"),
        EditFault::BadLine { line, .. } => put_not_allowed(err, *line),
        EditFault::TooManyRows { line } => put_not_allowed(err, *line),
        EditFault::UnknownRow { line } => put_not_allowed(err, *line),
        EditFault::UnknownSource { line } => put_not_allowed(err, *line),
        EditFault::BadNumber { line, .. } => put_not_allowed(err, *line),
        EditFault::Memory => put_text(err, MPEDIT, b"out of memory"),
    }
}

// Puts the line of a file that can't be read.
fn put_unread<E: Sink>(err: &mut E, file: u8)
    ensures { PutsLine E.taken E.sure E.faults err.old err.new (mpedit ++ codes "cannot read file " ++ decimal (file + 1) ++ 10 ∷ []) }
{
    put_pieces(
        err,
        &[
            Piece::Text(MPEDIT),
            Piece::Text(b"cannot read file "),
            Piece::Number(file as u128 + 1),
            Piece::Text(b"\n"),
        ],
    );
}

/// Puts the line of an outcome, with the name that belongs in it; nothing after `Done`. A fault of the error output
/// changes nothing.
pub fn put_line<E: Sink>(err: &mut E, name: &[u8], outcome: &EditOutcome)
    ensures { PutsLine E.taken E.sure E.faults err.old err.new (line_text name.now outcome.now) }
{
    match outcome {
        EditOutcome::Done => put_pieces(err, &[]),
        EditOutcome::Usage => put_text(err, MPEDIT, b"usage: mpedit MODEL TRACE EDITS"),
        EditOutcome::Model(fault) => put_model_line(err, MPEDIT, fault),
        EditOutcome::Trace(fault) => put_trace_line(err, MPEDIT, name, fault),
        EditOutcome::Edits(fault) => put_edits_line(err, fault),
        EditOutcome::Over { edited, fault } => {
            put_over_line(err, MPEDIT, name, fault, which_run(*edited))
        }
        EditOutcome::Past { edited, fault } => {
            put_past_line(err, MPEDIT, name, fault, which_run(*edited))
        }
        EditOutcome::ReadFault { file } => put_unread(err, *file),
        EditOutcome::WriteFault => put_text(err, MPEDIT, b"cannot write the report"),
        EditOutcome::Memory => put_text(err, MPEDIT, b"out of memory"),
    }
}
