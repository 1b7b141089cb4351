// Checks the inputs and the sources of a text.
ghost use Rattle.std.specs.Prelude.{◌≡◌, ◌≤◌, ◌||◌, [], length, nat_lt};
ghost use Rattle.std.specs.List.{flat_map, list_any};
ghost use Rattle.mq_model.specs.Model.{inputs_fault};
ghost use Rattle.mq_model.specs.Placed.{AreNarrow, FaultOfReads, placed_inputs};
ghost use Rattle.mq_model.specs.Said.{gives, is_same_input, is_source, outputs_of, reads_of};

use crate::fault::ModelFault;
use crate::said::{Said, SaidInput, SaidKind, SaidRoute};

// Whether a node of this kind has an output of this number.
fn has_output(kind: &SaidKind, out: u8) -> bool
    ensures { result ≡ nat_lt out (outputs_of kind.now) }
{
    match kind {
        SaidKind::Source
        | SaidKind::Server(_)
        | SaidKind::Delay(_)
        | SaidKind::Tandem(_)
        | SaidKind::ForkJoin(_)
        | SaidKind::Join => out == 0,
        SaidKind::Loss { .. } | SaidKind::Trunk { .. } => out < 2,
        SaidKind::Split(SaidRoute::Modulo { outputs, .. })
        | SaidKind::Split(SaidRoute::Turn { outputs })
        | SaidKind::Fork { outputs } => out < *outputs,
        SaidKind::Split(SaidRoute::Cut { thresholds, .. }) => out as usize <= thresholds.len(),
    }
}

// Whether a line declares the node of an input, and the node has the output.
fn gives(input: &SaidInput, said: &Said) -> bool
    ensures { result ≡ gives input.now said.now }
{
    let Said::Node { name, kind, .. } = said else {
        return false;
    };
    if name.as_slice() != input.name.as_slice() {
        return false;
    }
    has_output(kind, input.out)
}

// Whether one of these lines declares the node of an input, and the node has the output.
fn is_given(saids: &[Said], input: &SaidInput) -> bool
    ensures { result ≡ list_any (gives input.now) saids.now }
{
    saids.iter().any(|said| gives(input, said))
}

// Whether two inputs name the same output.
fn is_same_input(a: &SaidInput, b: &SaidInput) -> bool
    ensures { result ≡ is_same_input a.now b.now }
{
    if a.name.as_slice() != b.name.as_slice() {
        return false;
    }
    a.out == b.out
}

// Whether one of these inputs names the same output.
fn is_read(reads: &[SaidInput], input: &SaidInput) -> bool
    ensures { result ≡ list_any (is_same_input input.now) reads.now }
{
    reads.iter().any(|other| is_same_input(input, other))
}

// The inputs of a line.
fn reads_of(said: &Said) -> &[SaidInput]
    ensures { result.now ≡ reads_of said.now }
{
    match said {
        Said::Bound(_) => &[],
        Said::Node { reads, .. } => reads.as_slice(),
    }
}

// Whether an input of one of these lines names the same output.
fn is_read_before(saids: &[Said], input: &SaidInput) -> bool
    ensures { result ≡ list_any (λ said. list_any (is_same_input input.now) (reads_of said)) saids.now }
{
    saids.iter().any(|said| is_read(reads_of(said), input))
}

// Whether an input of one of these lines, or one of these inputs, names the same output.
fn is_taken(saids: &[Said], reads: &[SaidInput], input: &SaidInput) -> bool
    ensures { result ≡ (list_any (λ said. list_any (is_same_input input.now) (reads_of said)) saids.now || list_any (is_same_input input.now) reads.now) }
{
    if is_read_before(saids, input) {
        return true;
    }
    is_read(reads, input)
}

// The first error in the inputs of a line that follows these lines.
fn reads_fault(
    saids: &[Said],
    before: &[Said],
    reads: &[SaidInput],
    line: u32,
) -> Option<ModelFault>
    requires { length reads.now ≤ 8 }
    ensures { FaultOfReads result saids.now (flat_map reads_of before.now) line 0 reads.now }
{
    for (port, input) in reads.iter().enumerate() {
        if !is_given(saids, input) {
            return Some(ModelFault::UnknownInput {
                line,
                input: port as u32,
            });
        }
        if is_taken(before, &reads[..port], input) {
            return Some(ModelFault::OutputTaken {
                line,
                input: port as u32,
            });
        }
    }
    None
}

/// Returns the first error in the inputs of these lines, which have these numbers.
pub fn inputs_fault(saids: &[Said], lines: &[u32]) -> Option<ModelFault>
    requires beside { length lines.now ≡ length saids.now }
    requires narrow { AreNarrow saids.now }
    ensures { result ≡ inputs_fault saids.now [] (placed_inputs lines.now saids.now) }
{
    for (at, said) in saids.iter().enumerate() {
        if let Some(fault) = reads_fault(saids, &saids[..at], reads_of(said), lines[at]) {
            return Some(fault);
        }
    }
    None
}

// Whether a line declares a source.
fn is_source(said: &Said) -> bool
    ensures { result ≡ is_source said.now }
{
    match said {
        Said::Node {
            kind: SaidKind::Source,
            ..
        } => true,
        _ => false,
    }
}

/// Returns whether a line declares a source.
pub fn has_source(saids: &[Said]) -> bool
    ensures { result ≡ list_any is_source saids.now }
{
    saids.iter().any(is_source)
}
