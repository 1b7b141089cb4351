// The lines of a text.
ghost use Rattle.std.specs.Prelude.{◌≡◌, ◌≤◌, [], IfErr, IfOk, None, length};
ghost use Rattle.mq_base.specs.Text.{lines_of};
ghost use Rattle.mq_model.specs.Front.{IsFront};
ghost use Rattle.mq_model.specs.Model.{Tells, lines_fault};

use crate::fault::ModelFault;
use crate::front::{Front, read_next};
use mq_base::{List, next_line};
use std::alloc::Global;

fn no_lines(alloc: Global) -> Front
    ensures { IsFront [] result }
{
    Front {
        has_head: false,
        version: 1,
        has_bound: false,
        saids: List::new(alloc),
        lines: List::new(alloc),
        names: List::new(alloc),
        columns: List::new(alloc),
    }
}

// Adds the lines of a text to an empty front.
fn add_lines(alloc: Global, text: &[u8], front: &mut Front) -> Result<(), ModelFault>
    requires short { length text.now ≤ 65536 }
    requires none { IsFront [] front.old }
    ensures ok { IfOk result (λ _. (lines_fault [] (lines_of text.now) ≡ None) × IsFront (lines_of text.now) front.new) }
    ensures err { IfErr result (λ e. Tells e (lines_fault [] (lines_of text.now))) }
{
    let mut from = 0;
    let mut number = 1u32;
    while let Some(span) = next_line(text, from) {
        read_next(alloc, &text[span.start..span.end], number, front)?;
        from = span.next;
        number += 1;
    }
    if !front.has_head {
        return Err(ModelFault::BadHead { line: number });
    }
    Ok(())
}

/// Reads the lines of a text of at most 65,536 bytes, and checks each line; inputs, sources and
/// cycles aren't checked.
pub fn read_lines(alloc: Global, text: &[u8]) -> Result<Front, ModelFault>
    requires { length text.now ≤ 65536 }
    ensures ok { IfOk result (λ front. (lines_fault [] (lines_of text.now) ≡ None) × IsFront (lines_of text.now) front) }
    ensures err { IfErr result (λ e. Tells e (lines_fault [] (lines_of text.now))) }
{
    let mut front = no_lines(alloc);
    match add_lines(alloc, text, &mut front) {
        Ok(()) => Ok(front),
        Err(fault) => {
            drop(front);
            Err(fault)
        }
    }
}
