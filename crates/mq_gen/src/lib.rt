//! Made inputs: for each number a valid model and a valid trace for it, always the same.
//!
//! One generator (PCG32, on stream 1, from the number) draws both: first the model, with two sources and 1 to 12 other nodes, then
//! 20,000 to 40,000 records.
#![tactic(auto)]

// Calls of `drop` spare proof: a call is proved once for a type, but what the end of a scope drops is proved again at each exit.

mod draws;
mod laws;
mod model;
mod trace;

ghost use Rattle.std.specs.Prelude.{◌≡◌, IfOk, OnOk};
ghost use Rattle.mq_model.specs.Printed.{printed};
ghost use Rattle.mq_gen.specs.Made.{made_model, made_trace, network_from, sections_from};

use crate::model::made_plan;
use crate::trace::made_records;
pub use laws::made_inputs_are_accepted;
use mq_base::{List, OutOfMemory};
use mq_model::print_model;
use rand_pcg::Lcg64Xsh32;
use std::alloc::Global;

/// A model text and a trace text for it, as bytes.
#[derive(Drop)]
pub struct MadeInput {
    pub model: List<u8>,
    pub trace: List<u8>,
}

// Returns the text of the model that a generator draws, and leaves the generator after its last draw.
fn made_text(alloc: Global, generator: &mut Lcg64Xsh32) -> Result<List<u8>, OutOfMemory>
    ensures text { IfOk result (λ text. text ≡ printed (network_from (sections_from generator.old))) }
    ensures moved { OnOk result (generator.new ≡ (sections_from generator.old).generator) }
{
    let plan = made_plan(alloc, generator)?;
    let text = print_model(alloc, &plan);
    drop(plan);
    text
}

/// Returns the made input of a number. The only error is out of memory.
pub fn made(alloc: Global, number: u64) -> Result<MadeInput, OutOfMemory>
    ensures model { IfOk result (λ input. input.model ≡ made_model number) }
    ensures trace { IfOk result (λ input. input.trace ≡ made_trace number) }
{
    let mut generator = Lcg64Xsh32::new(number, 1);
    let model = made_text(alloc, &mut generator)?;
    Ok(MadeInput {
        model,
        trace: made_records(alloc, &mut generator)?,
    })
}
