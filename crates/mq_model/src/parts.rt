// Readers of the parts of a line that several kinds share. Each takes its words from the front of
// `words`.
ghost use Rattle.std.specs.Prelude.{◌≡◌, ◌<◌, ◌≤◌, IfOk};
ghost use Rattle.mq_model.specs.Form.{one, read, up_to};
ghost use Rattle.mq_model.specs.Lines.{a_demand, a_name, input_of, inputs, is_from_to, is_input, joined_inputs, key, value_of};
ghost use Rattle.mq_base.specs.Text.{texts};
ghost use Rattle.mq_model.specs.Reading.{Reads, ReadsMore};

use crate::said::{SaidDemand, SaidInput};
use crate::word::{copied, demand_said, input_said, is_demand, is_input, is_key, is_name};
use mq_base::{List, OutOfMemory, read_number};
use std::alloc::{AllocError, Global};

/// Why reading stopped.
#[derive(Clone, Copy)]
pub enum Stop {
    /// The next word doesn't fit, or is missing.
    Word,
    Memory,
}

impl From<AllocError> for Stop {
    ghost use Rattle.mq_model.specs.declared.parts.Stop.TheVariants.{Memory};
    ghost use Rattle.std.specs.Prelude.{◌≡◌};

    ghost from_gives = { λ _ e. e ≡ Memory };

    fn from(_: AllocError) -> Stop {
        Stop::Memory
    }
}

impl From<OutOfMemory> for Stop {
    ghost use Rattle.mq_model.specs.declared.parts.Stop.TheVariants.{Memory};
    ghost use Rattle.std.specs.Prelude.{◌≡◌};

    ghost from_gives = { λ _ e. e ≡ Memory };

    fn from(_: OutOfMemory) -> Stop {
        Stop::Memory
    }
}

/// Reads a name.
#[tactic(auto, using(crate::proofs::ReadFacts::reading))]
pub fn read_name(alloc: Global, words: &mut &[&[u8]]) -> Result<List<u8>, Stop>
    ensures { Reads result (texts words.new.now) (read a_name (texts words.old.now)) }
{
    let [word, rest @ ..] = *words else {
        return Err(Stop::Word);
    };
    if !is_name(word) {
        return Err(Stop::Word);
    }
    let name = copied(alloc, word)?;
    *words = rest;
    Ok(name)
}

/// Reads a demand.
#[tactic(auto, using(crate::proofs::ReadFacts::reading))]
pub fn read_demand(alloc: Global, words: &mut &[&[u8]]) -> Result<SaidDemand, Stop>
    ensures { Reads result (texts words.new.now) (read a_demand (texts words.old.now)) }
{
    let [word, rest @ ..] = *words else {
        return Err(Stop::Word);
    };
    if !is_demand(word) {
        return Err(Stop::Word);
    }
    let demand = demand_said(alloc, word)?;
    *words = rest;
    Ok(demand)
}

/// Reads this key.
#[tactic(auto, using(crate::proofs::ReadFacts::choices))]
pub fn read_key(words: &mut &[&[u8]], text: &[u8]) -> Result<(), Stop>
    ensures { Reads result (texts words.new.now) (read (key text.now) (texts words.old.now)) }
{
    let [word, rest @ ..] = *words else {
        return Err(Stop::Word);
    };
    if !is_key(text, word) {
        return Err(Stop::Word);
    }
    *words = rest;
    Ok(())
}

/// Reads a number between `least` and `most`.
#[tactic(auto, using(crate::proofs::ReadFacts::choices))]
pub fn read_within(words: &mut &[&[u8]], least: u64, most: u64) -> Result<u64, Stop>
    ensures reads { Reads result (texts words.new.now) (read (one (is_from_to least most) value_of) (texts words.old.now)) }
    ensures range { IfOk result (λ n. n ≤ most) }
{
    let [word, rest @ ..] = *words else {
        return Err(Stop::Word);
    };
    let Some(number) = read_number(word, most) else {
        return Err(Stop::Word);
    };
    if number < least {
        return Err(Stop::Word);
    }
    *words = rest;
    Ok(number)
}

// Adds the next inputs, at most 8 and perhaps none.
fn add_inputs(alloc: Global, words: &mut &[&[u8]], reads: &mut List<SaidInput>) -> Result<(), Stop>
    ensures { ReadsMore result reads.old reads.new (texts words.new.now) (read (up_to 8 is_input input_of) (texts words.old.now)) }
{
    for count in 0..8u8 {
        let [word, rest @ ..] = *words else {
            return Ok(());
        };
        if !is_input(word) {
            return Ok(());
        }
        reads.push(input_said(alloc, word)?)?;
        *words = rest;
    }
    Ok(())
}

/// Reads `from` and the 1 to 8 inputs that end a line.
pub fn read_inputs(alloc: Global, words: &mut &[&[u8]]) -> Result<List<SaidInput>, Stop>
    ensures { Reads result (texts words.new.now) (read inputs (texts words.old.now)) }
{
    read_key(words, b"from")?;
    let mut reads = List::new(alloc);
    add_inputs(alloc, words, &mut reads)?;
    if reads.is_empty() {
        return Err(Stop::Word);
    }
    Ok(reads)
}

/// Reads `from` and the 2 to 8 inputs that end the line of a join.
pub fn read_joined_inputs(alloc: Global, words: &mut &[&[u8]]) -> Result<List<SaidInput>, Stop>
    ensures { Reads result (texts words.new.now) (read joined_inputs (texts words.old.now)) }
{
    let reads = read_inputs(alloc, words)?;
    if reads.len() < 2 {
        return Err(Stop::Word);
    }
    Ok(reads)
}
