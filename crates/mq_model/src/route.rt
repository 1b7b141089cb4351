// The route of a split.
ghost use Rattle.std.specs.Prelude.{◌≡◌, MatchOption, false, true};
ghost use Rattle.mq_model.specs.Form.{read};
ghost use Rattle.mq_model.specs.Lines.{a_route, counted_route, cut_route, is_above, rising, thresholds, value_of, way_of};
ghost use Rattle.mq_base.specs.Text.{texts};
ghost use Rattle.mq_model.specs.Reading.{Reads, ReadsMore};

use crate::parts::{Stop, read_name, read_within};
use crate::said::SaidRoute;
use crate::word::{GREATEST_DEMAND, is_key};
use mq_base::{List, read_number};
use std::alloc::Global;

// The number that a word gives, if it is above `last` and at most 2^36.
fn number_above(word: &[u8], last: u64) -> Option<u64>
    ensures { MatchOption result (is_above last word.now ≡ false) (λ n. (is_above last word.now ≡ true) × (n ≡ value_of word.now)) }
{
    let Some(number) = read_number(word, GREATEST_DEMAND) else {
        return None;
    };
    if number <= last {
        return None;
    }
    Some(number)
}

// Adds the next thresholds, at most 6 and perhaps none. Each is above the one before, the first
// above `last`.
fn add_thresholds(words: &mut &[&[u8]], last: u64, cuts: &mut List<u64>) -> Result<(), Stop>
    ensures { ReadsMore result cuts.old cuts.new (texts words.new.now) (read (rising 6 last) (texts words.old.now)) }
{
    let mut last = last;
    for count in 0..6u8 {
        let [word, rest @ ..] = *words else {
            return Ok(());
        };
        let Some(next) = number_above(word, last) else {
            return Ok(());
        };
        cuts.push(next)?;
        last = next;
        *words = rest;
    }
    Ok(())
}

// Reads 1 to 7 thresholds, each above the one before.
fn read_thresholds(alloc: Global, words: &mut &[&[u8]]) -> Result<List<u64>, Stop>
    ensures { Reads result (texts words.new.now) (read thresholds (texts words.old.now)) }
{
    let first = read_within(words, 0, GREATEST_DEMAND)?;
    let mut cuts = List::new(alloc);
    cuts.push(first)?;
    add_thresholds(words, first, &mut cuts)?;
    Ok(cuts)
}

// Reads the words after `cut`.
fn read_cut(alloc: Global, words: &mut &[&[u8]]) -> Result<SaidRoute, Stop>
    ensures { Reads result (texts words.new.now) (read cut_route (texts words.old.now)) }
{
    let column = read_name(alloc, words)?;
    let thresholds = read_thresholds(alloc, words)?;
    Ok(SaidRoute::Cut { column, thresholds })
}

// Reads the words after the number of outputs.
#[tactic(auto, using(crate::proofs::ReadFacts::choices), unfolding(crate::specs::Lines::way_of))]
fn read_way(alloc: Global, words: &mut &[&[u8]], outputs: u8) -> Result<SaidRoute, Stop>
    ensures { Reads result (texts words.new.now) (read (way_of outputs) (texts words.old.now)) }
{
    let [word, rest @ ..] = *words else {
        return Err(Stop::Word);
    };
    if is_key(b"mod", word) {
        *words = rest;
        let column = read_name(alloc, words)?;
        return Ok(SaidRoute::Modulo { outputs, column });
    }
    if is_key(b"turn", word) {
        *words = rest;
        return Ok(SaidRoute::Turn { outputs });
    }
    Err(Stop::Word)
}

// Reads the number of outputs and the rest of a route.
fn read_counted(alloc: Global, words: &mut &[&[u8]]) -> Result<SaidRoute, Stop>
    ensures { Reads result (texts words.new.now) (read counted_route (texts words.old.now)) }
{
    let outputs = read_within(words, 2, 8)?;
    read_way(alloc, words, outputs as u8)
}

/// Reads the route of a split.
#[tactic(auto, using(crate::proofs::ReadFacts::choices), unfolding(crate::specs::Lines::a_route))]
pub fn read_route(alloc: Global, words: &mut &[&[u8]]) -> Result<SaidRoute, Stop>
    ensures { Reads result (texts words.new.now) (read a_route (texts words.old.now)) }
{
    let [word, rest @ ..] = *words else {
        return Err(Stop::Word);
    };
    if is_key(b"cut", word) {
        *words = rest;
        return read_cut(alloc, words);
    }
    read_counted(alloc, words)
}
