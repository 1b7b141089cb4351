// Classes of words (names, demands, inputs), and their values.
ghost use Rattle.std.specs.Prelude.{◌≡◌, IfOk, true};
ghost use Rattle.std.specs.List.{list_all};
ghost use Rattle.mq_core.specs.Names.{is_name, is_name_byte};
ghost use Rattle.mq_model.specs.Lines.{demand_of, input_of, is_demand, is_input, is_key};

use crate::said::{SaidDemand, SaidInput};
use mq_base::{List, read_number};
use std::alloc::{AllocError, Global};

/// The greatest demand and threshold.
pub const GREATEST_DEMAND: u64 = 1 << 36;

/// Returns a list of these bytes.
pub fn copied(alloc: Global, bytes: &[u8]) -> Result<List<u8>, AllocError>
    ensures { IfOk result (λ v. v ≡ bytes.now) }
{
    Ok(List::from_vec(bytes.to_vec(alloc)?))
}

/// Returns a list of these numbers.
pub fn copied_numbers(alloc: Global, numbers: &[u64]) -> Result<List<u64>, AllocError>
    ensures { IfOk result (λ v. v ≡ numbers.now) }
{
    Ok(List::from_vec(numbers.to_vec(alloc)?))
}

/// Returns whether a word is this key.
pub fn is_key(key: &[u8], word: &[u8]) -> bool
    ensures { result ≡ is_key key.now word.now }
{
    word == key
}

// Whether a name may contain these bytes after its first byte.
fn all_in_names(bytes: &[u8]) -> bool
    ensures { result ≡ list_all is_name_byte bytes.now }
{
    bytes.iter().all(|b| b.is_ascii_lowercase() || b.is_ascii_digit() || *b == b'_')
}

/// Returns whether a word is a name.
#[tactic(auto, using(crate::proofs::ReadFacts::names))]
pub fn is_name(word: &[u8]) -> bool
    ensures { result ≡ is_name word.now }
{
    let [first, more @ ..] = word else {
        return false;
    };
    if !first.is_ascii_lowercase() {
        return false;
    }
    if !all_in_names(more) {
        return false;
    }
    if more.len() >= 32 {
        return false;
    }
    word != b"from".as_slice()
}

/// Returns whether a word is a demand: a name, or `=` and a number up to 2^36.
pub fn is_demand(word: &[u8]) -> bool
    ensures { result ≡ is_demand word.now }
{
    match word {
        [] => false,
        [b'=', digits @ ..] => read_number(digits, GREATEST_DEMAND).is_some(),
        _ => is_name(word),
    }
}

/// Returns the demand that a word gives.
pub fn demand_said(alloc: Global, word: &[u8]) -> Result<SaidDemand, AllocError>
    ensures { IfOk result (λ d. is_demand word.now ≡ true → d ≡ demand_of word.now) }
{
    match word {
        [b'=', digits @ ..] => Ok(SaidDemand::Fixed(read_number(digits, GREATEST_DEMAND).unwrap_or(
            0,
        ))),
        _ => Ok(SaidDemand::Column(copied(alloc, word)?)),
    }
}

/// Returns whether a word is an input: a node's name, or a name, a dot and a digit from 0 to 7.
pub fn is_input(word: &[u8]) -> bool
    ensures { result ≡ is_input word.now }
{
    if is_name(word) {
        return true;
    }
    let [front @ .., point, out] = word else {
        return false;
    };
    if *point != b'.' || *out < b'0' || *out > b'7' {
        return false;
    }
    is_name(front)
}

/// Returns the input that a word gives.
pub fn input_said(alloc: Global, word: &[u8]) -> Result<SaidInput, AllocError>
    ensures { IfOk result (λ i. is_input word.now ≡ true → i ≡ input_of word.now) }
{
    if is_name(word) {
        return Ok(SaidInput {
            name: copied(alloc, word)?,
            out: 0,
        });
    }
    let [front @ .., _, out] = word else {
        return Ok(SaidInput {
            name: List::new(alloc),
            out: 0,
        });
    };
    Ok(SaidInput {
        name: copied(alloc, front)?,
        out: out.wrapping_sub(b'0'),
    })
}
