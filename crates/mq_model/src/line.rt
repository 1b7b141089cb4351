// Reads a line, by its first word.
ghost use Rattle.std.specs.Prelude.{◌≡◌, ◌∷◌, List, Err, MatchOption};
ghost use Rattle.mq_model.specs.Form.{Word, read, whole};
ghost use Rattle.mq_model.specs.Lines.{first_line, fork_kind, join_line, kind_line, line, node_line, source_line};
ghost use Rattle.mq_base.specs.Text.{texts};
ghost use Rattle.mq_model.specs.Reading.{Reads, ReadsLine, form_of};

use crate::parts::{Stop, read_demand, read_inputs, read_joined_inputs, read_name, read_within};
use crate::route::read_route;
use crate::said::{Said, SaidKind};
use crate::station::{read_forkjoin, read_loss, read_tandem, read_trunk};
use crate::word::is_key;
use mq_base::List;
use std::alloc::Global;

/// The first word of a line whose node reads 1 to 8 inputs.
#[derive(Clone, Copy)]
pub enum KindWord {
    Server,
    Delay,
    Loss,
    Tandem,
    ForkJoin,
    Split,
    Fork,
    Trunk,
}

// The kind that the first word of a line of version 1 names, if the node reads inputs.
fn kind_word(word: &[u8]) -> Option<KindWord>
    ensures { (all more : List Word) → all ≡ word.now ∷ more → MatchOption result (read kind_line all ≡ Err all) (λ first. read kind_line all ≡ read (node_line (form_of first)) more) }
{
    if is_key(b"server", word) {
        return Some(KindWord::Server);
    }
    if is_key(b"delay", word) {
        return Some(KindWord::Delay);
    }
    if is_key(b"loss", word) {
        return Some(KindWord::Loss);
    }
    if is_key(b"tandem", word) {
        return Some(KindWord::Tandem);
    }
    if is_key(b"forkjoin", word) {
        return Some(KindWord::ForkJoin);
    }
    if is_key(b"split", word) {
        return Some(KindWord::Split);
    }
    None
}

// Reads the number of outputs of a fork.
fn read_fork(words: &mut &[&[u8]]) -> Result<SaidKind, Stop>
    ensures { Reads result (texts words.new.now) (read fork_kind (texts words.old.now)) }
{
    let outputs = read_within(words, 2, 4)?;
    Ok(SaidKind::Fork {
        outputs: outputs as u8,
    })
}

// Reads the words between the name and the inputs.
fn read_kind(alloc: Global, words: &mut &[&[u8]], first: KindWord) -> Result<SaidKind, Stop>
    ensures { Reads result (texts words.new.now) (read (form_of first) (texts words.old.now)) }
{
    match first {
        KindWord::Server => Ok(SaidKind::Server(read_demand(alloc, words)?)),
        KindWord::Delay => Ok(SaidKind::Delay(read_demand(alloc, words)?)),
        KindWord::Loss => read_loss(alloc, words),
        KindWord::Tandem => read_tandem(alloc, words),
        KindWord::ForkJoin => read_forkjoin(alloc, words),
        KindWord::Split => Ok(SaidKind::Split(read_route(alloc, words)?)),
        KindWord::Fork => read_fork(words),
        KindWord::Trunk => read_trunk(alloc, words),
    }
}

// Reads the words after the first word of a node with inputs.
fn read_node(alloc: Global, words: &mut &[&[u8]], first: KindWord) -> Result<Said, Stop>
    ensures { Reads result (texts words.new.now) (read (node_line (form_of first)) (texts words.old.now)) }
{
    let name = read_name(alloc, words)?;
    let kind = read_kind(alloc, words, first)?;
    match read_inputs(alloc, words) {
        Ok(reads) => Ok(Said::Node { name, kind, reads }),
        Err(stop) => {
            drop(kind);
            Err(stop)
        }
    }
}

// Reads the words after `source`.
fn read_source(alloc: Global, words: &mut &[&[u8]]) -> Result<Said, Stop>
    ensures { Reads result (texts words.new.now) (read source_line (texts words.old.now)) }
{
    let name = read_name(alloc, words)?;
    Ok(Said::Node {
        name,
        kind: SaidKind::Source,
        reads: List::new(alloc),
    })
}

// Reads the words after `join`.
fn read_join(alloc: Global, words: &mut &[&[u8]]) -> Result<Said, Stop>
    ensures { Reads result (texts words.new.now) (read join_line (texts words.old.now)) }
{
    let name = read_name(alloc, words)?;
    let reads = read_joined_inputs(alloc, words)?;
    Ok(Said::Node {
        name,
        kind: SaidKind::Join,
        reads,
    })
}

// Reads a line of version 1 by its first word.
#[tactic(auto, using(crate::proofs::ReadFacts::choices), unfolding(crate::specs::Lines::first_line))]
fn read_first(alloc: Global, words: &mut &[&[u8]]) -> Result<Said, Stop>
    ensures { Reads result (texts words.new.now) (read first_line (texts words.old.now)) }
{
    let [word, rest @ ..] = *words else {
        return Err(Stop::Word);
    };
    if is_key(b"bound", word) {
        *words = rest;
        return Ok(Said::Bound(read_within(words, 0, 1 << 60)?));
    }
    if is_key(b"source", word) {
        *words = rest;
        return read_source(alloc, words);
    }
    let Some(first) = kind_word(word) else {
        return Err(Stop::Word);
    };
    *words = rest;
    read_node(alloc, words, first)
}

// Reads a line by its first word.
#[tactic(auto, using(crate::proofs::ReadFacts::choices), unfolding(crate::specs::Lines::line))]
fn read_any(alloc: Global, words: &mut &[&[u8]]) -> Result<Said, Stop>
    ensures { Reads result (texts words.new.now) (read line (texts words.old.now)) }
{
    let [word, rest @ ..] = *words else {
        return Err(Stop::Word);
    };
    if is_key(b"fork", word) {
        *words = rest;
        return read_node(alloc, words, KindWord::Fork);
    }
    if is_key(b"join", word) {
        *words = rest;
        return read_join(alloc, words);
    }
    if is_key(b"trunk", word) {
        *words = rest;
        return read_node(alloc, words, KindWord::Trunk);
    }
    read_first(alloc, words)
}

/// Why words aren't a line.
#[derive(Clone, Copy)]
pub enum LineFault {
    /// The number of the first wrong word, from 1: the words up to it begin no line.
    Word(usize),
    Memory,
}

/// Reads the words of a line. An error gives the number of the first wrong word.
pub fn read_line(alloc: Global, words: &[&[u8]]) -> Result<Said, LineFault>
    ensures { ReadsLine result (texts words.now) (whole (read line (texts words.now))) }
{
    let mut left = words;
    match read_any(alloc, &mut left) {
        Ok(said) => {
            if !left.is_empty() {
                drop(said);
                return Err(LineFault::Word(words.len() - left.len() + 1));
            }
            Ok(said)
        }
        Err(Stop::Word) => Err(LineFault::Word(words.len() - left.len() + 1)),
        Err(Stop::Memory) => Err(LineFault::Memory),
    }
}
