// What the lines read so far say, and how the next line is added.
ghost use Rattle.std.specs.Prelude.{◌≡◌, ◌≤◌, ◌++◌, IfErr, IfOk, None, Ok, length};
ghost use Rattle.std.specs.List.{flat_map, list_all};
ghost use Rattle.mq_base.specs.Text.{words_of, texts};
ghost use Rattle.mq_model.specs.Form.{read, whole};
ghost use Rattle.mq_model.specs.Front.{AddsLine, added_fault, grammar_fault, name_fault, with_names, with_said};
ghost use Rattle.mq_model.specs.Head.{begins_comment, is_head, is_version, version_said};
ghost use Rattle.mq_model.specs.Lines.{line};
ghost use Rattle.mq_model.specs.Model.{Tells, begins_bound, begins_later, is_allowed, is_barred};
ghost use Rattle.mq_model.specs.Said.{added, columns_after, declared, is_among, mentioned, mentions_of_demand};

use crate::fault::ModelFault;
use crate::line::{LineFault, read_line};
use crate::said::{Said, SaidDemand, SaidKind, SaidRoute, SaidStage};
use crate::word::{copied, is_key};
use mq_base::{List, OutOfMemory, next_word};
use std::alloc::Global;

/// What the lines read so far say: whether there are a head and a bound, each line of the grammar
/// with its number, and the names of nodes and columns in order of declaration and of first mention.
/// The version is 1 until a head gives it.
#[derive(Drop)]
pub struct Front {
    pub has_head: bool,
    pub version: u8,
    pub has_bound: bool,
    pub saids: List<Said>,
    pub lines: List<u32>,
    pub names: List<List<u8>>,
    pub columns: List<List<u8>>,
}

/// Splits a line into its words.
pub fn split_words<'a>(alloc: Global, line: &'a [u8]) -> Result<Vec<&'a [u8]>, OutOfMemory>
    ensures words { IfOk result (λ v. texts v.items ≡ words_of line.now) }
    ensures few { IfOk result (λ v. length v.items ≤ length line.now) }
{
    let mut words = Vec::new(alloc);
    let mut from = 0;
    while let Some(span) = next_word(line, from, line.len()) {
        words.push(&line[span.start..span.end])?;
        from = span.next;
    }
    Ok(words)
}

// Whether a line may contain these bytes.
fn all_allowed(line: &[u8]) -> bool
    ensures { result ≡ list_all is_allowed line.now }
{
    line.iter().all(|b| *b == b'\t' || (*b >= 32 && *b <= 126))
}

// Whether a line with these words is empty or a comment.
fn begins_comment(words: &[&[u8]]) -> bool
    ensures { result ≡ begins_comment (texts words.now) }
{
    let [word, ..] = words else {
        return true;
    };
    let [first, ..] = *word else {
        return false;
    };
    *first == b'#'
}

// Whether a word is the number of a version.
fn is_version(word: &[u8]) -> bool
    ensures { result ≡ is_version word.now }
{
    if is_key(b"1", word) {
        return true;
    }
    is_key(b"2", word)
}

// Whether these words are a head.
fn is_head(words: &[&[u8]]) -> bool
    ensures { result ≡ is_head (texts words.now) }
{
    if words.len() != 2 {
        return false;
    }
    if !is_key(b"model", words[0]) {
        return false;
    }
    is_version(words[1])
}

// The version that the words of a head give.
fn version_said(words: &[&[u8]]) -> u8
    ensures { result ≡ version_said (texts words.now) }
{
    if words.len() < 2 {
        return 1;
    }
    if is_key(b"2", words[1]) { 2 } else { 1 }
}

// Whether a line begins with `bound`.
fn begins_bound(words: &[&[u8]]) -> bool
    ensures { result ≡ begins_bound (texts words.now) }
{
    let Some(word) = words.first() else {
        return false;
    };
    is_key(b"bound", word)
}

// Whether a line begins with a word that version 1 doesn't have.
fn begins_later(words: &[&[u8]]) -> bool
    ensures { result ≡ begins_later (texts words.now) }
{
    let [word, ..] = words else {
        return false;
    };
    if is_key(b"fork", word) {
        return true;
    }
    if is_key(b"join", word) {
        return true;
    }
    is_key(b"trunk", word)
}

// Whether the first word of a line is barred: `bound` after an earlier bound, or a word of version 2
// in a model of version 1.
fn is_barred(words: &[&[u8]], has_bound: bool, version: u8) -> bool
    ensures { result ≡ is_barred has_bound version (texts words.now) }
{
    if has_bound && begins_bound(words) {
        return true;
    }
    version < 2 && begins_later(words)
}

// Whether a name is among these.
fn is_among(names: &[List<u8>], name: &[u8]) -> bool
    ensures { result ≡ is_among names.now name.now }
{
    names.iter().any(|other| other.as_slice() == name)
}

// Adds the name of the node that a line declares.
fn add_name(
    alloc: Global,
    said: &Said,
    number: u32,
    names: &mut List<List<u8>>,
) -> Result<(), ModelFault>
    ensures ok { IfOk result (λ _. (name_fault number names.old said.now ≡ None) × (names.new ≡ names.old ++ declared said.now)) }
    ensures err { IfErr result (λ e. Tells e (name_fault number names.old said.now)) }
{
    let Said::Node { name, .. } = said else {
        return Ok(());
    };
    if is_among(names.as_slice(), name.as_slice()) {
        return Err(ModelFault::NameTwice { line: number });
    }
    if names.len() >= 64 {
        return Err(ModelFault::TooMany { line: number });
    }
    names.push(copied(alloc, name.as_slice())?)?;
    Ok(())
}

// Adds a column, unless it is among these.
fn add_column(
    alloc: Global,
    name: &List<u8>,
    columns: &mut List<List<u8>>,
) -> Result<(), OutOfMemory>
    ensures { IfOk result (λ _. columns.new ≡ added columns.old name.now) }
{
    if !is_among(columns.as_slice(), name.as_slice()) {
        columns.push(copied(alloc, name.as_slice())?)?;
    }
    Ok(())
}

// Adds the column of a demand, if it has one.
fn add_of_demand(
    alloc: Global,
    demand: &SaidDemand,
    columns: &mut List<List<u8>>,
) -> Result<(), OutOfMemory>
    ensures { IfOk result (λ _. columns.new ≡ columns_after columns.old (mentions_of_demand demand.now)) }
{
    match demand {
        SaidDemand::Column(column) => add_column(alloc, column, columns),
        SaidDemand::Fixed(_) => Ok(()),
    }
}

// Adds the columns of the demands of these stages.
fn add_of_stages(
    alloc: Global,
    stages: &[SaidStage],
    columns: &mut List<List<u8>>,
) -> Result<(), OutOfMemory>
    ensures { IfOk result (λ _. columns.new ≡ columns_after columns.old (flat_map (λ (stage : SaidStage). mentions_of_demand stage.demand) stages.now)) }
{
    for stage in stages {
        add_of_demand(alloc, &stage.demand, columns)?;
    }
    Ok(())
}

// Adds the columns of these demands.
fn add_of_demands(
    alloc: Global,
    demands: &[SaidDemand],
    columns: &mut List<List<u8>>,
) -> Result<(), OutOfMemory>
    ensures { IfOk result (λ _. columns.new ≡ columns_after columns.old (flat_map mentions_of_demand demands.now)) }
{
    for demand in demands {
        add_of_demand(alloc, demand, columns)?;
    }
    Ok(())
}

// Adds the columns of the demands of these branches.
#[tactic(auto, using(crate::proofs::FrontFacts::columns))]
fn add_of_branches(
    alloc: Global,
    branches: &[List<SaidDemand>],
    columns: &mut List<List<u8>>,
) -> Result<(), OutOfMemory>
    ensures { IfOk result (λ _. columns.new ≡ columns_after columns.old (flat_map (λ demands. flat_map mentions_of_demand demands) branches.now)) }
{
    for demands in branches {
        add_of_demands(alloc, demands.as_slice(), columns)?;
    }
    Ok(())
}

// Adds the columns that a line mentions.
fn add_columns(alloc: Global, said: &Said, columns: &mut List<List<u8>>) -> Result<(), OutOfMemory>
    ensures { IfOk result (λ _. columns.new ≡ columns_after columns.old (mentioned said.now)) }
{
    let Said::Node { kind, .. } = said else {
        return Ok(());
    };
    match kind {
        SaidKind::Source | SaidKind::Fork { .. } | SaidKind::Join => Ok(()),
        SaidKind::Server(demand)
        | SaidKind::Delay(demand)
        | SaidKind::Loss { demand, .. }
        | SaidKind::Trunk { demand, .. } => add_of_demand(alloc, demand, columns),
        SaidKind::Tandem(stages) => add_of_stages(alloc, stages.as_slice(), columns),
        SaidKind::ForkJoin(branches) => add_of_branches(alloc, branches.as_slice(), columns),
        SaidKind::Split(SaidRoute::Modulo { column, .. })
        | SaidKind::Split(SaidRoute::Cut { column, .. }) => add_column(alloc, column, columns),
        SaidKind::Split(SaidRoute::Turn { .. }) => Ok(()),
    }
}

// Returns what the words of a line say, or the line's error.
fn read_words(
    alloc: Global,
    words: &[&[u8]],
    number: u32,
    has_bound: bool,
    version: u8,
) -> Result<Said, ModelFault>
    requires { length words.now ≤ 65536 }
    ensures ok { IfOk result (λ said. (grammar_fault number has_bound version (texts words.now) ≡ None) × (whole (read line (texts words.now)) ≡ Ok said)) }
    ensures err { IfErr result (λ e. Tells e (grammar_fault number has_bound version (texts words.now))) }
{
    if is_barred(words, has_bound, version) {
        return Err(ModelFault::BadLine {
            line: number,
            word: 1,
        });
    }
    match read_line(alloc, words) {
        Ok(said) => Ok(said),
        Err(LineFault::Word(word)) => Err(ModelFault::BadLine {
            line: number,
            word: word as u32,
        }),
        Err(LineFault::Memory) => Err(ModelFault::Memory),
    }
}

// Adds the name of the node that a line declares, and the columns that it mentions.
fn add_names(alloc: Global, said: &Said, number: u32, front: &mut Front) -> Result<(), ModelFault>
    ensures ok { IfOk result (λ _. (added_fault front.old number said.now ≡ None) × (front.new ≡ with_names front.old said.now)) }
    ensures err { IfErr result (λ e. Tells e (added_fault front.old number said.now)) }
{
    add_name(alloc, said, number, &mut front.names)?;
    add_columns(alloc, said, &mut front.columns)?;
    if front.columns.len() > 16 {
        return Err(ModelFault::TooMany { line: number });
    }
    Ok(())
}

// Adds what a line says.
fn add_said(alloc: Global, said: Said, number: u32, front: &mut Front) -> Result<(), ModelFault>
    ensures ok { IfOk result (λ _. (added_fault front.old number said ≡ None) × (front.new ≡ with_said front.old number said)) }
    ensures err { IfErr result (λ e. Tells e (added_fault front.old number said)) }
{
    if let Err(fault) = add_names(alloc, &said, number, front) {
        drop(said);
        return Err(fault);
    }
    front.saids.push(said)?;
    front.lines.push(number)?;
    Ok(())
}

// Adds the next line, given its words.
fn add_line(
    alloc: Global,
    line: &[u8],
    words: &[&[u8]],
    number: u32,
    front: &mut Front,
) -> Result<(), ModelFault>
    requires words { texts words.now ≡ words_of line.now }
    requires few { length words.now ≤ 65536 }
    ensures { AddsLine result number line.now front.old front.new }
{
    if begins_comment(words) {
        return Ok(());
    }
    if !all_allowed(line) {
        return Err(ModelFault::BadByte { line: number });
    }
    if !front.has_head {
        if !is_head(words) {
            return Err(ModelFault::BadHead { line: number });
        }
        front.has_head = true;
        front.version = version_said(words);
        return Ok(());
    }
    let said = read_words(alloc, words, number, front.has_bound, front.version)?;
    front.has_bound |= begins_bound(words);
    add_said(alloc, said, number, front)
}

/// Reads the next line and adds what it says.
pub fn read_next(
    alloc: Global,
    line: &[u8],
    number: u32,
    front: &mut Front,
) -> Result<(), ModelFault>
    requires { length line.now ≤ 65536 }
    ensures { AddsLine result number line.now front.old front.new }
{
    let words = split_words(alloc, line)?;
    add_line(alloc, line, words.as_slice(), number, front)
}
