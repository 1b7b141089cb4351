// The network that a generator draws, and its plan.
ghost use Rattle.std.specs.Prelude.{◌≡◌, ◌+◌, ◌++◌, ◌∷◌, ◌<◌, ◌≤◌, [], IfOk, OnOk, decimal, length};
ghost use Rattle.mq_core.specs.Sound.{outputs_in};
ghost use Rattle.rand_pcg.specs.Lcg.{Lcg};
ghost use Rattle.mq_gen.specs.Drawing.{with_generator};
ghost use Rattle.mq_model.specs.NetworkOf.{number_in};
ghost use Rattle.mq_model.specs.Said.{added, columns_after};
ghost use Rattle.mq_gen.specs.Made.{kind_by, mentions_of, network_from, next_section, no_sections, outputs_from, places_by, sections_from, source_node};

use crate::draws::draw;
use itoa::Buffer;
use mq_base::{List, OutOfMemory};
use mq_core::{Demand, Input, Kind, Network, Node, Plan, Route, Stage, outputs_of};
use mq_graph::{RankFault, rank};
use rand_pcg::Lcg64Xsh32;
use std::alloc::Global;
use std::mem;

// The nodes so far, the columns that they name, and the outputs that the next section reads.
#[derive(Drop)]
struct Sections {
    nodes: List<Node>,
    columns: List<List<u8>>,
    ends: List<Input>,
}

// Returns a letter and a number as a name.
fn numbered(alloc: Global, letter: u8, number: usize) -> Result<List<u8>, OutOfMemory>
    ensures { IfOk result (λ name. name ≡ letter ∷ decimal number) }
{
    let mut name = Vec::new(alloc);
    name.push(letter)?;
    name.extend_from_slice(Buffer::new().format(number).as_bytes())?;
    Ok(List::from_vec(name))
}

// Adds a source, and its output to those that the first section reads.
fn add_source(alloc: Global, sections: &mut Sections, node: u32) -> Result<(), OutOfMemory>
    ensures nodes { OnOk result (sections.new.nodes ≡ sections.old.nodes ++ source_node node ∷ []) }
    ensures columns { OnOk result (sections.new.columns ≡ sections.old.columns) }
    ensures ends { OnOk result (sections.new.ends ≡ sections.old.ends ++ record { node = node; out = 0 } ∷ []) }
{
    let name = numbered(alloc, b's', node as usize)?;
    sections.nodes.push(Node {
        name,
        kind: Kind::Source,
        inputs: List::new(alloc),
    })?;
    sections.ends.push(Input { node, out: 0 })
}

// Adds two sources to empty sections, and their outputs to those that the first section reads.
fn add_sources(alloc: Global, sections: &mut Sections) -> Result<(), OutOfMemory>
    requires nodes { sections.old.nodes ≡ [] }
    requires columns { sections.old.columns ≡ [] }
    requires ends { sections.old.ends ≡ [] }
    ensures { OnOk result ((generator : Lcg) → with_generator sections.new generator ≡ no_sections generator) }
{
    add_source(alloc, sections, 0)?;
    add_source(alloc, sections, 1)
}

// Returns the index of a column, or the number of columns if it isn't among them.
fn column_of(columns: &[List<u8>], name: &[u8]) -> usize
    ensures at { result ≡ number_in columns.now name.now }
    ensures within { result ≤ length columns.now }
{
    let mut index = 0;
    let mut left = columns;
    while let [first, rest @ ..] = left {
        if first.as_slice() == name {
            return index;
        }
        index += 1;
        left = rest;
    }
    index
}

// Adds a column unless it is there already.
#[tactic(auto, using(crate::proofs::Columns::added_behind, crate::proofs::Columns::added_among))]
fn mention(alloc: Global, columns: &mut List<List<u8>>, name: &[u8]) -> Result<(), OutOfMemory>
    ensures ok { OnOk result (columns.new ≡ added columns.old name.now) }
    ensures few { OnOk result (length columns.new ≤ length columns.old + 1) }
{
    if column_of(columns.as_slice(), name) == columns.len() {
        columns.push(List::from_vec(name.to_vec(alloc)?))?;
    }
    Ok(())
}

// Adds the columns that a section with this draw names.
fn mention_all(alloc: Global, columns: &mut List<List<u8>>, drawn: u32) -> Result<(), OutOfMemory>
    ensures ok { OnOk result (columns.new ≡ columns_after columns.old (mentions_of drawn)) }
    ensures few { OnOk result (length columns.new ≤ length columns.old + 2) }
{
    match drawn {
        0 | 2 => mention(alloc, columns, b"a"),
        1 => mention(alloc, columns, b"b"),
        3 | 4 => {
            mention(alloc, columns, b"a")?;
            mention(alloc, columns, b"b")
        }
        _ => Ok(()),
    }
}

// Returns the demand that is a job's value in the column of this name.
fn demand_in(columns: &[List<u8>], name: &[u8]) -> Demand
    requires { length columns.now ≤ 16 }
    ensures { result ≡ Demand.Column (number_in columns.now name.now) }
{
    Demand::Column(column_of(columns, name) as u8)
}

// Returns two stages, the second with this number of places.
fn stages(
    alloc: Global,
    first: Demand,
    places: u8,
    second: Demand,
) -> Result<List<Stage>, OutOfMemory>
    ensures { IfOk result (λ all. all ≡ record { places = 0; demand = first } ∷ record { places = places; demand = second } ∷ []) }
{
    let all = [
        Stage {
            places: 0,
            demand: first,
        },
        Stage {
            places,
            demand: second,
        },
    ];
    Ok(List::from_vec(Vec::from_slice(alloc, &all)?))
}

// Returns a branch of one server and a branch of two.
fn branches(
    alloc: Global,
    single: Demand,
    double: Demand,
) -> Result<List<List<Demand>>, OutOfMemory>
    ensures { IfOk result (λ all. all ≡ (single ∷ []) ∷ (double ∷ double ∷ []) ∷ []) }
{
    let mut all = Vec::with_capacity(alloc, 2)?;
    all.push_reserved(List::from_vec(Vec::from_slice(alloc, &[single])?));
    all.push_reserved(List::from_vec(Vec::from_slice(alloc, &[double, double])?));
    Ok(List::from_vec(all))
}

// Returns the kind of a section from its draw, over these columns, with this number of places if
// it has any.
fn kind_by(
    alloc: Global,
    columns: &[List<u8>],
    places: u32,
    drawn: u32,
) -> Result<Kind, OutOfMemory>
    requires few { length columns.now ≤ 16 }
    requires places { places ≤ 4 }
    ensures { IfOk result (λ kind. kind ≡ kind_by columns.now places drawn) }
{
    let a = demand_in(columns, b"a");
    let b = demand_in(columns, b"b");
    match drawn {
        0 => Ok(Kind::Server(a)),
        1 => Ok(Kind::Delay(b)),
        2 => Ok(Kind::Loss { places, demand: a }),
        3 => Ok(Kind::Tandem(stages(alloc, a, places as u8, b)?)),
        4 => Ok(Kind::ForkJoin(branches(alloc, a, b)?)),
        _ => Ok(Kind::Split(Route::Turn { outputs: 2 })),
    }
}

// Returns the number of places of a section: a loss station and a tandem draw 1 to 4, the others
// draw nothing.
fn places_by(drawn: u32, generator: &mut Lcg64Xsh32) -> u32
    ensures drawn { result ≡ (places_by drawn generator.old).0 }
    ensures moved { generator.new ≡ (places_by drawn generator.old).1 }
    ensures few { result ≤ 4 }
{
    match drawn {
        2 | 3 => draw(generator, 4) + 1,
        _ => 0,
    }
}

// Returns the outputs of a node, one or two.
fn outputs_from(alloc: Global, node: u32, kind: &Kind) -> Result<List<Input>, OutOfMemory>
    requires { outputs_in kind.now ≤ 8 }
    ensures { IfOk result (λ ends. ends ≡ outputs_from node kind.now) }
{
    let both = [Input { node, out: 0 }, Input { node, out: 1 }];
    let count = if outputs_of(kind) == 2 { 2 } else { 1 };
    Ok(List::from_vec(Vec::from_slice(alloc, &both[..count])?))
}

// Adds a section, which reads each output of the section before it.
fn add_section(
    alloc: Global,
    sections: &mut Sections,
    generator: &mut Lcg64Xsh32,
) -> Result<(), OutOfMemory>
    requires some { 2 ≤ length sections.old.nodes }
    requires few { length sections.old.nodes ≤ 64 }
    requires few_columns { length sections.old.columns ≤ 14 }
    ensures { OnOk result (with_generator sections.new generator.new ≡ next_section (with_generator sections.old generator.old)) }
{
    let drawn = draw(generator, 6);
    let places = places_by(drawn, generator);
    mention_all(alloc, &mut sections.columns, drawn)?;
    let kind = kind_by(alloc, sections.columns.as_slice(), places, drawn)?;
    let Ok(outputs) = outputs_from(alloc, sections.nodes.len() as u32, &kind) else {
        drop(kind);
        return Err(OutOfMemory);
    };
    let inputs = mem::replace(&mut sections.ends, outputs);
    let Ok(name) = numbered(alloc, b'n', sections.nodes.len() - 2) else {
        drop(kind);
        drop(inputs);
        return Err(OutOfMemory);
    };
    sections.nodes.push(Node { name, kind, inputs })
}

// Adds the 1 to 12 sections that a generator draws to empty sections.
fn add_sections(
    alloc: Global,
    sections: &mut Sections,
    generator: &mut Lcg64Xsh32,
) -> Result<(), OutOfMemory>
    requires nodes { sections.old.nodes ≡ [] }
    requires columns { sections.old.columns ≡ [] }
    requires ends { sections.old.ends ≡ [] }
    ensures { OnOk result (with_generator sections.new generator.new ≡ sections_from generator.old) }
{
    let count = draw(generator, 12) + 1;
    add_sources(alloc, sections)?;
    for _section in 0..count {
        add_section(alloc, sections, generator)?;
    }
    Ok(())
}

/// Returns the plan of the network that a generator draws, and leaves the generator after its
/// last draw.
pub(crate) fn made_plan(alloc: Global, generator: &mut Lcg64Xsh32) -> Result<Plan, OutOfMemory>
    ensures net { IfOk result (λ plan. plan.net ≡ network_from (sections_from generator.old)) }
    ensures moved { OnOk result (generator.new ≡ (sections_from generator.old).generator) }
{
    let mut sections = Sections {
        nodes: List::new(alloc),
        columns: List::new(alloc),
        ends: List::new(alloc),
    };
    add_sections(alloc, &mut sections, generator)?;
    let net = Network {
        nodes: sections.nodes,
        columns: sections.columns,
        bound: 1 << 60,
        version: 1,
    };
    drop(sections.ends);
    match rank(alloc, &net) {
        Ok(order) => Ok(Plan { net, order }),
        Err(RankFault::Cycle { .. }) => unreachable!("each section reads only nodes before it"),
        Err(RankFault::Memory) => Err(OutOfMemory),
    }
}
