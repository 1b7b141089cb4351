// Prints the canonical text of a plan.
ghost use Rattle.std.specs.Prelude.{◌≡◌, ◌∷◌, ◌++◌, [], IfOk, List, OnOk, codes, decimal, map};
ghost use Rattle.std.specs.List.{flat_map};
ghost use Rattle.mq_model.specs.Form.{Word};
ghost use Rattle.mq_model.specs.Printed.{barred_words, branches_words, demand_word, first_word, input_word, inputs_words, kind_words, line_text, printed, reads_words, route_words, said_words, spaced, stage_words, stages_words};
ghost use Rattle.mq_model.specs.SaidOf.{demand_by, input_by, kind_by, name_at, names_in, node_by, route_by, stage_by};

use itoa::Buffer;
use mq_base::{List, OutOfMemory};
use mq_core::{Demand, Input, Kind, Network, Node, Plan, Route, Stage};
use std::alloc::Global;

// The name of a node, given its number; empty if there is no such node.
fn node_name(net: &Network, node: u32) -> &[u8]
    ensures { result.now ≡ name_at (names_in net.now) node }
{
    match net.nodes.as_slice().get(node as usize) {
        Some(node) => node.name.as_slice(),
        None => b"",
    }
}

// The name of a column, given its number; empty if there is no such column.
fn column_name(net: &Network, column: u8) -> &[u8]
    ensures { result.now ≡ name_at net.now.columns column }
{
    match net.columns.as_slice().get(column as usize) {
        Some(name) => name.as_slice(),
        None => b"",
    }
}

// Adds the decimal digits of a number.
fn push_digits(text: &mut Vec<u8>, number: u64) -> Result<(), OutOfMemory>
    ensures { OnOk result (text.new.items ≡ text.old.items ++ decimal number) }
{
    text.extend_from_slice(Buffer::new().format(number).as_bytes())?;
    Ok(())
}

// Adds a space and a word.
fn push_word(text: &mut Vec<u8>, word: &[u8]) -> Result<(), OutOfMemory>
    ensures { OnOk result (text.new.items ≡ text.old.items ++ 32 ∷ word.now) }
{
    text.push(b' ')?;
    text.extend_from_slice(word)?;
    Ok(())
}

// Adds a space and a number.
fn push_number(text: &mut Vec<u8>, number: u64) -> Result<(), OutOfMemory>
    ensures { OnOk result (text.new.items ≡ text.old.items ++ 32 ∷ decimal number) }
{
    text.push(b' ')?;
    push_digits(text, number)
}

// Adds a space and a demand: the name of its column, or `=` and its ticks.
fn push_demand(text: &mut Vec<u8>, net: &Network, demand: &Demand) -> Result<(), OutOfMemory>
    ensures { OnOk result (text.new.items ≡ text.old.items ++ 32 ∷ demand_word (demand_by net.now.columns demand.now)) }
{
    match demand {
        Demand::Column(column) => push_word(text, column_name(net, *column)),
        Demand::Fixed(ticks) => {
            push_word(text, b"=")?;
            push_digits(text, *ticks)
        }
    }
}

// Adds a space and an input: the name of its node, then a dot and its output unless that is 0.
fn push_input(text: &mut Vec<u8>, net: &Network, input: &Input) -> Result<(), OutOfMemory>
    ensures { OnOk result (text.new.items ≡ text.old.items ++ 32 ∷ input_word (input_by (names_in net.now) input.now)) }
{
    push_word(text, node_name(net, input.node))?;
    if input.out == 0 {
        return Ok(());
    }
    text.push(b'.')?;
    push_digits(text, input.out as u64)
}

// Adds `from` and the inputs, each after a space.
fn push_inputs(text: &mut Vec<u8>, net: &Network, inputs: &[Input]) -> Result<(), OutOfMemory>
    ensures { OnOk result (text.new.items ≡ text.old.items ++ spaced (inputs_words (map (input_by (names_in net.now)) inputs.now))) }
{
    push_word(text, b"from")?;
    for input in inputs {
        push_input(text, net, input)?;
    }
    Ok(())
}

// Adds numbers, each after a space.
fn push_numbers(text: &mut Vec<u8>, numbers: &[u64]) -> Result<(), OutOfMemory>
    ensures { OnOk result (text.new.items ≡ text.old.items ++ spaced (map decimal numbers.now)) }
{
    for number in numbers {
        push_number(text, *number)?;
    }
    Ok(())
}

// Adds the route of a split.
fn push_route(text: &mut Vec<u8>, net: &Network, route: &Route) -> Result<(), OutOfMemory>
    ensures { OnOk result (text.new.items ≡ text.old.items ++ spaced (route_words (route_by net.now.columns route.now))) }
{
    match route {
        Route::Modulo { outputs, column } => {
            push_number(text, *outputs as u64)?;
            push_word(text, b"mod")?;
            push_word(text, column_name(net, *column))
        }
        Route::Turn { outputs } => {
            push_number(text, *outputs as u64)?;
            push_word(text, b"turn")
        }
        Route::Cut { column, thresholds } => {
            push_word(text, b"cut")?;
            push_word(text, column_name(net, *column))?;
            push_numbers(text, thresholds.as_slice())
        }
    }
}

// Adds a slash, and the places and the demand of a stage.
fn push_stage(text: &mut Vec<u8>, net: &Network, stage: &Stage) -> Result<(), OutOfMemory>
    ensures { OnOk result (text.new.items ≡ text.old.items ++ spaced (stage_words (stage_by net.now.columns stage.now))) }
{
    push_word(text, b"/")?;
    push_number(text, stage.places as u64)?;
    push_demand(text, net, &stage.demand)
}

// Adds the stages after the first.
fn push_further(text: &mut Vec<u8>, net: &Network, stages: &[Stage]) -> Result<(), OutOfMemory>
    ensures { OnOk result (text.new.items ≡ text.old.items ++ spaced (flat_map stage_words (map (stage_by net.now.columns) stages.now))) }
{
    for stage in stages {
        push_stage(text, net, stage)?;
    }
    Ok(())
}

// Adds the stages of a tandem, the first without its places.
fn push_stages(text: &mut Vec<u8>, net: &Network, stages: &[Stage]) -> Result<(), OutOfMemory>
    ensures { OnOk result (text.new.items ≡ text.old.items ++ spaced (stages_words (map (stage_by net.now.columns) stages.now))) }
{
    let [first, further @ ..] = stages else {
        return Ok(());
    };
    push_demand(text, net, &first.demand)?;
    push_further(text, net, further)
}

// Adds demands, each after a space.
fn push_demands(text: &mut Vec<u8>, net: &Network, demands: &[Demand]) -> Result<(), OutOfMemory>
    ensures { OnOk result (text.new.items ≡ text.old.items ++ spaced (map demand_word (map (demand_by net.now.columns) demands.now))) }
{
    for demand in demands {
        push_demand(text, net, demand)?;
    }
    Ok(())
}

// Adds a bar and the demands of a branch.
fn push_barred(text: &mut Vec<u8>, net: &Network, demands: &[Demand]) -> Result<(), OutOfMemory>
    ensures { OnOk result (text.new.items ≡ text.old.items ++ spaced (barred_words (map (demand_by net.now.columns) demands.now))) }
{
    push_word(text, b"|")?;
    push_demands(text, net, demands)
}

// Adds the branches after the first.
fn push_further_branches(
    text: &mut Vec<u8>,
    net: &Network,
    branches: &[List<Demand>],
) -> Result<(), OutOfMemory>
    ensures { OnOk result (text.new.items ≡ text.old.items ++ spaced (flat_map barred_words (map (map (demand_by net.now.columns)) branches.now))) }
{
    for demands in branches {
        push_barred(text, net, demands.as_slice())?;
    }
    Ok(())
}

// Adds the branches of a fork-join, the first without a bar.
fn push_branches(
    text: &mut Vec<u8>,
    net: &Network,
    branches: &[List<Demand>],
) -> Result<(), OutOfMemory>
    ensures { OnOk result (text.new.items ≡ text.old.items ++ spaced (branches_words (map (map (demand_by net.now.columns)) branches.now))) }
{
    let [first, further @ ..] = branches else {
        return Ok(());
    };
    push_demands(text, net, first.as_slice())?;
    push_further_branches(text, net, further)
}

// The first word of a node's line.
fn first_word(kind: &Kind) -> &[u8]
    ensures { (columns : List Word) → result.now ≡ first_word (kind_by columns kind.now) }
{
    match kind {
        Kind::Source => b"source",
        Kind::Server(_) => b"server",
        Kind::Delay(_) => b"delay",
        Kind::Loss { .. } => b"loss",
        Kind::Tandem(_) => b"tandem",
        Kind::ForkJoin(_) => b"forkjoin",
        Kind::Split(_) => b"split",
        Kind::Fork { .. } => b"fork",
        Kind::Join => b"join",
        Kind::Trunk { .. } => b"trunk",
    }
}

// Adds the words between the name and the inputs.
fn push_kind(text: &mut Vec<u8>, net: &Network, kind: &Kind) -> Result<(), OutOfMemory>
    ensures { OnOk result (text.new.items ≡ text.old.items ++ spaced (kind_words (kind_by net.now.columns kind.now))) }
{
    match kind {
        Kind::Source | Kind::Join => Ok(()),
        Kind::Server(demand) | Kind::Delay(demand) => push_demand(text, net, demand),
        Kind::Loss { places, demand } => {
            push_number(text, *places as u64)?;
            push_demand(text, net, demand)
        }
        Kind::Tandem(stages) => push_stages(text, net, stages.as_slice()),
        Kind::ForkJoin(branches) => push_branches(text, net, branches.as_slice()),
        Kind::Split(route) => push_route(text, net, route),
        Kind::Fork { outputs } => push_number(text, *outputs as u64),
        Kind::Trunk { servers, demand } => {
            push_number(text, *servers as u64)?;
            push_demand(text, net, demand)
        }
    }
}

// Adds the inputs of a node, unless it is a source.
fn push_reads(text: &mut Vec<u8>, net: &Network, node: &Node) -> Result<(), OutOfMemory>
    ensures { OnOk result (text.new.items ≡ text.old.items ++ spaced (reads_words (kind_by net.now.columns node.now.kind) (map (input_by (names_in net.now)) node.now.inputs))) }
{
    match &node.kind {
        Kind::Source => Ok(()),
        _ => push_inputs(text, net, node.inputs.as_slice()),
    }
}

// Adds a node's line.
fn push_node(text: &mut Vec<u8>, net: &Network, node: &Node) -> Result<(), OutOfMemory>
    ensures { OnOk result (text.new.items ≡ text.old.items ++ line_text (said_words (node_by (names_in net.now) net.now.columns node.now))) }
{
    text.extend_from_slice(first_word(&node.kind))?;
    push_word(text, node.name.as_slice())?;
    push_kind(text, net, &node.kind)?;
    push_reads(text, net, node)?;
    text.push(b'\n')?;
    Ok(())
}

// Adds the head and the bound.
fn push_head(text: &mut Vec<u8>, version: u8, bound: u64) -> Result<(), OutOfMemory>
    ensures { OnOk result (text.new.items ≡ text.old.items ++ codes "model " ++ decimal version ++ codes "\nbound " ++ decimal bound ++ 10 ∷ []) }
{
    text.extend_from_slice(b"model ")?;
    push_digits(text, version as u64)?;
    text.extend_from_slice(b"\nbound ")?;
    push_digits(text, bound)?;
    text.push(b'\n')?;
    Ok(())
}

/// Returns the canonical text of a plan, which `read_model` reads as the same network.
///
/// The text contains the head, the bound, and one line per node in order of declaration. Words are
/// separated by one space, and numbers have no leading zeros. The only error is that memory runs
/// out.
pub fn print_model(alloc: Global, plan: &Plan) -> Result<List<u8>, OutOfMemory>
    ensures { IfOk result (λ text. text ≡ printed plan.now.net) }
{
    let net = &plan.net;
    let mut text = Vec::new(alloc);
    push_head(&mut text, net.version, net.bound)?;
    for node in net.nodes.as_slice() {
        push_node(&mut text, net, node)?;
    }
    Ok(List::from_vec(text))
}
