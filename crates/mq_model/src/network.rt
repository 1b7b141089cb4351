// The network that lines declare: names become numbers.
ghost use Rattle.std.specs.Prelude.{◌≡◌, ◌≤◌, ◌++◌, IfOk, length, map};
ghost use Rattle.std.specs.List.{flat_map};
ghost use Rattle.mq_model.specs.NetworkOf.{bound_of, demand_in, input_in, kind_in, network_of, nodes_in, number_in, route_in, stage_in};
ghost use Rattle.mq_model.specs.Said.{columns_of, names_of};

use crate::said::{Said, SaidDemand, SaidInput, SaidKind, SaidRoute, SaidStage};
use crate::word::{copied, copied_numbers};
use mq_base::{List, OutOfMemory};
use mq_core::{Demand, Input, Kind, Network, Node, Route, Stage};
use std::alloc::Global;

// The index of a name among these, or their count if it isn't among them.
fn number_in(names: &[List<u8>], name: &[u8]) -> usize
    ensures at { result ≡ number_in names.now name.now }
    ensures within { result ≤ length names.now }
{
    names
        .iter()
        .take_while(|other| other.as_slice() != name)
        .count()
}

// The index of a column among these, or their count if it isn't among them.
fn column_in(columns: &[List<u8>], name: &List<u8>) -> u8
    requires { length columns.now ≤ 16 }
    ensures { result ≡ number_in columns.now name.now }
{
    number_in(columns, name.as_slice()) as u8
}

// A demand, its column by number.
fn demand_in(columns: &[List<u8>], demand: &SaidDemand) -> Demand
    requires { length columns.now ≤ 16 }
    ensures { result ≡ demand_in columns.now demand.now }
{
    match demand {
        SaidDemand::Column(name) => Demand::Column(column_in(columns, name)),
        SaidDemand::Fixed(ticks) => Demand::Fixed(*ticks),
    }
}

// The route of a split, its column by number.
fn route_in(alloc: Global, columns: &[List<u8>], route: &SaidRoute) -> Result<Route, OutOfMemory>
    requires { length columns.now ≤ 16 }
    ensures { IfOk result (λ r. r ≡ route_in columns.now route.now) }
{
    match route {
        SaidRoute::Modulo { outputs, column } => Ok(Route::Modulo {
            outputs: *outputs,
            column: column_in(columns, column),
        }),
        SaidRoute::Turn { outputs } => Ok(Route::Turn { outputs: *outputs }),
        SaidRoute::Cut { column, thresholds } => Ok(Route::Cut {
            column: column_in(columns, column),
            thresholds: copied_numbers(alloc, thresholds.as_slice())?,
        }),
    }
}

// The stages of a tandem, their columns by number.
fn stages_in(
    alloc: Global,
    columns: &[List<u8>],
    stages: &[SaidStage],
) -> Result<List<Stage>, OutOfMemory>
    requires { length columns.now ≤ 16 }
    ensures { IfOk result (λ all. all ≡ map (stage_in columns.now) stages.now) }
{
    let mut all = List::new(alloc);
    for stage in stages {
        all.push(Stage {
            places: stage.places,
            demand: demand_in(columns, &stage.demand),
        })?;
    }
    Ok(all)
}

// The demands of a branch, their columns by number.
fn demands_in(
    alloc: Global,
    columns: &[List<u8>],
    demands: &[SaidDemand],
) -> Result<List<Demand>, OutOfMemory>
    requires { length columns.now ≤ 16 }
    ensures { IfOk result (λ all. all ≡ map (demand_in columns.now) demands.now) }
{
    let mut all = List::new(alloc);
    for demand in demands {
        all.push(demand_in(columns, demand))?;
    }
    Ok(all)
}

// The branches of a fork-join, their columns by number.
fn branches_in(
    alloc: Global,
    columns: &[List<u8>],
    branches: &[List<SaidDemand>],
) -> Result<List<List<Demand>>, OutOfMemory>
    requires { length columns.now ≤ 16 }
    ensures { IfOk result (λ all. all ≡ map (map (demand_in columns.now)) branches.now) }
{
    let mut all = List::new(alloc);
    for demands in branches {
        all.push(demands_in(alloc, columns, demands.as_slice())?)?;
    }
    Ok(all)
}

// The kind of a node, its columns by number.
fn kind_in(alloc: Global, columns: &[List<u8>], kind: &SaidKind) -> Result<Kind, OutOfMemory>
    requires { length columns.now ≤ 16 }
    ensures { IfOk result (λ k. k ≡ kind_in columns.now kind.now) }
{
    match kind {
        SaidKind::Source => Ok(Kind::Source),
        SaidKind::Server(demand) => Ok(Kind::Server(demand_in(columns, demand))),
        SaidKind::Delay(demand) => Ok(Kind::Delay(demand_in(columns, demand))),
        SaidKind::Loss { places, demand } => Ok(Kind::Loss {
            places: *places,
            demand: demand_in(columns, demand),
        }),
        SaidKind::Tandem(stages) => Ok(Kind::Tandem(stages_in(alloc, columns, stages.as_slice())?)),
        SaidKind::ForkJoin(branches) => Ok(Kind::ForkJoin(branches_in(
            alloc,
            columns,
            branches.as_slice(),
        )?)),
        SaidKind::Split(route) => Ok(Kind::Split(route_in(alloc, columns, route)?)),
        SaidKind::Fork { outputs } => Ok(Kind::Fork { outputs: *outputs }),
        SaidKind::Join => Ok(Kind::Join),
        SaidKind::Trunk { servers, demand } => Ok(Kind::Trunk {
            servers: *servers,
            demand: demand_in(columns, demand),
        }),
    }
}

// The inputs of a node, by port.
fn inputs_in(
    alloc: Global,
    names: &[List<u8>],
    reads: &[SaidInput],
) -> Result<List<Input>, OutOfMemory>
    requires { length names.now ≤ 64 }
    ensures { IfOk result (λ inputs. inputs ≡ map (input_in names.now) reads.now) }
{
    let mut inputs = List::new(alloc);
    for read in reads {
        inputs.push(Input {
            node: number_in(names, read.name.as_slice()) as u32,
            out: read.out,
        })?;
    }
    Ok(inputs)
}

// The node that a line declares, given its name and the names of all nodes and columns.
fn node_in(
    alloc: Global,
    names: &[List<u8>],
    columns: &[List<u8>],
    name: &List<u8>,
    kind: &SaidKind,
    reads: &[SaidInput],
) -> Result<Node, OutOfMemory>
    requires few { length names.now ≤ 64 }
    requires few_columns { length columns.now ≤ 16 }
    ensures { IfOk result (λ node. node ≡ record { name = name.now; kind = kind_in columns.now kind.now; inputs = map (input_in names.now) reads.now }) }
{
    let name = copied(alloc, name.as_slice())?;
    let inputs = inputs_in(alloc, names, reads)?;
    let kind = kind_in(alloc, columns, kind)?;
    Ok(Node { name, kind, inputs })
}

// Adds the node that a line declares, if it declares one.
fn add_node(
    alloc: Global,
    names: &[List<u8>],
    columns: &[List<u8>],
    said: &Said,
    nodes: &mut List<Node>,
) -> Result<(), OutOfMemory>
    requires few { length names.now ≤ 64 }
    requires few_columns { length columns.now ≤ 16 }
    ensures { IfOk result (λ _. nodes.new ≡ nodes.old ++ nodes_in names.now columns.now said.now) }
{
    let Said::Node { name, kind, reads } = said else {
        return Ok(());
    };
    nodes.push(node_in(alloc, names, columns, name, kind, reads.as_slice())?)?;
    Ok(())
}

// The nodes that lines declare, given the names of all nodes and columns.
fn nodes_in(
    alloc: Global,
    names: &[List<u8>],
    columns: &[List<u8>],
    saids: &[Said],
) -> Result<List<Node>, OutOfMemory>
    requires few { length names.now ≤ 64 }
    requires few_columns { length columns.now ≤ 16 }
    ensures { IfOk result (λ nodes. nodes ≡ flat_map (nodes_in names.now columns.now) saids.now) }
{
    let mut nodes = List::new(alloc);
    for said in saids {
        add_node(alloc, names, columns, said, &mut nodes)?;
    }
    Ok(nodes)
}

// The bound from the first line that gives one, or 2^60.
fn bound_of(saids: &[Said]) -> u64
    ensures { result ≡ bound_of saids.now }
{
    for said in saids {
        if let Said::Bound(bound) = said {
            return *bound;
        }
    }
    1 << 60
}

/// Returns the network that the lines of a text declare, given its version and the names of its nodes
/// and columns.
pub fn network_of(
    alloc: Global,
    version: u8,
    names: &[List<u8>],
    columns: List<List<u8>>,
    saids: &[Said],
) -> Result<Network, OutOfMemory>
    requires names { names.now ≡ names_of saids.now }
    requires columns { columns ≡ columns_of saids.now }
    requires few { length names.now ≤ 64 }
    requires few_columns { length columns ≤ 16 }
    ensures { IfOk result (λ net. net ≡ network_of version saids.now) }
{
    let nodes = nodes_in(alloc, names, columns.as_slice(), saids)?;
    Ok(Network {
        nodes,
        columns,
        bound: bound_of(saids),
        version,
    })
}
