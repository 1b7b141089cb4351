// Reads a model from its text.
ghost use Rattle.std.specs.Prelude.{◌≡◌, ◌≤◌, [], IfErr, IfOk, IsTrue, None, get_or, length, nat_lt};
ghost use Rattle.std.specs.Option.{option_or};
ghost use Rattle.mq_core.specs.Sound.{is_sound};
ghost use Rattle.mq_core.specs.Wiring.{ranking};
ghost use Rattle.mq_graph.specs.Rank.{AreWired, HasAll};
ghost use Rattle.mq_model.specs.Model.{Tells, inputs_fault, model_fault, source_fault};
ghost use Rattle.mq_model.specs.NetworkOf.{network_in, network_of, nodes_of, without_mark};
ghost use Rattle.mq_model.specs.Placed.{AreNarrow, cycle_of, declaring, placed_inputs};
ghost use Rattle.mq_model.specs.Said.{columns_of, declared, names_of};

use crate::fault::ModelFault;
use crate::front::Front;
use crate::inputs::{has_source, inputs_fault};
use crate::network::network_of;
use crate::said::Said;
use crate::text::read_lines;
use mq_base::List;
use mq_core::{Network, Plan};
use mq_graph::{RankFault, rank};
use std::alloc::Global;
use std::mem;

/// Returns a text without the byte order mark at its start, if it has one.
pub fn without_mark(text: &[u8]) -> &[u8]
    ensures { result.now ≡ without_mark text.now }
{
    match text {
        [0xEF, 0xBB, 0xBF, rest @ ..] => rest,
        _ => text,
    }
}

fn is_node(said: &Said) -> bool
    ensures { result ≡ nat_lt 0 (length (declared said.now)) }
{
    match said {
        Said::Bound(_) => false,
        Said::Node { .. } => true,
    }
}

// The number of the line that declares a node.
fn line_of(saids: &[Said], lines: &[u32], node: u32) -> u32
    requires { length lines.now ≡ length saids.now }
    ensures { result ≡ get_or (declaring lines.now saids.now) node 0 }
{
    let mut left = node;
    for (at, said) in saids.iter().enumerate() {
        if !is_node(said) {
            continue;
        }
        if left == 0 {
            return lines[at];
        }
        left -= 1;
    }
    0
}

// The nodes by rank; an error if a cycle keeps nodes from having one.
fn order_of(
    alloc: Global,
    net: &Network,
    saids: &[Said],
    lines: &[u32],
) -> Result<List<u32>, ModelFault>
    requires few { length net.now.nodes ≤ 64 }
    requires wired { AreWired net.now.nodes }
    requires beside { length lines.now ≡ length saids.now }
    ensures ok { IfOk result (λ order. (cycle_of lines.now saids.now net.now.nodes ≡ None) × (order ≡ ranking net.now.nodes) × HasAll order net.now.nodes) }
    ensures err { IfErr result (λ e. Tells e (cycle_of lines.now saids.now net.now.nodes)) }
{
    match rank(alloc, net) {
        Ok(order) => Ok(order),
        Err(RankFault::Cycle { node }) => Err(ModelFault::Cycle {
            line: line_of(saids, lines, node),
            node,
        }),
        Err(RankFault::Memory) => Err(ModelFault::Memory),
    }
}

// The first error in the inputs and the sources of the lines that are kept.
fn front_fault(front: &Front) -> Option<ModelFault>
    requires beside { length front.now.lines ≡ length front.now.saids }
    requires narrow { AreNarrow front.now.saids }
    ensures { result ≡ option_or (inputs_fault front.now.saids [] (placed_inputs front.now.lines front.now.saids)) (source_fault front.now.saids) }
{
    if let Some(fault) = inputs_fault(front.saids.as_slice(), front.lines.as_slice()) {
        return Some(fault);
    }
    if !has_source(front.saids.as_slice()) {
        return Some(ModelFault::NoSource);
    }
    None
}

// The plan of lines whose network is sound; an error if the network has a cycle. The plan takes the
// names of the columns out of `front`.
fn plan_of(alloc: Global, front: &mut Front) -> Result<Plan, ModelFault>
    requires names { front.old.names ≡ names_of front.old.saids }
    requires columns { front.old.columns ≡ columns_of front.old.saids }
    requires few { length front.old.names ≤ 64 }
    requires few_columns { length front.old.columns ≤ 16 }
    requires beside { length front.old.lines ≡ length front.old.saids }
    requires small { length (nodes_of front.old.saids) ≤ 64 }
    requires wired { AreWired (nodes_of front.old.saids) }
    requires sound { IsTrue (is_sound (network_of front.old.version front.old.saids)) }
    ensures ok { IfOk result (λ plan. (cycle_of front.old.lines front.old.saids (nodes_of front.old.saids) ≡ None) × (plan.net ≡ network_of front.old.version front.old.saids)) }
    ensures err { IfErr result (λ e. Tells e (cycle_of front.old.lines front.old.saids (nodes_of front.old.saids))) }
{
    let columns = mem::replace(&mut front.columns, List::new(alloc));
    let net = network_of(
        alloc,
        front.version,
        front.names.as_slice(),
        columns,
        front.saids.as_slice(),
    )?;
    let order = order_of(alloc, &net, front.saids.as_slice(), front.lines.as_slice())?;
    Ok(Plan { net, order })
}

/// Reads a model from a text of at most 65,536 bytes.
///
/// Returns the plan of the network that the text declares. Unless memory runs out, an error is the
/// first one in the text: its length is checked first, then its lines in order, then its inputs, its
/// sources and its cycles.
pub fn read_model(alloc: Global, bytes: &[u8]) -> Result<Plan, ModelFault>
    ensures ok { IfOk result (λ plan. (model_fault bytes.now ≡ None) × (plan.net ≡ network_in bytes.now)) }
    ensures err { IfErr result (λ e. Tells e (model_fault bytes.now)) }
{
    if bytes.len() > 65_536 {
        return Err(ModelFault::TooLong);
    }
    let mut front = read_lines(alloc, without_mark(bytes))?;
    match front_fault(&front) {
        Some(fault) => {
            drop(front);
            Err(fault)
        }
        None => {
            let plan = plan_of(alloc, &mut front);
            drop(front);
            plan
        }
    }
}
