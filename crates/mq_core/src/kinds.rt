// Whether a kind of node is a source, and the numbers of its outputs and servers.
ghost use Rattle.std.specs.Prelude.{◌≡◌, ◌≤◌, length};
ghost use Rattle.std.specs.List.{flat_map};
ghost use Rattle.mq_core.specs.Results.{servers_in};
ghost use Rattle.mq_core.specs.Kinds.Split.{outputs_by};
ghost use Rattle.mq_core.specs.Sound.{outputs_in};
ghost use Rattle.mq_core.specs.Wiring.{is_source_kind};

use crate::model::{Demand, Kind, Route};
use mq_base::List;

/// Returns whether a node of this kind is a source.
pub fn is_source(kind: &Kind) -> bool
    ensures { result ≡ is_source_kind kind.now }
{
    matches!(kind, Kind::Source)
}

/// Returns the number of outputs of a node of this kind: those that its route chooses from at a split,
/// 2 at a loss station or a trunk group, where lost jobs leave by the second, those of a fork,
/// otherwise 1.
///
/// There are at most 8, as for every kind in a plan.
pub fn outputs_of(kind: &Kind) -> u8
    requires { outputs_in kind.now ≤ 8 }
    ensures { result ≡ outputs_in kind.now }
{
    match kind {
        Kind::Source | Kind::Server(_) | Kind::Delay(_) => 1,
        Kind::Loss { .. } => 2,
        Kind::Tandem(_) | Kind::ForkJoin(_) => 1,
        Kind::Split(route) => outputs_of_route(route),
        Kind::Fork { outputs } => *outputs,
        Kind::Join => 1,
        Kind::Trunk { .. } => 2,
    }
}

/// Returns the number of outputs that a route chooses from: for a cut one more than it has thresholds.
///
/// There are at most 8, as for every route in a plan.
pub fn outputs_of_route(route: &Route) -> u8
    requires { outputs_by route.now ≤ 8 }
    ensures { result ≡ outputs_by route.now }
{
    match route {
        Route::Modulo { outputs, .. } | Route::Turn { outputs } => *outputs,
        Route::Cut { thresholds, .. } => thresholds.len() as u8 + 1,
    }
}

/// Returns the number of servers of a node of this kind, by which its utilisation is computed: 1 at a
/// server or a loss station, one per stage at a tandem, those of all branches at a fork-join, and
/// those of a trunk group. A source, a delay, a split, a fork and a join have none.
///
/// There are at most 255, as for every kind in a plan.
pub fn servers_of(kind: &Kind) -> u8
    requires { servers_in kind.now ≤ 255 }
    ensures { result ≡ servers_in kind.now }
{
    match kind {
        Kind::Server(_) => 1,
        Kind::Loss { .. } => 1,
        Kind::Tandem(stages) => stages.len() as u8,
        Kind::ForkJoin(branches) => servers_of_branches(branches),
        Kind::Source | Kind::Delay(_) | Kind::Split(_) => 0,
        Kind::Fork { .. } | Kind::Join => 0,
        Kind::Trunk { servers, .. } => *servers,
    }
}

// The number of servers of all these branches together.
fn servers_of_branches(branches: &List<List<Demand>>) -> u8
    requires { length (flat_map (λ demands. demands) branches.now) ≤ 255 }
    ensures { result ≡ length (flat_map (λ demands. demands) branches.now) }
{
    let mut servers = 0;
    for at in 0..branches.len() {
        servers += branches.get(at).len() as u8;
    }
    servers
}
