// How much service a job needs.
ghost use Rattle.std.specs.Prelude.{◌≡◌, fold, map, max, sum_by};
ghost use Rattle.mq_core.specs.Told.{HasDemand, AreTold};
ghost use Rattle.mq_core.specs.Asked.{HasDemands};
ghost use Rattle.std.specs.List.{flat_map};
ghost use Rattle.mq_core.specs.Results.{bare_time};
ghost use Rattle.mq_core.specs.Handling.{demand_of_job, demand_of_stages};

use crate::model::{Demand, Kind, Rows, Stage};
use mq_base::List;

/// Returns the service demand of a job, in ticks: its value in the column, or the fixed number.
///
/// The rows must have the column, and the column a value for the job.
pub fn demand_of(rows: &Rows, demand: &Demand, job: u32) -> u64
    requires { HasDemand rows.now demand.now job }
    ensures { result ≡ demand_of_job rows.now demand.now job }
{
    match demand {
        Demand::Column(column) => *rows.demands.get(*column as usize).get(job as usize),
        Demand::Fixed(ticks) => *ticks,
    }
}

/// Returns the bare time of a job at a node of this kind, in ticks: how long the job stays if it never waits.
///
/// At a server, a delay, a loss station or a trunk group that is its demand, at a tandem the sum of its demands,
/// and at a fork-join the greatest sum of its demands in a branch. At a source, a split, a fork or a join it is 0.
///
/// The rows must have each column that the kind mentions, and the column a value for the job. At most 8 demands
/// are added, each at most 2^36.
pub fn bare_of(rows: &Rows, kind: &Kind, job: u32) -> u64
    requires { HasDemands rows.now kind.now job }
    ensures { result ≡ bare_time rows.now kind.now job }
{
    match kind {
        Kind::Source | Kind::Split(_) => 0,
        Kind::Fork { .. } | Kind::Join => 0,
        Kind::Server(demand) | Kind::Delay(demand) => demand_of(rows, demand, job),
        Kind::Loss { demand, .. } | Kind::Trunk { demand, .. } => demand_of(rows, demand, job),
        Kind::Tandem(stages) => bare_of_stages(rows, stages, job),
        Kind::ForkJoin(branches) => longest_of(rows, branches, job),
    }
}

/// Returns the sum of a job's demands at all servers of all branches of a fork-join, in ticks.
///
/// The rows must have each column that the demands name, and the column a value for the job. There are at most 8
/// demands, each at most 2^36.
pub fn demand_of_branches(rows: &Rows, branches: &List<List<Demand>>, job: u32) -> u64
    requires { AreTold rows.now (flat_map (λ demands. demands) branches.now) job }
    ensures { result ≡ sum_by (λ demand. demand_of_job rows.now demand job) (flat_map (λ demands. demands) branches.now) }
{
    let mut sum = 0;
    for at in 0..branches.len() {
        sum += sum_of(rows, branches.get(at), job);
    }
    sum
}

// The greatest sum of a job's demands in one branch, in ticks.
fn longest_of(rows: &Rows, branches: &List<List<Demand>>, job: u32) -> u64
    requires { AreTold rows.now (flat_map (λ demands. demands) branches.now) job }
    ensures { result ≡ fold max 0 (map (λ demands. sum_by (λ demand. demand_of_job rows.now demand job) demands) branches.now) }
{
    let mut longest = 0u64;
    for at in 0..branches.len() {
        longest = longest.max(sum_of(rows, branches.get(at), job));
    }
    longest
}

// The sum of a job's demands at these servers, in ticks.
fn sum_of(rows: &Rows, demands: &List<Demand>, job: u32) -> u64
    requires { AreTold rows.now demands.now job }
    ensures { result ≡ sum_by (λ demand. demand_of_job rows.now demand job) demands.now }
{
    let mut sum = 0;
    for at in 0..demands.len() {
        sum += demand_of(rows, demands.get(at), job);
    }
    sum
}

// The sum of a job's demands at these stages, in ticks.
fn bare_of_stages(rows: &Rows, stages: &List<Stage>, job: u32) -> u64
    requires { AreTold rows.now (map (λ stage. stage.demand) stages.now) job }
    ensures { result ≡ demand_of_stages rows.now stages.now job }
{
    let mut total = 0;
    for at in 0..stages.len() {
        total += demand_of(rows, &stages.get(at).demand, job);
    }
    total
}
