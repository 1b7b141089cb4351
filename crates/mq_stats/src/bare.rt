// The service that jobs of some visits need at a node, computed one column at a time.
ghost use Rattle.std.specs.Prelude.{◌≡◌, ◌+◌, ◌<◌, ◌≤◌, ◌^◌, ℕ, All, IfOk, fold, get_or, length, map, max, sum_by};
ghost use Rattle.std.specs.List.{flat_map};
ghost use Rattle.mq_core.specs.Asked.{HasDemands};
ghost use Rattle.mq_core.specs.Fates.{service_time};
ghost use Rattle.mq_core.specs.Handling.{demand_of_job, demand_of_stages};
ghost use Rattle.mq_core.specs.Results.{bare_time};
ghost use Rattle.mq_core.specs.Told.{AreTold, HasDemand};
ghost use Rattle.mq_stats.specs.Bare.{AreTimes};

use mq_base::{List, OutOfMemory};
use mq_core::{Demand, Kind, Rows, Stage};
use std::alloc::Global;

// Adds to each time the job's value in a column.
// Not inlined, so that its loop has the registers to itself.
#[inline(never)]
fn add_column(times: &mut [u64], column: &[u64], job: &[u32])
    requires even { length times.old ≡ length job.now }
    requires inside { (i : ℕ) → i < length job.now → get_or job.now i 0 < length column.now }
    requires fits { (i : ℕ) → i < length job.now → get_or times.old i 0 + get_or column.now (get_or job.now i 0) 0 < 2 ^ 64 }
    ensures even { length times.new ≡ length job.now }
    ensures sums { (i : ℕ) → i < length job.now → get_or times.new i 0 ≡ get_or times.old i 0 + get_or column.now (get_or job.now i 0) 0 }
{
    for at in 0..times.len() {
        times[at] += column[job[at] as usize];
    }
}

// Adds the same number of ticks to each time.
fn add_ticks(times: &mut [u64], ticks: u64)
    requires fits { (i : ℕ) → i < length times.old → get_or times.old i 0 + ticks < 2 ^ 64 }
    ensures even { length times.new ≡ length times.old }
    ensures sums { (i : ℕ) → i < length times.old → get_or times.new i 0 ≡ get_or times.old i 0 + ticks }
{
    for at in 0..times.len() {
        times[at] += ticks;
    }
}

// Adds to each time what its job asks for, in ticks.
fn add_demand(times: &mut [u64], rows: &Rows, demand: &Demand, job: &[u32])
    requires even { length times.old ≡ length job.now }
    requires told { (i : ℕ) → i < length job.now → HasDemand rows.now demand.now (get_or job.now i 0) }
    requires fits { (i : ℕ) → i < length job.now → get_or times.old i 0 + demand_of_job rows.now demand.now (get_or job.now i 0) < 2 ^ 64 }
    ensures even { length times.new ≡ length job.now }
    ensures sums { (i : ℕ) → i < length job.now → get_or times.new i 0 ≡ get_or times.old i 0 + demand_of_job rows.now demand.now (get_or job.now i 0) }
{
    if job.is_empty() {
        return;
    }
    match demand {
        Demand::Column(column) => {
            add_column(times, rows.demands.get(*column as usize).as_slice(), job)
        }
        Demand::Fixed(ticks) => add_ticks(times, *ticks),
    }
}

// Returns what each job asks for at a server, in ticks.
fn demand_times(
    alloc: Global,
    rows: &Rows,
    demand: &Demand,
    job: &[u32],
) -> Result<Vec<u64>, OutOfMemory>
    requires told { (i : ℕ) → i < length job.now → HasDemand rows.now demand.now (get_or job.now i 0) }
    requires small { (i : ℕ) → i < length job.now → demand_of_job rows.now demand.now (get_or job.now i 0) ≤ 2 ^ 36 }
    ensures { IfOk result (λ times. AreTimes (demand_of_job rows.now demand.now) job.now times.items) }
{
    let mut times = vec![in alloc; 0u64; job.len()]?;
    add_demand(times.as_mut_slice(), rows, demand, job);
    Ok(times)
}

// Returns what each job asks for at all servers of a tandem, summed, in ticks.
fn stages_times(
    alloc: Global,
    rows: &Rows,
    stages: &List<Stage>,
    job: &[u32],
) -> Result<Vec<u64>, OutOfMemory>
    requires told { (i : ℕ) → i < length job.now → AreTold rows.now (map (λ stage. stage.demand) stages.now) (get_or job.now i 0) }
    ensures { IfOk result (λ times. AreTimes (demand_of_stages rows.now stages.now) job.now times.items) }
{
    let mut times = vec![in alloc; 0u64; job.len()]?;
    for at in 0..stages.len() {
        add_demand(times.as_mut_slice(), rows, &stages.get(at).demand, job);
    }
    Ok(times)
}

// Adds to each time what its job asks for at all servers of a branch, in ticks.
fn add_branch(times: &mut [u64], rows: &Rows, demands: &List<Demand>, job: &[u32])
    requires even { length times.old ≡ length job.now }
    requires told { (i : ℕ) → i < length job.now → AreTold rows.now demands.now (get_or job.now i 0) }
    requires fits { (i : ℕ) → i < length job.now → get_or times.old i 0 + sum_by (λ demand. demand_of_job rows.now demand (get_or job.now i 0)) demands.now < 2 ^ 64 }
    ensures even { length times.new ≡ length job.now }
    ensures sums { (i : ℕ) → i < length job.now → get_or times.new i 0 ≡ get_or times.old i 0 + sum_by (λ demand. demand_of_job rows.now demand (get_or job.now i 0)) demands.now }
{
    for at in 0..demands.len() {
        add_demand(times, rows, demands.get(at), job);
    }
}

// Returns what each job asks for at all servers of a branch, summed, in ticks.
fn branch_times(
    alloc: Global,
    rows: &Rows,
    demands: &List<Demand>,
    job: &[u32],
) -> Result<Vec<u64>, OutOfMemory>
    requires told { (i : ℕ) → i < length job.now → AreTold rows.now demands.now (get_or job.now i 0) }
    requires small { (i : ℕ) → i < length job.now → sum_by (λ demand. demand_of_job rows.now demand (get_or job.now i 0)) demands.now ≤ 2 ^ 39 }
    ensures { IfOk result (λ times. AreTimes (λ j. sum_by (λ demand. demand_of_job rows.now demand j) demands.now) job.now times.items) }
{
    let mut times = vec![in alloc; 0u64; job.len()]?;
    add_branch(times.as_mut_slice(), rows, demands, job);
    Ok(times)
}

// Replaces each time by the greater of it and the other at its index.
// Not inlined, so that its loop has the registers to itself.
#[inline(never)]
fn keep_greater(times: &mut [u64], others: &[u64])
    requires even { length others.now ≡ length times.old }
    ensures even { length times.new ≡ length times.old }
    ensures each { (i : ℕ) → i < length times.old → get_or times.new i 0 ≡ max (get_or times.old i 0) (get_or others.now i 0) }
{
    for at in 0..times.len() {
        times[at] = times[at].max(others[at]);
    }
}

// Returns for each job the greatest sum of its demands in one branch, in ticks.
fn longest_times(
    alloc: Global,
    rows: &Rows,
    branches: &List<List<Demand>>,
    job: &[u32],
) -> Result<Vec<u64>, OutOfMemory>
    requires told { (i : ℕ) → i < length job.now → AreTold rows.now (flat_map (λ demands. demands) branches.now) (get_or job.now i 0) }
    ensures { IfOk result (λ times. AreTimes (λ j. fold max 0 (map (λ demands. sum_by (λ demand. demand_of_job rows.now demand j) demands) branches.now)) job.now times.items) }
{
    let mut longest = vec![in alloc; 0u64; job.len()]?;
    for at in 0..branches.len() {
        let times = branch_times(alloc, rows, branches.get(at), job)?;
        keep_greater(longest.as_mut_slice(), times.as_slice());
        drop(times);
    }
    Ok(longest)
}

// Returns how long each of these jobs stays at a node of this kind if it never waits,
// in ticks.
pub fn bare_times(
    alloc: Global,
    rows: &Rows,
    kind: &Kind,
    job: &[u32],
) -> Result<Vec<u64>, OutOfMemory>
    requires told { All (λ j. HasDemands rows.now kind.now j) job.now }
    ensures { IfOk result (λ times. AreTimes (bare_time rows.now kind.now) job.now times.items) }
{
    match kind {
        Kind::Source | Kind::Split(_) | Kind::Fork { .. } | Kind::Join => {
            Ok(vec![in alloc; 0u64; job.len()]?)
        }
        Kind::Server(demand) | Kind::Delay(demand) => demand_times(alloc, rows, demand, job),
        Kind::Loss { demand, .. } => demand_times(alloc, rows, demand, job),
        Kind::Tandem(stages) => stages_times(alloc, rows, stages, job),
        Kind::ForkJoin(branches) => longest_times(alloc, rows, branches, job),
        Kind::Trunk { demand, .. } => demand_times(alloc, rows, demand, job),
    }
}

// Returns what each of these jobs asks for at all servers of a fork-join, summed, in
// ticks.
pub fn branches_times(
    alloc: Global,
    rows: &Rows,
    branches: &List<List<Demand>>,
    job: &[u32],
) -> Result<Vec<u64>, OutOfMemory>
    requires told { (i : ℕ) → i < length job.now → AreTold rows.now (flat_map (λ demands. demands) branches.now) (get_or job.now i 0) }
    ensures { IfOk result (λ times. AreTimes (λ j. sum_by (λ demand. demand_of_job rows.now demand j) (flat_map (λ demands. demands) branches.now)) job.now times.items) }
{
    let mut sums = vec![in alloc; 0u64; job.len()]?;
    for at in 0..branches.len() {
        add_branch(sums.as_mut_slice(), rows, branches.get(at), job);
    }
    Ok(sums)
}
