// The position up to which two runs are the same at a node.
ghost use Rattle.std.specs.Prelude.{◌≡◌, ◌==◌, ◌<◌, ◌≤◌, ℕ, Some, length, slice_get};
ghost use Rattle.std.specs.List.{AllByRecursion, list_all};
ghost use Rattle.mq_core.specs.Asked.{HasDemands};
ghost use Rattle.mq_core.specs.Kinds.Split.{HasRouteValue, route_value};
ghost use Rattle.mq_core.specs.Told.{HasDemand};
ghost use Rattle.mq_alike.specs.Again.{alike_from, asks_same, same_demand, same_visit};
ghost use Rattle.mq_edits.specs.Former.{rows_before};
ghost use Rattle.mq_stations.specs.Leaving.{HaveDemands};

use mq_base::List;
use mq_core::{Demand, Kind, Route, Rows, Stage, Stream, Visits, demand_of};
use mq_edits::FormerRows;

/// Returns the number of first visits to a node that are the same in two runs: the same job comes at the same time and
/// asks for the same. The earlier run is over the rows of before edits, which differ from `rows` only from the first
/// former row on. What the job of an earlier row asks for isn't compared.
pub fn alike(
    former: &FormerRows,
    rows: &Rows,
    kind: &Kind,
    visits: &Visits,
    arrivals: &Stream,
) -> u32
    requires earlier { HaveDemands (rows_before former.now rows.now) kind.now visits.now.job }
    requires rows { HaveDemands rows.now kind.now arrivals.now.job }
    requires visits { length visits.now.arrive ≡ length visits.now.job }
    requires arrivals { length arrivals.now.time ≡ length arrivals.now.job }
    requires few { length arrivals.now.job ≤ 1048576 }
    ensures { result ≡ alike_from kind.now (rows_before former.now rows.now) visits.now.job visits.now.arrive rows.now arrivals.now.job arrivals.now.time }
{
    let both = visits.job.len().min(arrivals.job.len());
    for at in 0..both {
        if !is_same(former, rows, kind, visits, arrivals, at) {
            return at as u32;
        }
    }
    both as u32
}

// Returns whether two visits at a position are the same.
fn is_same(
    former: &FormerRows,
    rows: &Rows,
    kind: &Kind,
    visits: &Visits,
    arrivals: &Stream,
    at: usize,
) -> bool
    requires earlier { HaveDemands (rows_before former.now rows.now) kind.now visits.now.job }
    requires rows { HaveDemands rows.now kind.now arrivals.now.job }
    requires job { at < length visits.now.job }
    requires arrive { at < length visits.now.arrive }
    requires new_job { at < length arrivals.now.job }
    requires new_time { at < length arrivals.now.time }
    ensures { (job arrive new_job new_time : ℕ) → slice_get visits.now.job at ≡ Some job → slice_get visits.now.arrive at ≡ Some arrive → slice_get arrivals.now.job at ≡ Some new_job → slice_get arrivals.now.time at ≡ Some new_time → result ≡ same_visit kind.now (rows_before former.now rows.now) job arrive rows.now new_job new_time }
{
    let job = *arrivals.job.get(at);
    if *visits.job.get(at) != job {
        return false;
    }
    if *visits.arrive.get(at) != *arrivals.time.get(at) {
        return false;
    }
    job < former.from || asks_for_same(former, rows, kind, job)
}

// Returns whether the job of a row that may differ asks for the same as before at a node of this kind.
fn asks_for_same(former: &FormerRows, rows: &Rows, kind: &Kind, job: u32) -> bool
    requires set { former.now.from ≤ job }
    requires earlier { HasDemands (rows_before former.now rows.now) kind.now job }
    requires rows { HasDemands rows.now kind.now job }
    ensures { result ≡ asks_same (rows_before former.now rows.now) rows.now kind.now job }
{
    match kind {
        Kind::Source | Kind::Fork { .. } | Kind::Join => true,
        Kind::Server(demand) | Kind::Delay(demand) => asks_one(former, rows, demand, job),
        Kind::Loss { demand, .. } | Kind::Trunk { demand, .. } => {
            asks_one(former, rows, demand, job)
        }
        Kind::Tandem(stages) => asks_stages(former, rows, stages, job),
        Kind::ForkJoin(branches) => asks_branches(former, rows, branches, job),
        Kind::Split(route) => routes_same(former, rows, route, job),
    }
}

// Returns whether a job asks for the same by a demand as before the edits.
fn asks_one(former: &FormerRows, rows: &Rows, demand: &Demand, job: u32) -> bool
    requires set { former.now.from ≤ job }
    requires earlier { HasDemand (rows_before former.now rows.now) demand.now job }
    requires rows { HasDemand rows.now demand.now job }
    ensures { result ≡ same_demand (rows_before former.now rows.now) rows.now job demand.now }
{
    demand_of(&former.rows, demand, job - former.from) == demand_of(rows, demand, job)
}

// Returns whether a job asks for the same at each of these stages as before the edits.
fn asks_stages(former: &FormerRows, rows: &Rows, stages: &List<Stage>, job: u32) -> bool
    requires set { former.now.from ≤ job }
    requires earlier { AllByRecursion (λ stage. HasDemand (rows_before former.now rows.now) stage.demand job) stages.now }
    requires rows { AllByRecursion (λ stage. HasDemand rows.now stage.demand job) stages.now }
    ensures { result ≡ list_all (λ stage. same_demand (rows_before former.now rows.now) rows.now job stage.demand) stages.now }
{
    for at in 0..stages.len() {
        if !asks_one(former, rows, &stages.get(at).demand, job) {
            return false;
        }
    }
    true
}

// Returns whether a job asks for the same by each of these demands as before the edits.
fn asks_each(former: &FormerRows, rows: &Rows, demands: &List<Demand>, job: u32) -> bool
    requires set { former.now.from ≤ job }
    requires earlier { AllByRecursion (λ demand. HasDemand (rows_before former.now rows.now) demand job) demands.now }
    requires rows { AllByRecursion (λ demand. HasDemand rows.now demand job) demands.now }
    ensures { result ≡ list_all (same_demand (rows_before former.now rows.now) rows.now job) demands.now }
{
    for at in 0..demands.len() {
        if !asks_one(former, rows, demands.get(at), job) {
            return false;
        }
    }
    true
}

// Returns whether a job asks for the same by each demand of these branches as before the edits.
fn asks_branches(former: &FormerRows, rows: &Rows, branches: &List<List<Demand>>, job: u32) -> bool
    requires set { former.now.from ≤ job }
    requires earlier { AllByRecursion (λ demands. AllByRecursion (λ demand. HasDemand (rows_before former.now rows.now) demand job) demands) branches.now }
    requires rows { AllByRecursion (λ demands. AllByRecursion (λ demand. HasDemand rows.now demand job) demands) branches.now }
    ensures { result ≡ list_all (λ demands. list_all (same_demand (rows_before former.now rows.now) rows.now job) demands) branches.now }
{
    for at in 0..branches.len() {
        if !asks_each(former, rows, branches.get(at), job) {
            return false;
        }
    }
    true
}

// Returns whether a route reads the same value of a job as before the edits; a route by turns reads none.
fn routes_same(former: &FormerRows, rows: &Rows, route: &Route, job: u32) -> bool
    requires set { former.now.from ≤ job }
    requires earlier { HasRouteValue (rows_before former.now rows.now) route.now job }
    requires rows { HasRouteValue rows.now route.now job }
    ensures { result ≡ (route_value (rows_before former.now rows.now) route.now job == route_value rows.now route.now job) }
{
    match route {
        Route::Turn { .. } => true,
        Route::Modulo { column, .. } | Route::Cut { column, .. } => {
            asks_one(former, rows, &Demand::Column(*column), job)
        }
    }
}
