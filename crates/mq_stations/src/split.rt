// What a split looks at.
ghost use Rattle.std.specs.Prelude.{◌≡◌, ℕ, map, IfOk};
ghost use Rattle.mq_core.specs.Handling.{demand_of_job};
ghost use Rattle.mq_core.specs.Kinds.Split.{HasRouteValue, route_value};
ghost use Rattle.mq_core.specs.Told.{HasDemand};
ghost use Rattle.mq_core.specs.declared.model.Rows.{Rows as TheRows};
ghost use Rattle.mq_stations.specs.Leaving.{AreRouted};

use mq_asked::demands_in;
use mq_base::{List, OutOfMemory};
use mq_core::{Demand, Route, Rows};
use std::alloc::Global;

/// The value of each of these jobs that the route looks at; by turns it looks at none. It refuses for want of memory alone.
pub fn values_of(
    alloc: Global,
    rows: &Rows,
    route: &Route,
    jobs: &[u32],
) -> Result<List<u64>, OutOfMemory>
    requires { AreRouted rows.now route.now jobs.now }
    ensures { IfOk result (λ values. values ≡ map (route_value rows.now route.now) jobs.now) }
{
    demands_in(alloc, rows, &looked_at(route), jobs)
}

// What a route looks at, as a demand: a column, and by turns 0.
fn looked_at(route: &Route) -> Demand
    ensures told { (rows : TheRows) (job : ℕ) → HasRouteValue rows route.now job → HasDemand rows result job }
    ensures value { (rows : TheRows) (job : ℕ) → demand_of_job rows result job ≡ route_value rows route.now job }
{
    match route {
        Route::Turn { .. } => Demand::Fixed(0),
        Route::Modulo { column, .. } | Route::Cut { column, .. } => Demand::Column(*column),
    }
}
