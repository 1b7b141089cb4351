// The demands of jobs, read from a column of the rows or from a list of their own.
ghost use Rattle.std.specs.Prelude.{◌≡◌, ◌<◌, All, IfOk, IfSome, IsTrue, Some, length, map, slice_get, ℕ};
ghost use Rattle.std.specs.List.{AllByRecursion};
ghost use Rattle.mq_core.specs.Handling.{demand_of_job};
ghost use Rattle.mq_core.specs.Kinds.ForkJoin.{branch_demands};
ghost use Rattle.mq_asked.specs.Demands.{AreAsked, StandInTurn};

use crate::demands::demands_of;
use mq_base::{List, OutOfMemory};
use mq_core::{Demand, Rows};
use std::alloc::Global;
use std::marker::Model;

/// The demands of jobs, one number per job, by position, in ticks: a column of the rows if that
/// contains just these numbers, otherwise a list of its own. Contracts see the list of the numbers.
#[derive(Drop)]
pub struct Asked<'a> {
    place: Place<'a>,
}

// Where the demands are stored. Each case is only an address, so that access is the same in both.
#[derive(Drop)]
enum Place<'a> {
    // In this column of the rows.
    Column(&'a List<u64>),
    // In a list made for these jobs.
    Listed(Box<List<u64>>),
}

impl<'a> Model for Asked<'a> {
    ghost use Rattle.std.specs.Prelude.{List, ℕ};
    ghost use Rattle.mq_asked.specs.Places.{numbers_in};

    ghost Value = { List ℕ };

    ghost view = { λ asked. numbers_in asked.place };
}

impl<'a> Asked<'a> {
    /// Returns the numbers, by position.
    #[inline]
    pub fn list(&self) -> &List<u64>
        ensures { result.now ≡ self.now }
    {
        match &self.place {
            Place::Column(list) => list,
            Place::Listed(list) => list,
        }
    }

    /// Returns the demand of the job at a position, in ticks. The position must be below the number of jobs.
    #[inline]
    pub fn at(&self, position: usize) -> u64
        requires { position < length self.now }
        ensures { slice_get self.now position ≡ Some result }
    {
        *self.list().get(position)
    }
}

/// Returns the demand of each of these jobs, in ticks, by position. If the jobs are those of all rows, in order, and the
/// demand is a column, this is the column itself and takes no memory. The only error is that memory runs out.
pub fn asked_of<'a>(
    alloc: Global,
    rows: &'a Rows,
    demand: &Demand,
    jobs: &List<u32>,
) -> Result<Asked<'a>, OutOfMemory>
    requires { AreAsked rows.now demand.now jobs.now }
    ensures { IfOk result (λ asked. asked ≡ map (demand_of_job rows.now demand.now) jobs.now) }
{
    let in_turn = stand_in_turn(jobs);
    asked_by(alloc, rows, demand, jobs, in_turn)
}

/// Returns the demand of each job at each server, in ticks: one item per server, as `asked_of` returns it. The only error
/// is that memory runs out.
pub fn all_asked_of<'a>(
    alloc: Global,
    rows: &'a Rows,
    demands: &List<Demand>,
    jobs: &List<u32>,
) -> Result<List<Asked<'a>>, OutOfMemory>
    requires { All (λ demand. AreAsked rows.now demand jobs.now) demands.now }
    ensures { IfOk result (λ all. all ≡ map (λ demand. map (demand_of_job rows.now demand) jobs.now) demands.now) }
{
    let in_turn = stand_in_turn(jobs);
    all_asked_by(alloc, rows, demands, jobs, in_turn)
}

/// Returns the demand of each job at each server of each branch, in ticks: one item per branch, as `all_asked_of` returns it.
/// The only error is that memory runs out.
pub fn branches_asked_of<'a>(
    alloc: Global,
    rows: &'a Rows,
    branches: &List<List<Demand>>,
    jobs: &List<u32>,
) -> Result<List<List<Asked<'a>>>, OutOfMemory>
    requires { AllByRecursion (λ demands. All (λ demand. AreAsked rows.now demand jobs.now) demands) branches.now }
    ensures { IfOk result (λ all. all ≡ branch_demands rows.now branches.now jobs.now) }
{
    let in_turn = stand_in_turn(jobs);
    let mut all = List::new(alloc);
    for at in 0..branches.len() {
        let Ok(each) = all_asked_by(alloc, rows, branches.get(at), jobs, in_turn) else {
            drop(all);
            return Err(OutOfMemory);
        };
        let Ok(()) = all.push(each) else {
            drop(all);
            return Err(OutOfMemory);
        };
    }
    Ok(all)
}

// Each of these jobs' demands, for several demands; `in_turn` must only be true if the jobs are in turn.
fn all_asked_by<'a>(
    alloc: Global,
    rows: &'a Rows,
    demands: &List<Demand>,
    jobs: &List<u32>,
    in_turn: bool,
) -> Result<List<Asked<'a>>, OutOfMemory>
    requires asked { All (λ demand. AreAsked rows.now demand jobs.now) demands.now }
    requires turn { IsTrue in_turn → StandInTurn jobs.now }
    ensures { IfOk result (λ all. all ≡ map (λ demand. map (demand_of_job rows.now demand) jobs.now) demands.now) }
{
    let mut all = Vec::with_capacity(alloc, demands.len())?;
    for at in 0..demands.len() {
        let Ok(each) = asked_by(alloc, rows, demands.get(at), jobs, in_turn) else {
            drop(all);
            return Err(OutOfMemory);
        };
        all.push_reserved(each);
    }
    Ok(List::from_vec(all))
}

// The demand of each of these jobs; `in_turn` must only be true if the jobs are in turn.
fn asked_by<'a>(
    alloc: Global,
    rows: &'a Rows,
    demand: &Demand,
    jobs: &List<u32>,
    in_turn: bool,
) -> Result<Asked<'a>, OutOfMemory>
    requires asked { AreAsked rows.now demand.now jobs.now }
    requires turn { IsTrue in_turn → StandInTurn jobs.now }
    ensures { IfOk result (λ asked. asked ≡ map (demand_of_job rows.now demand.now) jobs.now) }
{
    if in_turn && let Some(column) = column_of(rows, demand, jobs) {
        return Ok(Asked {
            place: Place::Column(column),
        });
    }
    let list = Box::new(alloc, demands_of(alloc, rows, demand, jobs)?)?;
    Ok(Asked {
        place: Place::Listed(list),
    })
}

// The column that this demand names, if these jobs, which are in turn, are all that it has numbers for.
fn column_of<'a>(rows: &'a Rows, demand: &Demand, jobs: &List<u32>) -> Option<&'a List<u64>>
    requires { StandInTurn jobs.now }
    ensures { IfSome result (λ column. column.now ≡ map (demand_of_job rows.now demand.now) jobs.now) }
{
    match demand {
        Demand::Column(at) if (*at as usize) < rows.demands.len() => {
            let column = rows.demands.get(*at as usize);
            if column.len() == jobs.len() {
                Some(column)
            } else {
                None
            }
        }
        Demand::Column(_) | Demand::Fixed(_) => None,
    }
}

// Whether the job at each position is that of the row there.
fn stand_in_turn(jobs: &List<u32>) -> bool
    ensures { IsTrue result → StandInTurn jobs.now }
{
    for at in 0..jobs.len() {
        if *jobs.get(at) as usize != at {
            return false;
        }
    }
    true
}
