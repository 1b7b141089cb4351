// The stations of a wave before the first step of the work on them.
ghost use Rattle.std.specs.Prelude.{◌≡◌, length, IfOk};
ghost use Rattle.std.specs.List.{AllByRecursion};
ghost use Rattle.mq_crew.specs.Crew.{AreAll};
ghost use Rattle.mq_arrivals.specs.Arrivals.{IsArriving};
ghost use Rattle.mq_exits.specs.Loads.{IsLoadOf};
ghost use Rattle.mq_exits.specs.declared.keeping.Keep.{Keep as TheKeep};
ghost use Rattle.mq_engine.specs.Places.{IsArrivedAt, IsBeginning, IsPlace, IsServingFor};
ghost use Rattle.mq_engine.specs.Progress.{AreEarly, CanWorkAll};

use crate::laws::core_laws;
use crate::places::{Place, Work};
use mq_arrivals::{Arrived, Arriving, arrivals_of};
use mq_base::{List, OutOfMemory};
use mq_core::{Plan, Rows};
use mq_crew::{Crew, Gate, Pieces};
use mq_exits::{Held, station_of};
use mq_kinds::{Serving, serving_of};
use std::alloc::Global;
use std::thread::Threads;

/// What came to the nodes whose stations begin.
#[derive(Clone, Copy)]
pub struct Beginning<'a, 's> {
    pub plan: &'a Plan,
    pub rows: &'a Rows,
    pub arrived: &'s [Arrived<'a>],
    pub workers: u32,
    pub block: u32,
}

impl<'a, 's> Pieces for Beginning<'a, 's> {
    type Piece = Serving<'a>;

    ghost fit = { IsBeginning };

    ghost size = { λ s. length s.arrived.now };

    ghost is_piece = { λ s b serving. IsServingFor s.plan.now s.rows.now s.arrived.now b serving };

    fn count(&self) -> u32 {
        self.arrived.len() as u32
    }

    fn piece(&self, alloc: Global, b: u32) -> Result<Serving<'a>, OutOfMemory> {
        let one = &self.arrived[b as usize];
        let arrivals = one.arrivals.stream();
        let load = station_of(self.plan, self.rows, one.number, arrivals, self.block);
        serving_of(alloc, self.workers, self.arrived.len() as u32, &load)
    }
}

/// Returns the stations of the nodes that are ready. After the lists in which what comes is put in order, one list tells how
/// each station is computed: it gathers the demands of the jobs where no column is that.
pub fn places_of<'a, R: Threads + Sync, G: Gate>(
    crew: &Crew<R, G>,
    arriving: &Arriving<'a, '_>,
) -> Result<List<Place<'a>>, OutOfMemory>
    requires arriving { IsArriving arriving.now }
    requires early { AreEarly arriving.now.outputs.now }
    requires can { CanWorkAll arriving.now.plan.now arriving.now.rows.now arriving.now.outputs.now arriving.now.ready.now }
    ensures len { IfOk result (λ places. length places ≡ length arriving.now.ready.now) }
    ensures fit { IfOk result (λ places. (keep : TheKeep) → AllByRecursion (IsPlace keep) places) }
    ensures of { IfOk result (λ places. AllByRecursion (λ place. IsLoadOf arriving.now.plan.now arriving.now.rows.now arriving.now.ready.now place.held) places) }
{
    core_laws();
    let arrived = arrivals_of(crew, arriving)?;
    let beginning = Beginning {
        plan: arriving.plan,
        rows: arriving.rows,
        arrived: arrived.as_slice(),
        workers: crew.workers,
        block: arriving.block,
    };
    let Ok(servings) = crew.made(&beginning) else {
        drop(arrived);
        return Err(OutOfMemory);
    };
    all_placed(crew.alloc, arriving, arrived, servings)
}

// Returns the stations, each with what came to it and how it begins.
fn all_placed<'a>(
    alloc: Global,
    arriving: &Arriving<'a, '_>,
    arrived: List<Arrived<'a>>,
    servings: List<Serving<'a>>,
) -> Result<List<Place<'a>>, OutOfMemory>
    requires arriving { IsArriving arriving.now }
    requires arrived { AllByRecursion (IsArrivedAt arriving.now) arrived }
    requires servings { AreAll (IsServingFor arriving.now.plan.now arriving.now.rows.now arrived) (length arrived) servings }
    ensures len { IfOk result (λ places. length places ≡ length arrived.entry) }
    ensures fit { IfOk result (λ places. (keep : TheKeep) → AllByRecursion (IsPlace keep) places) }
    ensures of { IfOk result (λ places. AllByRecursion (λ place. IsLoadOf arriving.now.plan.now arriving.now.rows.now arriving.now.ready.now place.held) places) }
{
    let Ok(mut places) = Vec::with_capacity(alloc, arrived.len()) else {
        drop(arrived);
        drop(servings);
        return Err(OutOfMemory);
    };
    let mut arrived = arrived.into_vec();
    let mut servings = servings.into_vec();
    while let Some(one) = arrived.pop() {
        let Some(serving) = servings.pop() else {
            unreachable!()
        };
        let held = Held {
            plan: arriving.plan,
            rows: arriving.rows,
            number: one.number,
            arrivals: one.arrivals,
            block: arriving.block,
        };
        let work = Work::Serving(serving);
        places.push_reserved(Place { held, work });
    }
    Ok(List::from_vec(places))
}
