// The nodes that are ready, worked out by the crew.
ghost use Rattle.std.specs.Prelude.{◌≡◌, ℕ, List as Items, length, IfOk};
ghost use Rattle.std.specs.List.{AllByRecursion};
ghost use Rattle.mq_core.specs.declared.model.Plan.{Plan as ThePlan};
ghost use Rattle.mq_core.specs.declared.model.Rows.{Rows as TheRows};
ghost use Rattle.mq_arrivals.specs.Arrivals.{IsArriving};
ghost use Rattle.mq_exits.specs.Keeping.{IsLeftOf};
ghost use Rattle.mq_exits.specs.Loads.{IsLoadOf, IsReadyLoad};
ghost use Rattle.mq_exits.specs.Results.{IsWorkedOut};
ghost use Rattle.mq_exits.specs.Turns.{IsGiven};
ghost use Rattle.mq_exits.specs.declared.keeping.Keep.{Keep as TheKeep};
ghost use Rattle.mq_engine.specs.Places.{HaveEnded, IsPlace};
ghost use Rattle.mq_engine.specs.Progress.{AreEarly, CanWorkAll};

use crate::begun::places_of;
use crate::places::{Place, Work, advance, rounds, work_left};
use mq_arrivals::Arriving;
use mq_base::{List, OutOfMemory};
use mq_crew::{Crew, Gate};
use mq_exits::{End, Ending, Given, Held, InTurn, Keep, NodeResult, ended_in};
use mq_kinds::Left;
use std::alloc::Global;
use std::thread::Threads;

// Returns what the nodes give that are ready. What comes to each is put in order; then there are rounds, each with one list of the
// pieces of all stations under work, until all have ended. After the list of a round each server has its single pass, one after
// another, and the jobs of a delay are put in order.
pub fn given_by<'a, R: Threads + Sync, G: Gate>(
    crew: &Crew<R, G>,
    keep: Keep,
    arriving: &Arriving<'a, '_>,
) -> Result<List<Given<'a>>, OutOfMemory>
    requires arriving { IsArriving arriving.now }
    requires early { AreEarly arriving.now.outputs.now }
    requires can { CanWorkAll arriving.now.plan.now arriving.now.rows.now arriving.now.outputs.now arriving.now.ready.now }
    ensures len { IfOk result (λ given. length given ≡ length arriving.now.ready.now) }
    ensures known { IfOk result (λ given. AllByRecursion (IsGiven keep arriving.now.plan.now arriving.now.rows.now arriving.now.ready.now) given) }
{
    let mut places = places_of(crew, arriving)?.into_vec();
    let Ok(()) = rounds(crew, keep, &mut places) else {
        drop(places);
        return Err(OutOfMemory);
    };
    all_given(crew.alloc, places)
}

// Returns what the stations give on which the work has ended, in some order.
fn all_given<'a>(alloc: Global, places: Vec<Place<'a>>) -> Result<List<Given<'a>>, OutOfMemory>
    requires { AllByRecursion HaveEnded places.items }
    ensures len { IfOk result (λ given. length given ≡ length places.entry.items) }
    ensures given { IfOk result (λ given. (keep : TheKeep) (plan : ThePlan) (rows : TheRows) (ready : Items ℕ) → AllByRecursion (IsPlace keep) places.entry.items → AllByRecursion (λ place. IsLoadOf plan rows ready place.held) places.entry.items → AllByRecursion (IsGiven keep plan rows ready) given) }
{
    let Ok(mut given) = Vec::with_capacity(alloc, places.len()) else {
        drop(places);
        return Err(OutOfMemory);
    };
    let mut places = places;
    while let Some(place) = places.pop() {
        given.push_reserved(given_at(place));
    }
    Ok(List::from_vec(given))
}

// Returns what a station gives on which the work has ended.
fn given_at<'a>(place: Place<'a>) -> Given<'a>
    requires { HaveEnded place }
    ensures { (keep : TheKeep) (plan : ThePlan) (rows : TheRows) (ready : Items ℕ) → IsPlace keep place.entry → IsLoadOf plan rows ready place.entry.held → IsGiven keep plan rows ready result }
{
    let Place { held, work } = place;
    let number = held.number;
    match work {
        Work::Ended(End::Lists(visits, streams)) => {
            drop(held);
            let ending = Ending::OnTime(visits, streams);
            Given::Ended(NodeResult { number, ending })
        }
        Work::Ended(End::InTurn(departs)) => Given::InTurn(InTurn { held, departs }),
        Work::Ended(End::Late(past)) => {
            drop(held);
            let ending = Ending::TooLate(past);
            Given::Ended(NodeResult { number, ending })
        }
        Work::Serving(_) | Work::Keeping(_) => unreachable!(),
    }
}

/// Returns how a station ends when this has left it, in a run that keeps lists: a place alone. The only error is out of memory.
pub fn worked_out<R: Threads + Sync, G: Gate>(
    crew: &Crew<R, G>,
    held: Held,
    left: Left,
) -> Result<NodeResult, OutOfMemory>
    requires ready { IsReadyLoad held }
    requires left { IsLeftOf held left }
    ensures { IfOk result (λ r. IsWorkedOut held.entry.plan.now held.entry.rows.now (record { number = held.entry.number; ending = r.ending })) }
{
    let keep = Keep::Lists;
    let Ok(work) = work_left(crew, keep, &held, left) else {
        drop(held);
        return Err(OutOfMemory);
    };
    let mut place = Place { held, work };
    let Ok(made) = crew.made(&place) else {
        drop(place);
        return Err(OutOfMemory);
    };
    let Ok(()) = advance(crew, keep, &mut place, made) else {
        drop(place);
        return Err(OutOfMemory);
    };
    Ok(ended_in(given_at(place)))
}
