// The stations of a wave, each in its place, and the rounds of the work on them.
ghost use Rattle.std.specs.Prelude.{◌≡◌, ◌≤◌, true, false, length, map, IfOk, OnOk};
ghost use Rattle.std.specs.List.{AllByRecursion};
ghost use Rattle.mq_crew.specs.Crew.{AreAll, AreGroups};
ghost use Rattle.mq_exits.specs.Keeping.{IsLeftOf, whose};
ghost use Rattle.mq_exits.specs.Loads.{IsReadyLoad, IsStationOf};
ghost use Rattle.mq_exits.specs.declared.keeping.Keep.{Keep as TheKeep};
ghost use Rattle.mq_kinds.specs.Pieces.{IsNext};
ghost use Rattle.mq_kinds.specs.Table.{serving_size, serving_steps};
ghost use Rattle.mq_merge.specs.Borrowed.{stream_in};
ghost use Rattle.mq_engine.specs.Places.{AreAdvanced, HaveEnded, IsAdvanced, IsPlace, IsPlacePiece, IsServingOf, IsServingPieceOf, IsWorkOf, all_steps, place_size, work_steps};

use mq_base::{List, OutOfMemory};
use mq_crew::{Crew, Gate, Pieces};
use mq_exits::{
    Emptied, End, Held, Keep, Keeping, keeping_count, keeping_next, keeping_of, keeping_piece,
    station_of,
};
use mq_kinds::{Left, Load, Piece, Serving, serving_count, serving_next, serving_piece};
use std::alloc::Global;
use std::thread::Threads;

/// A station of a wave.
#[derive(Drop)]
pub struct Place<'a> {
    /// What came to it.
    pub held: Held<'a>,
    pub work: Work<'a>,
}

/// The work on a station.
#[derive(Drop)]
pub enum Work<'a> {
    /// Its jobs are on their way through it.
    Serving(Serving<'a>),
    /// Its jobs have left it: what they did there is being put in lists.
    Keeping(Keeping),
    /// Nothing is left to do: how the station ends.
    Ended(End),
}

impl<'a> Pieces for Place<'a> {
    type Piece = Piece;

    ghost fit = { λ place. (keep : TheKeep) × IsPlace keep place };

    ghost size = { place_size };

    ghost is_piece = { IsPlacePiece };

    fn count(&self) -> u32 {
        match &self.work {
            Work::Serving(serving) => serving_count(&load_of(&self.held), serving),
            Work::Keeping(keeping) => keeping_count(&self.held, keeping),
            Work::Ended(_) => 0,
        }
    }

    fn piece(&self, alloc: Global, b: u32) -> Result<Piece, OutOfMemory> {
        match &self.work {
            Work::Serving(serving) => serving_piece(alloc, &load_of(&self.held), serving, b),
            Work::Keeping(keeping) => keeping_piece(alloc, &self.held, keeping, b),
            Work::Ended(_) => unreachable!(),
        }
    }
}

// Returns what a station needs to be computed.
fn load_of<'s>(held: &'s Held<'s>) -> Load<'s, 's>
    requires { IsReadyLoad held.now }
    ensures { IsStationOf held.now.plan.now held.now.rows.now held.now.number (stream_in held.now.arrivals) result }
{
    station_of(
        held.plan,
        held.rows,
        held.number,
        held.arrivals.stream(),
        held.block,
    )
}

// Takes the pieces of the step of a station. Returns `None` if a further step follows, otherwise what leaves the station.
fn next_of<R: Threads + Sync, G: Gate>(
    crew: &Crew<R, G>,
    held: &Held,
    serving: &mut Serving,
    made: List<Piece>,
) -> Result<Option<Left>, OutOfMemory>
    requires ready { IsReadyLoad held.now }
    requires fit { IsServingOf held.now serving.old }
    requires made { AreAll (IsServingPieceOf held.now serving.old) (serving_size serving.old) made }
    ensures { IfOk result (IsNext (IsServingOf held.now) serving_steps (IsLeftOf held.now) serving.old serving.new) }
{
    let load = load_of(held);
    serving_next(crew, &load, serving, made)
}

/// Returns the work that follows at a station when this has left it.
pub fn work_left<'a, R: Threads + Sync, G: Gate>(
    crew: &Crew<R, G>,
    keep: Keep,
    held: &Held,
    left: Left,
) -> Result<Work<'a>, OutOfMemory>
    requires ready { IsReadyLoad held.now }
    requires left { IsLeftOf held.now left }
    ensures { IfOk result (λ work. IsWorkOf keep held.now work × (work_steps work ≤ 1)) }
{
    match keeping_of(crew, keep, held, left)? {
        Emptied::Keeping(keeping) => Ok(Work::Keeping(keeping)),
        Emptied::Ended(end) => Ok(Work::Ended(end)),
    }
}

/// Takes the pieces of a station: the work on it goes one step further, or ends.
pub fn advance<R: Threads + Sync, G: Gate>(
    crew: &Crew<R, G>,
    keep: Keep,
    place: &mut Place,
    made: List<Piece>,
) -> Result<(), OutOfMemory>
    requires fit { IsPlace keep place.old }
    requires made { AreAll (IsPlacePiece place.old) (place_size place.old) made }
    ensures { OnOk result (IsAdvanced keep place.old place.new) }
{
    match &mut place.work {
        Work::Serving(serving) => {
            if let Some(left) = next_of(crew, &place.held, serving, made)? {
                place.work = work_left(crew, keep, &place.held, left)?;
            }
        }
        Work::Keeping(keeping) => {
            let end = keeping_next(crew.alloc, &mut place.held, keeping, made)?;
            place.work = Work::Ended(end);
        }
        Work::Ended(_) => drop(made),
    }
    Ok(())
}

// Takes the pieces of all stations, those of the last first.
fn advance_all<R: Threads + Sync, G: Gate>(
    crew: &Crew<R, G>,
    keep: Keep,
    places: &mut Vec<Place>,
    groups: List<List<Piece>>,
) -> Result<(), OutOfMemory>
    requires fit { AllByRecursion (IsPlace keep) places.old.items }
    requires groups { AreGroups place_size IsPlacePiece places.old.items groups }
    ensures { OnOk result (AreAdvanced keep places.old.items places.new.items) }
{
    let mut groups = groups.into_vec();
    while let Some(group) = groups.pop() {
        let at = groups.len();
        if let Err(fault) = advance(crew, keep, &mut places[at], group) {
            drop(groups);
            return Err(fault);
        }
    }
    Ok(())
}

// Makes one round: the pieces of all stations under work, as one list, and the next step of each.
fn round<R: Threads + Sync, G: Gate>(
    crew: &Crew<R, G>,
    keep: Keep,
    places: &mut Vec<Place>,
) -> Result<(), OutOfMemory>
    requires fit { AllByRecursion (IsPlace keep) places.old.items }
    requires few { length places.old.items ≤ 64 }
    ensures { OnOk result (AreAdvanced keep places.old.items places.new.items) }
{
    let groups = crew.parts(places.as_slice())?;
    advance_all(crew, keep, places, groups)
}

// Returns whether something is left to do.
fn has_work(work: &Work) -> bool
    ensures some { result ≡ true → 1 ≤ work_steps work.now }
    ensures none { result ≡ false → work_steps work.now ≡ 0 }
{
    match work {
        Work::Serving(_) | Work::Keeping(_) => true,
        Work::Ended(_) => false,
    }
}

// Returns whether some station is still under work.
fn is_working(places: &[Place]) -> bool
    ensures some { result ≡ true → 1 ≤ all_steps places.now }
    ensures none { result ≡ false → all_steps places.now ≡ 0 }
{
    for at in 0..places.len() {
        if has_work(&places[at].work) {
            return true;
        }
    }
    false
}

// Works on all stations, in rounds, until each has ended.
pub fn rounds<R: Threads + Sync, G: Gate>(
    crew: &Crew<R, G>,
    keep: Keep,
    places: &mut Vec<Place>,
) -> Result<(), OutOfMemory>
    requires fit { AllByRecursion (IsPlace keep) places.old.items }
    requires few { length places.old.items ≤ 64 }
    ensures fit { OnOk result (AllByRecursion (IsPlace keep) places.new.items) }
    ensures ended { OnOk result (AllByRecursion HaveEnded places.new.items) }
    ensures same { OnOk result (map (λ place. whose place.held) places.new.items ≡ map (λ place. whose place.held) places.old.items) }
{
    'rounds: while is_working(places.as_slice()) {
        round(crew, keep, places)?;
    }
    Ok(())
}
