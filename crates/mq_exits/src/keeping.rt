// What is kept of a station that its jobs have left: one step, by the form of what left it.
ghost use Rattle.std.specs.Prelude.{◌≡◌, ◌<◌, IfOk, OnOk};
ghost use Rattle.mq_crew.specs.Crew.{AreAll};
ghost use Rattle.mq_exits.specs.Afters.{IsAfterAt};
ghost use Rattle.mq_exits.specs.Keeping.{IsEmptiedOf, IsEndOf, IsKeepingAt, IsKeepingOf, IsKeepingPieceOf, IsLeftOf, IsOwnPiece, keeping_size, own_size, whose};
ghost use Rattle.mq_exits.specs.Loads.{IsLoaded, IsReadyLoad};
ghost use Rattle.mq_exits.specs.declared.keeping.Keep.{Keep as TheKeep};
ghost use Rattle.mq_kinds.specs.declared.pieces.Left.TheVariants.{InTurn as LeaveInTurn, Passing as PassBy};

use crate::copies::{copies, copy_of, no_stream, taken};
use crate::founds::{after_delay, delay_piece};
use crate::in_turn::{after_turn, turn_piece};
use crate::laws::node_laws;
use crate::load::{Held, Load};
use crate::overtaking::{Overtaken, overtaken_of};
use crate::settling::{after_settled, settled_piece};
use crate::through::{after_passing, passing_piece};
use crate::working::{After, end_of};
use mq_base::{List, OutOfMemory};
use mq_core::{PastFault, Stream, Visits, fates_are_in_time};
use mq_crew::{Crew, Gate};
use mq_kinds::{Left, Piece};
use mq_merge::Arrivals;
use mq_rounds::Settled;
use mq_stations::first_late_in_turn;
use std::alloc::Global;
use std::mem::replace;
use std::thread::Threads;

/// What a run keeps of its nodes.
#[derive(Clone, Copy)]
pub enum Keep {
    /// The visits to each node, and what leaves it by each output.
    Lists,
    /// Numbers. A station whose jobs leave in the order in which they came needs no lists for that.
    Numbers,
}

/// What is being kept of a station. Unless it is settled, no job departs after the bound.
#[derive(Drop)]
pub enum Keeping {
    /// The departure of each job, by position, in ticks. The jobs leave in the order in which they came.
    InTurn(List<u64>),
    /// The jobs leave in another order.
    Overtaking(Overtaken),
    /// Which jobs are admitted, and when those depart.
    Settled(Settled),
    /// What leaves by each output. The jobs depart when they come.
    Passing(List<Stream>),
}

/// How a station ends.
#[derive(Drop)]
pub enum End {
    /// With its visits, and what leaves it by each output. No visit departs after the bound.
    Lists(Visits, List<Stream>),
    /// With the departure of each job, by position, in ticks. The jobs leave by one output in the order in which they came,
    /// none after the bound.
    InTurn(List<u64>),
    /// With the first visit that departs after the bound.
    Late(PastFault),
}

/// What follows at a station that its jobs have left.
#[derive(Drop)]
pub enum Emptied {
    /// One step, which makes lists.
    Keeping(Keeping),
    /// Nothing.
    Ended(End),
}

/// Returns what follows at a station when this has left it. If the first late visit is known already, or no list is needed, it
/// has ended. The only error is out of memory.
pub fn keeping_of<R: Threads + Sync, G: Gate>(
    crew: &Crew<R, G>,
    keep: Keep,
    held: &Held,
    left: Left,
) -> Result<Emptied, OutOfMemory>
    requires ready { IsReadyLoad held.now }
    requires left { IsLeftOf held.now left }
    ensures { IfOk result (IsEmptiedOf keep held.now) }
{
    match left {
        Left::InTurn(departs) => Ok(turn_of(keep, held, departs)),
        Left::Overtaking(departs, leaving) => overtaken_of(crew, held, departs, leaving),
        Left::Settled(settled) => Ok(Emptied::Keeping(Keeping::Settled(settled))),
        Left::Passing(streams) => Ok(passing_of(held, streams)),
    }
}

// Returns what follows at a station whose jobs leave in the order in which they came, at these times.
fn turn_of(keep: Keep, held: &Held, departs: List<u64>) -> Emptied
    requires ready { IsReadyLoad held.now }
    requires left { IsLeftOf held.now (LeaveInTurn departs) }
    ensures { IsEmptiedOf keep held.now result }
{
    node_laws();
    fates_are_in_time();
    match first_late_in_turn(held.plan.net.bound, held.number, &departs) {
        Some(past) => {
            drop(departs);
            Emptied::Ended(End::Late(past))
        }
        None => match keep {
            Keep::Lists => Emptied::Keeping(Keeping::InTurn(departs)),
            Keep::Numbers => Emptied::Ended(End::InTurn(departs)),
        },
    }
}

// Returns what follows at a station whose jobs depart when they come, in these streams.
fn passing_of(held: &Held, streams: List<Stream>) -> Emptied
    requires ready { IsReadyLoad held.now }
    requires left { IsLeftOf held.now (PassBy streams) }
    ensures { (keep : TheKeep) → IsEmptiedOf keep held.now result }
{
    node_laws();
    let arrive = &held.arrivals.stream().time;
    match first_late_in_turn(held.plan.net.bound, held.number, arrive) {
        Some(past) => {
            drop(streams);
            Emptied::Ended(End::Late(past))
        }
        None => Emptied::Keeping(Keeping::Passing(streams)),
    }
}

/// Returns the number of pieces of the step: those by its form, and two copies of what came if it was only read.
pub fn keeping_count(held: &Held, keeping: &Keeping) -> u32
    requires ready { IsReadyLoad held.now }
    requires fit { IsKeepingOf held.now keeping.now }
    ensures { result ≡ keeping_size held.now.arrivals keeping.now }
{
    own_count(keeping) + copies(&held.arrivals)
}

// Returns the number of pieces by the form of the step.
fn own_count(keeping: &Keeping) -> u32
    ensures { result ≡ own_size keeping.now }
{
    match keeping {
        Keeping::InTurn(_) => 3,
        Keeping::Overtaking(overtaken) => overtaken.blocks.blocks,
        Keeping::Settled(_) => 2,
        Keeping::Passing(_) => 2,
    }
}

/// Makes piece `b` of the step. The only error is out of memory.
pub fn keeping_piece(
    alloc: Global,
    held: &Held,
    keeping: &Keeping,
    b: u32,
) -> Result<Piece, OutOfMemory>
    requires ready { IsReadyLoad held.now }
    requires fit { IsKeepingOf held.now keeping.now }
    requires inside { b < keeping_size held.now.arrivals keeping.now }
    ensures { IfOk result (IsKeepingPieceOf held.now keeping.now b) }
{
    let load = held.load();
    let own = own_count(keeping);
    if b < own {
        return own_piece(alloc, &load, keeping, b);
    }
    copy_of(alloc, load.arrivals, b - own)
}

// Makes a piece by the form of the step.
fn own_piece(alloc: Global, load: &Load, keeping: &Keeping, b: u32) -> Result<Piece, OutOfMemory>
    requires loaded { IsLoaded load.now.plan.now load.now.rows.now load.now.number load.now.arrivals.now }
    requires fit { IsKeepingAt load.now.plan.now load.now.rows.now load.now.number load.now.arrivals.now keeping.now }
    requires inside { b < own_size keeping.now }
    ensures { IfOk result (IsOwnPiece load.now.plan.now load.now.rows.now load.now.number load.now.arrivals.now keeping.now b) }
{
    match keeping {
        Keeping::InTurn(departs) => turn_piece(alloc, load, departs, b),
        Keeping::Overtaking(overtaken) => delay_piece(alloc, load.arrivals, overtaken, b),
        Keeping::Settled(settled) => settled_piece(alloc, load, settled, b),
        Keeping::Passing(_) => passing_piece(alloc, load, b),
    }
}

/// Takes the pieces of the step, and returns how the station ends. What came is moved into the visits. The only error is out of
/// memory.
pub fn keeping_next(
    alloc: Global,
    held: &mut Held,
    keeping: &mut Keeping,
    made: List<Piece>,
) -> Result<End, OutOfMemory>
    requires ready { IsReadyLoad held.old }
    requires fit { IsKeepingOf held.old keeping.old }
    requires made { AreAll (IsKeepingPieceOf held.old keeping.old) (keeping_size held.old.arrivals keeping.old) made }
    ensures same { OnOk result (whose held.new ≡ whose held.old) }
    ensures end { IfOk result (λ end. (keep : TheKeep) → IsEndOf keep held.new end) }
{
    node_laws();
    let mut made = made.into_vec();
    let keeping = replace(keeping, Keeping::InTurn(List::new(alloc)));
    let came = replace(&mut held.arrivals, Arrivals::Merged(no_stream(alloc)));
    let arrivals = taken(came, &mut made);
    let load = Load {
        plan: held.plan,
        rows: held.rows,
        number: held.number,
        arrivals: &arrivals,
        block: held.block,
    };
    match after_of(alloc, &load, keeping, made) {
        Ok(after) => Ok(end_of(arrivals, after)),
        Err(fault) => {
            drop(arrivals);
            Err(fault)
        }
    }
}

// Returns what becomes of the arrivals at a station, from the pieces by its form.
fn after_of(
    alloc: Global,
    load: &Load,
    keeping: Keeping,
    made: Vec<Piece>,
) -> Result<After, OutOfMemory>
    requires loaded { IsLoaded load.now.plan.now load.now.rows.now load.now.number load.now.arrivals.now }
    requires fit { IsKeepingAt load.now.plan.now load.now.rows.now load.now.number load.now.arrivals.now keeping }
    requires made { AreAll (IsOwnPiece load.now.plan.now load.now.rows.now load.now.number load.now.arrivals.now keeping) (own_size keeping) made.items }
    ensures { IfOk result (IsAfterAt load.now.plan.now load.now.rows.now load.now.number load.now.arrivals.now) }
{
    match keeping {
        Keeping::InTurn(departs) => after_turn(alloc, load, made, departs),
        Keeping::Overtaking(overtaken) => after_delay(alloc, load, made, overtaken),
        Keeping::Settled(settled) => {
            drop(settled);
            Ok(after_settled(load, made))
        }
        Keeping::Passing(streams) => Ok(after_passing(load, made, streams)),
    }
}
