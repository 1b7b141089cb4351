// Worked examples of visits: the last event, the span, and what each visit found.
ghost use Rattle.std.specs.Prelude.{◌≡◌, ◌≤◌, List as Items, length, IfOk};
ghost use Rattle.std.specs.List.{AllByRecursion, zip};
ghost use Rattle.mq_core.specs.SequenceLaws.{LeavesFrom};
ghost use Rattle.mq_core.specs.Laws.{Rises};
ghost use Rattle.mq_core.specs.declared.model.Fate.{Fate as TheFate};
ghost use Rattle.mq_stats.specs.Ahead.{IsAhead};

use mq_base::{List, OutOfMemory};
use mq_core::{Fate, Fates, Rows, Stream, Visits};
use mq_stats::{
    AheadTable, ahead, ahead_of_departures, found, found_piece, found_piece_in_order, last_at, span,
};
use std::alloc::Global;
use std::test::Fail;

pub fn list<T: Copy + Drop>(alloc: Global, items: &[T]) -> Result<List<T>, OutOfMemory>
    ensures { IfOk result (λ list. list ≡ items.now) }
{
    Ok(List::from_vec(Vec::from_slice(alloc, items)?))
}

// One column of demands: 4, 1 and 3.
fn three_demands(alloc: Global) -> Result<List<List<u64>>, OutOfMemory> {
    let mut demands = List::new(alloc);
    demands.push(list(alloc, &[4u64, 1, 3])?)?;
    Ok(demands)
}

// Returns the rows of three jobs with these demands, which come at 0, 1 and 2.
pub fn three_rows(alloc: Global) -> Result<Rows, OutOfMemory> {
    Ok(Rows {
        source: list(alloc, &[0u32, 0, 0])?,
        time: list(alloc, &[0u64, 1, 2])?,
        demands: three_demands(alloc)?,
    })
}

// The columns of visits.
#[derive(Clone, Copy)]
pub struct Columns<'a> {
    pub job: &'a [u32],
    pub arrive: &'a [u64],
    pub found: &'a [u32],
    pub fate: &'a [Fate],
}

// Returns visits with these columns, but with these fates.
pub fn visits_with(alloc: Global, columns: &Columns, fate: Fates) -> Result<Visits, OutOfMemory> {
    Ok(Visits {
        job: list(alloc, columns.job)?,
        arrive: list(alloc, columns.arrive)?,
        found: list(alloc, columns.found)?,
        fate,
    })
}

fn visits_of(alloc: Global, columns: &Columns) -> Result<Visits, OutOfMemory> {
    visits_with(alloc, columns, Fates::each(list(alloc, columns.fate)?))
}

// Jobs and their visits. The owner drops them before it returns, by a call, which takes less to prove than the end of a scope.
#[derive(Drop)]
pub struct Case {
    pub rows: Rows,
    pub visits: Visits,
}

// Returns the three jobs with these visits.
pub fn case_of(alloc: Global, visits: Visits) -> Result<Case, OutOfMemory> {
    Ok(Case {
        rows: three_rows(alloc)?,
        visits,
    })
}

pub fn three_case(alloc: Global, columns: &Columns) -> Result<Case, OutOfMemory> {
    case_of(alloc, visits_of(alloc, columns)?)
}

// The visits of three jobs that a server serves one at a time.
pub const SERVED: Columns<'static> = Columns {
    job: &[0, 1, 2],
    arrive: &[0, 1, 2],
    found: &[0, 1, 2],
    fate: &[Fate::Departs(4), Fate::Departs(5), Fate::Departs(8)],
};

// The same visits, with the second lost.
pub const LOST: Columns<'static> = Columns {
    job: &[0, 1, 2],
    arrive: &[0, 1, 2],
    found: &[0, 1, 1],
    fate: &[Fate::Departs(4), Fate::Lost, Fate::Departs(7)],
};

// The same visits, with the second held.
pub const HELD: Columns<'static> = Columns {
    job: &[0, 1, 2],
    arrive: &[0, 1, 2],
    found: &[0, 1, 2],
    fate: &[Fate::Departs(4), Fate::Held, Fate::Departs(7)],
};

pub const NO_VISITS: Columns<'static> = Columns {
    job: &[],
    arrive: &[],
    found: &[],
    fate: &[],
};

// Returns the time of the last event at a node with these visits, whose one output no job leaves by.
fn last_arrival(alloc: Global, visits: &Visits) -> Result<u64, OutOfMemory> {
    let mut streams = List::new(alloc);
    streams.push(Stream {
        job: List::new(alloc),
        time: List::new(alloc),
    })?;
    let last = last_at(&visits.arrive, &streams);
    drop(streams);
    Ok(last)
}

fn last_of_lost(alloc: Global) -> Result<u64, OutOfMemory> {
    let visits = visits_of(alloc, &LOST)?;
    let last = last_arrival(alloc, &visits);
    drop(visits);
    last
}

#[test]
fn the_last_event_is_at_the_end_of_a_list(rt: HostRuntime) -> Result<(), Fail> {
    assert!(rt; last_of_lost(rt.alloc())? == 2);
    Ok(())
}

// A job that is lost at 9.
const LOST_AT_NINE: Columns<'static> = Columns {
    job: &[9],
    arrive: &[9],
    found: &[0],
    fate: &[Fate::Lost],
};

// Adds a node with these visits to a run, and returns the span of the run.
fn span_with(alloc: Global, run: &mut List<Visits>, columns: &Columns) -> Result<u64, OutOfMemory> {
    run.push(visits_of(alloc, columns)?)?;
    Ok(span(run))
}

// Returns the spans of a run without nodes, with a server, and with a server and a node that loses a job at 9.
fn spans_of(alloc: Global, run: &mut List<Visits>) -> Result<(u64, u64, u64), OutOfMemory> {
    let none = span(run);
    let one = span_with(alloc, run, &SERVED)?;
    Ok((none, one, span_with(alloc, run, &LOST_AT_NINE)?))
}

fn spans(alloc: Global) -> Result<(u64, u64, u64), OutOfMemory> {
    let mut run = List::new(alloc);
    let spans = spans_of(alloc, &mut run);
    drop(run);
    spans
}

#[test]
fn a_run_has_its_span(rt: HostRuntime) -> Result<(), Fail> {
    assert!(rt; spans(rt.alloc())? == (0, 8, 9));
    Ok(())
}

// Returns whether visits with these arrivals and fates found these numbers of jobs.
fn visits_find(
    alloc: Global,
    arrive: &[u64],
    fate: &[Fate],
    wanted: &[u32],
) -> Result<bool, OutOfMemory>
    requires even { length fate.now ≡ length arrive.now }
    requires few { length arrive.now ≤ 1048576 }
    requires arrive { Rises (λ a b. a ≤ b) arrive.now }
    requires fate { AllByRecursion (λ p. LeavesFrom p.0 p.1) (zip arrive.now fate.now) }
{
    let arrive = list(alloc, arrive)?;
    let fate = Fates::each(list(alloc, fate)?);
    let founds = found(alloc, &arrive, &fate)?;
    Ok(founds.as_slice() == wanted)
}

// Fates of visits.
const IN_TURN: [Fate; 3] = [Fate::Departs(4), Fate::Departs(5), Fate::Departs(8)];

const AT_ONCE: [Fate; 3] = [Fate::Departs(5), Fate::Departs(3), Fate::Departs(3)];

const TWO_LOST: [Fate; 4] = [Fate::Departs(9), Fate::Lost, Fate::Departs(3), Fate::Lost];

const TWO_HELD: [Fate; 4] = [Fate::Departs(9), Fate::Held, Fate::Departs(3), Fate::Held];

const OVERTAKING: [Fate; 6] = [
    Fate::Departs(9),
    Fate::Departs(4),
    Fate::Departs(3),
    Fate::Departs(4),
    Fate::Departs(6),
    Fate::Departs(8),
];

fn each_finds_its_own(alloc: Global) -> Result<bool, OutOfMemory> {
    Ok(
        visits_find(alloc, &[0, 1, 2], &IN_TURN, &[0, 1, 2])?
            && visits_find(alloc, &[0, 3, 3], &AT_ONCE, &[0, 1, 1])?
            && visits_find(alloc, &[0, 1, 2, 6], &TWO_LOST, &[0, 1, 1, 1])?
            && visits_find(alloc, &[0, 1, 2, 6], &TWO_HELD, &[0, 1, 2, 2])?
            && visits_find(alloc, &[0, 1, 2, 4, 4, 7], &OVERTAKING, &[0, 1, 2, 1, 1, 1])?,
    )
}

#[test]
fn visits_find_those_who_are_there(rt: HostRuntime) -> Result<(), Fail> {
    assert!(rt; each_finds_its_own(rt.alloc())?);
    Ok(())
}

// The lists of a table.
#[derive(Clone, Copy)]
struct Lists<'a> {
    leaving: &'a [u64],
    kept: &'a [u32],
    still: &'a [u32],
}

fn table_has(table: &AheadTable, wanted: &Lists) -> bool {
    table.leaving.as_slice() == wanted.leaving
        && table.kept.as_slice() == wanted.kept
        && table.still.as_slice() == wanted.still
}

// Returns whether a table of three visits has these lists, and the second and third, at these arrival times, found these numbers.
fn piece_tells(
    alloc: Global,
    arrive: &List<u64>,
    ahead: &AheadTable,
    table: &Lists,
    wanted: &[u32],
) -> Result<bool, OutOfMemory>
    requires made { (fate : Items TheFate) × IsAhead arrive.now fate ahead.now }
    requires within { 3 ≤ length arrive.now }
{
    let founds = found_piece(alloc, arrive, ahead, 1, 3)?;
    Ok(table_has(ahead, table) && founds.as_slice() == wanted)
}

// Returns whether the table of three visits has these lists, and the second and third found these numbers.
fn table_tells(alloc: Global, table: &Lists, wanted: &[u32]) -> Result<bool, OutOfMemory> {
    let arrive = list(alloc, &[0u64, 3, 3])?;
    let fate = Fates::departures(list(alloc, &[5u64, 3, 3])?);
    let ahead = ahead(alloc, &arrive, &fate)?;
    let found = piece_tells(alloc, &arrive, &ahead, table, wanted);
    drop(ahead);
    found
}

// Returns the same for a table made from the departures and their order.
fn departures_tell(alloc: Global, table: &Lists, wanted: &[u32]) -> Result<bool, OutOfMemory> {
    let arrive = list(alloc, &[0u64, 3, 3])?;
    let departs = list(alloc, &[5u64, 3, 3])?;
    let leaving = list(alloc, &[3u64, 3, 5])?;
    let ahead = ahead_of_departures(alloc, &arrive, &departs, leaving)?;
    let found = piece_tells(alloc, &arrive, &ahead, table, wanted);
    drop(ahead);
    found
}

// Returns whether the third to fifth of five visits that leave in order found these numbers.
fn order_tells(alloc: Global, wanted: &[u32]) -> Result<bool, OutOfMemory> {
    let arrive = list(alloc, &[0u64, 1, 2, 5, 6])?;
    let departs = list(alloc, &[4u64, 5, 8, 9, 9])?;
    let founds = found_piece_in_order(alloc, &arrive, &departs, 2, 5)?;
    Ok(founds.as_slice() == wanted)
}

const TABLE: Lists<'static> = Lists {
    leaving: &[3, 3, 5],
    kept: &[0, 1, 2, 3],
    still: &[0, 0, 1, 2],
};

fn pieces_tell(alloc: Global) -> Result<bool, OutOfMemory> {
    Ok(
        table_tells(alloc, &TABLE, &[1, 1])?
            && departures_tell(alloc, &TABLE, &[1, 1])?
            && order_tells(alloc, &[2, 1, 2])?,
    )
}

#[test]
fn pieces_have_what_their_visits_found(rt: HostRuntime) -> Result<(), Fail> {
    assert!(rt; pieces_tell(rt.alloc())?);
    Ok(())
}
