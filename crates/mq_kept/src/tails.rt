// The last visits to a node whose jobs leave in the order in which they came, by one output: they are edited in place,
// and restored.
ghost use Rattle.std.specs.Prelude.{◌≡◌, ◌++◌, ◌∷◌, ◌≤◌, [], drop, length, map, take, IfErr, IfOk, None, OnErr, OnOk};
ghost use Rattle.mq_core.specs.Laws.{Rises};
ghost use Rattle.mq_core.specs.OnceOut.{founds_of};
ghost use Rattle.mq_core.specs.Results.{first_of};
ghost use Rattle.mq_core.specs.Sequences.{sequence_late_from};
ghost use Rattle.mq_core.specs.Theorems.{IsReadFor};
ghost use Rattle.mq_core.specs.declared.model.Fate.TheVariants.{Departs};
ghost use Rattle.mq_core.specs.declared.model.Rows.{Rows as TheRows};
ghost use Rattle.mq_core.specs.declared.model.Stream.{Stream as TheStream};
ghost use Rattle.mq_exits.specs.Results.{IsWorkedOut};
ghost use Rattle.mq_exits.specs.declared.working.Ending.TheVariants.{OnTime};
ghost use Rattle.mq_kept.specs.NodeRuns.{IsFaultAt};
ghost use Rattle.mq_kept.specs.TailSteps.{AreInTurn, IsNextTail, IsRefused, IsShorter, ListsKeepFirst, OnlyKeepsFirst, StreamKeepsFirst};
ghost use Rattle.mq_kept.specs.Tails.{HasRoom, IsTailFor, IsTailOf, IsTailPut, departures_in, stream_before, tail_before};

use crate::former::NodeLists;
use mq_base::{List, OutOfMemory};
use mq_core::{Plan, Stream, fates_are_in_time, orders_keep_items, sequences_go_by_fates};
use mq_engine::{RunFault, core_laws};
use mq_stations::first_late_in_turn;
use mq_stats::found_piece_in_order;
use std::alloc::Global;
use std::mem::replace;

/// The last visits to a node, and what left it of those jobs, as they were before an edit.
#[derive(Drop)]
pub struct FormerTail {
    /// The number of visits before them.
    pub from: usize,
    pub job: List<u32>,
    /// When the visits came, in ticks.
    pub arrive: List<u64>,
    pub found: List<u32>,
    /// When the visits depart, in ticks.
    pub departs: List<u64>,
}

impl FormerTail {
    /// Restores these visits. Takes no memory.
    pub fn put_back(&self, alloc: Global, lists: &mut NodeLists)
        requires { IsTailOf self.now lists.old }
        ensures { lists.new ≡ tail_before self.now lists.old }
    {
        let (from, jobs, departs) = (self.from, self.job.as_slice(), self.departs.as_slice());
        lists.visits.job.put_back(from, jobs);
        lists.visits.arrive.put_back(from, self.arrive.as_slice());
        lists.visits.found.put_back(from, self.found.as_slice());
        lists.visits.fate.put_back(alloc, from, departs);
        put_stream_back(alloc, &mut lists.streams, from, jobs, departs);
    }
}

/// Replaces the visits from `from` on, at most as many as there are new ones, by visits of these jobs, which come and
/// depart at these times, in ticks. Returns the former visits. Fails if one departs after the bound or memory runs out;
/// then the lists are as before.
pub fn edit_tail(
    alloc: Global,
    plan: &Plan,
    number: u32,
    lists: &mut NodeLists,
    from: usize,
    jobs: &[u32],
    times: &[u64],
    departs: &[u64],
) -> Result<FormerTail, RunFault>
    requires kept { (old : TheRows) × IsReadFor plan.now.net old × IsWorkedOut plan.now old (record { number = number; ending = OnTime lists.old.visits lists.old.streams }) }
    requires tail { (rows : TheRows) × IsTailFor plan.now rows number lists.old from jobs.now times.now departs.now }
    ensures known { (rows : TheRows) → IsTailFor plan.now rows number lists.old from jobs.now times.now departs.now → OnOk result (IsWorkedOut plan.now rows (record { number = number; ending = OnTime lists.new.visits lists.new.streams })) }
    ensures put { OnOk result (IsTailPut from jobs.now times.now departs.now lists.old lists.new) }
    ensures fits { IfOk result (λ former. IsTailOf former lists.new) }
    ensures before { IfOk result (λ former. tail_before former lists.new ≡ lists.old) }
    ensures err { OnErr result (lists.new ≡ lists.old) }
    ensures cause { (rows : TheRows) → IsTailFor plan.now rows number lists.old from jobs.now times.now departs.now → IfErr result (IsFaultAt plan.now rows number) }
{
    core_laws();
    orders_keep_items();
    sequences_go_by_fates();
    fates_are_in_time();
    let former = former_tail(alloc, lists, from)?;
    match put_tail(
        alloc,
        plan.net.bound,
        number,
        lists,
        from,
        jobs,
        times,
        departs,
    ) {
        Ok(()) => Ok(former),
        Err(fault) => {
            former.put_back(alloc, lists);
            drop(former);
            Err(fault)
        }
    }
}

// Returns a copy of the visits from one on.
fn former_tail(alloc: Global, lists: &NodeLists, from: usize) -> Result<FormerTail, OutOfMemory>
    requires in_turn { AreInTurn lists.now (departures_in lists.now) }
    requires within { from ≤ length lists.now.visits.job }
    ensures from { IfOk result (λ former. former.from ≡ from) }
    ensures job { IfOk result (λ former. former.job ≡ drop from lists.now.visits.job) }
    ensures arrive { IfOk result (λ former. former.arrive ≡ drop from lists.now.visits.arrive) }
    ensures found { IfOk result (λ former. former.found ≡ drop from lists.now.visits.found) }
    ensures departs { IfOk result (λ former. former.departs ≡ drop from (departures_in lists.now)) }
{
    let job = behind(alloc, &lists.visits.job, from)?;
    let Ok(arrive) = behind(alloc, &lists.visits.arrive, from) else {
        drop(job);
        return Err(OutOfMemory);
    };
    let Ok(found) = behind(alloc, &lists.visits.found, from) else {
        drop(job);
        drop(arrive);
        return Err(OutOfMemory);
    };
    let Ok(departs) = behind(alloc, &lists.streams.get(0).time, from) else {
        drop(job);
        drop(arrive);
        drop(found);
        return Err(OutOfMemory);
    };
    Ok(FormerTail {
        from,
        job,
        arrive,
        found,
        departs,
    })
}

// Returns a copy of the items from an index on.
fn behind<T: Copy + Drop>(
    alloc: Global,
    items: &List<T>,
    from: usize,
) -> Result<List<T>, OutOfMemory>
    requires { from ≤ length items.now }
    ensures { IfOk result (λ last. last ≡ drop from items.now) }
{
    let last = Vec::from_slice(alloc, &items.as_slice()[from..])?;
    Ok(List::from_vec(last))
}

// Replaces the visits from one on by visits of these jobs, which come and depart at these times. If it fails, the
// earlier visits are as they were.
fn put_tail(
    alloc: Global,
    bound: u64,
    number: u32,
    lists: &mut NodeLists,
    from: usize,
    jobs: &[u32],
    times: &[u64],
    departs: &[u64],
) -> Result<(), RunFault>
    requires in_turn { AreInTurn lists.old (departures_in lists.old) }
    requires tail { IsNextTail from jobs.now times.now departs.now lists.old }
    ensures put { OnOk result (IsTailPut from jobs.now times.now departs.now lists.old lists.new) }
    ensures founds { OnOk result (lists.new.visits.found ≡ founds_of lists.new.visits.arrive lists.new.visits.fate) }
    ensures early { OnOk result (first_of (sequence_late_from bound number 0 (map (λ time. Departs time) (take from (departures_in lists.old) ++ departs.now))) ≡ None) }
    ensures first { ListsKeepFirst from lists.old lists.new }
    ensures cause { IfErr result (IsRefused bound number (take from (departures_in lists.old) ++ departs.now)) }
{
    put_columns(alloc, lists, from, jobs, times, departs)?;
    let left = &lists.streams.get(0).time;
    if let Some(past) = first_late_in_turn(bound, number, left) {
        return Err(RunFault::Past(past));
    }
    put_founds(
        alloc,
        &mut lists.visits.found,
        &lists.visits.arrive,
        left,
        from,
    )?;
    Ok(())
}

// Replaces all but the number of jobs that each visit found, even if a visit departs too late.
fn put_columns(
    alloc: Global,
    lists: &mut NodeLists,
    from: usize,
    jobs: &[u32],
    times: &[u64],
    departs: &[u64],
) -> Result<(), OutOfMemory>
    requires in_turn { AreInTurn lists.old (departures_in lists.old) }
    requires tail { IsNextTail from jobs.now times.now departs.now lists.old }
    ensures put { OnOk result (IsTailPut from jobs.now times.now departs.now lists.old lists.new) }
    ensures found { lists.new.visits.found ≡ lists.old.visits.found }
    ensures first { ListsKeepFirst from lists.old lists.new }
{
    lists.visits.job.replace_from(from, jobs)?;
    lists.visits.arrive.replace_from(from, times)?;
    lists.visits.fate.replace_from(alloc, from, departs)?;
    put_stream(alloc, &mut lists.streams, from, jobs, departs)
}

// Replaces the number of jobs that each visit from one on found, given all arrivals and departures, by position.
fn put_founds(
    alloc: Global,
    found: &mut List<u32>,
    arrive: &List<u64>,
    departs: &List<u64>,
    from: usize,
) -> Result<(), OutOfMemory>
    requires even { length departs.now ≡ length arrive.now }
    requires few { length arrive.now ≤ 1048576 }
    requires arrive { Rises (λ a b. a ≤ b) arrive.now }
    requires departs { Rises (λ a b. a ≤ b) departs.now }
    requires within { from ≤ length found.old }
    requires longer { length found.old ≤ length arrive.now }
    ensures ok { OnOk result (found.new ≡ take from found.old ++ drop from (founds_of arrive.now (map (λ time. Departs time) departs.now))) }
    ensures err { OnErr result (found.new ≡ found.old) }
{
    let (first, count) = (from as u32, arrive.len() as u32);
    let last = found_piece_in_order(alloc, arrive, departs, first, count)?;
    found.replace_from(from, last.as_slice())
}

// Replaces the jobs and times from one on in the only stream. If memory runs out, the earlier ones are as they were.
fn put_stream(
    alloc: Global,
    streams: &mut List<Stream>,
    from: usize,
    jobs: &[u32],
    times: &[u64],
) -> Result<(), OutOfMemory>
    requires room { (stream : TheStream) × (streams.old ≡ stream ∷ []) × IsShorter from jobs.now times.now stream }
    ensures put { OnOk result (streams.new ≡ map (stream_before from jobs.now times.now) streams.old) }
    ensures first { OnlyKeepsFirst from streams.old streams.new }
{
    let mut taken = replace(streams, List::new(alloc)).into_vec();
    let done = put_items(&mut taken[0], from, jobs, times);
    drop(replace(streams, List::from_vec(taken)));
    done
}

// Replaces the jobs and times from one on in a stream. If memory runs out, the earlier ones are as they were.
fn put_items(
    stream: &mut Stream,
    from: usize,
    jobs: &[u32],
    times: &[u64],
) -> Result<(), OutOfMemory>
    requires { IsShorter from jobs.now times.now stream.old }
    ensures put { OnOk result (stream.new ≡ stream_before from jobs.now times.now stream.old) }
    ensures first { StreamKeepsFirst from stream.old stream.new }
{
    stream.job.replace_from(from, jobs)?;
    stream.time.replace_from(from, times)
}

// Restores the jobs and times from one on in the only stream, which has at least as many. Takes no memory.
fn put_stream_back(
    alloc: Global,
    streams: &mut List<Stream>,
    from: usize,
    jobs: &[u32],
    times: &[u64],
)
    requires { (stream : TheStream) × (streams.old ≡ stream ∷ []) × HasRoom from jobs.now times.now stream }
    ensures { streams.new ≡ map (stream_before from jobs.now times.now) streams.old }
{
    let mut taken = replace(streams, List::new(alloc)).into_vec();
    let stream = &mut taken[0];
    stream.job.put_back(from, jobs);
    stream.time.put_back(from, times);
    drop(replace(streams, List::from_vec(taken)));
}
