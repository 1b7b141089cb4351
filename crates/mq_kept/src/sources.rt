// What comes to a source after edits of rows, following the visits that stay.
ghost use Rattle.std.specs.Prelude.{◌≡◌, ◌+◌, ◌<◌, ◌≤◌, ◌++◌, ℕ, drop, length, take, IfOk};
ghost use Rattle.std.specs.List.{AllByRecursion};
ghost use Rattle.mq_alike.specs.Again.{alike};
ghost use Rattle.mq_core.specs.Laws.{Rises};
ghost use Rattle.mq_core.specs.Sequences.{IsStream, rows_at};
ghost use Rattle.mq_core.specs.Streams.{by_first, pairs_of};
ghost use Rattle.mq_core.specs.declared.model.Kind.TheVariants.{Source};
ghost use Rattle.mq_core.specs.declared.model.Plan.{Plan as ThePlan};
ghost use Rattle.mq_edits.specs.Former.{IsFormerOf, rows_before};
ghost use Rattle.mq_exits.specs.Loads.{IsLoaded};
ghost use Rattle.mq_kept.specs.KeptNodes.{coming_of};
ghost use Rattle.mq_kept.specs.SourceTails.{AreFirstSame, ComeBefore, IsKeptSource, staying_behind};
ghost use Rattle.mq_kept.specs.Tails.{IsTailFor, coming_behind};
ghost use Rattle.mq_redo.specs.Kept.{coming_as};

use crate::former::NodeLists;
use mq_arrivals::rows_by_time;
use mq_base::{List, OutOfMemory};
use mq_core::{Rows, Stream, Visits};
use mq_edits::FormerRows;
use mq_engine::core_laws;
use mq_merge::merge_two;
use std::alloc::Global;

/// What comes to a source after edits of rows: what came before, up to the first difference, and then these jobs.
#[derive(Drop)]
pub struct SourceTail {
    /// The number of first jobs that come as before, at the same times.
    pub from: usize,
    /// What comes after those jobs.
    pub arrivals: Stream,
}

/// Returns what comes to a source after edits of rows, given the lists that are kept of it. The first `first` visits
/// come before each row that may have changed. Reads no row before the first edited one, and none of those first
/// visits. Fails only if memory runs out.
pub fn source_tail(
    alloc: Global,
    former: &FormerRows,
    rows: &Rows,
    number: u32,
    lists: &NodeLists,
    first: usize,
) -> Result<SourceTail, OutOfMemory>
    requires former { IsFormerOf former.now rows.now }
    requires kept { (plan : ThePlan) × IsKeptSource plan former.now rows.now number lists.now }
    requires first { ComeBefore number former.now rows.now lists.now.visits.arrive first }
    ensures within { IfOk result (λ tail. tail.from ≤ length lists.now.visits.job) }
    ensures loaded { (plan : ThePlan) → IsKeptSource plan former.now rows.now number lists.now → IfOk result (λ tail. IsLoaded plan rows.now number (coming_behind tail.from lists.now.visits tail.arrivals.job tail.arrivals.time)) }
    ensures fits { (plan : ThePlan) → IsKeptSource plan former.now rows.now number lists.now → IfOk result (λ tail. length lists.now.visits.job ≤ tail.from + length tail.arrivals.job → IsTailFor plan rows.now number lists.now tail.from tail.arrivals.job tail.arrivals.time tail.arrivals.time) }
    ensures same { IfOk result (λ tail. tail.from ≡ alike Source (coming_of (rows_before former.now rows.now) lists.now.visits) (coming_as rows.now (coming_behind tail.from lists.now.visits tail.arrivals.job tail.arrivals.time))) }
{
    core_laws();
    let visits = &lists.visits;
    let arrivals = arrivals_from(alloc, former.from, rows, number, visits, first)?;
    let jobs = &visits.job.as_slice()[first..];
    let times = &visits.arrive.as_slice()[first..];
    let same = same_arrivals(jobs, times, &arrivals);
    let Stream { job, time } = arrivals;
    Ok(SourceTail {
        from: first + same,
        arrivals: Stream {
            job: without_first(job, same),
            time: without_first(time, same),
        },
    })
}

/// Returns the number of first visits to a source that come before each of its rows that may have changed, as it was
/// and as it is. Reads no row before the first edited one, and finds the visits by binary search.
pub fn before_changes(former: &FormerRows, rows: &Rows, number: u32, times: &[u64]) -> usize
    requires was { length former.now.rows.source ≡ length former.now.rows.time }
    requires is { length rows.now.source ≡ length rows.now.time }
    requires from { former.now.from ≤ length rows.now.source }
    requires rising { Rises (λ a b. a ≤ b) times.now }
    ensures { ComeBefore number former.now rows.now times.now result }
{
    let from = former.from as usize;
    let was = least_time(
        number,
        former.rows.source.as_slice(),
        former.rows.time.as_slice(),
    );
    let is = least_time(
        number,
        &rows.source.as_slice()[from..],
        &rows.time.as_slice()[from..],
    );
    earlier_than(times, was.min(is))
}

// Returns a time such that no row of a source among these is earlier: the greatest number if the source has none.
fn least_time(number: u32, source: &[u32], time: &[u64]) -> u64
    requires { length source.now ≡ length time.now }
    ensures { (job : ℕ) → AllByRecursion (λ (p : ℕ × ℕ). result ≤ p.0) (rows_at number job source.now time.now) }
{
    let mut least = u64::MAX;
    for at in 0..source.len() {
        if source[at] == number {
            least = least.min(time[at]);
        }
    }
    least
}

// Returns the number of first times that are earlier than this bound.
fn earlier_than(times: &[u64], bound: u64) -> usize
    requires { Rises (λ a b. a ≤ b) times.now }
    ensures within { result ≤ length times.now }
    ensures earlier { AllByRecursion (λ time. time < bound) (take result times.now) }
    ensures others { AllByRecursion (λ time. bound ≤ time) (drop result times.now) }
{
    times.partition_point(|time| *time < bound)
}

// Returns what comes to a source after its first visits: the other visits whose rows are before this one, and the rows
// from it on.
fn arrivals_from(
    alloc: Global,
    row: u32,
    rows: &Rows,
    number: u32,
    visits: &Visits,
    first: usize,
) -> Result<Stream, OutOfMemory>
    requires even { length visits.now.arrive ≡ length visits.now.job }
    requires rising { Rises (λ a b. a ≤ b) visits.now.arrive }
    requires first { first ≤ length visits.now.job }
    requires rows { length rows.now.source ≡ length rows.now.time }
    requires few { length rows.now.time ≤ 1048576 }
    ensures stream { IfOk result (λ arrivals. IsStream arrivals) }
    ensures items { IfOk result (λ arrivals. pairs_of arrivals ≡ by_first (staying_behind first row visits.now ++ by_first (rows_at number row (drop row rows.now.source) (drop row rows.now.time)))) }
{
    let staying = staying_behind(alloc, row, visits, first)?;
    let Ok(edited) = rows_by_time(alloc, number, &rows.source, &rows.time, row as usize) else {
        drop(staying);
        return Err(OutOfMemory);
    };
    let arrivals = merge_two(alloc, &staying, &edited);
    drop(staying);
    drop(edited);
    arrivals
}

// Returns the visits after the first ones whose jobs are rows before this one.
fn staying_behind(
    alloc: Global,
    row: u32,
    visits: &Visits,
    first: usize,
) -> Result<Stream, OutOfMemory>
    requires even { length visits.now.arrive ≡ length visits.now.job }
    requires first { first ≤ length visits.now.job }
    ensures even { IfOk result (λ staying. length staying.job ≡ length staying.time) }
    ensures items { IfOk result (λ staying. pairs_of staying ≡ staying_behind first row visits.now) }
{
    let room = visits.job.len() - first;
    let mut jobs = Vec::with_capacity(alloc, room)?;
    let mut times = Vec::with_capacity(alloc, room)?;
    for at in first..visits.job.len() {
        let job = *visits.job.get(at);
        if job < row {
            jobs.push_reserved(job);
            times.push_reserved(*visits.arrive.get(at));
        }
    }
    Ok(Stream {
        job: List::from_vec(jobs),
        time: List::from_vec(times),
    })
}

// Returns the number of these jobs, which came at these times, that are also the first arrivals, at the same times.
fn same_arrivals(jobs: &[u32], times: &[u64], arrivals: &Stream) -> usize
    requires came { length times.now ≡ length jobs.now }
    requires arrivals { length arrivals.now.time ≡ length arrivals.now.job }
    ensures { AreFirstSame jobs.now times.now arrivals.now.job arrivals.now.time result }
{
    let both = jobs.len().min(arrivals.job.len());
    for at in 0..both {
        if jobs[at] != *arrivals.job.get(at) || times[at] != *arrivals.time.get(at) {
            return at;
        }
    }
    both
}

// Returns a list without its first items. Takes no memory.
fn without_first<T: Copy + Drop>(items: List<T>, count: usize) -> List<T>
    requires { count ≤ length items }
    ensures { result ≡ drop count items }
{
    let mut items = items.into_vec();
    let left = items.len() - count;
    items.as_mut_slice().copy_within(count.., 0);
    items.truncate(left);
    List::from_vec(items)
}
