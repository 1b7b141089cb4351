// The visits to a join, and what leaves it.
ghost use Rattle.std.specs.Prelude.{◌≡◌, ◌<◌, ◌≤◌, ℕ, [], IfOk, OnOk, count_by, length, map, replicate, slice_index};
ghost use Rattle.std.specs.Option.{ForSome};
ghost use Rattle.mq_core.specs.Kinds.Join.{fate_by_match, is_whole_at, matches_of as matches_in, opens_from, wholes_from};
ghost use Rattle.mq_core.specs.Sequences.{sequence_visits};
ghost use Rattle.mq_core.specs.declared.model.Kind.TheVariants.{Join};
ghost use Rattle.mq_core.specs.declared.model.Rows.{Rows};
ghost use Rattle.mq_join.specs.Gathers.{came_to};
ghost use Rattle.mq_join.specs.Items.{AreBehind};
ghost use Rattle.mq_join.specs.Visits.{AreJoined};
ghost use Rattle.mq_merge.specs.Merged.{AppendsItem};

use crate::copies::copy_of;
use crate::gathered::Gathered;
use crate::matches::matches_of;
use mq_base::{List, OutOfMemory};
use mq_core::{Fate, Fates, Stream, Visits};
use std::alloc::Global;

/// The result of a join.
#[derive(Drop)]
pub struct Joined {
    /// The visits, one per item.
    pub visits: Visits,
    /// What leaves: one item per match, when its last item comes.
    pub leaving: Stream,
}

// The fate of a visit: it departs when its match is whole, or is held.
fn fate_of(arrive: &List<u64>, place: Option<u32>) -> Fate
    requires { ForSome place (λ at. at < length arrive.now) }
    ensures { result ≡ fate_by_match arrive.now place }
{
    match place {
        Some(at) => Fate::Departs(*arrive.get(at as usize)),
        None => Fate::Held,
    }
}

// The fate of each visit.
fn fates_of(
    alloc: Global,
    arrive: &List<u64>,
    matches: &List<Option<u32>>,
) -> Result<List<Fate>, OutOfMemory>
    requires even { length matches.now ≡ length arrive.now }
    requires behind { AreBehind matches.now }
    ensures { IfOk result (λ fates. fates ≡ map (fate_by_match arrive.now) matches.now) }
{
    let mut fates = Vec::with_capacity(alloc, matches.len())?;
    for at in 0..matches.len() {
        fates.push_reserved(fate_of(arrive, *matches.get(at)));
    }
    Ok(List::from_vec(fates))
}

// Counts at each position the visits whose match is whole there.
fn count_closings(closings: &mut [u32], matches: &List<Option<u32>>)
    requires fresh { closings.old ≡ replicate (length matches.now) 0 }
    requires behind { AreBehind matches.now }
    requires few { length matches.now ≤ 1048576 }
    ensures { (place : ℕ) → place < length matches.now → slice_index closings.new place ≡ count_by (is_whole_at place) matches.now }
{
    for at in 0..matches.len() {
        if let Some(place) = *matches.get(at) {
            closings[place as usize] += 1;
        }
    }
}

// How many visits leave at each position.
fn closings_of(alloc: Global, matches: &List<Option<u32>>) -> Result<Vec<u32>, OutOfMemory>
    requires behind { AreBehind matches.now }
    requires few { length matches.now ≤ 1048576 }
    ensures even { IfOk result (λ closings. length closings.items ≡ length matches.now) }
    ensures count { IfOk result (λ closings. (place : ℕ) → place < length matches.now → slice_index closings.items place ≡ count_by (is_whole_at place) matches.now) }
{
    let mut closings = vec![in alloc; 0u32; matches.len()]?;
    count_closings(closings.as_mut_slice(), matches);
    Ok(closings)
}

// How many earlier visits are still there when each comes, given how many leave with each: all but
// those that left before.
fn founds_by(
    alloc: Global,
    matches: &List<Option<u32>>,
    closings: &[u32],
) -> Result<List<u32>, OutOfMemory>
    requires behind { AreBehind matches.now }
    requires few { length matches.now ≤ 1048576 }
    requires even { length closings.now ≡ length matches.now }
    requires count { (place : ℕ) → place < length matches.now → slice_index closings.now place ≡ count_by (is_whole_at place) matches.now }
    ensures { IfOk result (λ founds. founds ≡ opens_from 0 [] matches.now) }
{
    let mut founds = Vec::with_capacity(alloc, closings.len())?;
    let mut closed = 0;
    for at in 0..closings.len() {
        founds.push_reserved(at as u32 - closed);
        closed += closings[at];
    }
    Ok(List::from_vec(founds))
}

// How many earlier visits are still there when each comes.
fn founds_of(alloc: Global, matches: &List<Option<u32>>) -> Result<List<u32>, OutOfMemory>
    requires behind { AreBehind matches.now }
    requires few { length matches.now ≤ 1048576 }
    ensures { IfOk result (λ founds. founds ≡ opens_from 0 [] matches.now) }
{
    let closings = closings_of(alloc, matches)?;
    founds_by(alloc, matches, closings.as_slice())
}

// Whether a match is whole at this position.
fn is_whole(place: Option<u32>, at: usize) -> bool
    ensures { result ≡ is_whole_at at place }
{
    match place {
        Some(place) => place as usize == at,
        None => false,
    }
}

// Appends a job and its time.
fn append_item(stream: &mut Stream, job: u32, time: u64) -> Result<(), OutOfMemory>
    ensures { OnOk result (AppendsItem stream.old stream.new job time) }
{
    stream.job.push(job)?;
    stream.time.push(time)?;
    Ok(())
}

// The items that complete a match.
fn leaving_of(
    alloc: Global,
    stream: &Stream,
    matches: &List<Option<u32>>,
) -> Result<Stream, OutOfMemory>
    requires jobs { length stream.now.job ≡ length matches.now }
    requires times { length stream.now.time ≡ length matches.now }
    ensures jobs { IfOk result (λ leaving. leaving.job ≡ wholes_from 0 matches.now stream.now.job) }
    ensures times { IfOk result (λ leaving. leaving.time ≡ wholes_from 0 matches.now stream.now.time) }
{
    let mut leaving = Stream {
        job: List::new(alloc),
        time: List::new(alloc),
    };
    for at in 0..matches.len() {
        if is_whole(*matches.get(at), at) {
            append_item(&mut leaving, *stream.job.get(at), *stream.time.get(at))?;
        }
    }
    Ok(leaving)
}

// The visits of these items, given their matches.
fn visits_of(
    alloc: Global,
    gathered: &Gathered,
    matches: &List<Option<u32>>,
) -> Result<Visits, OutOfMemory>
    requires matches { matches.now ≡ matches_in (came_to gathered.now) }
    requires many { length matches.now ≡ length gathered.now.port }
    requires behind { AreBehind matches.now }
    ensures { IfOk result (λ visits. (rows : Rows) → visits ≡ sequence_visits rows Join (came_to gathered.now)) }
{
    let found = founds_of(alloc, matches)?;
    let Ok(fate) = fates_of(alloc, &gathered.stream.time, matches) else {
        drop(found);
        return Err(OutOfMemory);
    };
    let Ok(came) = copy_of(alloc, &gathered.stream) else {
        drop(found);
        drop(fate);
        return Err(OutOfMemory);
    };
    let Stream { job, time: arrive } = came;
    Ok(Visits {
        job,
        arrive,
        found,
        fate: Fates::each(fate),
    })
}

/// Returns the visits of a join and what leaves it. The i-th items of a job by all ports are a match,
/// and depart when the last of them comes; an item whose match is never whole is held. Takes time and
/// memory in proportion to the number of items and the greatest job. The only error is that memory
/// runs out.
pub fn join_visits(alloc: Global, gathered: &Gathered) -> Result<Joined, OutOfMemory>
    ensures { IfOk result (λ joined. AreJoined (came_to gathered.now) joined) }
{
    let matches = matches_of(alloc, gathered)?;
    let Ok(leaving) = leaving_of(alloc, &gathered.stream, &matches) else {
        drop(matches);
        return Err(OutOfMemory);
    };
    let seen = visits_of(alloc, gathered, &matches);
    drop(matches);
    let Ok(visits) = seen else {
        drop(leaving);
        return Err(OutOfMemory);
    };
    Ok(Joined { visits, leaving })
}
