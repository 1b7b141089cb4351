// Where the match of each item is whole: the items of a job with the same index, one from each port.
ghost use Rattle.std.specs.Prelude.{◌≡◌, ◌+◌, ◌<◌, ◌≤◌, ℕ, ◌++◌, List, [], ◌∷◌, IfOk, OnOk, count_by, length, nat_lt, replicate, slice_get, slice_index, take};
ghost use Rattle.std.specs.List.{list_all};
ghost use Rattle.mq_core.specs.Kinds.Join.{is_item, matches_of as matches_in};
ghost use Rattle.mq_join.specs.Below.{AreBelow};
ghost use Rattle.mq_join.specs.Gathers.{came_to};
ghost use Rattle.mq_join.specs.Items.{AreBehind, AreCounted, AreFresh, IsCounted, indices_from, items_of};

use crate::gathered::Gathered;
use mq_base::{List, OutOfMemory};
use smallvec::SmallVec;
use std::alloc::Global;

// The items of a job so far: their number by port, and where its matches became whole, in turn. Most
// jobs have one match, which takes no allocation.
#[derive(Drop)]
struct Row {
    counts: [u32; 8],
    places: SmallVec<u32, 1>,
}

impl Row {
    fn new(alloc: Global) -> Row
        ensures counts { result.counts ≡ replicate 8 0 }
        ensures places { result.places.items ≡ [] }
    {
        Row {
            counts: [0; 8],
            places: SmallVec::new(alloc),
        }
    }

    // Whether each of the first ports has more items than there are matches.
    fn is_whole(&self, ports: u8) -> bool
        requires { ports ≤ 8 }
        ensures { result ≡ list_all (λ count. nat_lt (length self.now.places.items) count) (take ports self.now.counts) }
    {
        let matched = self.places.len();
        self.counts[..ports as usize]
            .iter()
            .all(|count| matched < *count as usize)
    }

    // Takes the item at this position, by a port. Returns how many items of the job came by it before.
    fn take(&mut self, ports: u8, port: u8, at: u32) -> Result<u32, OutOfMemory>
        requires ports { ports ≤ 8 }
        requires port { port < ports }
        requires few { slice_index self.old.counts port < 1048576 }
        ensures { IfOk result (λ index. (job : ℕ) (items : List (ℕ × ℕ)) → at ≡ length items → IsCounted ports job items self.old.counts self.old.places.items → (IsCounted ports job (items ++ (port, job) ∷ []) self.new.counts self.new.places.items) × (index ≡ count_by (is_item job port) items)) }
    {
        let index = self.counts[port as usize];
        self.counts[port as usize] = index + 1;
        if self.is_whole(ports) {
            self.places.push(at)?;
        }
        Ok(index)
    }

    // The position at which the match with this index is whole, if it is.
    fn place(&self, index: u32) -> Option<u32>
        ensures { result ≡ slice_get self.now.places.items index }
    {
        self.places.as_slice().get(index as usize).copied()
    }
}

// One more than the greatest of these jobs, or 0 if there are none.
fn jobs_in(jobs: &List<u32>) -> usize
    ensures { AreBelow result jobs.now }
{
    let mut count = 0;
    for at in 0..jobs.len() {
        count = count.max(*jobs.get(at) as usize + 1);
    }
    count
}

// `count` rows without items.
fn new_rows(alloc: Global, count: usize) -> Result<Vec<Row>, OutOfMemory>
    ensures many { IfOk result (λ rows. length rows.items ≡ count) }
    ensures fresh { IfOk result (λ rows. AreFresh rows.items) }
{
    let mut rows = Vec::with_capacity(alloc, count)?;
    for _ in 0..count {
        rows.push_reserved(Row::new(alloc));
    }
    Ok(rows)
}

// Counts all items in the rows of their jobs. Returns for each item how many of the same job and port
// come before it.
fn count_items(
    alloc: Global,
    gathered: &Gathered,
    rows: &mut [Row],
) -> Result<Vec<u32>, OutOfMemory>
    requires inside { AreBelow (length rows.old) gathered.now.stream.job }
    requires fresh { AreFresh rows.old }
    ensures rows { OnOk result (AreCounted gathered.now.ports (items_of gathered.now) rows.new) }
    ensures indices { IfOk result (λ indices. indices.items ≡ indices_from [] (items_of gathered.now)) }
{
    let mut indices = Vec::with_capacity(alloc, gathered.port.len())?;
    for at in 0..gathered.port.len() {
        let row = &mut rows[*gathered.stream.job.get(at) as usize];
        indices.push_reserved(row.take(gathered.ports, *gathered.port.get(at), at as u32)?);
    }
    Ok(indices)
}

// Where the match of each item is whole, given the counts.
fn places_of(
    alloc: Global,
    gathered: &Gathered,
    rows: &[Row],
    indices: &[u32],
) -> Result<List<Option<u32>>, OutOfMemory>
    requires inside { AreBelow (length rows.now) gathered.now.stream.job }
    requires rows { AreCounted gathered.now.ports (items_of gathered.now) rows.now }
    requires indices { indices.now ≡ indices_from [] (items_of gathered.now) }
    ensures { IfOk result (λ matches. matches ≡ matches_in (came_to gathered.now)) }
{
    let mut matches = Vec::with_capacity(alloc, gathered.port.len())?;
    for at in 0..gathered.port.len() {
        let row = &rows[*gathered.stream.job.get(at) as usize];
        matches.push_reserved(row.place(indices[at]));
    }
    Ok(List::from_vec(matches))
}

// Returns for each item where its match is whole, if it is: the position of the match's last item.
pub fn matches_of(alloc: Global, gathered: &Gathered) -> Result<List<Option<u32>>, OutOfMemory>
    ensures matches { IfOk result (λ matches. matches ≡ matches_in (came_to gathered.now)) }
    ensures many { IfOk result (λ matches. length matches ≡ length gathered.now.port) }
    ensures behind { IfOk result (λ matches. AreBehind matches) }
{
    let mut rows = new_rows(alloc, jobs_in(&gathered.stream.job))?;
    let Ok(indices) = count_items(alloc, gathered, rows.as_mut_slice()) else {
        drop(rows);
        return Err(OutOfMemory);
    };
    let places = places_of(alloc, gathered, rows.as_slice(), indices.as_slice());
    drop(rows);
    places
}
