// How a node is worked out, from its arrivals to its visits and what leaves it.
ghost use Rattle.std.specs.Prelude.{◌≡◌, ◌≤◌, ◌∷◌, [], ℕ, length, map, IfOk};
ghost use Rattle.mq_core.specs.Sequences.{IsStream};
ghost use Rattle.mq_core.specs.OnceOut.{founds_of};
ghost use Rattle.mq_core.specs.Laws.{Rises};
ghost use Rattle.mq_core.specs.declared.model.Fate.TheVariants.{Departs};
ghost use Rattle.mq_core.specs.declared.model.Plan.{Plan as ThePlan};
ghost use Rattle.mq_core.specs.declared.model.Rows.{Rows as TheRows};
ghost use Rattle.mq_exits.specs.Afters.{IsAfterAt};
ghost use Rattle.mq_exits.specs.Keeping.{IsEndBy};
ghost use Rattle.mq_exits.specs.Loads.{IsLoaded};
ghost use Rattle.mq_exits.specs.declared.working.After.TheVariants.{Seen};

use crate::keeping::End;
use mq_base::{List, OutOfMemory};
use mq_core::{Fates, OverFault, PastFault, Stream, Visits, sequences_go_by_fates};
use mq_stations::only;
use mq_stats::found_piece_in_order;
use std::alloc::Global;

/// A node that was worked out: what it gives.
#[derive(Drop)]
pub struct NodeResult {
    /// The node, by order of declaration.
    pub number: u32,
    pub ending: Ending,
}

/// How a node ends that was worked out.
#[derive(Drop)]
pub enum Ending {
    /// With its visits and what leaves it by each output: no visit departs after the bound.
    OnTime(Visits, List<Stream>),
    /// With more visits than it may have: it is not worked out.
    TooMany(OverFault),
    /// With the first visit that departs after the bound.
    TooLate(PastFault),
}

/// What becomes of the arrivals at a node.
#[derive(Drop)]
pub enum After {
    /// Their fates, how many each found, and what leaves by each output, in emission order: none
    /// departs after the bound.
    Seen(Fates, List<u32>, List<Stream>),
    /// The first that departs after the bound.
    Missed(PastFault),
}

// Returns how a station ends to which these jobs came.
pub fn end_of(arrivals: Stream, after: After) -> End
    ensures { (plan : ThePlan) (rows : TheRows) (v : ℕ) → IsLoaded plan rows v arrivals → IsAfterAt plan rows v arrivals after → IsEndBy plan rows v arrivals result }
{
    sequences_go_by_fates();
    match after {
        After::Seen(fate, found, streams) => {
            let visits = Visits {
                job: arrivals.job,
                arrive: arrivals.time,
                found,
                fate,
            };
            End::Lists(visits, streams)
        }
        After::Missed(past) => {
            drop(arrivals);
            End::Late(past)
        }
    }
}

// Returns how many jobs each visit found, if the jobs leave at these times in the order in which they came.
pub fn found_by_position(
    alloc: Global,
    arrivals: &Stream,
    departs: &List<u64>,
) -> Result<List<u32>, OutOfMemory>
    requires arrivals { IsStream arrivals.now }
    requires few { length arrivals.now.time ≤ 1048576 }
    requires even { length departs.now ≡ length arrivals.now.time }
    requires departs { Rises (λ a b. a ≤ b) departs.now }
    ensures { IfOk result (λ found. found ≡ founds_of arrivals.now.time (map (λ time. Departs time) departs.now)) }
{
    let count = arrivals.time.len() as u32;
    found_piece_in_order(alloc, &arrivals.time, departs, 0, count)
}

/// Returns 0 for each of these visits. The only error is out of memory.
pub fn nobody(alloc: Global, arrive: &List<u64>) -> Result<List<u32>, OutOfMemory>
    ensures { IfOk result (λ found. found ≡ map (λ _. 0) arrive.now) }
{
    let mut found = Vec::with_capacity(alloc, arrive.len())?;
    for _ in arrive.as_slice() {
        found.push_reserved(0);
    }
    Ok(List::from_vec(found))
}

/// Returns what becomes of arrivals that depart at these times and found these numbers of jobs, by position, if this leaves by the
/// only output. The only error is out of memory.
pub fn on_time(
    alloc: Global,
    departs: List<u64>,
    found: List<u32>,
    leaving: Stream,
) -> Result<After, OutOfMemory>
    ensures { IfOk result (λ after. after ≡ Seen (map (λ time. Departs time) departs) found (leaving ∷ [])) }
{
    match only(alloc, leaving) {
        Ok(streams) => Ok(After::Seen(Fates::departures(departs), found, streams)),
        Err(fault) => {
            drop(departs);
            drop(found);
            Err(fault)
        }
    }
}
