// The branches of a fork-join. Each job goes through all branches at once, and through the servers of a branch in turn.
ghost use Rattle.std.specs.Prelude.{◌≡◌, ◌+◌, ◌<◌, length, OnOk};
ghost use Rattle.mq_crew.specs.Crew.{AreAll};
ghost use Rattle.mq_kinds.specs.Branches.{AreDepartsAt, IsPassage, asked_at, departs_of, times_at};

use mq_asked::Asked;
use mq_base::{List, OutOfMemory};
use mq_forkjoin::later_times;
use mq_server::ServerStep;
use std::alloc::Global;

/// A fork-join while its jobs go through the branches.
#[derive(Drop)]
pub struct Passage<'r> {
    /// The demand of each job at each server, in ticks, for each branch that has a server left.
    pub servers: Vec<List<Asked<'r>>>,
    /// When the jobs come to the next server of each of these branches, in ticks. Before the first tier it is empty: they come to all
    /// when they arrive at the fork-join.
    pub times: Vec<List<u64>>,
    /// When the jobs are through all other branches, in ticks.
    pub latest: List<u64>,
}

// Returns the jobs at the next server of the branch at an index. `arrive` is when they arrive at the fork-join.
pub fn step_of<'b>(
    arrive: &'b List<u64>,
    server: usize,
    passage: &'b Passage,
    at: usize,
) -> ServerStep<'b>
    requires passage { IsPassage arrive.now server passage.now }
    requires inside { at < length passage.now.servers.items }
    ensures all { length result.arrive.now ≡ length arrive.now }
    ensures arrive { result.arrive.now ≡ times_at arrive.now passage.now at }
    ensures demands { result.demands.now ≡ asked_at server passage.now at }
{
    let times = passage.times.get(at).unwrap_or(arrive);
    ServerStep::behind(times, passage.servers[at].get(server).list())
}

// Takes the jobs past this server of each branch. `departs` is when they leave it. A branch that has no server left only counts
// for the latest times.
pub fn passed(
    alloc: Global,
    arrive: &List<u64>,
    server: usize,
    passage: &mut Passage,
    departs: List<List<u64>>,
) -> Result<(), OutOfMemory>
    requires within { server < 4 }
    requires passage { IsPassage arrive.now server passage.old }
    requires departs { AreAll (AreDepartsAt arrive.now server passage.old) (length passage.old.servers.items) departs }
    ensures passage { OnOk result (IsPassage arrive.now (server + 1) passage.new) }
    ensures departs { OnOk result (departs_of arrive.now passage.new ≡ departs_of arrive.now passage.old) }
{
    passage.times = departs.into_vec();
    let mut at = passage.servers.len();
    while at > 0 {
        at -= 1;
        if passage.servers[at].len() <= server + 1 {
            drop(passage.servers.remove(at));
            let through = passage.times.remove(at);
            passage.latest = later_times(alloc, &through, &passage.latest)?;
        }
    }
    Ok(())
}
