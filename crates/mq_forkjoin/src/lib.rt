//! The fork-join station: a job enters every branch at once, and leaves when it has left all of them.
#![tactic(auto)]

ghost use Rattle.std.specs.Prelude.{◌≡◌, ◌^◌, ◌≤◌, All, length, IfOk};
ghost use Rattle.mq_core.specs.Sequences.{IsSoundLoad};
ghost use Rattle.mq_core.specs.Recurrences.{forkjoin_departs, in_series, later_of};
ghost use Rattle.mq_forkjoin.specs.Branches.{AreBranches, branches_of};

mod laws;
mod scan;
mod step;

pub use laws::carries_hold_departures;
use mq_asked::Asked;
use mq_base::{List, OutOfMemory};
use mq_core::Stream;
use mq_server::departures_behind;
pub use scan::Jobs;
use std::alloc::Global;
pub use step::ForkJoinStep;

/// Returns when each job leaves a fork-join: one departure per job, by position, in ticks. A job enters
/// every branch at once, passes the servers of each one after another, and leaves when it has left all
/// branches. Each server serves the jobs one by one in the order of the stream (Lindley's recurrence).
///
/// There is one list of demands per server, branch by branch, with one demand per job, in ticks of
/// service. `branches` gives the number of servers of each branch: there is at least one branch, each
/// has at least one server, and they have at most 8 in all. The only error is that memory runs out.
pub fn fork_departures(
    alloc: Global,
    stream: &Stream,
    demands: &List<Asked>,
    branches: &List<u8>,
) -> Result<List<u64>, OutOfMemory>
    requires load { All (λ column. IsSoundLoad stream.now.time column) demands.now }
    requires branches { AreBranches branches.now demands.now }
    ensures { IfOk result (λ departs. departs ≡ forkjoin_departs stream.now.time (branches_of branches.now demands.now)) }
{
    let mut departs = copy_of(alloc, &stream.time)?;
    // From the last branch to the first: the greatest of all is the later of one and the rest.
    let (mut branch, mut end) = (branches.len(), demands.len());
    while branch > 0 {
        branch -= 1;
        let first = end - *branches.get(branch) as usize;
        let through = branch_departures(alloc, &stream.time, &demands.as_slice()[first..end])?;
        departs = later_times(alloc, &through, &departs)?;
        end = first;
    }
    Ok(departs)
}

// When each job leaves a branch with these servers, to which it comes at these times.
fn branch_departures(
    alloc: Global,
    arrive: &List<u64>,
    demands: &[Asked],
) -> Result<List<u64>, OutOfMemory>
    requires load { All (λ column. IsSoundLoad arrive.now column) demands.now }
    requires early { All (λ time. time ≤ 2 ^ 60) arrive.now }
    requires few { length demands.now ≤ 8 }
    ensures { IfOk result (λ departs. departs ≡ in_series arrive.now demands.now) }
{
    let mut departs = copy_of(alloc, arrive)?;
    for column in demands {
        departs = departures_behind(alloc, &departs, column.list())?;
    }
    Ok(departs)
}

/// Returns the later of two times, in ticks, index by index. The lists must have the same length. The
/// only error is that memory runs out.
pub fn later_times(
    alloc: Global,
    one: &List<u64>,
    other: &List<u64>,
) -> Result<List<u64>, OutOfMemory>
    requires { length one.now ≡ length other.now }
    ensures { IfOk result (λ later. later ≡ later_of one.now other.now) }
{
    let mut later = Vec::with_capacity(alloc, one.len())?;
    for at in 0..one.len() {
        later.push_reserved((*one.get(at)).max(*other.get(at)));
    }
    Ok(List::from_vec(later))
}

/// Returns a copy of these times, in ticks. The only error is that memory runs out.
pub fn copy_of(alloc: Global, times: &List<u64>) -> Result<List<u64>, OutOfMemory>
    ensures { IfOk result (λ copy. copy ≡ times.now) }
{
    Ok(List::from_vec(Vec::from_slice(alloc, times.as_slice())?))
}
