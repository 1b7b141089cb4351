// A job that overtakes another.
ghost use Rattle.std.specs.Prelude.{◌≡◌, ◌∷◌, [], length, IfOk};
ghost use Rattle.mq_core.specs.Sequences.{IsSoundLoad};

use mq_base::{List, OutOfMemory};
use mq_core::Stream;
use mq_delay::{Delayed, delay};
use std::alloc::Global;
use std::test::Fail;
use std::thread::Threads;

// Returns two jobs, which come at 0 and at 1.
fn two_jobs(alloc: Global) -> Result<Stream, OutOfMemory>
    ensures even { IfOk result (λ stream. length stream.job ≡ 2) }
    ensures time { IfOk result (λ stream. stream.time ≡ 0 ∷ 1 ∷ []) }
{
    Ok(Stream {
        job: List::from_vec(Vec::from_slice(alloc, &[0, 1])?),
        time: List::from_vec(Vec::from_slice(alloc, &[0, 1])?),
    })
}

// Returns whether the second job leaves at 2, before the first at 5.
fn is_overtaken(found: &Delayed) -> bool {
    found.departs.as_slice() == [5, 2].as_slice()
        && found.leaving.job.as_slice() == [1, 0].as_slice()
        && found.leaving.time.as_slice() == [2, 5].as_slice()
}

// Returns whether it does with these demands.
fn overtakes<R: Threads + Sync>(
    rt: &R,
    alloc: Global,
    stream: &Stream,
    demands: &List<u64>,
) -> Result<bool, OutOfMemory>
    requires load { IsSoundLoad stream.now.time demands.now }
    requires even { length stream.now.job ≡ length stream.now.time }
{
    let found = delay(rt, alloc, stream, demands)?;
    let so = is_overtaken(&found);
    drop(found);
    Ok(so)
}

// Returns whether it does if the first asks for 5 ticks and the second
// for 1.
fn shorter_overtakes<R: Threads + Sync>(rt: &R, alloc: Global) -> Result<bool, OutOfMemory> {
    let stream = two_jobs(alloc)?;
    let demands = List::from_vec(Vec::from_slice(alloc, &[5, 1])?);
    overtakes(rt, alloc, &stream, &demands)
}

#[test]
fn a_job_overtakes_one_that_takes_longer(rt: HostRuntime) -> Result<(), Fail> {
    assert!(rt; shorter_overtakes(&rt, rt.alloc())?);
    Ok(())
}
