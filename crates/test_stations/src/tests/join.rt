// By which port each visit to a join comes, and how many jobs it finds.
ghost use Rattle.std.specs.Prelude.{◌≡◌, ◌+◌, ◌<◌, ◌≤◌, length, IfOk, OnOk};
ghost use Rattle.mq_core.specs.Sequences.{IsStream};

use mq_base::{List, OutOfMemory};
use mq_core::Stream;
use mq_join::{Gathered, join_visits};
use std::alloc::Global;
use std::test::Fail;

// The items of a stream.
#[derive(Clone, Copy)]
struct Items<'a> {
    jobs: &'a [u32],
    times: &'a [u64],
}

fn stream_of(alloc: Global, items: &Items) -> Result<Stream, OutOfMemory>
    requires { IsStream (record { job = items.now.jobs.now; time = items.now.times.now }) }
    ensures stream { IfOk result (λ stream. IsStream stream) }
    ensures many { IfOk result (λ stream. length stream.time ≡ length items.now.times.now) }
{
    let job = Vec::from_slice(alloc, items.jobs)?;
    let time = Vec::from_slice(alloc, items.times)?;
    Ok(Stream {
        job: List::from_vec(job),
        time: List::from_vec(time),
    })
}

/// What comes to a join by two ports, the port of each visit, and how many jobs it finds.
#[derive(Clone, Copy)]
struct Case<'a> {
    first: Items<'a>,
    second: Items<'a>,
    ports: &'a [u8],
    found: &'a [u32],
}

// Adds what comes by another port.
fn add(alloc: Global, gathered: &mut Gathered, items: &Items) -> Result<(), OutOfMemory>
    requires stream { IsStream (record { job = items.now.jobs.now; time = items.now.times.now }) }
    requires free { gathered.old.ports < 8 }
    requires few { length gathered.old.port + length items.now.times.now ≤ 1048576 }
    ensures ports { OnOk result (gathered.new.ports ≡ gathered.old.ports + 1) }
    ensures many { OnOk result (length gathered.new.port ≡ length gathered.old.port + length items.now.times.now) }
{
    let stream = stream_of(alloc, items)?;
    gathered.add(alloc, &stream)
}

// Adds what comes by the two ports of a case.
fn add_both(alloc: Global, gathered: &mut Gathered, case: &Case) -> Result<(), OutOfMemory>
    requires first { IsStream (record { job = case.now.first.jobs.now; time = case.now.first.times.now }) }
    requires second { IsStream (record { job = case.now.second.jobs.now; time = case.now.second.times.now }) }
    requires few { length case.now.first.times.now + length case.now.second.times.now ≤ 1048576 }
    requires none { gathered.old.ports ≡ 0 }
    requires nothing { length gathered.old.port ≡ 0 }
{
    add(alloc, gathered, &case.first)?;
    add(alloc, gathered, &case.second)
}

// Returns whether the visits to a join find these numbers of jobs.
fn find(alloc: Global, gathered: &Gathered, found: &[u32]) -> Result<bool, OutOfMemory> {
    let joined = join_visits(alloc, gathered)?;
    let so = joined.visits.found.as_slice() == found;
    drop(joined);
    Ok(so)
}

// Returns whether the visits to the join of a case have its ports and find its numbers of jobs.
fn is_told(alloc: Global, gathered: &Gathered, case: &Case) -> Result<bool, OutOfMemory> {
    Ok(
        gathered.ports == 2
            && gathered.port.as_slice() == case.ports
            && find(alloc, gathered, case.found)?,
    )
}

// Returns whether the join of a case gives what the case says.
fn joins_so(alloc: Global, case: &Case) -> Result<bool, OutOfMemory>
    requires first { IsStream (record { job = case.now.first.jobs.now; time = case.now.first.times.now }) }
    requires second { IsStream (record { job = case.now.second.jobs.now; time = case.now.second.times.now }) }
    requires few { length case.now.first.times.now + length case.now.second.times.now ≤ 1048576 }
{
    let mut gathered = Gathered::new(alloc);
    add_both(alloc, &mut gathered, case)?;
    is_told(alloc, &gathered, case)
}

// Two jobs through a fork and two servers, one slow and one quick, to a join.
const QUICK_AND_SLOW: Case<'static> = Case {
    first: Items {
        jobs: &[0, 1],
        times: &[3, 6],
    },
    second: Items {
        jobs: &[0, 1],
        times: &[1, 2],
    },
    ports: &[1, 1, 0, 0],
    found: &[0, 1, 2, 1],
};

// The slow copy of job 1 is lost on the way.
const LOST_ON_THE_WAY: Case<'static> = Case {
    first: Items {
        jobs: &[0],
        times: &[3],
    },
    second: Items {
        jobs: &[0, 1],
        times: &[1, 2],
    },
    ports: &[1, 1, 0],
    found: &[0, 1, 2],
};

// A job comes twice by the first port and three times by the second. At one time, items of the second port
// follow those of the first.
const IN_TURN: Case<'static> = Case {
    first: Items {
        jobs: &[7, 7],
        times: &[1, 5],
    },
    second: Items {
        jobs: &[7, 7, 7],
        times: &[5, 6, 6],
    },
    ports: &[0, 0, 1, 1, 1],
    found: &[0, 1, 2, 1, 0],
};

fn all_join_so(alloc: Global) -> Result<bool, OutOfMemory> {
    Ok(
        joins_so(alloc, &QUICK_AND_SLOW)?
            && joins_so(alloc, &LOST_ON_THE_WAY)?
            && joins_so(alloc, &IN_TURN)?,
    )
}

#[test]
fn a_visit_comes_by_its_port_and_finds_those_who_wait(rt: HostRuntime) -> Result<(), Fail> {
    assert!(rt; all_join_so(rt.alloc())?);
    Ok(())
}
