ghost use Rattle.std.specs.Prelude.{◌≡◌, ◌+◌, ◌*◌, ◌≤◌, ℕ, List as Items, length, IfOk};
ghost use Rattle.std.specs.List.{zip};
ghost use Rattle.mq_core.specs.Sequences.{IsSoundLoad, IsStream};
ghost use Rattle.mq_core.specs.Streams.{by_first, pairs_of};
ghost use Rattle.mq_trunk.specs.Parts.{AreAdmitted, ArePartedBy, IsSettled, lost_of, of_admitted, of_lost};
ghost use Rattle.mq_rounds.specs.Windows.{IsWindowRun};
ghost use Rattle.mq_trunk.specs.Rounds.{trunk_rule};

use crate::answer::Trunk;
use crate::whole::all_free;
use crate::windows::Group;
use mq_base::{List, OutOfMemory, Steps};
use mq_core::Stream;
use mq_merge::by_time;
use mq_rounds::{Settled, settle_windows};
use std::alloc::Global;
use std::sync::ledger::Ledger;

// The admitted jobs, `many` of them, by position.
// It isn't inlined, so that its loop has the registers to itself.
#[inline(never)]
fn admitted_jobs(
    alloc: Global,
    jobs: &List<u32>,
    admitted: &List<bool>,
    many: usize,
) -> Result<List<u32>, OutOfMemory>
    requires jobs { length jobs.now ≡ length admitted.now }
    requires many { length (of_admitted admitted.now jobs.now) ≡ many }
    ensures { IfOk result (λ served. served ≡ of_admitted admitted.now jobs.now) }
{
    let mut served = Vec::with_capacity(alloc, many)?;
    for at in 0..admitted.len() {
        if *admitted.get(at) {
            served.push_reserved(*jobs.get(at));
        }
    }
    Ok(List::from_vec(served))
}

// The admitted jobs, as they leave.
fn leaving_jobs(
    alloc: Global,
    jobs: &List<u32>,
    admitted: &List<bool>,
    departs: &List<u64>,
) -> Result<Stream, OutOfMemory>
    requires jobs { length jobs.now ≡ length admitted.now }
    requires departs { length (of_admitted admitted.now jobs.now) ≡ length departs.now }
    ensures ordered { IfOk result (λ leaving. IsStream leaving) }
    ensures items { IfOk result (λ leaving. pairs_of leaving ≡ by_first (zip departs.now (of_admitted admitted.now jobs.now))) }
{
    let served = admitted_jobs(alloc, jobs, admitted, departs.len())?;
    let leaving = by_time(alloc, &served, departs)?;
    Ok(leaving)
}

// The lost jobs, `many` of them, in order of arrival.
// It isn't inlined, so that its loop has the registers to itself.
#[inline(never)]
fn lost_jobs(
    alloc: Global,
    stream: &Stream,
    admitted: &List<bool>,
    many: usize,
) -> Result<Stream, OutOfMemory>
    requires jobs { length stream.now.job ≡ length admitted.now }
    requires times { length stream.now.time ≡ length admitted.now }
    requires many { length (of_lost admitted.now stream.now.job) ≡ many }
    ensures { IfOk result (λ lost. lost ≡ lost_of stream.now admitted.now) }
{
    let mut job = Vec::with_capacity(alloc, many)?;
    let Ok(mut time) = Vec::with_capacity(alloc, many) else {
        drop(job);
        return Err(OutOfMemory);
    };
    for at in 0..admitted.len() {
        if !*admitted.get(at) {
            job.push_reserved(*stream.job.get(at));
            time.push_reserved(*stream.time.get(at));
        }
    }
    Ok(Stream {
        job: List::from_vec(job),
        time: List::from_vec(time),
    })
}

/// What leaves a trunk group by each output.
#[derive(Drop)]
pub struct Parts {
    /// The admitted jobs, as they leave by output 0: by departure, those with the same departure by
    /// position.
    pub leaving: Stream,
    /// The lost jobs, as they leave by output 1: in order of arrival.
    pub lost: Stream,
}

/// Returns what leaves a trunk group by each output, given whether it admits each arrival, and when the admitted
/// depart, in ticks; both by position. The only error is that memory runs out.
pub fn trunk_parts(
    alloc: Global,
    stream: &Stream,
    admitted: &List<bool>,
    departs: &List<u64>,
) -> Result<Parts, OutOfMemory>
    requires { (servers : ℕ) × (demands : Items ℕ) × AreAdmitted servers stream.now demands admitted.now departs.now }
    ensures { IfOk result (λ parts. (servers : ℕ) (demands : Items ℕ) → AreAdmitted servers stream.now demands admitted.now departs.now → ArePartedBy servers stream.now demands parts) }
{
    let lost = lost_jobs(alloc, stream, admitted, admitted.len() - departs.len())?;
    let leaving = leaving_jobs(alloc, &stream.job, admitted, departs)?;
    Ok(Parts { leaving, lost })
}

// The settled arrivals, with what leaves.
fn with_parts(alloc: Global, stream: &Stream, settled: Settled) -> Result<Trunk, OutOfMemory>
    requires { (servers : ℕ) × (demands : Items ℕ) × AreAdmitted servers stream.now demands settled.admitted settled.departs }
    ensures settled { IfOk result (λ trunk. (servers : ℕ) (demands : Items ℕ) → AreAdmitted servers stream.now demands settled.admitted settled.departs → IsSettled servers stream.now demands trunk) }
    ensures rounds { IfOk result (λ trunk. trunk.rounds ≡ settled.rounds) }
    ensures judged { IfOk result (λ trunk. trunk.judged ≡ settled.judged) }
{
    let parts = trunk_parts(alloc, stream, &settled.admitted, &settled.departs)?;
    Ok(Trunk {
        admitted: settled.admitted,
        departs: settled.departs,
        leaving: parts.leaving,
        lost: parts.lost,
        rounds: settled.rounds,
        judged: settled.judged,
    })
}

/// Returns which arrivals of the stream a trunk group with these servers admits, and when they depart.
/// Rounds over windows settle the arrivals, one round per window; the first window has `first` arrivals. All
/// arrivals of a window are guessed admitted; its round settles them up to the first that it changes, or all.
/// The next window begins after the settled arrivals. It is twice as long if all were settled; otherwise it
/// has as many arrivals as were settled.
///
/// Times and departures are in ticks, demands in ticks of service; there is one demand per item of
/// the stream, and `first` must be at least 1. Each arrival is judged once, which counts one step: a
/// round judges no arrival after the first that it changes. `judged` is the sum of the lengths of the
/// windows, at most twice the number of arrivals plus `first`. There are at most as many rounds as
/// arrivals. The only error is that memory runs out.
pub fn admit_trunk<L: Ledger>(
    alloc: Global,
    stream: &Stream,
    demands: &List<u64>,
    servers: u8,
    first: u32,
    steps: &mut Steps<L>,
) -> Result<Settled, OutOfMemory>
    requires load { IsSoundLoad stream.now.time demands.now }
    requires stream { IsStream stream.now }
    requires first { 1 ≤ first }
    ensures admitted { IfOk result (λ settled. AreAdmitted servers stream.now demands.now settled.admitted settled.departs) }
    ensures run { IfOk result (λ settled. IsWindowRun (trunk_rule servers) stream.now.time demands.now first settled.rounds settled.judged) }
    ensures rounds { IfOk result (λ settled. settled.rounds ≤ length stream.now.time) }
    ensures judged { IfOk result (λ settled. settled.judged ≤ 2 * length stream.now.time + first) }
    ensures once { IfOk result (λ settled. steps.new ≡ steps.old + length stream.now.time) }
    ensures cost { IfOk result (λ settled. steps.new ≤ steps.old + settled.judged) }
    ensures most { steps.new ≤ steps.old + (2 * length stream.now.time + first) }
{
    let latest = all_free(alloc, servers)?;
    let mut group = Group { servers, latest };
    let settled = settle_windows(alloc, stream, demands, first, &mut group, steps)?;
    Ok(settled)
}

/// Returns what `admit_trunk` settles, counting the same steps, and what leaves by each output. If
/// memory runs out, the steps counted so far stay counted.
pub fn settle_trunk<L: Ledger>(
    alloc: Global,
    stream: &Stream,
    demands: &List<u64>,
    servers: u8,
    first: u32,
    steps: &mut Steps<L>,
) -> Result<Trunk, OutOfMemory>
    requires load { IsSoundLoad stream.now.time demands.now }
    requires stream { IsStream stream.now }
    requires first { 1 ≤ first }
    ensures settled { IfOk result (λ trunk. IsSettled servers stream.now demands.now trunk) }
    ensures run { IfOk result (λ trunk. IsWindowRun (trunk_rule servers) stream.now.time demands.now first trunk.rounds trunk.judged) }
    ensures rounds { IfOk result (λ trunk. trunk.rounds ≤ length stream.now.time) }
    ensures judged { IfOk result (λ trunk. trunk.judged ≤ 2 * length stream.now.time + first) }
    ensures once { IfOk result (λ trunk. steps.new ≡ steps.old + length stream.now.time) }
    ensures cost { IfOk result (λ trunk. steps.new ≤ steps.old + trunk.judged) }
    ensures most { steps.new ≤ steps.old + (2 * length stream.now.time + first) }
{
    let settled = admit_trunk(alloc, stream, demands, servers, first, steps)?;
    let trunk = with_parts(alloc, stream, settled)?;
    Ok(trunk)
}
