// How long the visits to a node waited, and how long they were served.
ghost use Rattle.std.specs.Prelude.{◌≡◌, ◌≤◌, ◌*◌, ◌^◌, ℕ, [], IfOk, length, max, fold, sum, take};
ghost use Rattle.mq_core.specs.Asked.{HasDemands};
ghost use Rattle.mq_core.specs.Fates.{service_time};
ghost use Rattle.mq_core.specs.Results.{bare_time};
ghost use Rattle.mq_core.specs.Sequences.{sequence_service, sequence_wait};
ghost use Rattle.mq_core.specs.declared.model.Kind.{Kind as TheKind};
ghost use Rattle.mq_core.specs.declared.model.Rows.{Rows as TheRows};
ghost use Rattle.mq_stats.specs.Bare.{AreTimes};
ghost use Rattle.mq_stats.specs.Percentiles.{with_wait};
ghost use Rattle.mq_stats.specs.Waits.{AreSums, AreWaited, AreWaiting, departed_waits_in, services_in, waits_in};

use crate::bare::{bare_times, branches_times};
use mq_base::{List, OutOfMemory};
use mq_core::{Fate, FateSlice, Kind, Rows, bare_of, demand_of_branches};
use std::alloc::Global;

/// Returns how long a visit waited, in ticks: its sojourn less the time for which it would have stayed without waiting, or 0 for
/// a lost or held visit.
///
/// The rows contain each column that the kind's demands name, with a value for the job. Each demand is at most 2^36.
pub fn wait_of(rows: &Rows, kind: &Kind, job: u32, arrive: u64, fate: Fate) -> u64
    requires { HasDemands rows.now kind.now job }
    ensures { result ≡ sequence_wait rows.now kind.now job arrive fate }
{
    wait_beyond(bare_of(rows, kind, job), arrive, fate)
}

// Returns how long a visit with this bare time waited, in ticks.
fn wait_beyond(bare: u64, arrive: u64, fate: Fate) -> u64
    ensures { (rows : TheRows) (kind : TheKind) (job : ℕ) → bare ≡ bare_time rows kind job → result ≡ sequence_wait rows kind job arrive fate }
{
    match fate {
        Fate::Departs(time) => time.saturating_sub(arrive).saturating_sub(bare),
        Fate::Lost | Fate::Held => 0,
    }
}

// Returns how long a visit whose job asks for this service was served, in ticks.
fn served(service: u64, fate: Fate) -> u64
    ensures { (rows : TheRows) (kind : TheKind) (job : ℕ) → service ≡ service_time rows kind job → result ≡ sequence_service rows kind job fate }
{
    match fate {
        Fate::Departs(_) | Fate::Held => service,
        Fate::Lost => 0,
    }
}

// The columns of visits to a node of this kind, by position, from which waits are computed: job, arrival and fate.
#[derive(Clone, Copy)]
pub struct Waiting<'a> {
    pub rows: &'a Rows,
    pub kind: &'a Kind,
    pub job: &'a [u32],
    pub arrive: &'a [u64],
    pub fate: &'a FateSlice<'a>,
}

// The sum and the greatest of the waits of visits, and the sum of their services, in ticks.
#[derive(Clone, Copy)]
pub struct Sums {
    pub wait: u128,
    pub longest: u64,
    pub busy: u128,
}

// Returns how long a job is served at a node of this kind, in ticks.
fn service_of(rows: &Rows, kind: &Kind, job: u32) -> u64
    requires { HasDemands rows.now kind.now job }
    ensures { result ≡ service_time rows.now kind.now job }
{
    match kind {
        Kind::Source | Kind::Split(_) | Kind::Fork { .. } | Kind::Join => 0,
        Kind::Server(_) | Kind::Delay(_) | Kind::Loss { .. } | Kind::Tandem(_) => {
            bare_of(rows, kind, job)
        }
        Kind::ForkJoin(branches) => demand_of_branches(rows, branches, job),
        Kind::Trunk { .. } => bare_of(rows, kind, job),
    }
}

// Returns the sums over these visits, computed one visit at a time.
pub fn sums_of(waiting: &Waiting) -> Sums
    requires visits { AreWaiting waiting.now }
    ensures { AreSums waiting.now result }
{
    let Waiting {
        rows,
        kind,
        job,
        arrive,
        fate,
    } = *waiting;
    let (mut wait, mut longest, mut busy) = (0u128, 0u64, 0u128);
    for at in 0..job.len() {
        let ending = fate.at(at);
        let waited = wait_of(rows, kind, job[at], arrive[at], ending);
        let service = service_of(rows, kind, job[at]);
        wait += waited as u128;
        longest = longest.max(waited);
        busy += served(service, ending) as u128;
    }
    Sums {
        wait,
        longest,
        busy,
    }
}

// Returns 1 for a visit that departs, and 0 for any other.
fn one_if_departs(fate: Fate) -> usize
    ensures { (rows : TheRows) (kind : TheKind) (job arrive : ℕ) → result ≡ length (with_wait rows kind job arrive fate []) }
{
    match fate {
        Fate::Departs(_) => 1,
        Fate::Held | Fate::Lost => 0,
    }
}

// The number of visits that depart, and the sum and the greatest of the waits, in ticks.
#[derive(Clone, Copy)]
struct Waits {
    kept: usize,
    wait: u128,
    longest: u64,
}

// Packs the waits of the visits that depart at the front of `waits`, which holds the bare times at first. The next wait
// overwrites one that doesn't count, so the loop looks at no fate twice.
// Not inlined, so that its loop has the registers to itself.
#[inline(never)]
fn put_waits(waiting: &Waiting, waits: &mut [u64]) -> Waits
    requires visits { AreWaiting waiting.now }
    requires bare { AreTimes (bare_time waiting.now.rows.now waiting.now.kind.now) waiting.now.job.now waits.old }
    ensures room { length waits.new ≡ length waiting.now.job.now }
    ensures within { result.kept ≤ length waiting.now.job.now }
    ensures waits { take result.kept waits.new ≡ departed_waits_in waiting.now }
    ensures wait { result.wait ≡ sum (waits_in waiting.now) }
    ensures longest { result.longest ≡ fold max 0 (waits_in waiting.now) }
    ensures small { result.wait ≤ length waiting.now.job.now * 2 ^ 64 }
{
    let (arrive, fate) = (waiting.arrive, waiting.fate);
    let (mut kept, mut wait, mut longest) = (0, 0u128, 0u64);
    for at in 0..arrive.len() {
        let ending = fate.at(at);
        let waited = wait_beyond(waits[at], arrive[at], ending);
        waits[kept] = waited;
        kept += one_if_departs(ending);
        wait += waited as u128;
        longest = longest.max(waited);
    }
    Waits {
        kept,
        wait,
        longest,
    }
}

// Returns how long these visits were served, summed, in ticks, from the service of each job.
// Not inlined, so that its loop has the registers to itself.
#[inline(never)]
fn served_together(waiting: &Waiting, services: &[u64]) -> u128
    requires visits { AreWaiting waiting.now }
    requires services { AreTimes (service_time waiting.now.rows.now waiting.now.kind.now) waiting.now.job.now services.now }
    ensures busy { result ≡ sum (services_in waiting.now) }
    ensures small { result ≤ length waiting.now.job.now * 2 ^ 64 }
{
    let fate = waiting.fate;
    let mut busy = 0u128;
    for at in 0..services.len() {
        busy += served(services[at], fate.at(at)) as u128;
    }
    busy
}

// Returns how long these visits were served, summed, in ticks, from the bare time of each job.
pub fn busy_of(alloc: Global, waiting: &Waiting, bare: &[u64]) -> Result<u128, OutOfMemory>
    requires visits { AreWaiting waiting.now }
    requires bare { AreTimes (bare_time waiting.now.rows.now waiting.now.kind.now) waiting.now.job.now bare.now }
    ensures busy { IfOk result (λ busy. busy ≡ sum (services_in waiting.now)) }
    ensures small { IfOk result (λ busy. busy ≤ length waiting.now.job.now * 2 ^ 64) }
{
    match waiting.kind {
        Kind::Source | Kind::Split(_) | Kind::Fork { .. } | Kind::Join => Ok(0),
        Kind::Server(_) | Kind::Delay(_) | Kind::Loss { .. } | Kind::Tandem(_) => {
            Ok(served_together(waiting, bare))
        }
        Kind::ForkJoin(branches) => {
            let services = branches_times(alloc, waiting.rows, branches, waiting.job)?;
            let busy = served_together(waiting, services.as_slice());
            drop(services);
            Ok(busy)
        }
        Kind::Trunk { .. } => Ok(served_together(waiting, bare)),
    }
}

// The waits of the visits that depart, by position, with the sum and the greatest wait of all visits, in ticks.
#[derive(Drop)]
pub struct Waited {
    pub waits: List<u64>,
    pub wait: u128,
    pub longest: u64,
}

// Returns the waits of these visits, from the bare time of each job.
pub fn waits_from(waiting: &Waiting, bare: Vec<u64>) -> Waited
    requires visits { AreWaiting waiting.now }
    requires bare { AreTimes (bare_time waiting.now.rows.now waiting.now.kind.now) waiting.now.job.now bare.items }
    ensures { AreWaited waiting.now result }
{
    let mut waits = bare;
    let told = put_waits(waiting, waits.as_mut_slice());
    waits.truncate(told.kept);
    Waited {
        waits: List::from_vec(waits),
        wait: told.wait,
        longest: told.longest,
    }
}

// Returns the waits of these visits.
pub fn waits_of(alloc: Global, waiting: &Waiting) -> Result<Waited, OutOfMemory>
    requires { AreWaiting waiting.now }
    ensures { IfOk result (AreWaited waiting.now) }
{
    let bare = bare_times(alloc, waiting.rows, waiting.kind, waiting.job)?;
    Ok(waits_from(waiting, bare))
}
