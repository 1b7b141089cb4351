// Forks and joins: each is worked out whole, as one piece, of what its ports read.
ghost use Rattle.std.specs.Prelude.{◌≡◌, ◌≤◌, ℕ, Contains, false, length, IfOk};
ghost use Rattle.std.specs.List.{AllByRecursion};
ghost use Rattle.std.specs.Option.{option_map};
ghost use Rattle.mq_core.specs.Laws.{Rises};
ghost use Rattle.mq_core.specs.Results.{first_of};
ghost use Rattle.mq_core.specs.SequenceLaws.{sends_once};
ghost use Rattle.mq_core.specs.Sequences.{sequence_late_from, sequence_visits};
ghost use Rattle.mq_core.specs.Came.{came_in};
ghost use Rattle.mq_core.specs.declared.model.Kind.TheVariants.{Fork, Join};
ghost use Rattle.mq_core.specs.declared.model.Rows.{Rows as TheRows};
ghost use Rattle.mq_join.specs.Gathers.{came_to};
ghost use Rattle.mq_stations.specs.Late.{late_told};
ghost use Rattle.mq_exits.specs.Results.{IsResultOf};
ghost use Rattle.mq_engine.specs.Apart.{AreSequences, IsEndingOf, IsGathering, IsGatheredAt};

use crate::laws::core_laws;
use mq_arrivals::{Arriving, stream_of};
use mq_base::{List, OutOfMemory};
use mq_core::{Fate, Fates, Kind, PastFault, Stream, Visits, sequences_are_blind};
use mq_crew::{Crew, Gate, Pieces};
use mq_exits::{Ending, NodeResult, nobody};
use mq_join::{Gathered, Joined, fork_copies, join_visits};
use mq_stations::only;
use std::alloc::Global;
use std::thread::Threads;

/// Forks and joins that are ready.
#[derive(Drop)]
pub struct Apart<'a, 'r> {
    pub arriving: Arriving<'a, 'r>,
}

/// What is made of the arrivals at a fork or a join.
#[derive(Drop)]
pub struct Sequences {
    pub visits: Visits,
    /// What leaves by each output.
    pub streams: List<Stream>,
}

impl<'a, 'r> Pieces for Apart<'a, 'r> {
    type Piece = NodeResult;

    ghost fit = { λ s. IsGathering s.arriving × (length s.arriving.ready.now ≤ 64) };

    ghost size = { λ s. length s.arriving.ready.now };

    ghost is_piece = { λ s b node_result. IsResultOf s.arriving.plan.now s.arriving.rows.now s.arriving.ready.now node_result };

    fn count(&self) -> u32 {
        self.arriving.ready.len() as u32
    }

    fn piece(&self, alloc: Global, b: u32) -> Result<NodeResult, OutOfMemory> {
        result_at(alloc, &self.arriving, self.arriving.ready[b as usize])
    }
}

// What comes to a fork or a join, gathered port after port.
fn gathered_at(alloc: Global, arriving: &Arriving, number: u32) -> Result<Gathered, OutOfMemory>
    requires gathering { IsGathering arriving.now }
    requires ready { Contains arriving.now.ready.now number }
    ensures { IfOk result (IsGatheredAt arriving.now.plan.now arriving.now.rows.now number) }
{
    core_laws();
    let inputs = &arriving.plan.net.nodes.get(number as usize).inputs;
    let mut gathered = Gathered::new(alloc);
    for port in 0..inputs.len() {
        let stream = stream_of(arriving.outputs, inputs.get(port));
        let Ok(()) = gathered.add(alloc, stream) else {
            drop(gathered);
            return Err(OutOfMemory);
        };
    }
    Ok(gathered)
}

// The visits of jobs that depart as they come.
fn passing_visits(alloc: Global, stream: &Stream) -> Result<Visits, OutOfMemory>
    requires { Rises (λ a b. a ≤ b) stream.now.time }
    ensures { IfOk result (λ visits. (rows : TheRows) (outputs : ℕ) → visits ≡ sequence_visits rows (Fork outputs) (came_in stream.now)) }
{
    let job = Vec::from_slice(alloc, stream.job.as_slice())?;
    let arrive = Vec::from_slice(alloc, stream.time.as_slice())?;
    let Ok(departs) = Vec::from_slice(alloc, stream.time.as_slice()) else {
        drop(job);
        drop(arrive);
        return Err(OutOfMemory);
    };
    let Ok(found) = nobody(alloc, &stream.time) else {
        drop(job);
        drop(arrive);
        drop(departs);
        return Err(OutOfMemory);
    };
    Ok(Visits {
        job: List::from_vec(job),
        arrive: List::from_vec(arrive),
        found,
        fate: Fates::departures(List::from_vec(departs)),
    })
}

// What is made of the arrivals at a fork: each departs as it comes, by each output.
fn forked(alloc: Global, gathered: &Gathered, outputs: u8) -> Result<Sequences, OutOfMemory>
    ensures { IfOk result (λ all. (rows : TheRows) → AreSequences rows (Fork outputs) (came_to gathered.now) all.visits all.streams) }
{
    sequences_are_blind();
    let streams = fork_copies(alloc, &gathered.stream, outputs)?;
    let visits = passing_visits(alloc, &gathered.stream)?;
    Ok(Sequences { visits, streams })
}

// What is made of the arrivals at a join.
fn joined(alloc: Global, gathered: &Gathered) -> Result<Sequences, OutOfMemory>
    ensures { IfOk result (λ all. (rows : TheRows) → AreSequences rows Join (came_to gathered.now) all.visits all.streams) }
{
    let Joined { visits, leaving } = join_visits(alloc, gathered)?;
    match only(alloc, leaving) {
        Ok(streams) => Ok(Sequences { visits, streams }),
        Err(fault) => {
            drop(visits);
            Err(fault)
        }
    }
}

// What is made of the arrivals at a fork or a join.
fn sequences_of(alloc: Global, kind: &Kind, gathered: &Gathered) -> Result<Sequences, OutOfMemory>
    requires { sends_once kind.now ≡ false }
    ensures { IfOk result (λ all. (rows : TheRows) → AreSequences rows kind.now (came_to gathered.now) all.visits all.streams) }
{
    match kind {
        Kind::Fork { outputs } => forked(alloc, gathered, *outputs),
        Kind::Join => joined(alloc, gathered),
        _ => unreachable!(),
    }
}

// The first of these visits to a node, by position, that departs after the bound, if there is one.
fn late_among(bound: u64, node: u32, fates: &Fates) -> Option<PastFault>
    requires { length fates.now ≤ 1048576 }
    ensures { first_of (sequence_late_from bound node 0 fates.now) ≡ option_map late_told result }
{
    for position in 0..fates.len() {
        if let Fate::Departs(time) = fates.at(position) {
            if time > bound {
                return Some(PastFault {
                    node,
                    position: position as u32,
                    time,
                });
            }
        }
    }
    None
}

// How a fork or a join ends of whose arrivals this was made.
fn ending_of(bound: u64, node: u32, sequences: Sequences) -> Ending
    requires { length sequences.visits.fate ≤ 1048576 }
    ensures { IsEndingOf bound node sequences.visits sequences.streams result }
{
    let Sequences { visits, streams } = sequences;
    match late_among(bound, node, &visits.fate) {
        Some(past) => {
            drop(visits);
            drop(streams);
            Ending::TooLate(past)
        }
        None => Ending::OnTime(visits, streams),
    }
}

// What a fork or a join gives.
fn result_at(alloc: Global, arriving: &Arriving, number: u32) -> Result<NodeResult, OutOfMemory>
    requires gathering { IsGathering arriving.now }
    requires ready { Contains arriving.now.ready.now number }
    ensures { IfOk result (IsResultOf arriving.now.plan.now arriving.now.rows.now arriving.now.ready.now) }
{
    core_laws();
    let gathered = gathered_at(alloc, arriving, number)?;
    let kind = &arriving.plan.net.nodes.get(number as usize).kind;
    match sequences_of(alloc, kind, &gathered) {
        Ok(sequences) => {
            drop(gathered);
            let ending = ending_of(arriving.plan.net.bound, number, sequences);
            Ok(NodeResult { number, ending })
        }
        Err(fault) => {
            drop(gathered);
            Err(fault)
        }
    }
}

/// What these forks and joins give, one piece a node.
pub fn apart_results<R: Threads + Sync, G: Gate>(
    crew: &Crew<R, G>,
    arriving: &Arriving,
) -> Result<List<NodeResult>, OutOfMemory>
    requires gathering { IsGathering arriving.now }
    requires few { length arriving.now.ready.now ≤ 64 }
    ensures len { IfOk result (λ results. length results ≡ length arriving.now.ready.now) }
    ensures known { IfOk result (λ results. AllByRecursion (IsResultOf arriving.now.plan.now arriving.now.rows.now arriving.now.ready.now) results) }
{
    let apart = Apart {
        arriving: *arriving,
    };
    crew.made(&apart)
}
