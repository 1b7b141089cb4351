//! The engine: a run of a network, in waves over the nodes whose inputs are done.
#![tactic(auto)]

// Where a call of `drop` lets go of what is left, that spares proof: a call is proved once for a type, the end of a scope anew at each exit.

ghost use Rattle.std.specs.Prelude.{◌≡◌, ◌≤◌, [], filter, length, IfErr, IfOk, None};
ghost use Rattle.std.specs.List.{AllByRecursion};
ghost use Rattle.mq_core.specs.Sequences.{IsRunOf};
ghost use Rattle.mq_core.specs.Results.{refusal_of};
ghost use Rattle.mq_core.specs.Theorems.{IsReadFor};
ghost use Rattle.mq_exits.specs.Results.{IsResultOf};
ghost use Rattle.mq_engine.specs.Answer.{IsCause};
ghost use Rattle.mq_engine.specs.CoreLaws.{CoreLaws};
ghost use Rattle.mq_engine.specs.Progress.{IsReached, is_ready};

mod begun;
mod counted;
mod counting;
mod fault;
mod gathering;
mod laws;
mod places;
mod progress;
mod ready;
mod sides;
mod sources;
mod told;
mod wave;

use crate::progress::{Progress, Stand, beginning, ready_nodes, settle};
pub use counted::run_counted;
pub use fault::RunFault;
pub use laws::core_laws;
use mq_arrivals::Arriving;
use mq_base::{List, OutOfMemory};
pub use mq_core::{OverFault, PastFault};
use mq_core::{Plan, Rows, Run};
use mq_crew::{Crew, Gate};
use mq_exits::{Keep, NodeResult, finished};
pub use mq_pass::chain_departures;
pub use ready::worked_out;
use std::alloc::Global;
use std::thread::Threads;
pub use wave::{Way, wave_of, way_of};

/// The run of a plan over the rows that were read for its network: the visits to each node, and
/// what leaves it by each output.
///
/// Each node is worked out alone, behind all that it reads: its arrivals are the rows of a source by
/// time, or the streams that its ports read, merged by time and then port; the recurrence of its
/// kind gives the departures. All nodes whose inputs are done are worked out in one wave, by 1 to 64
/// workers that draw pieces. The least block, `block`, is one job or more. For several workers a server, a fork-join or a
/// tandem with more jobs than a block is cut into blocks of at least that many jobs, at most 16,384 and for a tandem 1,024
/// of them, and scanned (Greenberg, Lubachevsky and Mitrani 1991): a server in a single pass (`chain_departures`), a fork-join
/// server after server of its branches. A split is cut likewise, and what leaves its blocks put one behind the
/// other. A block is also the first window of a loss station and of a trunk group; one to which more than a worker's
/// share of the jobs comes has a worker of its own, beside the lists of all others. The gate is entered with each
/// piece and each block that is drawn. A fork and a join are one piece each. The run is the same for all workers,
/// blocks and gates.
///
/// It refuses a run in which a node has more than 1,048,576 visits, or a visit departs after the bound:
/// it names the first node by rank of which that is so, with the number of its visits where they are too
/// many, else with its first such visit by position. A node with too many visits, and nodes behind either,
/// are left out. Else it refuses for want of memory alone.
pub fn run<R: Threads + Sync, G: Gate>(
    rt: &R,
    alloc: Global,
    plan: &Plan,
    rows: &Rows,
    workers: u32,
    block: u32,
    gate: &G,
) -> Result<Run, RunFault>
    requires read { IsReadFor plan.now.net rows.now }
    requires some { 1 ≤ workers }
    requires most { workers ≤ 64 }
    requires block { 1 ≤ block }
    ensures ok { IfOk result (λ run. IsRunOf plan.now rows.now run) }
    ensures fine { IfOk result (λ run. refusal_of plan.now rows.now ≡ None) }
    ensures cause { IfErr result (λ fault. IsCause plan.now rows.now fault) }
{
    core_laws();
    let crew = Crew::new(rt, alloc, workers, gate);
    let mut progress = beginning(alloc, plan.net.nodes.len())?;
    'waves: loop {
        let Ok(results) = results_next(&crew, plan, rows, &progress, block) else {
            drop(progress);
            return Err(RunFault::Memory);
        };
        if results.is_empty() {
            drop(results);
            return ended(plan, rows, progress);
        }
        settle(&mut progress, results);
    }
}

// How the nodes end that are ready: none, where none is.
fn results_next<R: Threads + Sync, G: Gate>(
    crew: &Crew<R, G>,
    plan: &Plan,
    rows: &Rows,
    progress: &Progress,
    block: u32,
) -> Result<List<NodeResult>, OutOfMemory>
    requires read { IsReadFor plan.now.net rows.now }
    requires laws { CoreLaws }
    requires reached { IsReached plan.now rows.now progress.now.visits.items progress.now.outputs.items progress.now.stands.items }
    requires block { 1 ≤ block }
    ensures stuck { IfOk result (λ results. length results ≡ 0 → filter (is_ready plan.now.net.nodes progress.now.stands.items) plan.now.order ≡ []) }
    ensures known { IfOk result (AllByRecursion (IsResultOf plan.now rows.now (filter (is_ready plan.now.net.nodes progress.now.stands.items) plan.now.order))) }
{
    let ready = ready_nodes(crew.alloc, plan, &progress.stands)?;
    if ready.is_empty() {
        return Ok(List::new(crew.alloc));
    }
    let arriving = Arriving {
        plan,
        rows,
        outputs: &progress.outputs,
        ready: &ready,
        block,
    };
    let given = wave_of(crew, Keep::Lists, &arriving)?;
    finished(crew.alloc, given)
}

// The run, where no node is ready any more: all nodes are done, or the first by rank that is not
// has too many visits or one that departs after the bound.
fn ended(plan: &Plan, rows: &Rows, progress: Progress) -> Result<Run, RunFault>
    requires read { IsReadFor plan.now.net rows.now }
    requires laws { CoreLaws }
    requires reached { IsReached plan.now rows.now progress.visits.items progress.outputs.items progress.stands.items }
    requires stuck { filter (is_ready plan.now.net.nodes progress.stands.items) plan.now.order ≡ [] }
    ensures ok { IfOk result (λ run. IsRunOf plan.now rows.now run) }
    ensures fine { IfOk result (λ run. refusal_of plan.now rows.now ≡ None) }
    ensures cause { IfErr result (λ fault. IsCause plan.now rows.now fault) }
{
    for rank in 0..plan.order.len() {
        match progress.stands[*plan.order.get(rank) as usize] {
            Stand::Done => {}
            Stand::Crowded(over) => return Err(RunFault::Over(over)),
            Stand::Late(past) => return Err(RunFault::Past(past)),
            Stand::Waiting => unreachable!(),
        }
    }
    Ok(Run {
        visits: List::from_vec(progress.visits),
        outputs: List::from_vec(progress.outputs),
    })
}
