// A run that is counted as it goes.
ghost use Rattle.std.specs.Prelude.{◌≡◌, ◌≤◌, ℕ, [], filter, length, IfErr, IfOk, None};
ghost use Rattle.std.specs.List.{AllByRecursion};
ghost use Rattle.mq_core.specs.Results.{refusal_of};
ghost use Rattle.mq_core.specs.Theorems.{IsReadFor};
ghost use Rattle.mq_counts.specs.Counts.{AreCounts};
ghost use Rattle.mq_engine.specs.Answer.{IsCause};
ghost use Rattle.mq_engine.specs.CoreLaws.{CoreLaws};
ghost use Rattle.mq_engine.specs.Counting.{IsCounting, IsToldAmong};
ghost use Rattle.mq_engine.specs.Progress.{is_ready};
ghost use Rattle.mq_engine.specs.Waves.{IsWave};

use crate::counting::{Counting, beginning_counts, let_go, settle_told};
use crate::fault::RunFault;
use crate::laws::core_laws;
use crate::progress::{Stand, ready_nodes};
use crate::sources::sources_sent;
use crate::told::{ToldNode, counts_of_wave, told_nodes};
use crate::wave::wave_of;
use mq_arrivals::Arriving;
use mq_base::{List, OutOfMemory};
use mq_core::{Plan, Rows};
use mq_counts::{Counts, counted};
use mq_crew::{Crew, Gate};
use mq_exits::Keep;
use std::alloc::Global;
use std::thread::Threads;

/// What the run of a plan over the rows that were read for its network tells, in a report of this form: the numbers of
/// each node, and of what leaves the network.
///
/// Sources come first: what came to one is what leaves it, and is handed on whole. The other nodes are worked out as `run` does
/// it, but of a station whose jobs leave in their order no visits are made: what came and when each departs tell its numbers. Behind each
/// wave the numbers of its nodes are told, and their visits are let go; what leaves a node is let go when all nodes
/// that read some of it are worked out. There are 1 to 64 workers, and the least block, `block`, is one job or more, as for
/// `run`. It refuses as `run` does.
pub fn run_counted<R: Threads + Sync, G: Gate>(
    rt: &R,
    alloc: Global,
    plan: &Plan,
    rows: &Rows,
    workers: u32,
    block: u32,
    form: u8,
    gate: &G,
) -> Result<Counts, RunFault>
    requires read { IsReadFor plan.now.net rows.now }
    requires some { 1 ≤ workers }
    requires most { workers ≤ 64 }
    requires block { 1 ≤ block }
    ensures ok { IfOk result (λ counts. AreCounts plan.now rows.now form counts) }
    ensures fine { IfOk result (λ counts. refusal_of plan.now rows.now ≡ None) }
    ensures cause { IfErr result (λ fault. IsCause plan.now rows.now fault) }
{
    core_laws();
    let crew = Crew::new(rt, alloc, workers, gate);
    let mut counting = beginning_counts(alloc, plan.net.nodes.len())?;
    'waves: loop {
        let Ok(told) = told_next(&crew, plan, rows, &counting, block, form) else {
            drop(counting);
            return Err(RunFault::Memory);
        };
        if told.is_empty() {
            drop(told);
            return ended_counts(plan, rows, counting);
        }
        settle_told(&mut counting, told);
        let_go(alloc, plan, &mut counting);
    }
}

// What is told of the nodes that are ready: of none, where none is.
fn told_next<R: Threads + Sync, G: Gate>(
    crew: &Crew<R, G>,
    plan: &Plan,
    rows: &Rows,
    counting: &Counting,
    block: u32,
    form: u8,
) -> Result<List<ToldNode>, OutOfMemory>
    requires read { IsReadFor plan.now.net rows.now }
    requires laws { CoreLaws }
    requires counting { IsCounting plan.now rows.now form counting.now.counts.items counting.now.outputs.items counting.now.stands.items }
    requires block { 1 ≤ block }
    ensures stuck { IfOk result (λ told. length told ≡ 0 → filter (is_ready plan.now.net.nodes counting.now.stands.items) plan.now.order ≡ []) }
    ensures told { IfOk result (AllByRecursion (IsToldAmong plan.now rows.now form (filter (is_ready plan.now.net.nodes counting.now.stands.items) plan.now.order))) }
{
    let ready = ready_nodes(crew.alloc, plan, &counting.stands)?;
    if ready.is_empty() {
        return Ok(List::new(crew.alloc));
    }
    let arriving = Arriving {
        plan,
        rows,
        outputs: &counting.outputs,
        ready: &ready,
        block,
    };
    told_ready(crew, &arriving, form)
}

// What is told of these nodes: of the sources among them alone, where there are some.
fn told_ready<R: Threads + Sync, G: Gate>(
    crew: &Crew<R, G>,
    arriving: &Arriving,
    form: u8,
) -> Result<List<ToldNode>, OutOfMemory>
    requires wave { IsWave arriving.now }
    requires few { length arriving.now.ready.now ≤ 64 }
    ensures some { IfOk result (λ told. 1 ≤ length arriving.now.ready.now → 1 ≤ length told) }
    ensures told { IfOk result (AllByRecursion (IsToldAmong arriving.now.plan.now arriving.now.rows.now form arriving.now.ready.now)) }
{
    let sent = sources_sent(crew, arriving)?;
    if sent.is_empty() {
        drop(sent);
        return told_wave(crew, arriving, form);
    }
    Ok(sent)
}

// What is told of all of these nodes, worked out in one wave.
fn told_wave<R: Threads + Sync, G: Gate>(
    crew: &Crew<R, G>,
    arriving: &Arriving,
    form: u8,
) -> Result<List<ToldNode>, OutOfMemory>
    requires wave { IsWave arriving.now }
    requires few { length arriving.now.ready.now ≤ 64 }
    ensures len { IfOk result (λ told. length told ≡ length arriving.now.ready.now) }
    ensures told { IfOk result (AllByRecursion (IsToldAmong arriving.now.plan.now arriving.now.rows.now form arriving.now.ready.now)) }
{
    let given = wave_of(crew, Keep::Numbers, arriving)?;
    let (plan, rows) = (arriving.plan, arriving.rows);
    match counts_of_wave(crew, plan, rows, &given, form) {
        Ok(counts) => told_nodes(crew.alloc, plan.net.nodes.as_slice(), given, counts),
        Err(fault) => {
            drop(given);
            Err(fault)
        }
    }
}

// What the run tells, where no node is ready any more: all nodes are done, or the first by rank that is not
// has too many visits or one that departs after the bound.
fn ended_counts(plan: &Plan, rows: &Rows, counting: Counting) -> Result<Counts, RunFault>
    requires read { IsReadFor plan.now.net rows.now }
    requires laws { CoreLaws }
    requires counting { (form : ℕ) × IsCounting plan.now rows.now form counting.counts.items counting.outputs.items counting.stands.items }
    requires stuck { filter (is_ready plan.now.net.nodes counting.stands.items) plan.now.order ≡ [] }
    ensures ok { IfOk result (λ counts. (form : ℕ) → IsCounting plan.now rows.now form counting.counts.items counting.outputs.items counting.stands.items → AreCounts plan.now rows.now form counts) }
    ensures fine { IfOk result (λ counts. refusal_of plan.now rows.now ≡ None) }
    ensures cause { IfErr result (λ fault. IsCause plan.now rows.now fault) }
{
    for rank in 0..plan.order.len() {
        match counting.stands[*plan.order.get(rank) as usize] {
            Stand::Done => {}
            Stand::Crowded(over) => return Err(RunFault::Over(over)),
            Stand::Late(past) => return Err(RunFault::Past(past)),
            Stand::Waiting => unreachable!(),
        }
    }
    Ok(counted(plan, rows, List::from_vec(counting.counts)))
}
