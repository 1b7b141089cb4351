// One node of a run that is redone, once everything that it reads is done.
ghost use Rattle.std.specs.Borrow.{Bor};
ghost use Rattle.std.specs.Prelude.{◌≡◌, ◌<◌, ◌≤◌, ◌+◌, ◌∷◌, ◌⊎◌, ◌==◌, ◌&&◌, ◌^◌, [], ℕ, false, true, if◌then◌else◌, length, slice_get, slice_index, Err, IfErr, IfOk, IfSome, None, Ok, OnOk, Some};
ghost use Rattle.mq_alike.specs.Again.{alike, blocks_in, is_counted};
ghost use Rattle.mq_core.specs.Came.{came_in};
ghost use Rattle.mq_core.specs.Sequences.{sequence_fates};
ghost use Rattle.mq_core.specs.declared.model.Input.{Input as Port};
ghost use Rattle.mq_core.specs.declared.model.Kind.TheVariants.{Source};
ghost use Rattle.mq_core.specs.declared.model.Node.{Node as TheNode};
ghost use Rattle.mq_edits.specs.declared.former.FormerRows.{FormerRows as TheFormer};
ghost use Rattle.mq_engine.specs.Apart.{CanGather};
ghost use Rattle.mq_engine.specs.Progress.{CanWork};
ghost use Rattle.mq_engine.specs.Waves.{IsWave};
ghost use Rattle.mq_exits.specs.Keeping.{IsLeftOf};
ghost use Rattle.mq_exits.specs.Loads.{IsReadyLoad};
ghost use Rattle.mq_exits.specs.Results.{IsWorkedOut};
ghost use Rattle.mq_exits.specs.declared.working.Ending.TheVariants.{OnTime};
ghost use Rattle.mq_kept.specs.InTurn.{HasTail};
ghost use Rattle.mq_kept.specs.KeptNodes.{IsKeptNode, IsNodeOf, blocks_behind, coming_of};
ghost use Rattle.mq_kept.specs.NodeRuns.{HaveStayed, IsFaultAt, IsFaultOf, IsNodeBefore, IsNodeKept, IsNodeRun, IsStayingAt, RowsFit, came_before, earlier_rows, kept_rows, worked_behind};
ghost use Rattle.mq_kept.specs.declared.former.Former.TheVariants.{Same, Whole};
ghost use Rattle.mq_merge.specs.Borrowed.{stream_in};
ghost use Rattle.mq_redo.specs.Kept.{coming_as};
ghost use Rattle.mq_stations.specs.Leaving.{HaveDemands};

use crate::checkpoints::Checkpoints;
use crate::former::{Former, NodeLists};
use crate::source_runs::{Edited, source_run};
use crate::stations::{Reworked, Stays, work_again};
use crate::tail_runs::{has_tail, tail_run};
use mq_alike::{alike, alike_is_first, sequences_stay};
use mq_arrivals::{Arrived, Arriving, arrivals_of};
use mq_base::{List, OutOfMemory, Steps};
use mq_core::{Kind, Node, OverFault, Rows, Stream};
use mq_crew::{Crew, Open};
use mq_edits::FormerRows;
use mq_engine::{RunFault, Way, core_laws, wave_of, way_of, worked_out};
use mq_exits::{Ending, Held, Keep, NodeResult, finished};
use mq_redo::counted;
use mq_scan::cut;
use std::sync::ledger::Ledger;
use std::thread::Threads;

/// What is known of the kept run when a node is computed: how to return to it.
#[derive(Clone, Copy)]
pub struct FormerRun<'a> {
    /// How the rows return to those of the kept run, if a run is kept.
    pub earlier: Option<&'a FormerRows>,
    /// For each node, how it is restored to what it had in the kept run.
    pub formers: &'a [Former],
}

/// What a node gives.
#[derive(Drop)]
pub struct NodeRun {
    pub lists: NodeLists,
    /// How the node is restored to what it had before.
    pub former: Former,
    /// The number of its blocks that were redone, and of all its blocks; both are 0 if the blocks of the node aren't
    /// counted.
    pub again: u64,
    pub all: u64,
}

/// Why a node gives nothing, and what it had before.
#[derive(Drop)]
pub struct NodeRefusal {
    pub fault: RunFault,
    pub lists: NodeLists,
}

/// Returns what the one ready node gives, of which `lists` was kept.
pub fn node_run<R: Threads + Sync, L: Ledger>(
    crew: &Crew<R, Open>,
    arriving: &Arriving,
    past: &FormerRun,
    lists: NodeLists,
    steps: &mut Steps<L>,
) -> Result<NodeRun, NodeRefusal>
    requires wave { IsWave arriving.now }
    requires one { length arriving.now.ready.now ≡ 1 }
    requires block { 64 ≤ arriving.now.block }
    requires large { arriving.now.block ≤ 65536 }
    requires fit { RowsFit arriving.now.rows.now past.now.earlier }
    requires before { IsNodeBefore arriving.now.plan.now (earlier_rows arriving.now.rows.now past.now.earlier) arriving.now.block (slice_index arriving.now.ready.now 0) lists }
    requires formers { length past.now.formers.now ≡ length arriving.now.plan.now.net.nodes }
    requires stayed { HaveStayed arriving.now.plan.now (earlier_rows arriving.now.rows.now past.now.earlier) arriving.now.rows.now past.now.formers.now (slice_index arriving.now.ready.now 0) }
    ensures gives { IfOk result (IsNodeRun arriving.now (earlier_rows arriving.now.rows.now past.now.earlier) lists (slice_index arriving.now.ready.now 0)) }
    ensures cause { IfErr result (λ refusal. IsFaultAt arriving.now.plan.now arriving.now.rows.now (slice_index arriving.now.ready.now 0) refusal.fault) }
    ensures back { IfErr result (λ refusal. refusal.lists ≡ lists) }
    ensures steps { steps.old ≤ steps.new }
    ensures spent { steps.new ≤ steps.old + worked_behind arriving.now (came_before arriving.now.rows.now (earlier_rows arriving.now.rows.now past.now.earlier) lists) (slice_index arriving.now.ready.now 0) }
    ensures counted { OnOk result (steps.new ≡ steps.old + worked_behind arriving.now (came_before arriving.now.rows.now (earlier_rows arriving.now.rows.now past.now.earlier) lists) (slice_index arriving.now.ready.now 0)) }
{
    let number = arriving.ready[0];
    match way_of(arriving, number) {
        Way::Crowded(count) => Err(NodeRefusal {
            fault: RunFault::Over(OverFault {
                node: number,
                count,
            }),
            lists,
        }),
        Way::Apart => apart_run(crew, arriving, past, number, lists),
        Way::Station => station_run(crew, arriving, past, number, lists, steps),
    }
}

// Returns what a fork or a join gives: what it gave before, if every node that it reads has stayed as it was.
fn apart_run<R: Threads + Sync>(
    crew: &Crew<R, Open>,
    arriving: &Arriving,
    past: &FormerRun,
    number: u32,
    lists: NodeLists,
) -> Result<NodeRun, NodeRefusal>
    requires wave { IsWave arriving.now }
    requires one { arriving.now.ready.now ≡ number ∷ [] }
    requires block { 64 ≤ arriving.now.block }
    requires large { arriving.now.block ≤ 65536 }
    requires before { IsNodeBefore arriving.now.plan.now (earlier_rows arriving.now.rows.now past.now.earlier) arriving.now.block number lists }
    requires formers { length past.now.formers.now ≡ length arriving.now.plan.now.net.nodes }
    requires stayed { HaveStayed arriving.now.plan.now (earlier_rows arriving.now.rows.now past.now.earlier) arriving.now.rows.now past.now.formers.now number }
    requires can { CanGather arriving.now.plan.now arriving.now.rows.now arriving.now.outputs.now number }
    ensures gives { IfOk result (IsNodeRun arriving.now (earlier_rows arriving.now.rows.now past.now.earlier) lists number) }
    ensures cause { IfErr result (λ refusal. IsFaultAt arriving.now.plan.now arriving.now.rows.now number refusal.fault) }
    ensures back { IfErr result (λ refusal. refusal.lists ≡ lists) }
{
    core_laws();
    let node = arriving.plan.net.nodes.get(number as usize);
    if reads_the_same(past, node) {
        return Ok(unchanged_run(&node.kind, lists, arriving.block));
    }
    let now = apart_lists(crew, arriving, number);
    changed_run(now, lists, 0, 0)
}

// Whether a run is kept, and each node that this one reads has what it had.
fn reads_the_same(past: &FormerRun, node: &Node) -> bool
    requires { (port : ℕ) (input : Port) → slice_get node.now.inputs port ≡ Some input → input.node < length past.now.formers.now }
    ensures kept { result ≡ true → (former : Bor TheFormer) × (past.now.earlier ≡ Some former) }
    ensures same { result ≡ true → (port : ℕ) (input : Port) → slice_get node.now.inputs port ≡ Some input → slice_get past.now.formers.now input.node ≡ Some Same }
{
    if past.earlier.is_none() {
        return false;
    }
    for port in 0..node.inputs.len() {
        match &past.formers[node.inputs.get(port).node as usize] {
            Former::Same => {}
            Former::Whole(_) | Former::Tail(_, _) => return false,
        }
    }
    true
}

/// Returns what a node of this kind without a difference gives: the node stays as it is.
pub fn unchanged_run(kind: &Kind, lists: NodeLists, block: u32) -> NodeRun
    requires few { length lists.visits.job ≤ 1048576 }
    requires some { 1 ≤ block }
    ensures lists { result.lists ≡ lists }
    ensures former { result.former ≡ Same }
    ensures again { result.again ≡ 0 }
    ensures all { result.all ≡ (if is_counted kind.now then blocks_in block (length lists.visits.job) else 0) }
    ensures few { result.all < 2 ^ 32 }
{
    let count = lists.visits.job.len() as u32;
    let (again, all) = counted(kind, &cut(count, block), count, count);
    NodeRun {
        lists,
        former: Former::Same,
        again: again as u64,
        all: all as u64,
    }
}

// Returns what a node with new lists gives, and the numbers of redone and of all blocks.
fn changed_run(
    now: Result<NodeLists, RunFault>,
    lists: NodeLists,
    again: u64,
    all: u64,
) -> Result<NodeRun, NodeRefusal>
    ensures gives { IfOk result (λ gives. (now ≡ Ok gives.lists) × (gives.former ≡ Whole lists) × (gives.again ≡ again) × (gives.all ≡ all)) }
    ensures refuses { IfErr result (λ refusal. (now ≡ Err refusal.fault) × (refusal.lists ≡ lists)) }
{
    match now {
        Ok(made) => Ok(NodeRun {
            lists: made,
            former: Former::Whole(lists),
            again,
            all,
        }),
        Err(fault) => Err(NodeRefusal { fault, lists }),
    }
}

// Computes the lists of a fork or a join.
fn apart_lists<R: Threads + Sync>(
    crew: &Crew<R, Open>,
    arriving: &Arriving,
    number: u32,
) -> Result<NodeLists, RunFault>
    requires wave { IsWave arriving.now }
    requires one { arriving.now.ready.now ≡ number ∷ [] }
    requires can { CanGather arriving.now.plan.now arriving.now.rows.now arriving.now.outputs.now number }
    ensures kept { IfOk result (IsNodeKept arriving.now.plan.now arriving.now.rows.now arriving.now.block number) }
    ensures cause { IfErr result (IsFaultAt arriving.now.plan.now arriving.now.rows.now number) }
{
    core_laws();
    let given = wave_of(crew, Keep::Lists, arriving)?;
    let results = finished(crew.alloc, given)?;
    lists_by(the_only(results), Checkpoints::Nothing)
}

// Returns what a station gives. The lists of a source are edited in place if a run is kept; they are computed whole if
// few visits would stay or fewer come.
fn station_run<R: Threads + Sync, L: Ledger>(
    crew: &Crew<R, Open>,
    arriving: &Arriving,
    past: &FormerRun,
    number: u32,
    lists: NodeLists,
    steps: &mut Steps<L>,
) -> Result<NodeRun, NodeRefusal>
    requires wave { IsWave arriving.now }
    requires one { arriving.now.ready.now ≡ number ∷ [] }
    requires block { 64 ≤ arriving.now.block }
    requires large { arriving.now.block ≤ 65536 }
    requires fit { RowsFit arriving.now.rows.now past.now.earlier }
    requires before { IsNodeBefore arriving.now.plan.now (earlier_rows arriving.now.rows.now past.now.earlier) arriving.now.block number lists }
    requires can { CanWork arriving.now.plan.now arriving.now.rows.now arriving.now.outputs.now number }
    ensures gives { IfOk result (IsNodeRun arriving.now (earlier_rows arriving.now.rows.now past.now.earlier) lists number) }
    ensures cause { IfErr result (λ refusal. IsFaultAt arriving.now.plan.now arriving.now.rows.now number refusal.fault) }
    ensures back { IfErr result (λ refusal. refusal.lists ≡ lists) }
    ensures steps { steps.old ≤ steps.new }
    ensures spent { steps.new ≤ steps.old + worked_behind arriving.now (came_before arriving.now.rows.now (earlier_rows arriving.now.rows.now past.now.earlier) lists) number }
    ensures counted { OnOk result (steps.new ≡ steps.old + worked_behind arriving.now (came_before arriving.now.rows.now (earlier_rows arriving.now.rows.now past.now.earlier) lists) number) }
{
    let kind = &arriving.plan.net.nodes.get(number as usize).kind;
    let Some(former) = edits_of_source(past, kind) else {
        return whole_run(crew, arriving, past, number, lists, steps);
    };
    match source_run(crew.alloc, arriving, former, number, lists) {
        Ok(Edited::Done(gives)) => Ok(gives),
        Ok(Edited::AsBefore(same)) => whole_run(crew, arriving, past, number, same, steps),
        Err(refusal) => Err(refusal),
    }
}

// Returns how the rows return to those of the kept run, if a run is kept and the node is a source.
fn edits_of_source<'a>(past: &FormerRun<'a>, kind: &Kind) -> Option<&'a FormerRows>
    ensures { IfSome result (λ former. (kind.now ≡ Source) × (past.now.earlier ≡ Some former)) }
{
    match kind {
        Kind::Source => past.earlier,
        Kind::Server(_)
        | Kind::Delay(_)
        | Kind::Loss { .. }
        | Kind::Tandem(_)
        | Kind::ForkJoin(_)
        | Kind::Split(_)
        | Kind::Fork { .. }
        | Kind::Join
        | Kind::Trunk { .. } => None,
    }
}

// Returns what a station gives. If it has a difference, its lists are edited in place, or replaced if that isn't
// possible.
fn whole_run<R: Threads + Sync, L: Ledger>(
    crew: &Crew<R, Open>,
    arriving: &Arriving,
    past: &FormerRun,
    number: u32,
    lists: NodeLists,
    steps: &mut Steps<L>,
) -> Result<NodeRun, NodeRefusal>
    requires wave { IsWave arriving.now }
    requires one { arriving.now.ready.now ≡ number ∷ [] }
    requires block { 64 ≤ arriving.now.block }
    requires large { arriving.now.block ≤ 65536 }
    requires before { IsNodeBefore arriving.now.plan.now (earlier_rows arriving.now.rows.now past.now.earlier) arriving.now.block number lists }
    requires can { CanWork arriving.now.plan.now arriving.now.rows.now arriving.now.outputs.now number }
    ensures gives { IfOk result (IsNodeRun arriving.now (earlier_rows arriving.now.rows.now past.now.earlier) lists number) }
    ensures cause { IfErr result (λ refusal. IsFaultAt arriving.now.plan.now arriving.now.rows.now number refusal.fault) }
    ensures back { IfErr result (λ refusal. refusal.lists ≡ lists) }
    ensures steps { steps.old ≤ steps.new }
    ensures spent { steps.new ≤ steps.old + worked_behind arriving.now (came_before arriving.now.rows.now (earlier_rows arriving.now.rows.now past.now.earlier) lists) number }
    ensures counted { OnOk result (steps.new ≡ steps.old + worked_behind arriving.now (came_before arriving.now.rows.now (earlier_rows arriving.now.rows.now past.now.earlier) lists) number) }
{
    core_laws();
    alike_is_first();
    sequences_stay();
    let kind = &arriving.plan.net.nodes.get(number as usize).kind;
    let Ok(held) = held_at(crew, arriving, number) else {
        return Err(NodeRefusal {
            fault: RunFault::Memory,
            lists,
        });
    };
    let arrivals = held.arrivals.stream();
    let count = arrivals.job.len() as u32;
    let visits = lists.visits.job.len() as u32;
    let same = alike_at(past, arriving.rows, kind, &lists, arrivals);
    if is_unchanged(past, same, visits, count) {
        drop(held);
        return Ok(unchanged_run(kind, lists, arriving.block));
    }
    let (again, all) = counted(kind, &cut(count, arriving.block), same, visits);
    let (again, all) = (again as u64, all as u64);
    if can_redo_tail(past, kind, same, visits, count) {
        let load = held.load();
        let gives = tail_run(
            crew.alloc,
            &load,
            lists,
            same / arriving.block,
            again,
            all,
            steps,
        );
        drop(held);
        return gives;
    }
    let stays = Stays {
        fates: &lists.visits.fate,
        checkpoints: &lists.checkpoints,
        blocks: same / arriving.block,
    };
    let now = worked_lists(crew, held, &stays, steps);
    changed_run(now, lists, again, all)
}

// Returns what came to the one ready station.
fn held_at<'a, R: Threads + Sync>(
    crew: &Crew<R, Open>,
    arriving: &Arriving<'a, '_>,
    number: u32,
) -> Result<Held<'a>, OutOfMemory>
    requires wave { IsWave arriving.now }
    requires one { arriving.now.ready.now ≡ number ∷ [] }
    requires can { CanWork arriving.now.plan.now arriving.now.rows.now arriving.now.outputs.now number }
    ensures ready { IfOk result IsReadyLoad }
    ensures number { IfOk result (λ held. held.number ≡ number) }
    ensures plan { IfOk result (λ held. held.plan.now ≡ arriving.now.plan.now) }
    ensures rows { IfOk result (λ held. held.rows.now ≡ arriving.now.rows.now) }
    ensures block { IfOk result (λ held. held.block ≡ arriving.now.block) }
{
    core_laws();
    let all = arrivals_of(crew, arriving)?;
    let mut all = all.into_vec();
    let Some(arrived) = all.pop() else {
        unreachable!()
    };
    let Arrived { number, arrivals } = arrived;
    Ok(Held {
        plan: arriving.plan,
        rows: arriving.rows,
        number,
        arrivals,
        block: arriving.block,
    })
}

// Returns the number of first visits to a node that are the same as the kept ones: 0 if no run is kept.
fn alike_at(past: &FormerRun, rows: &Rows, kind: &Kind, lists: &NodeLists, arrivals: &Stream) -> u32
    requires none { past.now.earlier ≡ None → lists.now.visits.job ≡ [] }
    requires earlier { HaveDemands (kept_rows rows.now (earlier_rows rows.now past.now.earlier)) kind.now lists.now.visits.job }
    requires even { length lists.now.visits.arrive ≡ length lists.now.visits.job }
    requires rows { HaveDemands rows.now kind.now arrivals.now.job }
    requires now_even { length arrivals.now.time ≡ length arrivals.now.job }
    requires now_few { length arrivals.now.job ≤ 1048576 }
    ensures { result ≡ alike kind.now (came_before rows.now (earlier_rows rows.now past.now.earlier) lists.now) (coming_as rows.now arrivals.now) }
{
    match past.earlier {
        Some(former) => alike(former, rows, kind, &lists.visits, arrivals),
        None => 0,
    }
}

// Whether a run is kept in which a node has no difference, given the number of its visits that are the same as the kept
// ones.
fn is_unchanged(past: &FormerRun, same: u32, visits: u32, count: u32) -> bool
    ensures yes { result ≡ true → ((former : Bor TheFormer) × (past.now.earlier ≡ Some former)) × (same ≡ visits) × (same ≡ count) }
    ensures no { result ≡ false → (past.now.earlier ≡ None) ⊎ (((same == visits) && (same == count)) ≡ false) }
{
    past.earlier.is_some() && same == visits && same == count
}

// Whether a run is kept, a node of this kind can be edited in place, and it doesn't become shorter. If less than half
// of its visits stay, its lists are computed whole instead; all workers share what follows from the departures.
fn can_redo_tail(past: &FormerRun, kind: &Kind, same: u32, visits: u32, count: u32) -> bool
    ensures { result ≡ true → ((former : Bor TheFormer) × (past.now.earlier ≡ Some former)) × HasTail kind.now × (visits ≤ count) }
{
    past.earlier.is_some() && has_tail(kind) && visits <= count && count / 2 <= same
}

// Returns the lists of a station that is redone.
fn worked_lists<R: Threads + Sync, L: Ledger>(
    crew: &Crew<R, Open>,
    held: Held,
    stays: &Stays,
    steps: &mut Steps<L>,
) -> Result<NodeLists, RunFault>
    requires ready { IsReadyLoad held }
    requires large { held.block ≤ 65536 }
    requires stays { IsStayingAt held stays.now }
    ensures known { IfOk result (λ lists. IsWorkedOut held.entry.plan.now held.entry.rows.now (record { number = held.entry.number; ending = OnTime lists.visits lists.streams })) }
    ensures checkpoints { IfOk result (λ lists. (node : TheNode) → slice_get held.entry.plan.now.net.nodes held.entry.number ≡ Some node → IsKeptNode node.kind (coming_of held.entry.rows.now lists.visits) held.entry.block lists.visits.fate lists.checkpoints) }
    ensures cause { IfErr result (IsFaultAt held.entry.plan.now held.entry.rows.now held.entry.number) }
    ensures steps { steps.old ≤ steps.new }
    ensures spent { (node : TheNode) → slice_get held.entry.plan.now.net.nodes held.entry.number ≡ Some node → steps.new ≤ steps.old + blocks_behind held.entry.block node.kind (length (stream_in held.entry.arrivals).job) stays.now.blocks }
    ensures counted { OnOk result ((node : TheNode) → slice_get held.entry.plan.now.net.nodes held.entry.number ≡ Some node → steps.new ≡ steps.old + blocks_behind held.entry.block node.kind (length (stream_in held.entry.arrivals).job) stays.now.blocks) }
{
    let load = held.load();
    let Ok(reworked) = work_again(crew, &load, stays, steps) else {
        drop(held);
        return Err(RunFault::Memory);
    };
    left_lists(crew, held, reworked)
}

// Returns the lists of a station once all its jobs have left.
fn left_lists<R: Threads + Sync>(
    crew: &Crew<R, Open>,
    held: Held,
    reworked: Reworked,
) -> Result<NodeLists, RunFault>
    requires ready { IsReadyLoad held }
    requires left { IsLeftOf held reworked.left }
    requires checkpoints { (node : TheNode) → slice_get held.plan.now.net.nodes held.number ≡ Some node → IsKeptNode node.kind (coming_as held.rows.now (stream_in held.arrivals)) held.block (sequence_fates held.rows.now node.kind (came_in (stream_in held.arrivals))) reworked.checkpoints }
    ensures known { IfOk result (λ lists. IsWorkedOut held.entry.plan.now held.entry.rows.now (record { number = held.entry.number; ending = OnTime lists.visits lists.streams })) }
    ensures checkpoints { IfOk result (λ lists. (node : TheNode) → slice_get held.entry.plan.now.net.nodes held.entry.number ≡ Some node → IsKeptNode node.kind (coming_of held.entry.rows.now lists.visits) held.entry.block lists.visits.fate lists.checkpoints) }
    ensures cause { IfErr result (IsFaultAt held.entry.plan.now held.entry.rows.now held.entry.number) }
{
    core_laws();
    let Reworked { left, checkpoints } = reworked;
    let Ok(node_result) = worked_out(crew, held, left) else {
        drop(checkpoints);
        return Err(RunFault::Memory);
    };
    lists_by(node_result, checkpoints)
}

// Returns the result of the only node.
fn the_only(results: List<NodeResult>) -> NodeResult
    requires { length results ≡ 1 }
    ensures { results ≡ result ∷ [] }
{
    let mut results = results.into_vec();
    let Some(result) = results.pop() else {
        unreachable!()
    };
    result
}

// Returns the lists of a node with this result.
fn lists_by(node_result: NodeResult, checkpoints: Checkpoints) -> Result<NodeLists, RunFault>
    ensures ends { IfOk result (λ lists. node_result.ending ≡ OnTime lists.visits lists.streams) }
    ensures checkpoints { IfOk result (λ lists. lists.checkpoints ≡ checkpoints) }
    ensures cause { IfErr result (IsFaultOf node_result.ending) }
{
    match node_result.ending {
        Ending::OnTime(visits, streams) => Ok(NodeLists {
            visits,
            streams,
            checkpoints,
        }),
        Ending::TooMany(over) => Err(RunFault::Over(over)),
        Ending::TooLate(past) => Err(RunFault::Past(past)),
    }
}
