// A kept run, and its edits.
ghost use Rattle.std.specs.Prelude.{◌≡◌, ◌+◌, ◌<◌, ◌≤◌, length, IfErr, IfOk, OnErr, OnOk};
ghost use Rattle.mq_alike.specs.Again.{again, all_blocks, worked};
ghost use Rattle.mq_core.specs.Theorems.{IsReadFor};
ghost use Rattle.mq_edits.specs.Edited.{AreEditsFor, edited_rows};
ghost use Rattle.mq_engine.specs.Answer.{IsCause};
ghost use Rattle.mq_kept.specs.Keeping.{IsKeptRun};
ghost use Rattle.mq_kept.specs.NodeRuns.{AreKept};

use crate::again::{NewRun, Redone, run_again};
use crate::checkpoints::Checkpoints;
use crate::former::{Nodes, all_same, no_nodes};
use mq_alike::again_is_bounded;
use mq_base::{List, Steps};
use mq_core::{Plan, Rows, Run, runs_have_sequences};
use mq_crew::{Crew, Open};
use mq_edits::{Edit, edit_rows};
use mq_engine::{RunFault, core_laws};
use std::alloc::Global;
use std::marker::{Brand, Model};
use std::mem::replace;
use std::sync::ledger::{Blank, Ledger};
use std::thread::Threads;

/// A run that is kept with its rows. It borrows its plan.
#[derive(Drop)]
pub struct Kept<'p> {
    plan: &'p Plan,
    rows: Rows,
    run: Run,
    checkpoints: List<Checkpoints>,
    workers: u32,
    block: u32,
}

impl<'p> Model for Kept<'p> {
    ghost use Rattle.mq_kept.specs.Keeping.{IsKept, KeptRun};

    ghost Value = { KeptRun };

    ghost view = { λ k. record { plan = k.plan.now; rows = k.rows; run = k.run; workers = k.workers; block = k.block } };

    ghost invariant = { λ k. IsKept k.plan.now k.rows k.run k.checkpoints k.workers k.block };
}

impl<'p> Kept<'p> {
    /// Returns the run of a plan over rows that were read for its network, kept with those rows. It is computed by
    /// `workers` workers, 1 to 64, in blocks of `block` jobs, 64 to 65,536. Fails as `run` of `mq_engine` does.
    pub fn start<R: Threads + Sync>(
        rt: &R,
        alloc: Global,
        plan: &'p Plan,
        rows: Rows,
        workers: u32,
        block: u32,
    ) -> Result<Kept<'p>, RunFault>
        requires read { IsReadFor plan.now.net rows }
        requires some { 1 ≤ workers }
        requires most { workers ≤ 64 }
        requires block { 64 ≤ block }
        requires large { block ≤ 65536 }
        ensures plan { IfOk result (λ kept. kept.plan ≡ plan.now) }
        ensures rows { IfOk result (λ kept. kept.rows ≡ rows) }
        ensures numbers { IfOk result (λ kept. (kept.workers ≡ workers) × (kept.block ≡ block)) }
        ensures kept { IfOk result IsKeptRun }
        ensures cause { IfErr result (λ fault. IsCause plan.now rows fault) }
    {
        let crew = Crew::new(rt, alloc, workers, &Open);
        let whole = begun::<R, Brand>(&crew, plan, &rows, block, Blank::new(1))?;
        Ok(Kept {
            plan,
            rows,
            run: whole.run,
            checkpoints: whole.checkpoints,
            workers,
            block,
        })
    }

    /// Makes these edits, in order, in the kept rows, and redoes what they can change. Returns the number of blocks
    /// from the first difference on, over the nodes whose blocks are counted, and the number of all their blocks.
    /// Counts one step for each block that is worked; if it fails, at most that many. The blocks of sources aren't
    /// worked, because a source's jobs depart as they come.
    ///
    /// Fails as `run` of `mq_engine` over the edited rows does. Then the kept rows and run are as before, and the steps
    /// stay counted.
    ///
    /// A station without a difference stays as it is. A loss station or a trunk group with a difference is computed
    /// whole, and so is a fork or a join if a node that it reads didn't stay as it was. What a changed node had is kept
    /// until the new run is done. The clauses don't state this paragraph.
    pub fn edit<R: Threads + Sync, L: Ledger>(
        &mut self,
        rt: &R,
        alloc: Global,
        edits: &List<Edit>,
        steps: &mut Steps<L>,
    ) -> Result<Redone, RunFault>
        requires edits { AreEditsFor self.old.plan.net (length self.old.rows.source) edits.now }
        ensures stays { (self.new.plan ≡ self.old.plan) × (self.new.workers ≡ self.old.workers) × (self.new.block ≡ self.old.block) }
        ensures rows { OnOk result (self.new.rows ≡ edited_rows self.old.rows edits.now) }
        ensures kept { IsKeptRun self.new }
        ensures redone { IfOk result (λ redone. redone ≡ record { again = again self.old.plan.net self.old.rows (edited_rows self.old.rows edits.now) self.old.block; all = all_blocks self.old.plan.net (edited_rows self.old.rows edits.now) self.old.block }) }
        ensures err { OnErr result (self.new ≡ self.old) }
        ensures cause { IfErr result (λ fault. IsCause self.old.plan (edited_rows self.old.rows edits.now) fault) }
        ensures steps { steps.old ≤ steps.new }
        ensures spent { steps.new ≤ steps.old + worked self.old.plan.net self.old.rows (edited_rows self.old.rows edits.now) self.old.block }
        ensures counted { OnOk result (steps.new ≡ steps.old + worked self.old.plan.net self.old.rows (edited_rows self.old.rows edits.now) self.old.block) }
        ensures most { steps.new ≤ steps.old + again self.old.plan.net self.old.rows (edited_rows self.old.rows edits.now) self.old.block }
    {
        core_laws();
        runs_have_sequences();
        again_is_bounded();
        let formers = all_same(alloc, self.plan.net.nodes.len())?;
        let Ok(former) = edit_rows(alloc, &mut self.rows, edits) else {
            drop(formers);
            return Err(RunFault::Memory);
        };
        let nodes = taken(alloc, &mut self.run, &mut self.checkpoints);
        let crew = Crew::new(rt, alloc, self.workers, &Open);
        let result = run_again(
            &crew,
            self.plan,
            &self.rows,
            Some(&former),
            nodes,
            formers,
            self.block,
            steps,
        );
        match result {
            Ok(whole) => {
                drop(former);
                drop(replace(&mut self.run, whole.run));
                drop(replace(&mut self.checkpoints, whole.checkpoints));
                Ok(whole.redone)
            }
            Err(refusal) => {
                former.put_back(alloc, &mut self.rows);
                drop(former);
                put(&mut self.run, &mut self.checkpoints, refusal.nodes);
                Err(refusal.fault)
            }
        }
    }

    /// Returns the kept rows.
    pub fn rows(&self) -> &Rows
        ensures { result.now ≡ self.now.rows }
    {
        &self.rows
    }

    /// Returns the run over the kept rows.
    pub fn run(&self) -> &Run
        ensures run { result.now ≡ self.now.run }
        ensures kept { IsKeptRun self.now }
    {
        &self.run
    }
}

// Takes what is kept of the nodes, and leaves nothing.
fn taken(alloc: Global, run: &mut Run, checkpoints: &mut List<Checkpoints>) -> Nodes
    ensures visits { result.visits.items ≡ run.old.visits }
    ensures outputs { result.outputs.items ≡ run.old.outputs }
    ensures checkpoints { result.checkpoints.items ≡ checkpoints.old }
{
    Nodes {
        visits: replace(&mut run.visits, List::new(alloc)).into_vec(),
        outputs: replace(&mut run.outputs, List::new(alloc)).into_vec(),
        checkpoints: replace(checkpoints, List::new(alloc)).into_vec(),
    }
}

// Replaces what is kept of the nodes.
fn put(run: &mut Run, checkpoints: &mut List<Checkpoints>, nodes: Nodes)
    ensures visits { run.new.visits ≡ nodes.visits.items }
    ensures outputs { run.new.outputs ≡ nodes.outputs.items }
    ensures checkpoints { checkpoints.new ≡ nodes.checkpoints.items }
{
    drop(replace(&mut run.visits, List::from_vec(nodes.visits)));
    drop(replace(&mut run.outputs, List::from_vec(nodes.outputs)));
    drop(replace(checkpoints, List::from_vec(nodes.checkpoints)));
}

// Returns a first run, of which nothing is kept yet, with a new counter.
fn begun<R: Threads + Sync, L: Ledger>(
    crew: &Crew<R, Open>,
    plan: &Plan,
    rows: &Rows,
    block: u32,
    blank: Blank,
) -> Result<NewRun, RunFault>
    requires read { IsReadFor plan.now.net rows.now }
    requires block { 64 ≤ block }
    requires large { block ≤ 65536 }
    requires name { blank.name ≡ L.name }
    requires parts { blank.parts ≡ L.parts }
    requires whole { 0 < blank.parts }
    ensures kept { IfOk result (λ whole. AreKept plan.now rows.now block whole.run whole.checkpoints) }
    ensures cause { IfErr result (λ fault. IsCause plan.now rows.now fault) }
{
    let count = plan.net.nodes.len();
    let formers = all_same(crew.alloc, count)?;
    let Ok(nodes) = no_nodes(crew.alloc, count) else {
        drop(formers);
        return Err(RunFault::Memory);
    };
    let mut steps = Steps::<L>::new(blank);
    match run_again(crew, plan, rows, None, nodes, formers, block, &mut steps) {
        Ok(whole) => Ok(whole),
        Err(refusal) => Err(refusal.fault),
    }
}
