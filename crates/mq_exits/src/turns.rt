// What the nodes of a wave give. A run that keeps numbers has no lists of the stations whose jobs leave in the order in which they
// came: the arrivals and the departures say the rest.
ghost use Rattle.std.specs.Prelude.{◌≡◌, ◌+◌, ℕ, List as Items, length, IfOk};
ghost use Rattle.std.specs.List.{AllByRecursion};
ghost use Rattle.mq_core.specs.declared.model.Plan.{Plan as ThePlan};
ghost use Rattle.mq_core.specs.declared.model.Rows.{Rows as TheRows};
ghost use Rattle.mq_exits.specs.Results.{IsResultOf};
ghost use Rattle.mq_exits.specs.Turns.{IsGiven};
ghost use Rattle.mq_exits.specs.declared.keeping.Keep.{Keep as TheKeep};
ghost use Rattle.mq_exits.specs.declared.keeping.Keep.TheVariants.{Lists};
ghost use Rattle.mq_exits.specs.declared.turns.Given.TheVariants.{Ended};

use crate::load::Held;
use crate::working::NodeResult;
use mq_base::{List, OutOfMemory};
use std::alloc::Global;

/// A station whose jobs leave by one output in the order in which they came, none after the bound.
#[derive(Drop)]
pub struct InTurn<'a> {
    /// What came to it.
    pub held: Held<'a>,
    /// When the jobs depart, in ticks, by position.
    pub departs: List<u64>,
}

/// What a node of a wave gives.
#[derive(Drop)]
pub enum Given<'a> {
    /// How it ends.
    Ended(NodeResult),
    /// What came to it and when each job departs, if they leave in the order in which they came.
    InTurn(InTurn<'a>),
}

/// Returns what is given, with how other nodes end. The only error is out of memory.
pub fn with_ended<'a>(
    given: List<Given<'a>>,
    results: List<NodeResult>,
) -> Result<List<Given<'a>>, OutOfMemory>
    ensures len { IfOk result (λ all. length all ≡ length given.entry + length results) }
    ensures given { IfOk result (λ all. (keep : TheKeep) (plan : ThePlan) (rows : TheRows) (ready : Items ℕ) → AllByRecursion (IsGiven keep plan rows ready) given.entry → AllByRecursion (IsResultOf plan rows ready) results → AllByRecursion (IsGiven keep plan rows ready) all) }
{
    let mut all = given;
    let mut results = results.into_vec();
    while let Some(node_result) = results.pop() {
        if let Err(fault) = all.push(Given::Ended(node_result)) {
            drop(all);
            drop(results);
            return Err(fault);
        }
    }
    Ok(all)
}

/// Returns how nodes end, in some order, in a run that keeps lists. The only error is out of memory.
pub fn finished(alloc: Global, given: List<Given>) -> Result<List<NodeResult>, OutOfMemory>
    requires { (plan : ThePlan) × (rows : TheRows) × (ready : Items ℕ) × AllByRecursion (IsGiven Lists plan rows ready) given }
    ensures len { IfOk result (λ results. length results ≡ length given.entry) }
    ensures known { IfOk result (λ results. (plan : ThePlan) (rows : TheRows) (ready : Items ℕ) → AllByRecursion (IsGiven Lists plan rows ready) given.entry → AllByRecursion (IsResultOf plan rows ready) results) }
{
    let Ok(mut results) = Vec::with_capacity(alloc, given.len()) else {
        drop(given);
        return Err(OutOfMemory);
    };
    let mut given = given.into_vec();
    while let Some(one) = given.pop() {
        results.push_reserved(ended_in(one));
    }
    Ok(List::from_vec(results))
}

/// Returns how a node ends, in a run that keeps lists.
pub fn ended_in(given: Given) -> NodeResult
    requires { (plan : ThePlan) × (rows : TheRows) × (ready : Items ℕ) × IsGiven Lists plan rows ready given }
    ensures { given.entry ≡ Ended result }
{
    match given {
        Given::Ended(node_result) => node_result,
        Given::InTurn(_) => unreachable!(),
    }
}
