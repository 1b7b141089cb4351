// Readers of the words between the name of a station and its inputs.
ghost use Rattle.std.specs.Prelude.{◌+◌, ◌≤◌, IfOk, length};
ghost use Rattle.mq_model.specs.Form.{read, up_to};
ghost use Rattle.mq_model.specs.Lines.{a_branch, a_stage, branches as further_branches, demand_of, forkjoin_kind, is_demand, loss_kind, trunk_kind, stages as further_stages, tandem_kind};
ghost use Rattle.mq_base.specs.Text.{texts};
ghost use Rattle.mq_model.specs.Reading.{Reads, ReadsMore};

use crate::parts::{Stop, read_demand, read_within};
use crate::said::{SaidDemand, SaidKind, SaidStage};
use crate::word::{demand_said, is_demand, is_key};
use mq_base::List;
use std::alloc::Global;

// The most places of a loss station.
const MOST_PLACES: u64 = 1 << 20;

/// Reads the places of a loss station and its demand.
pub fn read_loss(alloc: Global, words: &mut &[&[u8]]) -> Result<SaidKind, Stop>
    ensures { Reads result (texts words.new.now) (read loss_kind (texts words.old.now)) }
{
    let places = read_within(words, 1, MOST_PLACES)?;
    let demand = read_demand(alloc, words)?;
    Ok(SaidKind::Loss {
        places: places as u32,
        demand,
    })
}

/// Reads the servers of a trunk group and its demand.
pub fn read_trunk(alloc: Global, words: &mut &[&[u8]]) -> Result<SaidKind, Stop>
    ensures { Reads result (texts words.new.now) (read trunk_kind (texts words.old.now)) }
{
    let servers = read_within(words, 1, 255)?;
    let demand = read_demand(alloc, words)?;
    Ok(SaidKind::Trunk {
        servers: servers as u8,
        demand,
    })
}

// Reads the places and the demand of a stage, after its slash.
fn read_stage(alloc: Global, words: &mut &[&[u8]]) -> Result<SaidStage, Stop>
    ensures { Reads result (texts words.new.now) (read a_stage (texts words.old.now)) }
{
    let places = read_within(words, 1, 4)?;
    let demand = read_demand(alloc, words)?;
    Ok(SaidStage {
        places: places as u8,
        demand,
    })
}

// Adds the next stages, at most 3 and perhaps none, each after a slash.
fn add_stages(alloc: Global, words: &mut &[&[u8]], stages: &mut List<SaidStage>) -> Result<(), Stop>
    ensures { ReadsMore result stages.old stages.new (texts words.new.now) (read (further_stages 3) (texts words.old.now)) }
{
    for count in 0..3u8 {
        let [word, rest @ ..] = *words else {
            return Ok(());
        };
        if !is_key(b"/", word) {
            return Ok(());
        }
        *words = rest;
        let stage = read_stage(alloc, words)?;
        stages.push(stage)?;
    }
    Ok(())
}

/// Reads the 2 to 4 stages of a tandem.
pub fn read_tandem(alloc: Global, words: &mut &[&[u8]]) -> Result<SaidKind, Stop>
    ensures { Reads result (texts words.new.now) (read tandem_kind (texts words.old.now)) }
{
    let first = read_demand(alloc, words)?;
    let mut stages = List::new(alloc);
    stages.push(SaidStage {
        places: 0,
        demand: first,
    })?;
    add_stages(alloc, words, &mut stages)?;
    if stages.len() < 2 {
        return Err(Stop::Word);
    }
    Ok(SaidKind::Tandem(stages))
}

// Adds the next demands, at most `most` and perhaps none.
fn add_demands(
    alloc: Global,
    words: &mut &[&[u8]],
    most: u8,
    demands: &mut List<SaidDemand>,
) -> Result<(), Stop>
    ensures reads { ReadsMore result demands.old demands.new (texts words.new.now) (read (up_to most is_demand demand_of) (texts words.old.now)) }
    ensures few { IfOk result (λ _. length demands.new ≤ length demands.old + most) }
{
    for count in 0..most {
        let [word, rest @ ..] = *words else {
            return Ok(());
        };
        if !is_demand(word) {
            return Ok(());
        }
        demands.push(demand_said(alloc, word)?)?;
        *words = rest;
    }
    Ok(())
}

// Reads a branch of a fork-join: 1 to 4 demands, and at most `left`.
fn read_branch(alloc: Global, words: &mut &[&[u8]], left: u8) -> Result<List<SaidDemand>, Stop>
    requires { 1 ≤ left }
    ensures reads { Reads result (texts words.new.now) (read (a_branch left) (texts words.old.now)) }
    ensures few { IfOk result (λ demands. length demands ≤ left) }
    ensures short { IfOk result (λ demands. length demands ≤ 4) }
{
    let mut demands = List::new(alloc);
    add_demands(alloc, words, left.min(4), &mut demands)?;
    if demands.is_empty() {
        return Err(Stop::Word);
    }
    Ok(demands)
}

// Adds the next branches, at most 7 and perhaps none, each after a bar, and with at most `left`
// demands in all.
fn add_branches(
    alloc: Global,
    words: &mut &[&[u8]],
    left: u8,
    branches: &mut List<List<SaidDemand>>,
) -> Result<(), Stop>
    ensures { ReadsMore result branches.old branches.new (texts words.new.now) (read (further_branches 7 left) (texts words.old.now)) }
{
    let mut left = left;
    for count in 0..7u8 {
        if left == 0 {
            return Ok(());
        }
        let [word, rest @ ..] = *words else {
            return Ok(());
        };
        if !is_key(b"|", word) {
            return Ok(());
        }
        *words = rest;
        let demands = read_branch(alloc, words, left)?;
        left -= demands.len() as u8;
        branches.push(demands)?;
    }
    Ok(())
}

/// Reads the 2 to 8 branches of a fork-join, separated by bars, with at most 8 demands in all.
pub fn read_forkjoin(alloc: Global, words: &mut &[&[u8]]) -> Result<SaidKind, Stop>
    ensures { Reads result (texts words.new.now) (read forkjoin_kind (texts words.old.now)) }
{
    let first = read_branch(alloc, words, 8)?;
    let left = 8 - first.len() as u8;
    let mut branches = List::new(alloc);
    branches.push(first)?;
    add_branches(alloc, words, left, &mut branches)?;
    if branches.len() < 2 {
        return Err(Stop::Word);
    }
    Ok(SaidKind::ForkJoin(branches))
}
