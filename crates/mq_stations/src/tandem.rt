// What the stages of a tandem ask for, and how many jobs they hold.
ghost use Rattle.std.specs.Prelude.{◌≡◌, map, IfOk};

use mq_base::{List, OutOfMemory};
use mq_core::{Demand, Stage};
use std::alloc::Global;

/// What the stages ask for. It refuses for want of memory alone.
pub fn stage_demands(alloc: Global, stages: &List<Stage>) -> Result<List<Demand>, OutOfMemory>
    ensures { IfOk result (λ asked. asked ≡ map (λ stage. stage.demand) stages.now) }
{
    let mut asked = List::new(alloc);
    for at in 0..stages.len() {
        asked.push(stages.get(at).demand)?;
    }
    Ok(asked)
}

/// How many jobs each stage holds. It refuses for want of memory alone.
pub fn stage_places(alloc: Global, stages: &List<Stage>) -> Result<List<u8>, OutOfMemory>
    ensures { IfOk result (λ places. places ≡ map (λ stage. stage.places) stages.now) }
{
    let mut places = List::new(alloc);
    for at in 0..stages.len() {
        places.push(stages.get(at).places)?;
    }
    Ok(places)
}
