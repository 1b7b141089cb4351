// Networks of many kinds, with edits that look random.
ghost use Rattle.std.specs.Prelude.{◌≡◌};

use super::draws::{push_edit, push_trace};
use super::kept::{edited, is_as_from_nothing, kept_of, plan_of};
use mq_base::OutOfMemory;
use mq_core::Plan;
use mq_gen::made;
use mq_kept::Kept;
use std::alloc::Global;
use std::test::Fail;
use std::thread::Threads;

// Whether a kept run is that of a whole run, at the start and after each of four edits. The text of each edit replaces
// what is in `text`.
fn stays_through<R: Threads + Sync>(
    rt: &R,
    alloc: Global,
    plan: &Plan,
    kept: &mut Kept,
    text: &mut Vec<u8>,
    state: &mut u64,
) -> Result<bool, OutOfMemory>
    requires plan { kept.old.plan ≡ plan.now }
{
    if !is_as_from_nothing(rt, alloc, plan, kept) {
        return Ok(false);
    }
    for _ in 0..4 {
        text.clear();
        push_edit(text, plan, kept.rows().source.len() as u64, state)?;
        let Ok(redone) = edited(rt, alloc, plan, kept, text) else {
            return Ok(false);
        };
        if redone.again > redone.all || !is_as_from_nothing(rt, alloc, plan, kept) {
            return Ok(false);
        }
    }
    Ok(true)
}

// Whether this holds for the run of a trace that looks random, in blocks of 64 jobs.
fn trace_stays<R: Threads + Sync>(
    rt: &R,
    alloc: Global,
    plan: &Plan,
    text: &mut Vec<u8>,
    number: u64,
) -> Result<bool, OutOfMemory> {
    let mut state = number;
    push_trace(text, plan, &mut state)?;
    match kept_of(rt, alloc, plan, text, 1, 64) {
        Ok(mut kept) => {
            let so = stays_through(rt, alloc, plan, &mut kept, text, &mut state);
            drop(kept);
            so
        }
        Err(_) => Err(OutOfMemory),
    }
}

// Whether this holds for the plan of a model.
fn model_stays<R: Threads + Sync>(
    rt: &R,
    alloc: Global,
    model: &[u8],
    number: u64,
) -> Result<bool, OutOfMemory> {
    let plan = plan_of(alloc, model)?;
    let mut text = Vec::new(alloc);
    let so = trace_stays(rt, alloc, &plan, &mut text, number);
    drop(text);
    drop(plan);
    so
}

fn made_models_stay<R: Threads + Sync>(rt: &R, alloc: Global) -> Result<bool, OutOfMemory> {
    for number in 0..12 {
        let input = made(alloc, number)?;
        let so = model_stays(rt, alloc, input.model.as_slice(), number);
        drop(input);
        if !so? {
            return Ok(false);
        }
    }
    Ok(true)
}

#[test]
fn edited_runs_are_as_from_nothing(rt: HostRuntime) -> Result<(), Fail> {
    assert!(rt; made_models_stay(&rt, rt.alloc())?);
    Ok(())
}

// Every kind of node, with splits by turns, by thresholds and by a column modulo 3.
const WIDE: &[u8] =
    b"model 2\nsource a\nsource b\nsplit p 2 turn from a\nsplit c cut k 3 6 from b\nfork f 2 from p\n\
    server s k from f p.1\ndelay w m from f.1 c\njoin j from s w\nloss l 2 m from j\nsplit x 3 mod k from l l.1\n\
    trunk t 2 m from x c.1\nforkjoin g k m | m from c.2 t.1 x.1\ntandem q k / 2 m / 1 =1 from t g x.2\n";

fn wide_model_stays<R: Threads + Sync>(rt: &R, alloc: Global) -> Result<bool, OutOfMemory> {
    for number in 100..106 {
        if !model_stays(rt, alloc, WIDE, number)? {
            return Ok(false);
        }
    }
    Ok(true)
}

#[test]
fn a_network_of_all_kinds(rt: HostRuntime) -> Result<(), Fail> {
    assert!(rt; wide_model_stays(&rt, rt.alloc())?);
    Ok(())
}
