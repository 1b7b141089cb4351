// A delay in which jobs overtake others: block by block, how many each visit found.
ghost use Rattle.std.specs.Prelude.{◌≡◌, ◌<◌, IfOk};
ghost use Rattle.mq_crew.specs.Crew.{AreAll};
ghost use Rattle.mq_exits.specs.Afters.{IsAfterAt};
ghost use Rattle.mq_exits.specs.Keeping.{IsCounted, IsDelayPiece, IsFoundBlock, IsOvertaken, founds_by};

use crate::load::Load;
use crate::overtaking::Overtaken;
use crate::working::{After, on_time};
use mq_base::{List, OutOfMemory};
use mq_core::Stream;
use mq_kinds::{Piece, all_contents};
use mq_stats::found_piece;
use std::alloc::Global;

/// Makes a piece: how many jobs each visit of a block found.
pub fn delay_piece(
    alloc: Global,
    arrivals: &Stream,
    overtaken: &Overtaken,
    b: u32,
) -> Result<Piece, OutOfMemory>
    requires counted { IsCounted arrivals.now overtaken.now }
    requires inside { b < overtaken.now.blocks.blocks }
    ensures { IfOk result (IsDelayPiece arrivals.now overtaken.now b) }
{
    let (from, to) = overtaken.blocks.range(b);
    let found = found_piece(alloc, &arrivals.time, &overtaken.ahead, from, to)?;
    Ok(Piece::Numbers(found))
}

/// Returns what becomes of the arrivals, from the pieces.
pub fn after_delay(
    alloc: Global,
    load: &Load,
    made: Vec<Piece>,
    overtaken: Overtaken,
) -> Result<After, OutOfMemory>
    requires overtaken { IsOvertaken load.now.plan.now load.now.rows.now load.now.number load.now.arrivals.now overtaken }
    requires made { AreAll (IsDelayPiece load.now.arrivals.now overtaken) overtaken.blocks.blocks made.items }
    ensures { IfOk result (IsAfterAt load.now.plan.now load.now.rows.now load.now.number load.now.arrivals.now) }
{
    let Ok(found) = all_found(alloc, load.arrivals, &overtaken, made) else {
        drop(overtaken);
        return Err(OutOfMemory);
    };
    let (departs, leaving) = leaving_of(overtaken);
    on_time(alloc, departs, found, leaving)
}

// Returns when the jobs depart, by position, and what leaves.
fn leaving_of(overtaken: Overtaken) -> (List<u64>, Stream)
    ensures departs { result.0 ≡ overtaken.departs }
    ensures leaving { result.1 ≡ record { job = overtaken.job; time = overtaken.ahead.leaving } }
{
    let Overtaken {
        departs,
        job,
        ahead,
        ..
    } = overtaken;
    let leaving = Stream {
        job,
        time: ahead.leaving,
    };
    (departs, leaving)
}

// Returns how many jobs each visit found, from the pieces.
fn all_found(
    alloc: Global,
    arrivals: &Stream,
    overtaken: &Overtaken,
    made: Vec<Piece>,
) -> Result<List<u32>, OutOfMemory>
    requires counted { IsCounted arrivals.now overtaken.now }
    requires made { AreAll (IsDelayPiece arrivals.now overtaken.now) overtaken.now.blocks.blocks made.items }
    ensures { IfOk result (λ found. found ≡ founds_by arrivals.now overtaken.now.departs) }
{
    let parts = all_contents(alloc, List::from_vec(made))?;
    let found = founds_joined(alloc, arrivals, overtaken, &parts);
    drop(parts);
    found
}

// Returns how many jobs each visit found, from those of each block.
fn founds_joined(
    alloc: Global,
    arrivals: &Stream,
    overtaken: &Overtaken,
    parts: &List<List<u32>>,
) -> Result<List<u32>, OutOfMemory>
    requires counted { IsCounted arrivals.now overtaken.now }
    requires parts { AreAll (IsFoundBlock (founds_by arrivals.now overtaken.now.departs) overtaken.now.blocks) overtaken.now.blocks.blocks parts.now }
    ensures { IfOk result (λ found. found ≡ founds_by arrivals.now overtaken.now.departs) }
{
    let mut found = Vec::with_capacity(alloc, arrivals.time.len())?;
    for k in 0..overtaken.blocks.blocks {
        let part = parts.get(k as usize);
        found.extend_from_slice(part.as_slice())?;
    }
    Ok(List::from_vec(found))
}
