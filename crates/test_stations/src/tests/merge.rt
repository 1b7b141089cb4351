// A merge of two streams, whole and in pieces, between co-ranks.
ghost use Rattle.std.specs.Prelude.{◌≡◌, length, IfOk};
ghost use Rattle.mq_core.specs.Sequences.{IsStream};

use mq_base::{List, OutOfMemory};
use mq_core::Stream;
use mq_merge::{co_rank, merge_piece, merge_two};
use std::alloc::Global;
use std::test::Fail;

// Returns jobs 0, 1 and 2 at 1, 3 and 3.
fn three(alloc: Global) -> Result<Stream, OutOfMemory>
    ensures stream { IfOk result (λ stream. IsStream stream) }
    ensures many { IfOk result (λ stream. length stream.time ≡ 3) }
{
    Ok(Stream {
        job: List::from_vec(Vec::from_slice(alloc, &[0, 1, 2])?),
        time: List::from_vec(Vec::from_slice(alloc, &[1, 3, 3])?),
    })
}

// Returns jobs 3 and 4 at 0 and 3.
fn two(alloc: Global) -> Result<Stream, OutOfMemory>
    ensures stream { IfOk result (λ stream. IsStream stream) }
    ensures many { IfOk result (λ stream. length stream.time ≡ 2) }
{
    Ok(Stream {
        job: List::from_vec(Vec::from_slice(alloc, &[3, 4])?),
        time: List::from_vec(Vec::from_slice(alloc, &[0, 3])?),
    })
}

// Returns whether the merged streams are jobs 3, 0, 1, 2 and 4 at 0, 1, 3, 3 and 3: at time 3, those of the
// first stream come first.
fn whole_is_so(alloc: Global, a: &Stream, b: &Stream) -> Result<bool, OutOfMemory>
    requires a { IsStream a.now }
    requires b { IsStream b.now }
{
    let whole = merge_two(alloc, a, b)?;
    Ok(
        whole.job.as_slice() == [3, 0, 1, 2, 4].as_slice()
            && whole.time.as_slice() == [0, 1, 3, 3, 3].as_slice(),
    )
}

// Returns the same for the two streams above.
fn is_merged_so(alloc: Global) -> Result<bool, OutOfMemory> {
    let a = three(alloc)?;
    let b = two(alloc)?;
    let so = whole_is_so(alloc, &a, &b);
    drop(a);
    drop(b);
    so
}

// Returns whether the last two of the five merged items are jobs 2 and 4, at 3.
fn piece_is_so(alloc: Global, a: &Stream, b: &Stream) -> Result<bool, OutOfMemory>
    requires a { IsStream a.now }
    requires b { IsStream b.now }
    requires three { length a.now.time ≡ 3 }
    requires two { length b.now.time ≡ 2 }
{
    let piece = merge_piece(alloc, a, b, 3, 5)?;
    Ok(piece.job.as_slice() == [2, 4].as_slice() && piece.time.as_slice() == [3, 3].as_slice())
}

// Returns whether two of the first three merged items come from the first stream and one from the second, and
// the piece after them is right.
fn is_cut_so(alloc: Global) -> Result<bool, OutOfMemory> {
    let a = three(alloc)?;
    let b = two(alloc)?;
    let so = piece_is_so(alloc, &a, &b)?;
    let ranks = co_rank(&a, &b, 3);
    drop(a);
    drop(b);
    Ok(so && ranks == (2, 1))
}

#[test]
fn a_merge_takes_the_first_stream_first_at_one_time(rt: HostRuntime) -> Result<(), Fail> {
    assert!(rt; is_merged_so(rt.alloc())?);
    Ok(())
}

#[test]
fn a_merge_is_cut_at_co_ranks(rt: HostRuntime) -> Result<(), Fail> {
    assert!(rt; is_cut_so(rt.alloc())?);
    Ok(())
}
