// The pieces of several parts, made as one list.
ghost use Rattle.std.specs.Prelude.{◌≡◌, ◌<◌, ◌≤◌, ◌^◌, drop, length, take, IfOk, OnOk};
ghost use Rattle.std.specs.List.{AllByRecursion};
ghost use Rattle.std.specs.Vec.Iter.{into_iter_items, into_iter_len};
ghost use Rattle.mq_crew.specs.Crew.{AreAll, AreGroups, IsPieceOf, total_size};

use crate::{Crew, Gate, Pieces};
use mq_base::{List, OutOfMemory};
use std::alloc::Global;
use std::thread::Threads;
use std::vec::IntoIter;

// The pieces of several parts, one part after another.
#[derive(Clone, Copy)]
struct Parts<'a, P> {
    parts: &'a [P],
}

impl<'a, P: Pieces> Pieces for Parts<'a, P> {
    type Piece = P::Piece;

    ghost fit = { λ s. AllByRecursion P.fit s.parts.now × (total_size P.size s.parts.now < 2 ^ 32) };

    ghost size = { λ s. total_size P.size s.parts.now };

    ghost is_piece = { λ s b piece. IsPieceOf P.size P.is_piece s.parts.now b piece };

    fn count(&self) -> u32 {
        let mut count = 0;
        'parts: for part in self.parts {
            count += part.count();
        }
        count
    }

    fn piece(&self, alloc: Global, b: u32) -> Result<P::Piece, OutOfMemory> {
        let mut at = b;
        'parts: for part in self.parts {
            let count = part.count();
            if at < count {
                return part.piece(alloc, at);
            }
            at -= count;
        }
        unreachable!()
    }
}

impl<'a, R: Threads + Sync, G: Gate> Crew<'a, R, G> {
    /// Returns the pieces of each part, in a list of its own. All are made as one list: the indices of the
    /// first part come first, then those of the others. There must be fewer than 2^32 indices. The only
    /// error is that memory runs out.
    pub fn parts<P: Pieces>(&self, parts: &[P]) -> Result<List<List<P::Piece>>, OutOfMemory>
        requires fit { AllByRecursion P.fit parts.now }
        requires few { total_size P.size parts.now < 2 ^ 32 }
        ensures { IfOk result (λ groups. AreGroups P.size P.is_piece parts.now groups) }
    {
        let made = self.made(&Parts { parts })?;
        grouped(self.alloc, parts, made)
    }
}

// The pieces of each part, in a list of its own.
fn grouped<P: Pieces>(
    alloc: Global,
    parts: &[P],
    made: List<P::Piece>,
) -> Result<List<List<P::Piece>>, OutOfMemory>
    requires fit { AllByRecursion P.fit parts.now }
    requires all { AreAll (IsPieceOf P.size P.is_piece parts.now) (total_size P.size parts.now) made }
    ensures { IfOk result (λ groups. AreGroups P.size P.is_piece parts.now groups) }
{
    let mut left = made.into_vec().into_iter();
    let mut groups = List::new(alloc);
    'parts: for part in parts {
        let group = taken(alloc, part.count(), &mut left)?;
        groups.push(group)?;
    }
    Ok(groups)
}

// Takes the next `count` items.
fn taken<T: Drop>(
    alloc: Global,
    count: u32,
    left: &mut IntoIter<T, Global>,
) -> Result<List<T>, OutOfMemory>
    requires len { into_iter_len left.old ≡ length (into_iter_items left.old) }
    requires room { count ≤ length (into_iter_items left.old) }
    ensures first { IfOk result (λ group. group ≡ take count (into_iter_items left.old)) }
    ensures rest { OnOk result (into_iter_items left.new ≡ drop count (into_iter_items left.old)) }
    ensures len { OnOk result (into_iter_len left.new ≡ length (into_iter_items left.new)) }
{
    let mut group = Vec::with_capacity(alloc, count as usize)?;
    'takes: for _ in 0..count {
        let Some(item) = left.next() else {
            unreachable!()
        };
        group.push_reserved(item);
    }
    Ok(List::from_vec(group))
}
