// Puts pieces at their indices, given their numbers.
ghost use Rattle.std.specs.Prelude.{◌≡◌, ℕ, ◌<◌, length, map, All, Contains, IfOk, Some, slice_index_or, replicate, None, ◌++◌, IsOkAnd};

use mq_base::{List, OutOfMemory};
use std::alloc::Global;

// Indices that are still empty.
fn vacant<T: Drop>(alloc: Global, count: u32) -> Result<Vec<Option<T>>, OutOfMemory>
    ensures { IfOk result (λ v. v.items ≡ replicate count None) }
{
    let mut slots = Vec::new(alloc);
    'fills: for _ in 0..count {
        slots.push(None)?;
    }
    Ok(slots)
}

/// Returns both lists, one after the other. The only error, of either, is that memory ran out.
pub fn merged<T: Drop>(
    first: Result<Vec<T>, OutOfMemory>,
    second: Result<Vec<T>, OutOfMemory>,
) -> Result<Vec<T>, OutOfMemory>
    ensures { IfOk result (λ v. IsOkAnd first (λ a. IsOkAnd second (λ b. v.items ≡ a.items ++ b.items))) }
{
    let mut all = first?;
    let mut more = second?;
    all.append(&mut more)?;
    Ok(all)
}

/// Returns the items at the indices that their numbers give. The numbers must be exactly those
/// below `count`. The only error is that memory runs out.
pub fn placed<T: Drop>(
    alloc: Global,
    count: u32,
    mut made: Vec<(u32, T)>,
) -> Result<List<T>, OutOfMemory>
    requires each { (x : ℕ) → x < count → Contains (map (λ p. p.0) made.items) x }
    requires within { All (λ p. p.0 < count) made.items }
    ensures len { IfOk result (λ l. length l ≡ count) }
    ensures own { IfOk result (λ l. (x : ℕ) (d : T) → x < count → Contains made.items (x, slice_index_or l x d)) }
{
    let mut slots = vacant(alloc, count)?;
    'puts: while let Some((number, piece)) = made.pop() {
        slots[number as usize] = Some(piece);
    }
    let mut items = Vec::new(alloc);
    'takes: for i in 0..count {
        let Some(piece) = slots[i as usize].take() else {
            unreachable!()
        };
        items.push(piece)?;
    }
    Ok(List::from_vec(items))
}
