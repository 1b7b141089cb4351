// Rows that grow, one job at a time.

ghost use Rattle.std.specs.Prelude.{◌≡◌, ◌+◌, ◌<◌, ◌∷◌, ◌++◌, [], ℕ, length, map, get_or, IfOk, OnOk};
ghost use Rattle.mq_trace.specs.Reading.{Pushes};

use mq_base::{List, OutOfMemory};
use mq_core::Rows;
use std::alloc::Global;

/// The rows of the jobs so far, with a list for each column.
#[derive(Drop)]
pub struct GrowingRows {
    pub source: List<u32>,
    pub time: List<u64>,
    pub demands: Vec<List<u64>>,
}

// Empty lists with room for `room` values, one for each column.
fn empty_lists(
    alloc: Global,
    columns: &[List<u8>],
    room: usize,
) -> Result<Vec<List<u64>>, OutOfMemory>
    ensures { IfOk result (λ v. v.items ≡ map (λ _. []) columns.now) }
{
    let mut lists = Vec::new(alloc);
    for _ in columns {
        lists.push(List::from_vec(Vec::with_capacity(alloc, room)?))?;
    }
    Ok(lists)
}

// Each list gets the value at its index.
fn push_values(
    lists: &mut [List<u64>],
    indices: &[usize],
    values: &[u64],
) -> Result<(), OutOfMemory>
    requires same { length lists.old ≡ length indices.now }
    requires indices { (k : ℕ) → k < length indices.now → get_or indices.now k 0 < length values.now }
    ensures { OnOk result (Pushes lists.old lists.new indices.now values.now) }
{
    for (k, index) in indices.iter().enumerate() {
        let list = &mut lists[k];
        list.push(values[*index])?;
    }
    Ok(())
}

impl GrowingRows {
    /// Returns no rows, with room for `room` of them.
    pub fn new(alloc: Global, columns: &[List<u8>], room: usize) -> Result<Self, OutOfMemory>
        ensures source { IfOk result (λ rows. rows.source ≡ []) }
        ensures time { IfOk result (λ rows. rows.time ≡ []) }
        ensures demands { IfOk result (λ rows. rows.demands.items ≡ map (λ _. []) columns.now) }
    {
        let source = List::from_vec(Vec::with_capacity(alloc, room)?);
        let time = List::from_vec(Vec::with_capacity(alloc, room)?);
        let demands = empty_lists(alloc, columns, room)?;
        Ok(GrowingRows {
            source,
            time,
            demands,
        })
    }

    /// Adds a row: its source node, its time, and for each column the value at its index.
    pub fn push(
        &mut self,
        node: u32,
        time: u64,
        indices: &[usize],
        values: &[u64],
    ) -> Result<(), OutOfMemory>
        requires same { length self.old.demands.items ≡ length indices.now }
        requires indices { (k : ℕ) → k < length indices.now → get_or indices.now k 0 < length values.now }
        ensures source { OnOk result (self.new.source ≡ self.old.source ++ node ∷ []) }
        ensures time { OnOk result (self.new.time ≡ self.old.time ++ time ∷ []) }
        ensures demands { OnOk result (Pushes self.old.demands.items self.new.demands.items indices.now values.now) }
    {
        self.source.push(node)?;
        self.time.push(time)?;
        push_values(self.demands.as_mut_slice(), indices, values)
    }

    /// Returns the rows, without taking memory.
    pub fn into_rows(self) -> Rows
        ensures { result ≡ record { source = self.source; time = self.time; demands = self.demands.items } }
    {
        Rows {
            source: self.source,
            time: self.time,
            demands: List::from_vec(self.demands),
        }
    }
}
