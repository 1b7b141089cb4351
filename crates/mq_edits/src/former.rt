// The rows from the first that edits set on, as they were before.
ghost use Rattle.std.specs.Prelude.{◌≡◌};
ghost use Rattle.std.specs.List.{AllZip};
ghost use Rattle.mq_edits.specs.Former.{HasRoom, IsFormerOf, columns_before, first_set, rows_before};

use crate::edit::Edit;
use mq_base::List;
use mq_core::Rows;
use std::alloc::Global;
use std::mem::replace;

/// The rows from one on, as they were before edits that set no earlier row.
#[derive(Drop)]
pub struct FormerRows {
    /// The first of these rows, from 0.
    pub from: u32,
    /// This row and all after it.
    pub rows: Rows,
}

impl FormerRows {
    /// Restores the rows of before the edits from those after them. Takes no memory.
    pub fn put_back(&self, alloc: Global, rows: &mut Rows)
        requires { IsFormerOf self.now rows.old }
        ensures { rows.new ≡ rows_before self.now rows.old }
    {
        let from = self.from as usize;
        rows.source.put_back(from, self.rows.source.as_slice());
        rows.time.put_back(from, self.rows.time.as_slice());
        let mut columns = replace(&mut rows.demands, List::new(alloc)).into_vec();
        put_columns_back(&mut columns, &self.rows.demands, from);
        drop(replace(&mut rows.demands, List::from_vec(columns)));
    }
}

// Replaces each column from an index on by its former values.
fn put_columns_back(columns: &mut Vec<List<u64>>, former: &List<List<u64>>, from: usize)
    requires { AllZip (HasRoom from) former.now columns.old.items }
    ensures { columns.new.items ≡ columns_before from former.now columns.old.items }
{
    for at in 0..former.len() {
        columns[at].put_back(from, former.get(at).as_slice());
    }
}

/// Returns the first row that edits set, if it is below `rows`, and `rows` otherwise.
pub fn first_set(rows: u32, edits: &[Edit]) -> u32
    ensures { result ≡ first_set rows edits.now }
{
    let mut first = rows;
    for edit in edits {
        if let Edit::Set { row, .. } = edit {
            first = first.min(*row);
        }
    }
    first
}
