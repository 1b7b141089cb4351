// The rows that edits make from those of a trace.
ghost use Rattle.std.specs.Prelude.{◌≡◌, ◌≤◌, ℕ, IfOk, List as Items, OnErr, OnOk, Some, drop as behind, length, map, slice_get};
ghost use Rattle.std.specs.List.{AllZip};
ghost use Rattle.mq_core.specs.Theorems.{IsReadFor};
ghost use Rattle.mq_core.specs.declared.model.Network.{Network};
ghost use Rattle.mq_edits.specs.Edited.{AreEditsFor, HaveNumbers, edited_columns, edited_list, edited_rows, number_of, source_of};
ghost use Rattle.mq_edits.specs.Former.{CanEdit, IsFormerOf, StaysUpTo, first_set, rows_before};

use crate::edit::{Edit, MOST_ROWS, number_of, source_of};
use crate::former::{FormerRows, first_set};
use mq_base::{List, OutOfMemory};
use mq_core::Rows;
use std::alloc::Global;
use std::mem::replace;

// Returns a list of these items, with room for those that `edits` edits may add.
fn copied<T: Copy + Drop>(alloc: Global, items: &[T], edits: usize) -> Result<Vec<T>, OutOfMemory>
    requires { length items.now ≤ 1048576 }
    ensures { IfOk result (λ v. v.items ≡ items.now) }
{
    let room = items.len() + edits.min(MOST_ROWS as usize - items.len());
    let mut copy = Vec::with_capacity(alloc, room)?;
    copy.extend_from_slice(items)?;
    Ok(copy)
}

// Returns the columns from a row on, with room for what `edits` edits may add.
fn copied_columns(
    alloc: Global,
    columns: &[List<u64>],
    from: usize,
    edits: usize,
) -> Result<List<List<u64>>, OutOfMemory>
    requires { (k : ℕ) (column : Items ℕ) → slice_get columns.now k ≡ Some column → (from ≤ length column) × (length column ≤ 1048576) }
    ensures { IfOk result (λ lists. lists ≡ map (behind from) columns.now) }
{
    let mut lists = Vec::with_capacity(alloc, columns.len())?;
    for column in columns {
        lists.push(List::from_vec(copied(alloc, &column.as_slice()[from..], edits)?))?;
    }
    Ok(List::from_vec(lists))
}

// Returns the rows from one on, with room for those that `edits` edits may add.
fn copied_rows(alloc: Global, rows: &Rows, from: usize, edits: usize) -> Result<Rows, OutOfMemory>
    requires read { (net : Network) × IsReadFor net rows.now }
    requires inside { from ≤ length rows.now.source }
    ensures source { IfOk result (λ copy. copy.source ≡ behind from rows.now.source) }
    ensures time { IfOk result (λ copy. copy.time ≡ behind from rows.now.time) }
    ensures demands { IfOk result (λ copy. copy.demands ≡ map (behind from) rows.now.demands) }
{
    let source = copied(alloc, &rows.source.as_slice()[from..], edits)?;
    let time = copied(alloc, &rows.time.as_slice()[from..], edits)?;
    let demands = copied_columns(alloc, rows.demands.as_slice(), from, edits)?;
    Ok(Rows {
        source: List::from_vec(source),
        time: List::from_vec(time),
        demands,
    })
}

// Makes edits in the sources of rows. `former` has the sources from the row `from` on; no edit sets an earlier row.
fn edit_sources(
    alloc: Global,
    sources: &mut List<u32>,
    former: &[u32],
    edits: &[Edit],
    from: u32,
) -> Result<(), OutOfMemory>
    requires can { CanEdit from edits.now sources.old }
    requires former { former.now ≡ behind from sources.old }
    ensures ok { OnOk result (sources.new ≡ edited_list source_of sources.old edits.now) }
    ensures stays { StaysUpTo from sources.old sources.new }
{
    let mut list = copied(alloc, former, edits.len())?;
    for edit in edits {
        let source = source_of(edit);
        match edit {
            Edit::Set { row, .. } => list[(*row - from) as usize] = source,
            Edit::Add { .. } => list.push(source)?,
        }
    }
    sources.replace_from(from as usize, list.as_slice())
}

// Makes edits in the times of rows, for place 0, or else in the values of the column at that place. `former` has those
// from the row `from` on; no edit sets an earlier row.
fn edit_numbers(
    alloc: Global,
    numbers: &mut List<u64>,
    former: &[u64],
    edits: &[Edit],
    from: u32,
    place: usize,
) -> Result<(), OutOfMemory>
    requires can { CanEdit from edits.now numbers.old }
    requires former { former.now ≡ behind from numbers.old }
    requires numbers { HaveNumbers place edits.now }
    ensures ok { OnOk result (numbers.new ≡ edited_list (number_of place) numbers.old edits.now) }
    ensures stays { StaysUpTo from numbers.old numbers.new }
{
    let mut list = copied(alloc, former, edits.len())?;
    for edit in edits {
        let number = number_of(edit, place);
        match edit {
            Edit::Set { row, .. } => list[(*row - from) as usize] = number,
            Edit::Add { .. } => list.push(number)?,
        }
    }
    numbers.replace_from(from as usize, list.as_slice())
}

// Makes edits in the columns of rows. `former` has the values from the row `from` on; no edit sets an earlier row.
fn edit_columns(
    alloc: Global,
    columns: &mut Vec<List<u64>>,
    former: &List<List<u64>>,
    edits: &[Edit],
    from: u32,
) -> Result<(), OutOfMemory>
    requires can { (k : ℕ) (column : Items ℕ) → slice_get columns.old.items k ≡ Some column → CanEdit from edits.now column }
    requires former { former.now ≡ map (behind from) columns.old.items }
    requires numbers { HaveNumbers (length columns.old.items) edits.now }
    ensures ok { OnOk result (columns.new.items ≡ edited_columns 1 columns.old.items edits.now) }
    ensures stays { AllZip (StaysUpTo from) columns.old.items columns.new.items }
{
    for at in 0..columns.len() {
        edit_numbers(
            alloc,
            &mut columns[at],
            former.get(at).as_slice(),
            edits,
            from,
            at + 1,
        )?;
    }
    Ok(())
}

// Makes edits in the lists of rows, one list after another. If memory runs out, some lists are edited.
fn edit_lists(
    alloc: Global,
    rows: &mut Rows,
    former: &FormerRows,
    edits: &[Edit],
) -> Result<(), OutOfMemory>
    requires read { (net : Network) × IsReadFor net rows.old × AreEditsFor net (length rows.old.source) edits.now }
    requires first { former.now.from ≤ first_set (length rows.old.source) edits.now }
    requires source { former.now.rows.source ≡ behind former.now.from rows.old.source }
    requires time { former.now.rows.time ≡ behind former.now.from rows.old.time }
    requires demands { former.now.rows.demands ≡ map (behind former.now.from) rows.old.demands }
    ensures ok { OnOk result (rows.new ≡ edited_rows rows.old edits.now) }
    ensures fits { IsFormerOf former.now rows.new }
    ensures before { rows_before former.now rows.new ≡ rows.old }
{
    let FormerRows { from, rows: were } = former;
    edit_sources(
        alloc,
        &mut rows.source,
        were.source.as_slice(),
        edits,
        *from,
    )?;
    edit_numbers(alloc, &mut rows.time, were.time.as_slice(), edits, *from, 0)?;
    let mut columns = replace(&mut rows.demands, List::new(alloc)).into_vec();
    let done = edit_columns(alloc, &mut columns, &were.demands, edits, *from);
    drop(replace(&mut rows.demands, List::from_vec(columns)));
    done
}

/// Makes edits in the rows of a trace, one edit after another, and returns the former rows from the first one that an
/// edit sets on; earlier rows aren't visited. The rows are read for a network, and the edits for that network and those
/// rows; so the edited rows are read for that network too. Fails only if memory runs out, and then the rows are as
/// before.
pub fn edit_rows(
    alloc: Global,
    rows: &mut Rows,
    edits: &List<Edit>,
) -> Result<FormerRows, OutOfMemory>
    requires { (net : Network) × IsReadFor net rows.old × AreEditsFor net (length rows.old.source) edits.now }
    ensures exact { OnOk result (rows.new ≡ edited_rows rows.old edits.now) }
    ensures read { (net : Network) → IsReadFor net rows.old → AreEditsFor net (length rows.old.source) edits.now → OnOk result (IsReadFor net rows.new) }
    ensures fits { IfOk result (λ former. IsFormerOf former rows.new) }
    ensures before { IfOk result (λ former. rows_before former rows.new ≡ rows.old) }
    ensures first { IfOk result (λ former. former.from ≡ first_set (length rows.old.source) edits.now) }
    ensures err { OnErr result (rows.new ≡ rows.old) }
{
    let edits = edits.as_slice();
    let from = first_set(rows.source.len() as u32, edits);
    let former = FormerRows {
        from,
        rows: copied_rows(alloc, rows, from as usize, 0)?,
    };
    match edit_lists(alloc, rows, &former, edits) {
        Ok(()) => Ok(former),
        Err(fault) => {
            former.put_back(alloc, rows);
            drop(former);
            Err(fault)
        }
    }
}

/// Returns the rows that edits make from those of a trace, one edit after another. The rows are read for a network, and
/// the edits for that network and those rows; so the rows returned are read for that network too. Fails only if memory
/// runs out.
pub fn edited(alloc: Global, rows: &Rows, edits: &List<Edit>) -> Result<Rows, OutOfMemory>
    requires { (net : Network) × IsReadFor net rows.now × AreEditsFor net (length rows.now.source) edits.now }
    ensures exact { IfOk result (λ new. new ≡ edited_rows rows.now edits.now) }
    ensures read { (net : Network) → IsReadFor net rows.now → AreEditsFor net (length rows.now.source) edits.now → IfOk result (λ new. IsReadFor net new) }
{
    let mut copy = copied_rows(alloc, rows, 0, edits.len())?;
    match edit_rows(alloc, &mut copy, edits) {
        Ok(former) => {
            drop(former);
            Ok(copy)
        }
        Err(fault) => {
            drop(copy);
            Err(fault)
        }
    }
}
