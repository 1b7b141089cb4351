// An edit of the rows of a trace.
ghost use Rattle.std.specs.Prelude.{◌≡◌, ◌≤◌, length};
ghost use Rattle.mq_edits.specs.Edited.{number_of, source_of, values_of};

use mq_base::List;

/// The most data records that a trace may have.
pub const MOST_ROWS: u32 = 1_048_576;

/// An edit of the rows of a trace; each row is a data record.
#[derive(Drop)]
pub enum Edit {
    /// Replaces an existing row, from 0, by one with this source node and this time, in ticks, and with these values,
    /// one for each column of the model, in order.
    Set {
        row: u32,
        source: u32,
        time: u64,
        values: List<u64>,
    },
    /// Appends a row with this source node and this time, in ticks, and with these values, one for each column of the
    /// model, in order.
    Add {
        source: u32,
        time: u64,
        values: List<u64>,
    },
}

/// Returns the source node of the row that an edit gives.
pub fn source_of(edit: &Edit) -> u32
    ensures { result ≡ source_of edit.now }
{
    match edit {
        Edit::Set { source, .. } | Edit::Add { source, .. } => *source,
    }
}

/// Returns a number of the row that an edit gives: at place 0 its time, in ticks, and after that its value in each
/// column.
pub fn number_of(edit: &Edit, place: usize) -> u64
    requires { place ≤ length (values_of edit.now) }
    ensures { result ≡ number_of place edit.now }
{
    match edit {
        Edit::Set { time, values, .. } | Edit::Add { time, values, .. } => {
            if place == 0 {
                *time
            } else {
                *values.get(place - 1)
            }
        }
    }
}
