//! Reads a trace: comma-separated records, of which the first names the columns and each further one is a job.
#![tactic(auto)]

// A call of `drop` before an exit shortens the proof: the call is proved once per type, but the end of a scope is proved again at each exit.

mod each;
mod ends;
mod fault;
mod growing;
mod header;
mod join;
mod laws;
mod lists;
mod piece;
mod pieces;
mod plain;
mod plain_rows;
mod plain_source;
mod quotes;
mod read;
mod records;
mod row;
mod rows;

pub use fault::TraceFault;
pub use laws::traces_are_read;
pub use read::{read_trace, take_trace};
pub use row::find_source;
