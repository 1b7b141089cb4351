//! Edits of a trace: their text, and the rows that they make from those of the trace.
#![tactic(auto)]

// A call of `drop` that releases what is left makes proofs cheaper: a call is proved once per type, the end of a scope
// again at each exit.

mod edit;
mod fault;
mod former;
mod laws;
mod line;
mod read;
mod rows;

pub use edit::Edit;
pub use fault::EditFault;
pub use former::FormerRows;
pub use laws::{edited_rows_are_read, edits_are_answered};
pub use read::read_edits;
pub use rows::{edit_rows, edited};
