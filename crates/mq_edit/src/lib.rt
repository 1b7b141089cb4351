//! Traces that are edited: the text of edits, the rows that they make, a run that is kept while its rows are edited, and
//! the call of the program `mpedit`.
//!
//! A plan, its rows and a run that is kept with them, for 4 workers and blocks of 64 jobs; then another job is added:
//!
//! ```
//! let plan = read_model(alloc, model)?;
//! let rows = read_trace(rt, alloc, 4, trace, &plan.net)?;
//! let mut kept = Kept::start(rt, alloc, &plan, rows, 4, 64)?;
//! let edits = read_edits(alloc, b"add src 3 2\n", &plan.net, kept.rows().source.len() as u32)?;
//! let Redone { again, all } = kept.edit(rt, alloc, &edits, steps)?;
//! ```
//!
//! `steps` is a counter, `&mut Steps<L>`. The example is a test in `test_edits`, where `edit_with` of
//! `src/tests/library.rt` makes the counter.
//!
//! - `read_edits` reads a text of edits for a network and a number of rows, or fails with its first fault (`EditFault`);
//!   `edited` returns the rows that a list of `Edit` makes.
//! - `Kept` is a run that is kept with its rows. After `edit`, its rows are those that `edited` returns, and its run is
//!   that of a whole run over them; `rows` and `run` return them. If the run over the edited rows is refused
//!   (`RunFault`), rows and run are as before. `Redone` has the number of blocks from the first difference on, and of all
//!   blocks.
//! - `redo_block` computes one block of a scan again, and counts one step.
//! - `edit_trace` is everything that the program does: it takes the names of three files, writes a report and an error
//!   line, and returns an `EditOutcome`, which has a status.
#![tactic(auto)]

// A call of `drop` that releases what is left makes proofs cheaper: a call is proved once per type, the end of a scope
// again at each exit.

mod files;
mod line;
mod outcome;
mod stages;
mod words;
mod write;

// The faults of an outcome, so that a caller can match on them without the crates that find them.
pub use mq_core::{OverFault, PastFault};
pub use mq_edits::{Edit, EditFault, edited, read_edits};
pub use mq_kept::{Kept, Redone, RunFault, redo_block};
pub use mq_model::ModelFault;
pub use mq_trace::TraceFault;
pub use outcome::EditOutcome;
pub use stages::edit_trace;
