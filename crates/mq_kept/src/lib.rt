//! A run that is kept with its rows, so that edits of the rows redo only what they can change.
#![tactic(auto)]

mod again;
mod checkpoints;
mod former;
mod in_turn;
mod kept;
mod nodes;
mod source_runs;
mod sources;
mod stations;
mod tail_runs;
mod tails;

pub use again::Redone;
pub use kept::Kept;
pub use mq_engine::RunFault;
pub use mq_redo::redo_block;
