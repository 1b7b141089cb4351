//! The demands of jobs, read directly from a column of the rows if possible.
#![tactic(auto)]

mod asked;
mod demands;

pub use asked::{Asked, all_asked_of, asked_of, branches_asked_of};
pub use demands::{demands_in, demands_of};
