//! The report of a run.
#![tactic(auto)]

// Calls of `drop` spare proof: a call is proved once for a type, but what the end of a scope drops is proved again at each exit.

mod jobs;
mod line;
mod lines;
mod sections;
mod tails;

pub use sections::report;
