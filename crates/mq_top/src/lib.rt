//! What `mpsim` calls: it reads the arguments and the files, runs the network, and writes the report.
#![tactic(auto)]

// Calls of `drop` spare proof: a call is proved once for a type, but what the end of a scope drops is proved again at each exit.

mod stages;

pub use mq_outcome::Outcome;
// Code that matches on an outcome names this fault here, and needs no dependency on `mq_words`.
pub use mq_words::UsageFault;
pub use stages::{simulate, simulate_bytes, simulate_gated};
