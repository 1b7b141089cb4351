//! The numbers of the nodes of a run, computed by workers from pieces of their visits.
#![tactic(auto)]

// Calls of `drop` spare proof: a call is proved once for a type, but what the end of a scope drops is proved again at each exit.

mod counts;
mod later;
mod leaving;
mod runs;
mod seen;
mod tail_pieces;
mod tails;
mod totals;

pub use counts::{Counts, NodeCount, NodeSequences, counted, counts_of, is_read};
pub use runs::{counts_of_run, totals_at};
pub use seen::{SeenStreams, SeenVisits};
