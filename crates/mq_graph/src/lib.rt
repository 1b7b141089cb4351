//! The nodes of a network by rank.
#![tactic(auto)]

mod laws;
mod order;

pub use laws::cycles_are_left;
pub use order::{RankFault, rank};
