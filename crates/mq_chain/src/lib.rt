//! A table of carries: whoever draws a block stores its carry.
#![tactic(auto)]

mod chain;
mod laws;
mod view;

pub use chain::{Chain, ChainSeat};
pub use laws::{carries_are_folded, words_stay};
