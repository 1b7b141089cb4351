//! The number of first visits to a node that are the same in two runs, and the number of blocks after them that are
//! redone.
#![tactic(auto)]

mod comparing;
mod laws;

pub use comparing::alike;
pub use laws::{again_is_bounded, alike_is_first, sequences_stay};
