//! The blocks of a station that are redone, after those of a kept run that stay.
#![tactic(auto)]

mod behind;
mod blocks;
mod counts;
mod delays;
mod departures;
mod forkjoins;
mod laws;
mod servers;
mod splits;
mod tandems;

pub use blocks::{Done, redo_block, redone_behind};
pub use counts::{blocks_hold, counted};
pub use delays::delayed_again;
pub use departures::{all_carries, all_departures};
pub use forkjoins::branched_behind;
pub use servers::served_behind;
pub use splits::{Rerouted, routed_again};
pub use tandems::staged_behind;
