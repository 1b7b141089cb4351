//! What is kept of the stations of a wave: lists of their visits and of what leaves them, or the first visit that departs after the
//! bound.
#![tactic(auto)]

// A call of `drop` spares proof: it is proved once for a type, the end of a scope at each exit.

mod copies;
mod founds;
mod in_turn;
mod keeping;
mod laws;
mod load;
mod overtaking;
mod settling;
mod through;
mod turns;
mod working;

pub use keeping::{
    Emptied, End, Keep, Keeping, keeping_count, keeping_next, keeping_of, keeping_piece,
};
pub use load::{Held, Load, station_of};
pub use overtaking::Overtaken;
pub use turns::{Given, InTurn, ended_in, finished, with_ended};
pub use working::{After, Ending, NodeResult, nobody};
