//! The trunk group: several servers and no place to wait; an arrival that finds all servers busy is
//! lost. Rounds of guesses settle which arrivals are admitted (Greenberg, Lubachevsky and Mitrani
//! 1991): each round judges every arrival by the departures that a guess gives.
//!
//! Only the latest departures are kept, one per server, the latest first. In a window, an arrival is
//! judged by one comparison with the earliest of them. The departure of an admitted one finds its
//! place by halving, and at most as many move as there are servers. A window judges no arrival after
//! the first that its round changes, so each arrival is judged once.
#![tactic(auto)]

mod answer;
mod judging;
mod laws;
mod settling;
mod whole;
mod windows;

pub use answer::Trunk;
pub use judging::judge_trunk;
pub use laws::{guesses_grow, one_guess_stays, rounds_judge_each};
pub use settling::{Parts, admit_trunk, settle_trunk, trunk_parts};
pub use whole::trunk_round;
