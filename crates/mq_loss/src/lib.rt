//! The loss station: one server and a number of places; an arrival that finds them all taken is
//! lost. Rounds of guesses settle which arrivals are admitted (Greenberg, Lubachevsky and Mitrani
//! 1991): each round judges every arrival by the departures that a guess gives.
#![tactic(auto)]

mod judging;
mod laws;
mod whole;
mod windows;

pub use judging::judge;
pub use laws::{guessed_are_served, guesses_grow, one_guess_stays, rounds_judge_each};
pub use mq_rounds::Settled;
pub use whole::{round, settle_whole};
pub use windows::settle;
