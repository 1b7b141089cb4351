//! Rounds of guesses (Greenberg, Lubachevsky and Mitrani 1991), which find the arrivals that a
//! station admits if it judges each by the departures of those admitted before it. A run of rounds
//! settles the arrivals window by window.
#![tactic(auto)]

mod judge;
mod settled;
mod windows;

pub use judge::Judge;
pub use settled::Settled;
pub use windows::settle_windows;
