//! Forks and joins of a network: the copies of a stream, and the matches of what comes by several ports.
#![tactic(auto)]

// A call of `drop` before an exit shortens the proof: the call is proved once per type, but the end of a scope is proved again at each exit.

mod copies;
mod gathered;
mod laws;
mod matches;
mod order;
mod visits;

pub use copies::fork_copies;
pub use gathered::Gathered;
pub use laws::gathered_came;
pub use visits::{Joined, join_visits};
