//! The departures of a server in a single pass over blocks, by workers that publish their carries.
#![tactic(auto)]

// A call of `drop` before an exit shortens the proof: the call is proved once per type, but the end of a scope is proved again at each exit.

mod block;
mod crew;
mod jobs;
mod left;
mod pass;
mod rest;

pub use pass::chain_departures;
