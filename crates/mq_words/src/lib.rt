//! The arguments of the program: which are invalid, and what the others ask for.
#![tactic(auto)]

mod fault;
mod rule;
mod words;

pub use fault::{UsageFault, WordsFault};
pub use words::{Settings, Subject, settings_of};
