//! Tests of the stations and of what they are built on, through
//! public functions.
#![tactic(auto)]

#[cfg(test)]
mod tests;
