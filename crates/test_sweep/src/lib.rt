//! Tests of the sweep, with worked cases, failing devices and a gate.
#![tactic(auto)]

#[cfg(test)]
mod tests;
