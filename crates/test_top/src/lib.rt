//! Tests of the call that the program makes, with failing devices and a
//! gate.
#![tactic(auto)]

#[cfg(test)]
mod tests;
