//! Tests of edited traces, by public calls.
#![tactic(auto)]

#[cfg(test)]
mod tests;
