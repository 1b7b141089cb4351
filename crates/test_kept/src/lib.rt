//! Tests of kept runs, by public calls.
#![tactic(auto)]

#[cfg(test)]
mod tests;
