//! Tests of what workers share and of the numbers of a run, through public
//! functions.
#![tactic(auto)]

#[cfg(test)]
mod tests;
