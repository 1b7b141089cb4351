//! Tests of the canonical text of a model, which callers get, and of what it is built on: lists, lines, files and sinks.
#![tactic(auto)]

#[cfg(test)]
mod tests;
