// Each module has the tests of one crate.
mod chain;
mod claims;
mod crew;
mod fates;
mod graph;
mod meeting;
mod pass;
mod stats;
mod tails;
mod totals;
