//! The numbers of a run, computed from its sequences: what each visit found, the totals of a node,
//! what leaves by an output, and the span.
#![tactic(auto)]

mod bare;
mod blocks;
mod exits;
mod in_order;
mod in_turn;
mod laws;
mod occupancy;
mod passed;
mod peaks;
mod pieces;
mod spans;
mod tails;
mod tallies;
mod wait_counts;
mod waits;

pub use blocks::{BlockCount, blocks_added, count_block};
pub use exits::{Exit, columns_between, exits_added, exits_join, leaving, leaving_between};
pub use in_turn::{count_in_turn, tail_in_turn, waits_in_turn};
pub use laws::{lasts_are_greatest, runs_give_streams, runs_give_visits, runs_have_few_visits};
pub use occupancy::found;
pub use pieces::{
    AheadTable, ahead, ahead_of, ahead_of_departures, found_piece, found_piece_in_order,
};
pub use spans::{last, last_at, span};
pub use tails::{Percentiles, tail, tail_below};
pub use tallies::{NodeTotals, totals};
pub use wait_counts::{
    WaitCounts, count_between, counted_percentiles, counts_added, no_counts, waits_join,
};
pub use waits::wait_of;
