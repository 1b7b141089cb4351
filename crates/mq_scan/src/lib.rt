//! A prefix scan over jobs that act one after another, cut into blocks (Greenberg, Lubachevsky and
//! Mitrani, 1991).
#![tactic(auto)]

mod blocks;
mod by_blocks;
mod passes;
mod step;

pub use blocks::{Blocks, block_size, cut};
pub use by_blocks::{block_carries, block_summary, block_times, joined_times};
pub use passes::{apply, carries, scan, scan_times, summaries_act, summarise, times};
pub use step::{Step, Timed};
