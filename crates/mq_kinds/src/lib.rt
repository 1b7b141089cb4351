//! The kinds of station in steps, and the table of them.
#![tactic(auto)]

mod branches;
mod delay;
mod fork;
mod forkjoin;
mod loss;
mod pieces;
mod server;
mod source;
mod split;
mod table;
mod tandem;
mod trunk;

pub use branches::Passage;
pub use delay::delay_left;
pub use forkjoin::ForkJoin;
pub use pieces::{
    Content, Faring, Left, Load, Piece, all_contents, grouped, last_content, only_content,
};
pub use split::Split;
pub use table::{Serving, serving_count, serving_next, serving_of, serving_piece, station_whole};
pub use tandem::Tandem;
