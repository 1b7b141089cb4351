//! Workers that draw the numbers of pieces and make the pieces.
#![tactic(auto)]

mod crew;
mod gate;
mod order;
mod parts;
mod pieces;
mod workers;

pub use crew::Crew;
pub use gate::{Gate, Open};
pub use order::{merged, placed};
pub use pieces::Pieces;
