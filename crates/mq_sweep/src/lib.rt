//! Many models over one trace. Several workers take the models from a queue, and each model is run
//! by one worker.
#![tactic(auto)]

mod book;
mod crew;
mod entry;
mod gate;
mod outcome;
mod queue;
mod reading;
mod scenario;
mod text;
mod top;

pub use book::Book;
pub use crew::by_workers;
pub use entry::Entry;
pub use gate::{SweepGate, SweepOpen};
pub use outcome::SweepOutcome;
pub use queue::QueueSeat;
pub use top::sweep;
