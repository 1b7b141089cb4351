//! What leaves a station, given its arrivals: the parts of it that several crates need. `mq_kinds` has the kinds themselves.
#![tactic(auto)]

// Where a call of `drop` lets go of what is left, that spares proof: a call is proved once for a type, the end of a scope anew at each exit.

mod forkjoin;
mod late;
mod loss;
mod settled;
mod split;
mod streams;
mod tandem;
mod trunk;

pub use forkjoin::branch_demands;
pub use late::{first_late, first_late_in_turn, first_late_overtaken};
pub use settled::{fates_by_admission, settled_streams};
pub use split::values_of;
pub use streams::only;
pub use tandem::{stage_demands, stage_places};
