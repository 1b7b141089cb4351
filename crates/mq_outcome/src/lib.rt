//! How a run of the program ends: the outcome, its exit status and its error line.
#![tactic(auto)]

mod line;
mod outcome;

pub use line::{
    fault_name, name_of, node_name, put_line, put_model_line, put_numbered, put_over_line,
    put_past_line, put_pieces, put_text, put_trace_line,
};
pub use outcome::Outcome;
