//! Models as text: the grammar, the first error in a text, and the network that it declares.
#![tactic(auto)]

// A call of `drop` before an exit shortens the proof: the call is proved once per type, but the end of a scope is proved again at each exit.

mod fault;
mod front;
mod inputs;
mod laws;
mod line;
mod network;
mod parts;
mod print;
mod read;
mod route;
mod said;
mod station;
mod text;
mod word;

pub use fault::ModelFault;
pub use front::split_words;
pub use laws::{examples_are_answered, first_bad_word, printed_models_are_read};
pub use print::print_model;
pub use read::{read_model, without_mark};
