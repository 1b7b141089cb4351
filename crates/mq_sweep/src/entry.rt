// The result of running one model.
use mq_base::List;

/// The result of running one model.
#[derive(Drop)]
pub struct Entry {
    /// The number of the model among those of the sweep, from 0.
    pub number: u32,
    /// The text of the model.
    pub model: List<u8>,
    /// The exit status of the run.
    pub status: u8,
    /// What the run wrote to its output, followed by its error line.
    pub text: List<u8>,
}
