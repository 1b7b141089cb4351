// The gate that a worker enters with each number that it took from the queue.
use std::marker::Sync;

/// What a worker enters after it has taken the number of a model from the queue and before it runs the model. A test can
/// hold or count the workers there. Workers and models count from 0.
pub trait SweepGate: Sync {
    /// Called before the model of this number is run.
    fn enter(&self, worker: u32, number: u32);
}

/// The gate that does nothing.
#[derive(Clone, Copy, Drop)]
pub struct SweepOpen;

impl SweepGate for SweepOpen {
    fn enter(&self, _worker: u32, _number: u32) {}
}
