use mq_base::List;
use mq_core::Stream;

/// The outcome of the arrivals at a trunk group.
#[derive(Drop)]
pub struct Trunk {
    /// Whether each arrival is admitted, by position.
    pub admitted: List<bool>,
    /// The departures of the admitted arrivals, in ticks, by position.
    pub departs: List<u64>,
    /// The admitted jobs, as they leave by output 0: by departure, those with the same departure by
    /// position.
    pub leaving: Stream,
    /// The lost jobs, as they leave by output 1: in order of arrival.
    pub lost: Stream,
    /// The number of rounds.
    pub rounds: u32,
    /// The sum of the lengths of the windows of these rounds.
    pub judged: u64,
}
