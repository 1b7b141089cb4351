use mq_base::List;

/// The outcome of the arrivals at a station that admits or loses each.
#[derive(Drop)]
pub struct Settled {
    /// Whether each arrival is admitted, by position.
    pub admitted: List<bool>,
    /// The departures of the admitted arrivals, in ticks, by position.
    pub departs: List<u64>,
    /// The number of rounds.
    pub rounds: u32,
    /// The number of judgements: the sum of the numbers of arrivals in these rounds.
    pub judged: u64,
}
