// A law for callers that compute networks.
ghost use Rattle.mq_join.specs.Gathers.{GatheredCame};

/// Law: if the gathered items are the arrivals of visits, they are what came to the node of these
/// visits. It does nothing when it runs.
pub fn gathered_came()
    ensures { GatheredCame }
{}
