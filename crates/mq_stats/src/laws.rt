// That the sequences of a run meet what the functions of this crate require.
ghost use Rattle.mq_stats.specs.Lasts.{LastsAreGreatest};
ghost use Rattle.mq_stats.specs.RunNumbers.{RunsGiveStreams, RunsGiveVisits, RunsHaveFewVisits};

use mq_core::{
    departs_in_time, first_version_copies_nothing, jobs_are_rows, nodes_are_in_limits,
    nodes_are_sequences, orders_keep_items, outputs_have_streams, rows_tell_demands,
    sequences_go_by_fates, streams_rise, visits_are_few,
};

/// Proves that no node has more than 1,048,576 visits in a run that isn't refused, or in a run of a
/// version 1 model.
pub fn runs_have_few_visits()
    ensures { RunsHaveFewVisits }
{
    first_version_copies_nothing();
    visits_are_few();
}

/// Proves that the visits of each node of a run meet what `totals` requires, if they are at most
/// 1,048,576.
pub fn runs_give_visits()
    ensures { RunsGiveVisits }
{
    departs_in_time();
    jobs_are_rows();
    nodes_are_in_limits();
    rows_tell_demands();
}

/// Proves that what leaves each node of a run by each output meets what `leaving` requires, if the node
/// has at most 1,048,576 visits.
pub fn runs_give_streams()
    ensures { RunsGiveStreams }
{
    sequences_go_by_fates();
    departs_in_time();
    jobs_are_rows();
    nodes_are_sequences();
    orders_keep_items();
    streams_rise();
}

/// Proves that the greatest time of a visit at each node of a run is that of the node's last event.
pub fn lasts_are_greatest()
    ensures { LastsAreGreatest }
{
    sequences_go_by_fates();
    departs_in_time();
    nodes_are_sequences();
    orders_keep_items();
    streams_rise();
    outputs_have_streams();
}
