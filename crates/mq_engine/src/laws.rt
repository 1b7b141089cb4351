// The laws of runs that the engine rests on.
ghost use Rattle.mq_engine.specs.CoreLaws.{CoreLaws};

use mq_core::{
    arrivals_are_streams, jobs_are_rows, nodes_are_in_limits, nodes_are_sequences, orders_rank,
    outputs_have_streams, refusal_is_first, refusal_is_none, rows_tell_demands,
    sequences_are_blind, sequences_make_runs, streams_make_outputs, streams_rise,
};
use mq_join::gathered_came;
use mq_stats::runs_give_streams;

/// The laws of runs that the engine rests on. It does nothing when it runs.
pub fn core_laws()
    ensures { CoreLaws }
{
    nodes_are_in_limits();
    orders_rank();
    rows_tell_demands();
    arrivals_are_streams();
    jobs_are_rows();
    nodes_are_sequences();
    sequences_are_blind();
    streams_rise();
    outputs_have_streams();
    streams_make_outputs();
    sequences_make_runs();
    refusal_is_first();
    refusal_is_none();
    gathered_came();
    runs_give_streams();
}
