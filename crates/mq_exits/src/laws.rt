// The laws of runs that the result of a node rests on.
ghost use Rattle.mq_exits.specs.NodeLaws.{NodeLaws};

use mq_core::{
    nodes_are_sequences, orders_keep_items, outputs_have_streams, sequences_are_blind,
    sequences_go_by_fates, streams_make_outputs, streams_rise,
};

// The laws of runs that the result of a node rests on. It does nothing when it runs.
pub fn node_laws()
    ensures { NodeLaws }
{
    orders_keep_items();
    nodes_are_sequences();
    sequences_are_blind();
    sequences_go_by_fates();
    streams_rise();
    outputs_have_streams();
    streams_make_outputs();
}
