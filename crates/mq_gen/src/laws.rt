// What holds for made inputs.
ghost use Rattle.mq_gen.specs.Accepted.{MadeInputsAreAccepted};

use mq_core::{departures_are_bounded, first_version_copies_nothing};
use mq_graph::cycles_are_left;
use mq_model::printed_models_are_read;
use mq_trace::traces_are_read;

/// Proves that the model and the trace of each number are valid, and that their run
/// isn't refused.
pub fn made_inputs_are_accepted()
    ensures { MadeInputsAreAccepted }
{
    cycles_are_left();
    printed_models_are_read();
    traces_are_read();
    first_version_copies_nothing();
    departures_are_bounded();
}
