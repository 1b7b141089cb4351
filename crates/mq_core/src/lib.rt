//! The types of models and runs, and the event list that defines what a run is.
#![tactic(auto)]

mod demands;
mod fate_lists;
mod handlers;
mod kinds;
mod laws;
mod model;
mod refusals;

pub use demands::{bare_of, demand_of, demand_of_branches};
pub use fate_lists::{FateSlice, Fates};
pub use handlers::{Handlers, Standard};
pub use kinds::{is_source, outputs_of, outputs_of_route, servers_of};
pub use laws::{
    areas_are_sojourns, arrivals_are_read, arrivals_are_streams, busy_is_services, departs_in_time,
    departures_are_bounded, events_go_forward, exits_are_streams, fates_are_in_time,
    first_version_copies_nothing, founds_are_counts, held_are_entries, jobs_are_rows,
    nodes_are_in_limits, nodes_are_sequences, nodes_flow, nodes_flow_alone, nodes_run_alone,
    orders_keep_items, orders_rank, outputs_have_streams, refusal_is_first, refusal_is_none,
    rows_tell_demands, runs_are_of_networks, runs_have_sequences, sequences_are_blind,
    sequences_go_by_fates, sequences_make_runs, span_is_latest, span_is_sequences,
    streams_make_outputs, streams_rise, the_run_ends, totals_are_sequences, visits_are_arrivals,
    visits_are_few, visits_stay_their_bare_time,
};
pub use model::{
    Demand, Fate, Input, Kind, Network, Node, Plan, Route, Rows, Run, Stage, Stream, Visits,
};
pub use refusals::{OverFault, PastFault};
