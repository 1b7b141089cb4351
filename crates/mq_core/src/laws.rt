// The laws of runs. Each is a call whose contract states it.
ghost use Rattle.mq_core.specs.Theorems.{EventsGoForward, ArrivalsAreRead, NodesRunAlone, VisitsAreArrivals};
ghost use Rattle.mq_core.specs.NetworkRun.{RunsAreOfNetworks};
ghost use Rattle.mq_core.specs.PlanLaws.{NodesAreInLimits, OrdersRank, RowsTellDemands};
ghost use Rattle.mq_core.specs.Alone.{NodesFareAlone, NodesFlowAlone};
ghost use Rattle.mq_core.specs.Bounded.{DeparturesAreBounded};
ghost use Rattle.mq_core.specs.Fates.{AreasAreSojourns, BusyIsServices, FoundsAreCounts, HeldAreEntries, RunEnds, SpanIsLatest};
ghost use Rattle.mq_core.specs.SequenceLaws.{ArrivalsAreStreams, SequencesAreBlind, SequencesGoByFates, DepartsInTime, FatesAreInTime, JobsAreRows, FirstVersionCopiesNothing, NodesAreSequences, NodesFlow, OrdersKeepItems, StreamsRise, VisitsAreFew, VisitsStayBareTime};
ghost use Rattle.mq_core.specs.NumberLaws.{ExitsAreStreams, RefusalIsFirst, RefusalIsNone, SpanIsSequences, TotalsAreSequences};
ghost use Rattle.mq_core.specs.Matched.{DepartsAsTakenOut, VisitsFareByMatch};
ghost use Rattle.mq_core.specs.RowLaws.{NoneBeforeItsRow};
ghost use Rattle.mq_core.specs.RunLaws.{SequencesMakeRuns, OutputsHaveStreams, RunsHaveSequences, StreamsMakeOutputs};

use crate::handlers::Handlers;

/// Law. Events are handled in order of time, and events at one time in order of the rank of their nodes.
pub fn events_go_forward<H: Handlers>()
    ensures { EventsGoForward H.opening H.handle H.jobs H.working }
{}

/// Law. Once nothing is pending, the arrivals at a node, in the order in which they were handled, are
/// the rows of a source or what the node reads.
pub fn arrivals_are_read<H: Handlers>()
    ensures { ArrivalsAreRead H.opening H.handle H.jobs H.working }
{}

/// Law. In a run after which nothing is pending, a node does what it does alone.
pub fn nodes_run_alone<H: Handlers>()
    ensures { NodesRunAlone H.opening H.handle H.jobs H.working }
{}

/// Law. At the end of a run nothing is pending, and the number of jobs in each node is that of its
/// visits that haven't left. At a node where visits don't stay for good, none is left and each visit has
/// its fate.
pub fn the_run_ends()
    ensures { RunEnds }
{}

/// Law. At each moment of a run, the visits to a join that haven't left are those that have an entry in
/// it: a visit departs when its entry is taken out, and is held if it never is.
pub fn held_are_entries()
    ensures { HeldAreEntries }
{}

/// Law. A visit to a join departs at the time of the step that takes its entry out.
pub fn departs_as_taken_out()
    ensures { DepartsAsTakenOut }
{}

/// Law. The i-th visits of a job to a join by all its ports are a match. Each departs when the last of
/// them comes, and is held if by some port no i-th visit ever comes.
pub fn visits_fare_by_match()
    ensures { VisitsFareByMatch }
{}

/// Law. The area of a node is the sum of the sojourns of its visits by the end of the run.
pub fn areas_are_sojourns()
    ensures { AreasAreSojourns }
{}

/// Law. A node that runs alone until nothing is pending lets out the recurrence of its kind over its
/// visits, in emission order.
pub fn nodes_flow_alone()
    ensures { NodesFlowAlone }
{}

/// Law. The visits to a node that runs alone until nothing is pending fare as the recurrence of its kind
/// says for its arrivals: each departs at its time, is lost, or is held.
pub fn nodes_fare_alone()
    ensures { NodesFareAlone }
{}

/// Law. Each visit found as many jobs as there were earlier visits still in the node.
pub fn founds_are_counts()
    ensures { FoundsAreCounts }
{}

/// Law. The busy tally of a node is the sum of the services of its visits that aren't lost.
pub fn busy_is_services()
    ensures { BusyIsServices }
{}

/// Law. The span of a run is the greatest time at which a visit comes or leaves, or 0.
pub fn span_is_latest()
    ensures { SpanIsLatest }
{}

/// Law. Once nothing is pending, the visits to a node are its arrivals.
pub fn visits_are_arrivals<H: Handlers>()
    ensures { VisitsAreArrivals H.opening H.handle H.jobs H.working }
{}

/// Law. The run of a plan, and its refusal, are those of its network.
pub fn runs_are_of_networks()
    ensures { RunsAreOfNetworks }
{}

/// Law. Each node of a plan is in its limits. Its numbers are in their ranges. It has at most 8 outputs
/// and at most 255 servers, at most 8 of them unless it is a trunk group. Its name has at most 32 bytes.
/// It has at most 8 ports, which name outputs of the network.
pub fn nodes_are_in_limits()
    ensures { NodesAreInLimits }
{}

/// Law. The order of a plan contains no node twice, and each node comes after all that it reads.
pub fn orders_rank()
    ensures { OrdersRank }
{}

/// Law. Rows that are read for a network give the demands of each job at a node in its limits: each
/// value is there, and each demand is at most 2^36.
pub fn rows_tell_demands()
    ensures { RowsTellDemands }
{}

/// Law. The totals of a node are those of its sequences.
pub fn totals_are_sequences()
    ensures { TotalsAreSequences }
{}

/// Law. What leaves by an output is what its stream says.
pub fn exits_are_streams()
    ensures { ExitsAreStreams }
{}

/// Law. The span of a run is the greatest time in the sequences.
pub fn span_is_sequences()
    ensures { SpanIsSequences }
{}

/// Law. If no node of a lower rank is refused and the node at this rank is, its refusal is that of the
/// run.
pub fn refusal_is_first()
    ensures { RefusalIsFirst }
{}

/// Law. If no node is refused, the run isn't.
pub fn refusal_is_none()
    ensures { RefusalIsNone }
{}

/// Law. What a node lets out is the recurrence of its kind over its visits, in emission order.
pub fn nodes_flow()
    ensures { NodesFlow }
{}

/// Law. The visits and the streams of a node are the sequences that follow from its arrivals.
pub fn nodes_are_sequences()
    ensures { NodesAreSequences }
{}

/// Law. If each visit leaves once, alone, what the visits to a node found, and what leaves by an output,
/// follow from the fates of its visits and the output of each.
pub fn sequences_go_by_fates()
    ensures { SequencesGoByFates }
{}

/// Law. The ports by which jobs came to a node don't change its sequences if visits don't stay there for
/// good.
pub fn sequences_are_blind()
    ensures { SequencesAreBlind }
{}

/// Law. The arrivals at a node are the rows of a source, or the streams that it reads, ordered by time.
pub fn arrivals_are_streams()
    ensures { ArrivalsAreStreams }
{}

/// Law. Putting a stream in emission order keeps the number of its items, and every bound on its jobs
/// and times.
pub fn orders_keep_items()
    ensures { OrdersKeepItems }
{}

/// Law. The arrivals and the streams of a node never go back in time.
pub fn streams_rise()
    ensures { StreamsRise }
{}

/// Law. The job of each visit is the index of a row.
pub fn jobs_are_rows()
    ensures { JobsAreRows }
{}

/// Law. No visit comes, and nothing leaves a node, before the time of its job's row. So the sum of an
/// exit is the sum of the times at which its jobs left, less those of their rows: no difference is cut
/// off at 0.
pub fn none_before_its_row()
    ensures { NoneBeforeItsRow }
{}

/// Law. At a node where visits don't stay for good, no job departs before it came, and each has a fate.
pub fn fates_are_in_time()
    ensures { FatesAreInTime }
{}

/// Law. No visit departs before it came, none found more than came before it, and the sequences of a
/// node have one item per visit.
pub fn departs_in_time()
    ensures { DepartsInTime }
{}

/// Law. Each visit that departs stayed at least the bare time of its job, so no wait is cut off at 0.
pub fn visits_stay_their_bare_time()
    ensures { VisitsStayBareTime }
{}

/// Law. No node of a network of version 1 lets out more than one job at an event.
pub fn first_version_copies_nothing()
    ensures { FirstVersionCopiesNothing }
{}

/// Law. If no node of a network lets out more than one job at an event, a node has no more visits than
/// there are rows.
pub fn visits_are_few()
    ensures { VisitsAreFew }
{}

/// Law. A run in sequences has the sequences of each node at the node's index.
pub fn runs_have_sequences()
    ensures { RunsHaveSequences }
{}

/// Law. If there are as many sequences as nodes, with those of each node at its index, they are the run
/// in sequences.
pub fn sequences_make_runs()
    ensures { SequencesMakeRuns }
{}

/// Law. The streams of a node have the stream of each output at the output's index.
pub fn outputs_have_streams()
    ensures { OutputsHaveStreams }
{}

/// Law. If there are as many streams as outputs, with that of each output at its index, they are the
/// streams of the node.
pub fn streams_make_outputs()
    ensures { StreamsMakeOutputs }
{}

/// Law. No run of a network is refused if no node lets out more than one job at an event and the bound
/// is late enough: at least the time of the latest row plus 2^39 ticks for each row at each node. 2^39
/// ticks are the greatest demands of 8 servers.
pub fn departures_are_bounded()
    ensures { DeparturesAreBounded }
{
    arrivals_are_streams();
    nodes_are_sequences();
    rows_tell_demands();
    visits_are_few();
    jobs_are_rows();
    nodes_are_in_limits();
    runs_are_of_networks();
    refusal_is_none();
    orders_rank();
}
