// The percentiles of waits in a report.
ghost use Rattle.std.specs.Prelude.{◌≡◌, Some, option_map, slice_get};
ghost use Rattle.mq_core.specs.Results.{visits_of};
ghost use Rattle.mq_core.specs.StandardTable.{run_of};
ghost use Rattle.mq_stats.specs.Percentiles.{waits_at};
ghost use Rattle.mq_counts.specs.Counts.{AreCounts};
ghost use Rattle.mq_report.specs.Tails.{tail_from};
ghost use Rattle.mq_report.specs.Text.{told_tail as told_tail_of};

use mq_core::{Node, Plan, Rows};
use mq_counts::Counts;
use mq_stats::Percentiles;

/// Returns the percentiles of the waits at a node if the form is 2, and `None` otherwise.
pub fn told_tail(
    plan: &Plan,
    rows: &Rows,
    counts: &Counts,
    form: u8,
    node: u32,
    declared: &Node,
) -> Option<Percentiles>
    requires counts { AreCounts plan.now rows.now form counts.now }
    requires there { slice_get plan.now.net.nodes node ≡ Some declared.now }
    ensures { option_map tail_from result ≡ told_tail_of form (waits_at rows.now declared.now.kind (visits_of declared.now.kind ((run_of plan.now rows.now).stations node))) }
{
    if form != 2 {
        return None;
    }
    Some(counts.nodes.get(node as usize).tail)
}
