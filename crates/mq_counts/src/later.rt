// The totals of a node up to a later time, at which a run ends.
ghost use Rattle.std.specs.Prelude.{◌≡◌, ◌-◌, ◌<◌, ◌≤◌, ◌^◌};
ghost use Rattle.mq_stats.specs.Numbers.{AreSmall, totals_from};
ghost use Rattle.mq_counts.specs.Later.{HeldStayOn, held_on};

use mq_stats::NodeTotals;

/// Returns the totals of a node up to a later time, in ticks. Held visits stay on.
pub fn totals_until(totals: &NodeTotals, last: u64, span: u64) -> NodeTotals
    requires small { AreSmall totals.now }
    requires later { last ≤ span }
    ensures totals { totals_from result ≡ held_on (span - last) (totals_from totals.now) }
    ensures small { result.busy < 2 ^ 100 }
{
    NodeTotals {
        area: totals.area + totals.held as u128 * (span - last) as u128,
        ..*totals
    }
}

/// Proves that the totals of a node up to a later time are the earlier ones with held visits staying on, if everything
/// there has happened by the earlier time. It does nothing at run time.
pub fn held_stay_on()
    ensures { HeldStayOn }
{}
