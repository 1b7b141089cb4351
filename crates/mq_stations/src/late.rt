// The first visit to a node that departs after the bound.
ghost use Rattle.std.specs.Prelude.{◌≡◌, ◌≤◌, length, map};
ghost use Rattle.std.specs.Option.{option_map};
ghost use Rattle.mq_core.specs.Laws.{Rises, in_order_of};
ghost use Rattle.mq_core.specs.Sequences.{sequence_late_from};
ghost use Rattle.mq_core.specs.Results.{first_of};
ghost use Rattle.mq_core.specs.declared.model.Fate.TheVariants.{Departs};
ghost use Rattle.mq_stations.specs.Late.{late_told};

use mq_base::List;
use mq_core::{Fate, PastFault};

/// The first of these visits to a node, by position, that departs after the bound, if there is one. There
/// are at most 1,048,576.
pub fn first_late(bound: u64, node: u32, fates: &List<Fate>) -> Option<PastFault>
    requires { length fates.now ≤ 1048576 }
    ensures { first_of (sequence_late_from bound node 0 fates.now) ≡ option_map late_told result }
{
    for position in 0..fates.len() {
        if let Fate::Departs(time) = *fates.get(position) {
            if time > bound {
                return Some(PastFault {
                    node,
                    position: position as u32,
                    time,
                });
            }
        }
    }
    None
}

/// The first of visits to a node that departs after the bound, of departures by position that never fall,
/// in ticks: it is found by halving. There are at most 1,048,576.
pub fn first_late_in_turn(bound: u64, node: u32, departs: &List<u64>) -> Option<PastFault>
    requires few { length departs.now ≤ 1048576 }
    requires rising { Rises (λ a b. a ≤ b) departs.now }
    ensures { first_of (sequence_late_from bound node 0 (map (λ time. Departs time) departs.now)) ≡ option_map late_told result }
{
    let count = departs.len();
    let (mut first, mut last) = (0, count);
    while first < last {
        let middle = first + (last - first) / 2;
        let time = *departs.get(middle);
        if time <= bound {
            first = middle + 1;
        } else {
            last = middle;
        }
    }
    if first == count {
        return None;
    }
    Some(PastFault {
        node,
        position: first as u32,
        time: *departs.get(first),
    })
}

// The first of these departures that is after the bound, in whatever order they come.
fn first_after(bound: u64, node: u32, departs: &List<u64>) -> Option<PastFault>
    requires { length departs.now ≤ 1048576 }
    ensures { first_of (sequence_late_from bound node 0 (map (λ time. Departs time) departs.now)) ≡ option_map late_told result }
{
    for position in 0..departs.len() {
        let time = *departs.get(position);
        if time > bound {
            return Some(PastFault {
                node,
                position: position as u32,
                time,
            });
        }
    }
    None
}

/// The first of visits to a node, by position, that departs after the bound, of departures by position and
/// in order, in ticks: one is late exactly where the last of those in order is. There are at most
/// 1,048,576.
pub fn first_late_overtaken(
    bound: u64,
    node: u32,
    departs: &List<u64>,
    leaving: &List<u64>,
) -> Option<PastFault>
    requires few { length departs.now ≤ 1048576 }
    requires leaving { leaving.now ≡ in_order_of (λ time. time) departs.now }
    ensures { first_of (sequence_late_from bound node 0 (map (λ time. Departs time) departs.now)) ≡ option_map late_told result }
{
    let count = leaving.len();
    if count == 0 {
        return None;
    }
    let last = *leaving.get(count - 1);
    if last <= bound {
        return None;
    }
    first_after(bound, node, departs)
}
