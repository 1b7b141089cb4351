// Whether two runs are the same.

use mq_base::List;
use mq_core::{Fate, Fates, Run, Stream, Visits};

/// Returns whether two visits have the same fate.
pub fn same_fate(one: Fate, other: Fate) -> bool {
    match (one, other) {
        (Fate::Departs(a), Fate::Departs(b)) => a == b,
        (Fate::Lost, Fate::Lost) => true,
        (Fate::Held, Fate::Held) => true,
        _ => false,
    }
}

fn same_fates(one: &Fates, other: &Fates) -> bool {
    if one.len() != other.len() {
        return false;
    }
    for at in 0..one.len() {
        if !same_fate(one.at(at), other.at(at)) {
            return false;
        }
    }
    true
}

fn same_visits(one: &Visits, other: &Visits) -> bool {
    one.job.as_slice() == other.job.as_slice()
        && one.arrive.as_slice() == other.arrive.as_slice()
        && one.found.as_slice() == other.found.as_slice()
        && same_fates(&one.fate, &other.fate)
}

fn same_streams(one: &List<Stream>, other: &List<Stream>) -> bool {
    if one.len() != other.len() {
        return false;
    }
    for at in 0..one.len() {
        let (a, b) = (one.get(at), other.get(at));
        if a.job.as_slice() != b.job.as_slice() || a.time.as_slice() != b.time.as_slice() {
            return false;
        }
    }
    true
}

/// Returns whether two runs have the same visits and streams at each node.
pub fn same_run(one: &Run, other: &Run) -> bool {
    if one.visits.len() != other.visits.len() || one.outputs.len() != other.outputs.len() {
        return false;
    }
    for v in 0..one.visits.len() {
        if !same_visits(one.visits.get(v), other.visits.get(v)) {
            return false;
        }
    }
    for v in 0..one.outputs.len() {
        if !same_streams(one.outputs.get(v), other.outputs.get(v)) {
            return false;
        }
    }
    true
}
