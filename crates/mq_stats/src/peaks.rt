// The peak of a node: from what its visits found, or from when its jobs come and depart.
ghost use Rattle.std.specs.Prelude.{◌≡◌, ◌+◌, ◌-◌, ◌<◌, ◌≤◌, All, count_by, length, map, max, nat_le};
ghost use Rattle.mq_base.specs.Lists.{between};
ghost use Rattle.mq_core.specs.KindTable.{behaviour_of};
ghost use Rattle.mq_core.specs.Laws.{Rises};
ghost use Rattle.mq_core.specs.OnceOut.{founds_of};
ghost use Rattle.mq_core.specs.Results.{one_more, peak_of};
ghost use Rattle.mq_core.specs.declared.model.Fate.TheVariants.{Departs};

use mq_core::{Fate, FateSlice, Kind};

// Returns whether jobs stay in a node of this kind.
fn holds(kind: &Kind) -> bool
    ensures { result ≡ (behaviour_of kind.now).holds }
{
    match kind {
        Kind::Source | Kind::Split(_) | Kind::Fork { .. } => false,
        Kind::Server(_)
        | Kind::Delay(_)
        | Kind::Loss { .. }
        | Kind::Tandem(_)
        | Kind::ForkJoin(_)
        | Kind::Join
        | Kind::Trunk { .. } => true,
    }
}

// Returns the number of jobs just after a visit came, or 0 for a lost one.
fn number_after(found: u32, fate: Fate) -> u32
    requires { found ≤ 1048576 }
    ensures { result ≡ one_more found fate }
{
    match fate {
        Fate::Departs(_) | Fate::Held => found + 1,
        Fate::Lost => 0,
    }
}

// Returns the peak of a node of this kind from what its visits found and their fates.
pub fn peak_of_found(kind: &Kind, found: &[u32], fate: &FateSlice) -> u32
    requires fates { length fate.now ≡ length found.now }
    requires small { All (λ n. n ≤ 1048576) found.now }
    ensures { result ≡ peak_of kind.now found.now fate.now }
{
    if !holds(kind) {
        return 0;
    }
    let mut peak = 0u32;
    for at in 0..found.len() {
        peak = peak.max(number_after(found[at], fate.at(at)));
    }
    peak
}

// Returns the greater of `number` and the number of jobs in the node just after one came at `time`. `before` jobs came earlier;
// `departs` are the departure times, which never fall.
//
// More than n jobs are there, counting the new one, exactly if the job n places before it departs later than `time`.
fn number_with(departs: &[u64], before: usize, time: u64, number: usize) -> usize
    requires order { Rises (λ a b. a ≤ b) departs.now }
    requires within { before ≤ length departs.now }
    ensures greater { result ≡ max number (before - count_by (λ t. nat_le t time) departs.now + 1) }
    ensures within { result ≤ max number (before + 1) }
{
    let mut number = number.max(1);
    while number <= before && departs[before - number] > time {
        number += 1;
    }
    number
}

// Returns the peak of a node of this kind over the visits from one index up to another, if jobs depart in order of arrival, at these
// times, which never fall.
// Not inlined, so that its loop has the registers to itself.
#[inline(never)]
pub fn peak_in_turn(kind: &Kind, arrive: &[u64], departs: &[u64], from: usize, to: usize) -> u32
    requires even { length departs.now ≡ length arrive.now }
    requires few { length arrive.now ≤ 1048576 }
    requires departs { Rises (λ a b. a ≤ b) departs.now }
    requires order { from ≤ to }
    requires within { to ≤ length arrive.now }
    ensures { result ≡ peak_of kind.now (between from to (founds_of arrive.now (map (λ time. Departs time) departs.now))) (between from to (map (λ time. Departs time) departs.now)) }
{
    if !holds(kind) {
        return 0;
    }
    let mut number = 0;
    for at in from..to {
        number = number_with(departs, at, arrive[at], number);
    }
    number as u32
}
