// The laws of what is the same in two runs.
ghost use Rattle.mq_alike.specs.Again.{AgainIsBounded, AlikeIsFirst, SequencesStay};

use mq_core::sequences_go_by_fates;

/// Law. The visits before the first difference of two runs are the same in both, and those at it, if both runs have
/// one, are not. Does nothing when it runs.
pub fn alike_is_first()
    ensures { AlikeIsFirst }
{}

/// Law. The blocks that are redone in a run are no more than it has, and none if the rows are the same; those that are
/// worked are no more than those that are redone. Does nothing when it runs.
pub fn again_is_bounded()
    ensures { AgainIsBounded }
{}

/// Law. If two runs have no difference at a node that lets each job out once, alone, the visits and streams there are
/// the same. Does nothing when it runs.
pub fn sequences_stay()
    ensures { SequencesStay }
{
    sequences_go_by_fates();
}
