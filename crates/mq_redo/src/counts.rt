// The number of blocks of a node that are redone.
ghost use Rattle.std.specs.Prelude.{◌≡◌, ◌==◌, ◌&&◌, ◌+◌, ◌-◌, ◌/◌, ◌≤◌, if◌then◌else◌};
ghost use Rattle.mq_alike.specs.Again.{blocks_in, is_counted};

use mq_core::Kind;
use mq_scan::Blocks;

// Whether the blocks of a node of this kind are counted.
fn is_counted(kind: &Kind) -> bool
    ensures { result ≡ is_counted kind.now }
{
    match kind {
        Kind::Source | Kind::Server(_) | Kind::Delay(_) => true,
        Kind::Tandem(_) | Kind::ForkJoin(_) | Kind::Split(_) => true,
        Kind::Loss { .. } | Kind::Trunk { .. } => false,
        Kind::Fork { .. } | Kind::Join => false,
    }
}

// Whether the first `same` visits, which are the same in two runs, are all visits of both runs.
fn is_unchanged(same: u32, visits: u32, now: u32) -> bool
    ensures { result ≡ ((same == visits) && (same == now)) }
{
    same == visits && same == now
}

/// Returns the number of blocks of a node of this kind that are redone, and the number of all its blocks; both are 0 if
/// the blocks of this kind aren't counted. The first `same` visits are those of the kept run, in which the node has
/// `visits`.
pub fn counted(kind: &Kind, blocks: &Blocks, same: u32, visits: u32) -> (u32, u32)
    requires { same ≤ blocks.now.n }
    ensures again { result.0 ≡ (if is_counted kind.now then (if (same == visits) && (same == blocks.now.n) then 0 else blocks_in blocks.now.block blocks.now.n - same / blocks.now.block) else 0) }
    ensures all { result.1 ≡ (if is_counted kind.now then blocks_in blocks.now.block blocks.now.n else 0) }
{
    if !is_counted(kind) {
        return (0, 0);
    }
    if is_unchanged(same, visits, blocks.n) {
        return (0, blocks.blocks);
    }
    (blocks.blocks - same / blocks.block, blocks.blocks)
}

/// Law. A cut has as many blocks as hold its indices. Does nothing when it runs.
pub fn blocks_hold(blocks: &Blocks)
    ensures { blocks.now.blocks ≡ blocks_in blocks.now.block blocks.now.n }
{
    let _ = blocks;
}
