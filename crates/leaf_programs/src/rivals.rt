// The split that is proposed: the better one of two that are tried with a few fills.
ghost use Rattle.std.specs.Prelude.{◌≡◌, ◌<◌, ◌≤◌, false, length};
ghost use Rattle.branch_rules.specs.Limits.{AreShoresIn};
ghost use Rattle.route_pricing.specs.Tables.{IsRoom};
ghost use Rattle.leaf_adviser.specs.Leaves.{IsLeaf};

use crate::trials::{Scored, Tried, try_split};
use branch_rules::Node;
use carp_base::Memory;
use column_generation::{Generation, Kept};
use cut_pool::ShorePool;
use leaf_adviser::Leaf;
use route_pricing::Table;
use std::alloc::Global;

// The factor by which a split has to be better than each other one to be taken without a second trial.
const CLEAR: i128 = 10;

/// The better one of the first split and its rival, or none if the first one is clearly the best.
pub(crate) fn try_rivals(
    alloc: Global,
    leaf: &Leaf<'_>,
    table: &mut Table,
    pool: &ShorePool,
    kept: &Kept,
    ranked: &[Scored],
    generation: &mut Generation,
) -> Result<Option<Tried>, Memory>
    requires leaf { IsLeaf leaf.now }
    requires room { IsRoom leaf.now.inst.now table.old }
    requires shores { AreShoresIn leaf.now.inst.now pool.now leaf.now.branch.now }
    ensures { IsRoom leaf.now.inst.now table.new }
{
    if is_clear(ranked) {
        return Ok(None);
    }
    try_two(alloc, leaf, table, pool, kept, ranked, generation)
}

// Whether the first split is a cut that is better than the second split by a factor, or there is no other one.
fn is_clear(ranked: &[Scored]) -> bool
    ensures { result ≡ false → 2 ≤ length ranked.now }
{
    ranked.len() < 2
        || is_cut(&ranked[0]) && ranked[0].score >= ranked[1].score.saturating_mul(CLEAR)
}

fn is_cut(scored: &Scored) -> bool {
    matches!(scored.node, Node::Cut { .. })
}

// The place of the split that is tried beside the first one: the best of the other kind, or else the second.
fn rival(ranked: &[Scored]) -> usize
    requires { 2 ≤ length ranked.now }
    ensures { result < length ranked.now }
{
    let kind = is_cut(&ranked[0]);
    match ranked.iter().position(|other| is_cut(other) != kind) {
        Some(place) => place,
        None => 1,
    }
}

// The better one of the first split and its rival, with a few fills each.
fn try_two(
    alloc: Global,
    leaf: &Leaf<'_>,
    table: &mut Table,
    pool: &ShorePool,
    kept: &Kept,
    ranked: &[Scored],
    generation: &mut Generation,
) -> Result<Option<Tried>, Memory>
    requires leaf { IsLeaf leaf.now }
    requires room { IsRoom leaf.now.inst.now table.old }
    requires shores { AreShoresIn leaf.now.inst.now pool.now leaf.now.branch.now }
    requires two { 2 ≤ length ranked.now }
    ensures { IsRoom leaf.now.inst.now table.new }
{
    let base = generation.value();
    let one = ranked[0].node;
    let other = ranked[rival(ranked)].node;
    let first = try_split(alloc, leaf, table, pool, kept, one, base, generation)?;
    let second = try_split(alloc, leaf, table, pool, kept, other, base, generation)?;
    Ok(better(first, second))
}

// The one of the greater score, or else the first.
fn better(best: Option<Tried>, next: Option<Tried>) -> Option<Tried> {
    if score_of(&best) < score_of(&next) {
        next
    } else {
        best
    }
}

// The score of a split, or less than any other if there is none.
fn score_of(tried: &Option<Tried>) -> i128 {
    match tried {
        Some(tried) => tried.score,
        None => i128::MIN,
    }
}
