// Trials of splits on copies of a program.
ghost use Rattle.branch_rules.specs.Limits.{AreShoresIn};
ghost use Rattle.decision_chains.specs.Pairs.{ArePairsIn};
ghost use Rattle.route_pricing.specs.Tables.{IsRoom};
ghost use Rattle.leaf_adviser.specs.Leaves.{IsLeaf};
ghost use Rattle.leaf_programs.specs.Splits.{IsDecisionIn};

use crate::decisions::{child_of, decisions_in};
use branch_rules::{Branch, Decision, Node};
use carp_base::{Instance, Memory};
use column_generation::{Generation, Kept};
use cut_pool::ShorePool;
use leaf_adviser::Leaf;
use price_points::PricingProblem;
use route_pricing::Table;
use std::alloc::Global;

// A gain is taken to be at least one part in so many of the value.
const LEAST_GAIN: i128 = 1_000_000;

// The less gain of a poor split is at most so many times the least one.
const POOR: i128 = 3;

// No gain counts for more.
const MOST_GAIN: i128 = 1 << 61;

/// A split with what both children come to.
#[derive(Clone, Copy)]
pub(crate) struct Scored {
    pub(crate) node: Node,
    /// The product of the gains.
    pub(crate) score: i128,
    /// The less one of both gains.
    pub(crate) less: i128,
}

/// A split with what both children come to, and with their programs.
#[derive(Drop)]
pub(crate) struct Tried {
    pub(crate) node: Node,
    pub(crate) score: i128,
    pub(crate) first: Kept,
    pub(crate) second: Kept,
}

/// Whether a child of a split gained hardly anything over a value.
pub(crate) fn is_poor(base: i128, scored: &Scored) -> bool {
    scored.less <= (base / LEAST_GAIN).max(1).saturating_mul(POOR)
}

// The product of two gains over a value. None counts beyond what is enough.
fn product_of_gains(base: i128, enough: i128, first: i128, second: i128) -> i128 {
    let least = (base / LEAST_GAIN).max(1);
    let one = gain(base, enough, least, first);
    one.saturating_mul(gain(base, enough, least, second))
}

fn gain(base: i128, enough: i128, least: i128, value: i128) -> i128 {
    let gained = value.min(enough).saturating_sub(base);
    gained.max(least).min(MOST_GAIN)
}

/// A split with what both children come to after a few steps of the dual method.
pub(crate) fn score(
    alloc: Global,
    inst: &Instance,
    pool: &ShorePool,
    branch: &Branch,
    node: Node,
    generation: &mut Generation,
) -> Result<Scored, Memory>
    requires pairs { ArePairsIn inst.now branch.now }
    requires shores { AreShoresIn inst.now pool.now branch.now }
{
    let Some((first, second)) = decisions_in(inst, pool, &node) else {
        return Ok(Scored {
            node,
            score: 0,
            less: 0,
        });
    };
    let base = generation.value();
    let one = estimate(alloc, inst, pool, branch, first, generation)?;
    let other = estimate(alloc, inst, pool, branch, second, generation)?;
    let score = product_of_gains(base, generation.enough(), one, other);
    let less = one.min(other).saturating_sub(base);
    Ok(Scored { node, score, less })
}

// What a child comes to after a few steps of the dual method.
fn estimate(
    alloc: Global,
    inst: &Instance,
    pool: &ShorePool,
    branch: &Branch,
    decision: Decision,
    generation: &mut Generation,
) -> Result<i128, Memory>
    requires pairs { ArePairsIn inst.now branch.now }
    requires shores { AreShoresIn inst.now pool.now branch.now }
    requires decision { IsDecisionIn inst.now pool.now decision }
{
    let child = child_of(alloc, inst, pool, branch, decision)?;
    if child.void(alloc, inst, pool)? {
        return Ok(generation.enough());
    }
    let allowed = child.allowed(alloc, inst)?;
    generation.estimate(alloc, inst, pool, &allowed, &decision)
}

/// A split with what both children come to after a few fills from what was kept of the leaf.
pub(crate) fn try_split(
    alloc: Global,
    leaf: &Leaf<'_>,
    table: &mut Table,
    pool: &ShorePool,
    kept: &Kept,
    node: Node,
    base: i128,
    generation: &mut Generation,
) -> Result<Option<Tried>, Memory>
    requires leaf { IsLeaf leaf.now }
    requires room { IsRoom leaf.now.inst.now table.old }
    requires shores { AreShoresIn leaf.now.inst.now pool.now leaf.now.branch.now }
    ensures { IsRoom leaf.now.inst.now table.new }
{
    let Some((first, second)) = decisions_in(leaf.inst, pool, &node) else {
        return Ok(None);
    };
    let one = try_child(alloc, leaf, table, pool, kept, first, generation)?;
    let first = generation.kept(alloc, leaf.inst)?;
    let other = try_child(alloc, leaf, table, pool, kept, second, generation)?;
    let second = generation.kept(alloc, leaf.inst)?;
    let score = product_of_gains(base, generation.enough(), one, other);
    Ok(Some(Tried {
        node,
        score,
        first,
        second,
    }))
}

// What a child comes to after a few fills.
fn try_child(
    alloc: Global,
    leaf: &Leaf<'_>,
    table: &mut Table,
    pool: &ShorePool,
    kept: &Kept,
    decision: Decision,
    generation: &mut Generation,
) -> Result<i128, Memory>
    requires leaf { IsLeaf leaf.now }
    requires room { IsRoom leaf.now.inst.now table.old }
    requires shores { AreShoresIn leaf.now.inst.now pool.now leaf.now.branch.now }
    requires decision { IsDecisionIn leaf.now.inst.now pool.now decision }
    ensures { IsRoom leaf.now.inst.now table.new }
{
    let inst = leaf.inst;
    let child = child_of(alloc, inst, pool, leaf.branch, decision)?;
    if child.void(alloc, inst, pool)? {
        return Ok(generation.enough());
    }
    let allowed = child.allowed(alloc, inst)?;
    let problem = PricingProblem {
        inst,
        net: leaf.net,
        allowed: &allowed,
    };
    generation.try_child(alloc, &problem, table, pool, &child, kept)
}
