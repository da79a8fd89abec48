// Price sets that are raised.
ghost use Rattle.std.specs.Prelude.{◌≡◌, ◌+◌, ◌≤◌, ◌↔◌, All, IfOk, IfSome, IsTrue, length, sum_by, unwrap_or};
ghost use Rattle.cut_pool.specs.Pools.{IsGrown};
ghost use Rattle.cut_pool.specs.Shores.{Belongs};
ghost use Rattle.branch_rules.specs.Bonds.{GroupWeight};
ghost use Rattle.branch_rules.specs.Laws.{FitsBranch};
ghost use Rattle.branch_rules.specs.Limits.{IsShoreOf};
ghost use Rattle.decision_chains.specs.Pairs.{ArePairsIn};
ghost use Rattle.route_pricing.specs.Tables.{IsRoom};
ghost use Rattle.tight_prices.specs.Tight.{IsTight};
ghost use Rattle.leaf_adviser.specs.Leaves.{AreOf, IsLeaf};
ghost use Rattle.dual_master.specs.Raising.{HasShortGroups, HasGroupsFrom, IsAccepted, IsHeld, IsNoLower, IsRaised, IsStanding};

use crate::laws::growth_keeps_sets;
use crate::values::{is_no_more, value_under};
use branch_rules::{Branch, PriceSet, WeightedGroup};
use carp_base::{Instance, Memory};
use cut_pool::ShorePool;
use leaf_adviser::{Adviser, Aim, Leaf, NoAdvice};
use road_network::Network;
use route_pricing::Table;
use std::alloc::Global;
use tight_prices::{fits, tighten};

// No offer is taken whose groups are longer together.
const LONGEST_GROUPS: usize = 5_000;
// What a group takes in a text besides its edges, in numbers: its weight and its size.
const HEAD: usize = 6;

/// A price set that fits under a branch and whose value, divided by its denominator, is no less than that of a start
/// that fits there. No single number of it can be raised: neither a price, nor the weight of a shore of one vertex that
/// the pool held before and over which some deadhead is needed (`tight_prices`).
///
/// It is what [`raise_with`] gives with no advisers, so the number of rounds says nothing. If the edges of the
/// groups of the start, and six for each group, are at most 5,000 together, so are those of what it gives.
pub fn raise(
    alloc: Global,
    inst: &Instance,
    net: &Network,
    table: &mut Table,
    pool: &mut ShorePool,
    branch: &Branch,
    start: &PriceSet,
    rounds: u32,
) -> Result<PriceSet, Memory>
    requires net { net.now ≡ inst.now }
    requires room { IsRoom inst.now table.old }
    requires pairs { ArePairsIn inst.now branch.now }
    requires belong { All (Belongs inst.now) pool.old }
    requires shores { All (λ w. IsShoreOf inst.now pool.old w.shore) start.now.weights }
    requires fits { FitsBranch inst.now pool.old branch.now start.now }
    ensures tight { IfOk result (IsTight inst.now pool.new (length pool.old) branch.now) }
    ensures no_lower { IfOk result (IsNoLower inst.now branch.now pool.old start.now pool.new) }
    ensures groups { IfOk result (HasGroupsFrom inst.now start.now) }
    ensures short_groups { HasShortGroups start.now → IfOk result HasShortGroups }
    ensures shores { IfOk result (λ set. All (λ w. IsShoreOf inst.now pool.new w.shore) set.weights) }
    ensures grown { IsGrown pool.old pool.new }
    ensures belong { All (Belongs inst.now) pool.new }
    ensures room { IsRoom inst.now table.new }
{
    inst.validity();
    let leaf = Leaf { inst, net, branch };
    let aim = Aim {
        number: 1,
        rounds,
        cost: u64::MAX,
    };
    let mut none: Vec<NoAdvice> = Vec::new(alloc);
    raise_with(alloc, &leaf, table, pool, start, aim, &mut none)
}

/// Such a price set for a leaf of a tree that names the start by a number, with the offers of advisers.
///
/// It asks each adviser once, in the order of the list, with the best set so far. An offer takes the place of the best
/// one if it fits and its value divided by its denominator is greater. The best one is made tight at the end. Shores
/// with a weight are placed in the pool behind those that it held, while it holds fewer than 2,000. The weights on
/// groups are those of the start, or they are on groups of the instance. An offer whose groups are
/// long is not taken, so that certificates stay short: if the edges of the groups of the start, and six for each group,
/// are at most 5,000 together, so are those of what it gives.
///
/// It asks for a leaf, for a table that was made for its instance, which it fills, and for a pool whose shores belong to
/// the instance. The shores that it adds belong to the instance too. What the advisers are is no matter to what it
/// promises. The only error is want of memory. It takes the time of the advisers, of a fill of the table for each of
/// them, and of `tight_prices::tighten`.
pub fn raise_with<A: Adviser>(
    alloc: Global,
    leaf: &Leaf<'_>,
    table: &mut Table,
    pool: &mut ShorePool,
    start: &PriceSet,
    aim: Aim,
    advisers: &mut Vec<A>,
) -> Result<PriceSet, Memory>
    requires leaf { IsLeaf leaf.now }
    requires room { IsRoom leaf.now.inst.now table.old }
    requires belong { All (Belongs leaf.now.inst.now) pool.old }
    requires shores { All (λ w. IsShoreOf leaf.now.inst.now pool.old w.shore) start.now.weights }
    requires fits { FitsBranch leaf.now.inst.now pool.old leaf.now.branch.now start.now }
    ensures tight { IfOk result (IsTight leaf.now.inst.now pool.new (length pool.old) leaf.now.branch.now) }
    ensures no_lower { IfOk result (IsNoLower leaf.now.inst.now leaf.now.branch.now pool.old start.now pool.new) }
    ensures groups { IfOk result (HasGroupsFrom leaf.now.inst.now start.now) }
    ensures short_groups { HasShortGroups start.now → IfOk result HasShortGroups }
    ensures shores { IfOk result (λ set. All (λ w. IsShoreOf leaf.now.inst.now pool.new w.shore) set.weights) }
    ensures grown { IsGrown pool.old pool.new }
    ensures belong { All (Belongs leaf.now.inst.now) pool.new }
    ensures room { IsRoom leaf.now.inst.now table.new }
{
    growth_keeps_sets();
    let known = pool.len();
    let best = best_offer(alloc, leaf, table, pool, start, aim, advisers)?;
    let Leaf { inst, net, branch } = *leaf;
    match best {
        Some(set) => tighten(alloc, inst, net, table, pool, branch, &set, known),
        None => tighten(alloc, inst, net, table, pool, branch, start, known),
    }
}

// The best set that advisers offer, if one of them is better than the start.
fn best_offer<A: Adviser>(
    alloc: Global,
    leaf: &Leaf<'_>,
    table: &mut Table,
    pool: &mut ShorePool,
    start: &PriceSet,
    aim: Aim,
    advisers: &mut Vec<A>,
) -> Result<Option<PriceSet>, Memory>
    requires leaf { IsLeaf leaf.now }
    requires tools { AreOf leaf.now.inst.now table.old pool.old }
    requires start { IsHeld leaf.now.inst.now leaf.now.branch.now pool.old start.now }
    ensures standing { IfOk result (IsStanding leaf.now.inst.now leaf.now.branch.now pool.new start.now) }
    ensures grown { IsGrown pool.old pool.new }
    ensures tools { AreOf leaf.now.inst.now table.new pool.new }
{
    let mut best = None;
    for adviser in advisers.iter_mut() {
        let next = better_offer(alloc, leaf, table, pool, start, best, aim, adviser)?;
        best = next;
    }
    Ok(best)
}

// The best offer so far, after one more adviser was asked.
fn better_offer<A: Adviser>(
    alloc: Global,
    leaf: &Leaf<'_>,
    table: &mut Table,
    pool: &mut ShorePool,
    start: &PriceSet,
    best: Option<PriceSet>,
    aim: Aim,
    adviser: &mut A,
) -> Result<Option<PriceSet>, Memory>
    requires leaf { IsLeaf leaf.now }
    requires tools { AreOf leaf.now.inst.now table.old pool.old }
    requires standing { IsStanding leaf.now.inst.now leaf.now.branch.now pool.old start.now best }
    ensures standing { IfOk result (IsStanding leaf.now.inst.now leaf.now.branch.now pool.new start.now) }
    ensures grown { IsGrown pool.old pool.new }
    ensures tools { AreOf leaf.now.inst.now table.new pool.new }
{
    growth_keeps_sets();
    match best {
        Some(set) => {
            let better = ask(alloc, leaf, table, pool, &set, aim, adviser)?;
            Ok(Some(later(better, set)))
        }
        None => ask(alloc, leaf, table, pool, start, aim, adviser),
    }
}

// The later set, if there is one.
fn later(better: Option<PriceSet>, set: PriceSet) -> PriceSet
    ensures { result ≡ unwrap_or better set }
{
    match better {
        Some(better) => better,
        None => set,
    }
}

// The set that an adviser offers, if it fits and is better than the best one so far.
fn ask<A: Adviser>(
    alloc: Global,
    leaf: &Leaf<'_>,
    table: &mut Table,
    pool: &mut ShorePool,
    best: &PriceSet,
    aim: Aim,
    adviser: &mut A,
) -> Result<Option<PriceSet>, Memory>
    requires leaf { IsLeaf leaf.now }
    requires tools { AreOf leaf.now.inst.now table.old pool.old }
    requires best { IsHeld leaf.now.inst.now leaf.now.branch.now pool.old best.now }
    ensures raised { IfOk result (λ better. IfSome better (IsRaised leaf.now.inst.now leaf.now.branch.now pool.old best.now pool.new)) }
    ensures grown { IsGrown pool.old pool.new }
    ensures tools { AreOf leaf.now.inst.now table.new pool.new }
{
    growth_keeps_sets();
    match adviser.prices(alloc, leaf, table, pool, best, aim)? {
        Some(offered) => if_better(alloc, leaf, table, pool, offered, best),
        None => Ok(None),
    }
}

// An offered set, where it fits and is better than the start.
fn if_better(
    alloc: Global,
    leaf: &Leaf<'_>,
    table: &mut Table,
    pool: &ShorePool,
    offered: PriceSet,
    start: &PriceSet,
) -> Result<Option<PriceSet>, Memory>
    requires leaf { IsLeaf leaf.now }
    requires room { IsRoom leaf.now.inst.now table.old }
    requires shores { All (λ w. IsShoreOf leaf.now.inst.now pool.now w.shore) start.now.weights }
    requires fits { FitsBranch leaf.now.inst.now pool.now leaf.now.branch.now start.now }
    requires offered_shores { All (λ w. IsShoreOf leaf.now.inst.now pool.now w.shore) offered.weights }
    requires one_each { length offered.services ≡ leaf.now.inst.now.required }
    ensures accepted { IfOk result (λ better. IfSome better (IsAccepted leaf.now.inst.now leaf.now.branch.now pool.now offered start.now)) }
    ensures room { IsRoom leaf.now.inst.now table.new }
{
    if !has_short_groups(&offered) {
        return Ok(None);
    }
    if !fits(
        alloc,
        leaf.inst,
        leaf.net,
        table,
        pool,
        leaf.branch,
        &offered,
    )? {
        return Ok(None);
    }
    if is_better(leaf.inst, pool, leaf.branch, &offered, start) {
        Ok(Some(offered))
    } else {
        Ok(None)
    }
}

// Whether the groups of a set are short.
fn has_short_groups(set: &PriceSet) -> bool
    ensures { IsTrue result ↔ HasShortGroups set.now }
{
    length_of(set.groups()) <= LONGEST_GROUPS
}

// How long groups are as text, in numbers.
fn length_of(groups: &[WeightedGroup]) -> usize
    requires { length groups.now ≤ 2000 }
    ensures { result ≡ sum_by (λ (w : GroupWeight). length w.edges + 6) groups.now }
{
    let mut length = 0;
    for group in groups {
        length += group.edges().len() + HEAD;
    }
    length
}

// Whether the value of the first set divided by its denominator is above that of the second.
fn is_better(
    inst: &Instance,
    pool: &ShorePool,
    branch: &Branch,
    set: &PriceSet,
    other: &PriceSet,
) -> bool
    requires shores { All (λ w. IsShoreOf inst.now pool.now w.shore) set.now.weights }
    requires other_shores { All (λ w. IsShoreOf inst.now pool.now w.shore) other.now.weights }
    requires fits { FitsBranch inst.now pool.now branch.now set.now }
    requires other_fits { FitsBranch inst.now pool.now branch.now other.now }
    ensures { IsTrue result → IsNoLower inst.now branch.now pool.now other.now pool.now set.now }
{
    let value = value_under(inst, pool, branch, set);
    let least = value_under(inst, pool, branch, other);
    !is_no_more(value, set.unit(), least, other.unit())
}
