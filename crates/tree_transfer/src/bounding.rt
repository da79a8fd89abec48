// The greatest bound that a tree shows.
ghost use Rattle.std.specs.Prelude.{◌≡◌, ◌+◌, ◌^◌, ◌<◌, ◌≤◌, IfOk, OnOk, length};
ghost use Rattle.std.specs.List.{All};
ghost use Rattle.deadhead_paths.specs.Prices.{costs_of};
ghost use Rattle.decision_chains.specs.Pairs.{ArePairsIn};
ghost use Rattle.branch_rules.specs.Decisions.{IsFixed};
ghost use Rattle.branch_rules.specs.Limits.{IsNodeIn};
ghost use Rattle.branch_rules.specs.Trees.{set_at};
ghost use Rattle.grown_trees.specs.Growth.{ShowsUpTo};
ghost use Rattle.grown_trees.specs.Places.{IsFineNode};
ghost use Rattle.tree_transfer.specs.Bounding.{BoundsAt, FixedShowsUpTo, HasSomeValue, IsGiven, IsLeastShown, NodeHasValue, NodeWouldShowSome, PriceShowsSome, PriceShowsUpTo, support_in};
ghost use Rattle.tree_transfer.specs.Shown.{AreTreeNodes, HasShores, IsGreatestShown, WouldShowSome};

use branch_rules::{Branch, Node, Path, PriceSet, Tree, nodes_show_their_tree};
use carp_base::{Instance, Memory};
use cut_pool::ShorePool;
use deadhead_paths::Distances;
use decision_chains::fixed_values_compare;
use grown_trees::shown_under;
use std::alloc::Global;
use task_tours::lawful_cost;

// What the nodes of a tree are read against.
#[derive(Clone, Copy)]
pub(crate) struct Given<'a> {
    pub(crate) inst: &'a Instance,
    pub(crate) pool: &'a ShorePool,
    pub(crate) sets: &'a [PriceSet],
    pub(crate) dist: &'a Distances,
}

impl Given<'_> {
    // The price set of a number from 1.
    fn set(&self, number: u32) -> &PriceSet
        requires from_one { 1 ≤ number }
        requires in_range { number ≤ length self.now.sets.now }
        ensures { result.now ≡ set_at (support_in self.now) number }
    {
        &self.sets[number as usize - 1]
    }
}

/// The greatest bound, up to a cost below 10^18, that a tree shows: the least of the cost and of what each leaf shows
/// under the decisions on the way to it. A price leaf shows its value divided by its denominator, rounded up. A fixed
/// leaf shows the fixed value of its branch, and a void leaf every bound. The distances are those by cost.
///
/// Each leaf of the tree shows some bound: void leaves are void, fixed leaves are fixed, and sets fit under the
/// decisions on the way to them. The only error is want of memory.
///
/// With n nodes, m required edges, k weights in a set and at most d decisions on a path it takes time in proportion to
/// n (m + d) k, and for each fixed leaf besides to m * m + d and to the steps of a plan.
pub fn greatest_bound(
    alloc: Global,
    inst: &Instance,
    pool: &ShorePool,
    sets: &[PriceSet],
    dist: &Distances,
    tree: &Tree,
    cost: u64,
) -> Result<u64, Memory>
    requires problem { dist.now.problem ≡ inst.now }
    requires prices { dist.now.prices ≡ costs_of inst.now }
    requires nodes { AreTreeNodes inst.now pool.now tree.now.nodes }
    requires shows { WouldShowSome (record { problem = inst.now; pool = pool.now; sets = sets.now }) tree.now.nodes }
    requires shores { HasShores (record { problem = inst.now; pool = pool.now; sets = sets.now }) }
    requires small { cost < 10 ^ 18 }
    ensures { IfOk result (IsGreatestShown (record { problem = inst.now; pool = pool.now; sets = sets.now }) cost tree.now.nodes) }
{
    nodes_show_their_tree();
    let given = Given {
        inst,
        pool,
        sets,
        dist,
    };
    let least = least_shown(alloc, &given, tree)?;
    Ok(cost.min(least))
}

// The least of the greatest bounds that the nodes of a tree show.
fn least_shown(alloc: Global, given: &Given<'_>, tree: &Tree) -> Result<u64, Memory>
    requires given { IsGiven given.now }
    requires inside { All (IsNodeIn given.now.inst.now given.now.pool.now) tree.now.nodes }
    requires fine { All IsFineNode tree.now.nodes }
    requires shows { WouldShowSome (support_in given.now) tree.now.nodes }
    ensures { IfOk result (IsLeastShown (support_in given.now) tree.now.nodes) }
{
    let mut path = Path::new(alloc);
    let mut least = u64::MAX;
    for place in 0..tree.len() {
        least = bound_node(alloc, given, tree, place, &mut path, least)?;
    }
    Ok(least)
}

// The least of a number and of the greatest bound that the node at a place shows. The path goes past the node.
fn bound_node(
    alloc: Global,
    given: &Given<'_>,
    tree: &Tree,
    place: usize,
    path: &mut Path,
    least: u64,
) -> Result<u64, Memory>
    requires given { IsGiven given.now }
    requires inside { All (IsNodeIn given.now.inst.now given.now.pool.now) tree.now.nodes }
    requires fine { All IsFineNode tree.now.nodes }
    requires place { place < length tree.now.nodes }
    requires at { BoundsAt (support_in given.now) tree.now.nodes place path.old least }
    ensures { IfOk result (BoundsAt (support_in given.now) tree.now.nodes (place + 1) path.new) }
{
    let node = tree.node(place);
    let shown = shown_by(alloc, given, path.branch(), &node)?;
    path.pass(&node)?;
    Ok(least.min(shown))
}

// The greatest bound that a node shows by itself. An inner node and a void leaf show each bound.
pub(crate) fn shown_by(
    alloc: Global,
    given: &Given<'_>,
    branch: &Branch,
    node: &Node,
) -> Result<u64, Memory>
    requires given { IsGiven given.now }
    requires pairs { ArePairsIn given.now.inst.now branch.now }
    requires some { NodeWouldShowSome (support_in given.now) branch.now node.now }
    ensures shown { IfOk result (ShowsUpTo (support_in given.now) (record { branch = branch.now; node = node.now })) }
    ensures value { OnOk result (NodeHasValue given.now.inst.now branch.now node.now) }
{
    match *node {
        Node::Pair { .. } => Ok(u64::MAX),
        Node::Cut { .. } => Ok(u64::MAX),
        Node::Price { set } => Ok(shown_by_set(given, branch, set)),
        Node::Void => Ok(u64::MAX),
        Node::Fixed => fixed_value(alloc, given, branch),
    }
}

// The greatest bound that a price leaf shows.
fn shown_by_set(given: &Given<'_>, branch: &Branch, set: u32) -> u64
    requires given { IsGiven given.now }
    requires some { PriceShowsSome (support_in given.now) branch.now set }
    ensures { PriceShowsUpTo (support_in given.now) branch.now set result }
{
    shown_under(given.inst, given.pool, branch, given.set(set))
}

// The fixed value of a fixed branch. If that does not fit, it is the greatest number.
fn fixed_value(alloc: Global, given: &Given<'_>, branch: &Branch) -> Result<u64, Memory>
    requires given { IsGiven given.now }
    requires pairs { ArePairsIn given.now.inst.now branch.now }
    requires fixed { IsFixed given.now.inst.now given.now.pool.now branch.now }
    ensures shown { IfOk result (FixedShowsUpTo (support_in given.now) branch.now) }
    ensures value { OnOk result (HasSomeValue given.now.inst.now branch.now) }
{
    fixed_values_compare();
    let plan = branch.fixed_plan(alloc, given.inst, given.pool, given.dist)?;
    let cost = lawful_cost(alloc, given.inst, &plan)?;
    Ok(cost.min(u128::from(u64::MAX)) as u64)
}
