// A tree that is carried over to another instance, node by node.
ghost use Rattle.std.specs.Prelude.{◌+◌, ◌^◌, ◌<◌, ◌≤◌, ◌↔◌, IfOk, IsTrue, length};
ghost use Rattle.std.specs.List.{All};
ghost use Rattle.decision_chains.specs.Pairs.{ArePairsIn};
ghost use Rattle.branch_rules.specs.Limits.{IsNodeIn};
ghost use Rattle.grown_trees.specs.Places.{IsFineNode};
ghost use Rattle.tree_transfer.specs.Carrying.{CarriesAt, GivesWay, LiesBehind, Opens};
ghost use Rattle.tree_transfer.specs.Shown.{AreCarried, AreTreeNodes};

use branch_rules::{Branch, Node, Path, Tree};
use carp_base::{Instance, Memory};
use cut_pool::ShorePool;
use std::alloc::Global;

/// The tree of an older instance carried over. A node whose pair is excluded under the decisions that are left gives
/// way to its second child, and so does a cut whose number is below the lower number of its shore. All other nodes
/// stay. The only error is want of memory.
///
/// With n nodes, m required edges and at most d decisions on a path it takes time in proportion to n (m * m + d), and
/// memory for n nodes.
pub fn carry_tree(
    alloc: Global,
    inst: &Instance,
    pool: &ShorePool,
    tree: &Tree,
) -> Result<Tree, Memory>
    requires { AreTreeNodes inst.now pool.now tree.now.nodes }
    ensures carried { IfOk result (λ new. AreCarried inst.now pool.now tree.now.nodes new.nodes) }
    ensures inside { IfOk result (λ new. AreTreeNodes inst.now pool.now new.nodes) }
    ensures no_more { IfOk result (λ new. length new.nodes ≤ length tree.now.nodes) }
{
    let mut carried = Tree::new(alloc, tree.len())?;
    let mut path = Path::new(alloc);
    let mut place = 0;
    while place < tree.len() {
        place = carry_node(alloc, inst, pool, tree, place, &mut path, &mut carried)?;
    }
    Ok(carried)
}

// Carries the node at a place over, or leaves it out with its first subtree, and answers the place of the next one.
fn carry_node(
    alloc: Global,
    inst: &Instance,
    pool: &ShorePool,
    tree: &Tree,
    place: usize,
    path: &mut Path,
    carried: &mut Tree,
) -> Result<usize, Memory>
    requires place { place < length tree.now.nodes }
    requires small { place + 1 < 2 ^ 64 }
    requires inside { All (IsNodeIn inst.now pool.now) tree.now.nodes }
    requires fine { All IsFineNode tree.now.nodes }
    requires at { CarriesAt inst.now pool.now tree.now.nodes place path.old carried.old }
    ensures at { IfOk result (λ next. CarriesAt inst.now pool.now tree.now.nodes next path.new carried.new) }
    ensures on { IfOk result (λ next. place < next) }
{
    let node = tree.node(place);
    if gives_way(alloc, inst, pool, path.branch(), &node)? {
        return Ok(behind(tree, place + 1));
    }
    path.pass(&node)?;
    carried.put_node(node);
    Ok(place + 1)
}

// Whether a node gives way to its second child.
fn gives_way(
    alloc: Global,
    inst: &Instance,
    pool: &ShorePool,
    branch: &Branch,
    node: &Node,
) -> Result<bool, Memory>
    requires pairs { ArePairsIn inst.now branch.now }
    requires node { IsNodeIn inst.now pool.now node.now }
    ensures { IfOk result (λ gives. IsTrue gives ↔ GivesWay inst.now pool.now branch.now node.now) }
{
    match *node {
        Node::Pair { a, b } => branch.excluded(alloc, inst, a, b),
        Node::Cut { shore, k } => Ok(k < branch.lower(inst, pool, shore)),
        Node::Price { .. } => Ok(false),
        Node::Void => Ok(false),
        Node::Fixed => Ok(false),
    }
}

// The place behind the subtree that begins at a place.
fn behind(tree: &Tree, from: usize) -> usize
    requires from_one { 1 ≤ from }
    requires within { from ≤ length tree.now.nodes }
    ensures behind { LiesBehind tree.now.nodes from result }
    ensures within { result ≤ length tree.now.nodes }
    ensures on { from ≤ result }
{
    let mut left = 1;
    for place in from..tree.len() {
        if left == 0 {
            return place;
        }
        left = open_after(left, &tree.node(place));
    }
    tree.len()
}

// How many subtrees are open after a node, if so many were open before it.
fn open_after(before: usize, node: &Node) -> usize
    requires some { 1 ≤ before }
    requires small { before + 1 < 2 ^ 64 }
    ensures { Opens before node.now result }
{
    match *node {
        Node::Pair { .. } => before + 1,
        Node::Cut { .. } => before + 1,
        Node::Price { .. } => before - 1,
        Node::Void => before - 1,
        Node::Fixed => before - 1,
    }
}
