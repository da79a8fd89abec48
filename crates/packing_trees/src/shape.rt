// Whether nodes are one tree whose pairs fit.
ghost use Rattle.std.specs.Prelude.{◌≡◌, ◌^◌, ◌<◌, ◌≤◌, ◌↔◌, IsTrue, MatchOption, length};
ghost use Rattle.packing_trees.specs.Bundles.{IsPair};
ghost use Rattle.packing_trees.specs.Layers.{Fills, FitsSay, ShapeSays, subtrees_after};
ghost use Rattle.packing_trees.specs.Reasons.{NodeFits, NotWholeAt};

use crate::{PackNode, PackReason};
use carp_base::Instance;

/// The first reason why the nodes are not one whole tree, or why their pairs are not of two required edges, the lesser one
/// first. It takes time in proportion to the nodes.
pub(crate) fn shape_reason(inst: &Instance, nodes: &[PackNode]) -> Option<PackReason>
    requires { length nodes.now < 2 ^ 32 }
    ensures { ShapeSays inst.now nodes.now result }
{
    if let Some(node) = first_not_whole(nodes) {
        return Some(PackReason::NotWhole { node });
    }
    match first_unfit(inst, nodes) {
        Some(node) => Some(PackReason::Misfit { node }),
        None => None,
    }
}

// After how many nodes the tree is whole, where more nodes come, or how many nodes there are, where it is not whole then.
fn first_not_whole(nodes: &[PackNode]) -> Option<u64>
    requires { length nodes.now < 2 ^ 32 }
    ensures { MatchOption result (Fills 1 nodes.now) (NotWholeAt 1 0 nodes.now) }
{
    let mut subtrees = 1;
    for (i, node) in nodes.iter().enumerate() {
        if subtrees == 0 {
            return Some(i as u64);
        }
        subtrees = open_after(subtrees, node);
    }
    if subtrees == 0 {
        None
    } else {
        Some(nodes.len() as u64)
    }
}

// How many subtrees are still to come after a node.
fn open_after(subtrees: u64, node: &PackNode) -> u64
    requires some { 1 ≤ subtrees }
    requires few { subtrees < 2 ^ 40 }
    ensures { result ≡ subtrees_after subtrees node.now }
{
    match *node {
        PackNode::Pair { .. } => subtrees + 1,
        PackNode::Share { .. } => subtrees - 1,
        PackNode::Apart => subtrees - 1,
    }
}

// The first node that does not fit, by its number from 1.
fn first_unfit(inst: &Instance, nodes: &[PackNode]) -> Option<u64>
    requires { length nodes.now < 2 ^ 32 }
    ensures { FitsSay inst.now nodes.now result }
{
    for (i, node) in nodes.iter().enumerate() {
        if !fits(inst, node) {
            return Some(i as u64 + 1);
        }
    }
    None
}

// Whether a pair is of two required edges, the lesser one first.
fn fits(inst: &Instance, node: &PackNode) -> bool
    ensures { IsTrue result ↔ NodeFits inst.now node.now }
{
    match *node {
        PackNode::Pair { a, b } => is_pair(inst, a, b),
        PackNode::Share { .. } => true,
        PackNode::Apart => true,
    }
}

// Whether the numbers are of two required edges, the lesser one first.
fn is_pair(inst: &Instance, a: u32, b: u32) -> bool
    ensures { IsTrue result ↔ IsPair inst.now a b }
{
    1 <= a && a < b && b <= inst.required()
}
