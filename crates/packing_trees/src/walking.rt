// The nodes of a tree, one after another.
ghost use Rattle.std.specs.Prelude.{◌≡◌, ℕ, ◌^◌, ◌<◌, ◌++◌, List, All, IfOk, length};
ghost use Rattle.carp_base.specs.Problem.{Problem};
ghost use Rattle.packing_trees.specs.Bundles.{AreBundles, HasBundles, IsChoice, IsPair};
ghost use Rattle.packing_trees.specs.Layers.{NodeSays, NodesSay, seconds_of, waits};
ghost use Rattle.packing_trees.specs.Reasons.{NodeFits, branches_below};
ghost use Rattle.packing_trees.specs.declared.node.PackChoice.{PackChoice};
ghost use Rattle.packing_trees.specs.declared.node.PackNode.TheVariants as kinds;

use crate::{
    Bundles, PackChoice, PackNode, PackReason, all_closed, bundle_count, bundles_of, is_closed,
    share_value,
};
use carp_base::{Instance, Memory};
use std::alloc::Global;

/// The first reason why a node is not as it should be, if one is not.
///
/// Each node takes the time of its bundles, and for a leaf `Apart` that of looking at all of them. One branch is held,
/// whatever the tree.
pub(crate) fn nodes_reason(
    alloc: Global,
    inst: &Instance,
    bound: u32,
    nodes: &[PackNode],
) -> Result<Option<PackReason>, Memory>
    requires few { length nodes.now < 2 ^ 32 }
    requires fit { All (NodeFits inst.now) nodes.now }
    ensures { IfOk result (NodesSay inst.now bound nodes.now) }
{
    // A together choice says that its second child is still to be read.
    let mut branch = Vec::new(alloc);
    for (i, node) in nodes.iter().enumerate() {
        let reason = node_reason(alloc, inst, bound, &branch, node, i as u64 + 1)?;
        if reason.is_some() {
            return Ok(reason);
        }
        if !pass(&mut branch, node)? {
            return Ok(None);
        }
    }
    Ok(None)
}

// Goes past a node: to its first child, or after a leaf to the nearest second child that is still to be read. Whether there
// is one.
fn pass(branch: &mut Vec<PackChoice>, node: &PackNode) -> Result<bool, Memory>
    ensures waits { IfOk result (λ goes. branches_below branch.old.items node.now ++ seconds_of branch.old.items ≡ waits goes branch.new.items) }
    ensures choices { IfOk result (λ goes. (p : Problem) → NodeFits p node.now → All (IsChoice p) branch.old.items → All (IsChoice p) branch.new.items) }
{
    match *node {
        PackNode::Pair { a, b } => enter(branch, a, b),
        PackNode::Share { .. } => leave(branch),
        PackNode::Apart => leave(branch),
    }
}

// Goes to the first child of a pair.
#[tactic(auto, using(crate::proofs::Passing::entered))]
fn enter(branch: &mut Vec<PackChoice>, a: u32, b: u32) -> Result<bool, Memory>
    ensures waits { IfOk result (λ goes. branches_below branch.old.items (kinds.Pair a b) ++ seconds_of branch.old.items ≡ waits goes branch.new.items) }
    ensures choices { IfOk result (λ goes. (p : Problem) → IsPair p a b → All (IsChoice p) branch.old.items → All (IsChoice p) branch.new.items) }
{
    branch.push(PackChoice::Together { a, b })?;
    Ok(true)
}

// Goes to the nearest second child that is still to be read. Whether there is one.
fn leave(branch: &mut Vec<PackChoice>) -> Result<bool, Memory>
    ensures waits { IfOk result (λ goes. seconds_of branch.old.items ≡ waits goes branch.new.items) }
    ensures choices { IfOk result (λ goes. (p : Problem) → All (IsChoice p) branch.old.items → All (IsChoice p) branch.new.items) }
{
    while let Some(choice) = branch.pop() {
        if let PackChoice::Together { a, b } = choice {
            branch.push(PackChoice::Apart { a, b })?;
            return Ok(true);
        }
    }
    Ok(false)
}

// Why a node of this number is not as it should be under its branch, if it is not.
fn node_reason(
    alloc: Global,
    inst: &Instance,
    bound: u32,
    branch: &[PackChoice],
    node: &PackNode,
    number: u64,
) -> Result<Option<PackReason>, Memory>
    requires choices { All (IsChoice inst.now) branch.now }
    requires fits { NodeFits inst.now node.now }
    ensures { IfOk result (NodeSays inst.now bound number branch.now node.now) }
{
    let bundles = bundles_of(alloc, inst, branch)?;
    match *node {
        PackNode::Pair { a, b } => Ok(pair_reason(inst, &bundles, branch, a, b, number)),
        PackNode::Share { s } => Ok(share_reason(inst, bound, &bundles, s, number)),
        PackNode::Apart => apart_reason(alloc, inst, bound, &bundles, branch, number),
    }
}

// Why a pair is not as it should be.
fn pair_reason(
    inst: &Instance,
    bundles: &Bundles,
    branch: &[PackChoice],
    a: u32,
    b: u32,
    node: u64,
) -> Option<PackReason>
    requires bundles { AreBundles inst.now branch.now bundles.now.labels.items bundles.now.weights.items }
    requires choices { All (IsChoice inst.now) branch.now }
    requires pair { IsPair inst.now a b }
    ensures { (bound : ℕ) → NodeSays inst.now bound node branch.now (kinds.Pair a b) result }
{
    if is_closed(inst, bundles, branch, a, b) {
        return Some(PackReason::NotLean { node });
    }
    None
}

// Why a share is not as it should be.
fn share_reason(
    inst: &Instance,
    bound: u32,
    bundles: &Bundles,
    s: u64,
    node: u64,
) -> Option<PackReason>
    requires { HasBundles inst.now bundles.now.labels.items bundles.now.weights.items }
    ensures { (branch : List PackChoice) → AreBundles inst.now branch bundles.now.labels.items bundles.now.weights.items → NodeSays inst.now bound node branch (kinds.Share s) result }
{
    if s > inst.capacity() / 2 {
        return Some(PackReason::ShareWrong { node });
    }
    let value = share_value(inst, bundles, s);
    if value < u64::from(bound) {
        return Some(PackReason::LeafLow { node, value });
    }
    None
}

// Why a leaf in which no two bundles can share a group is not as it should be.
fn apart_reason(
    alloc: Global,
    inst: &Instance,
    bound: u32,
    bundles: &Bundles,
    branch: &[PackChoice],
    node: u64,
) -> Result<Option<PackReason>, Memory>
    requires bundles { AreBundles inst.now branch.now bundles.now.labels.items bundles.now.weights.items }
    requires choices { All (IsChoice inst.now) branch.now }
    ensures { IfOk result (NodeSays inst.now bound node branch.now kinds.Apart) }
{
    if !all_closed(alloc, inst, bundles, branch)? {
        return Ok(Some(PackReason::NotApart { node }));
    }
    let count = bundle_count(inst, bundles);
    if count < bound {
        return Ok(Some(PackReason::LeafLow {
            node,
            value: u64::from(count),
        }));
    }
    Ok(None)
}
