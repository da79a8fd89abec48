// The decisions of a split, and the branches of its children.
ghost use Rattle.std.specs.Prelude.{IfOk, IfSome, IsTrue};
ghost use Rattle.branch_rules.specs.Limits.{AreShoresIn};
ghost use Rattle.decision_chains.specs.Pairs.{ArePairsIn};
ghost use Rattle.leaf_programs.specs.Splits.{IsDecisionIn};

use branch_rules::{Branch, Decision, MOST_K, Node, is_shore_of};
use carp_base::{Instance, Memory};
use cut_pool::ShorePool;
use decision_chains::is_pair;
use std::alloc::Global;

/// The decisions of both children of a node; none for a leaf, for a node on a pair that is not of required edges, and
/// for one on a shore that is not one of the instance in the pool.
pub(crate) fn decisions_in(
    inst: &Instance,
    pool: &ShorePool,
    node: &Node,
) -> Option<(Decision, Decision)>
    ensures first { IfSome result (λ both. IsDecisionIn inst.now pool.now both.0) }
    ensures second { IfSome result (λ both. IsDecisionIn inst.now pool.now both.1) }
{
    let first = node.first_decision();
    let second = node.second_decision();
    if is_decision_in(inst, pool, &first) && is_decision_in(inst, pool, &second) {
        Some((first, second))
    } else {
        None
    }
}

// Whether a decision is on a pair of required edges, or on a shore of the instance that is in the pool.
fn is_decision_in(inst: &Instance, pool: &ShorePool, decision: &Decision) -> bool
    ensures { IsTrue result → IsDecisionIn inst.now pool.now decision.now }
{
    match *decision {
        Decision::Yes { a, b } => is_pair(inst, a, b),
        Decision::No { a, b } => is_pair(inst, a, b),
        Decision::Low { shore, k } => k <= MOST_K && is_shore_of(inst, pool, shore),
        Decision::High { shore, k } => k <= MOST_K && is_shore_of(inst, pool, shore),
    }
}

/// A branch with one more decision.
pub(crate) fn child_of(
    alloc: Global,
    inst: &Instance,
    pool: &ShorePool,
    branch: &Branch,
    decision: Decision,
) -> Result<Branch, Memory>
    requires pairs { ArePairsIn inst.now branch.now }
    requires shores { AreShoresIn inst.now pool.now branch.now }
    requires decision { IsDecisionIn inst.now pool.now decision }
    ensures pairs { IfOk result (ArePairsIn inst.now) }
    ensures shores { IfOk result (AreShoresIn inst.now pool.now) }
{
    let mut child = branch.copy(alloc)?;
    child.push(decision)?;
    Ok(child)
}

/// The last decision of a branch.
pub(crate) fn last_of(branch: &Branch) -> Option<Decision> {
    let decisions = branch.decisions();
    if decisions.is_empty() {
        None
    } else {
        Some(decisions[decisions.len() - 1])
    }
}
