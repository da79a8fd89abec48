// How a leaf is split.
ghost use Rattle.std.specs.Prelude.{◌-◌, ◌+◌, IfOk, IfSome, IsFalse, IsTrue, MatchOption};
ghost use Rattle.carp_base.specs.Problem.{IsRequired};
ghost use Rattle.decision_chains.specs.Exclusions.{IsDetermined, PermitsUnexcluded};
ghost use Rattle.decision_chains.specs.Pairs.{ArePairsIn};
ghost use Rattle.branch_rules.specs.Decisions.{cuts_of, IsFixed, IsVoid};
ghost use Rattle.branch_rules.specs.Limits.{IsNodeIn};
ghost use Rattle.branch_rules.specs.Trees.{IsLeanNode};
ghost use Rattle.grown_trees.specs.Growth.{IsSpelledNode};
ghost use Rattle.grown_trees.specs.Places.{IsFineNode};
ghost use Rattle.branch_tree.specs.Splits.{AreSettledBelow, IsInner, IsOpenPair, IsSettledBelow};
ghost use Rattle.branch_tree.specs.Steps.{IsShortCut};

use branch_rules::{Branch, Node, is_shore_of};
use carp_base::{Allowed, Instance, Memory};
use cut_pool::ShorePool;
use decision_chains::{excluded_is_symmetric, is_pair, yes_pairs_join};
use std::alloc::Global;

// The greatest number of a cut that a search takes, so that no line of a certificate is long.
const MOST_CUT: u64 = 999;

// A node that splits a branch that is neither void nor fixed: the one that is proposed, if it may stand, and else the
// first pair of edges that is not determined.
pub(crate) fn choose_split(
    alloc: Global,
    inst: &Instance,
    pool: &ShorePool,
    branch: &Branch,
    proposed: Option<Node>,
) -> Result<Node, Memory>
    requires pairs { ArePairsIn inst.now branch.now }
    requires not_void { ¬ (IsVoid inst.now pool.now branch.now) }
    requires not_fixed { ¬ (IsFixed inst.now pool.now branch.now) }
    ensures inner { IfOk result IsInner }
    ensures inside { IfOk result (IsNodeIn inst.now pool.now) }
    ensures fine { IfOk result IsFineNode }
    ensures spelled { IfOk result (IsSpelledNode 0) }
    ensures short { IfOk result IsShortCut }
    ensures lean { IfOk result (IsLeanNode inst.now pool.now branch.now (4 - cuts_of branch.now)) }
{
    yes_pairs_join();
    excluded_is_symmetric();
    match lean_proposal(alloc, inst, pool, branch, proposed)? {
        Some(node) => Ok(node),
        None => the_open_pair(alloc, inst, branch),
    }
}

// The node that is proposed, if it may stand under a branch.
fn lean_proposal(
    alloc: Global,
    inst: &Instance,
    pool: &ShorePool,
    branch: &Branch,
    proposed: Option<Node>,
) -> Result<Option<Node>, Memory>
    requires pairs { ArePairsIn inst.now branch.now }
    ensures inner { IfOk result (λ found. IfSome found IsInner) }
    ensures inside { IfOk result (λ found. IfSome found (IsNodeIn inst.now pool.now)) }
    ensures fine { IfOk result (λ found. IfSome found IsFineNode) }
    ensures spelled { IfOk result (λ found. IfSome found (IsSpelledNode 0)) }
    ensures short { IfOk result (λ found. IfSome found IsShortCut) }
    ensures lean { IfOk result (λ found. IfSome found (IsLeanNode inst.now pool.now branch.now (4 - cuts_of branch.now))) }
{
    match proposed {
        Some(node) => if_lean(alloc, inst, pool, branch, node),
        None => Ok(None),
    }
}

// A node, if it is an inner one of the instance and the pool, within the limits, and may stand under a branch.
fn if_lean(
    alloc: Global,
    inst: &Instance,
    pool: &ShorePool,
    branch: &Branch,
    node: Node,
) -> Result<Option<Node>, Memory>
    requires pairs { ArePairsIn inst.now branch.now }
    ensures inner { IfOk result (λ found. IfSome found IsInner) }
    ensures inside { IfOk result (λ found. IfSome found (IsNodeIn inst.now pool.now)) }
    ensures fine { IfOk result (λ found. IfSome found IsFineNode) }
    ensures spelled { IfOk result (λ found. IfSome found (IsSpelledNode 0)) }
    ensures short { IfOk result (λ found. IfSome found IsShortCut) }
    ensures lean { IfOk result (λ found. IfSome found (IsLeanNode inst.now pool.now branch.now (4 - cuts_of branch.now))) }
{
    if !is_inner_in(inst, pool, &node) {
        return Ok(None);
    }
    let may = branch.lean(alloc, inst, pool, &node)?;
    if may { Ok(Some(node)) } else { Ok(None) }
}

// Whether a node is an inner one of the instance and the pool, within the limits.
fn is_inner_in(inst: &Instance, pool: &ShorePool, node: &Node) -> bool
    ensures inner { IsTrue result → IsInner node.now }
    ensures inside { IsTrue result → IsNodeIn inst.now pool.now node.now }
    ensures fine { IsTrue result → IsFineNode node.now }
    ensures spelled { IsTrue result → IsSpelledNode 0 node.now }
    ensures short { IsTrue result → IsShortCut node.now }
{
    match *node {
        Node::Pair { a, b } => a < b && is_pair(inst, a, b),
        Node::Cut { shore, k } => k <= MOST_CUT && is_shore_of(inst, pool, shore),
        _ => false,
    }
}

// The first pair that is not determined. There is one.
fn the_open_pair(alloc: Global, inst: &Instance, branch: &Branch) -> Result<Node, Memory>
    requires pairs { ArePairsIn inst.now branch.now }
    requires some { ¬ (AreSettledBelow inst.now branch.now (inst.now.required + 1)) }
    ensures { IfOk result (IsOpenPair inst.now branch.now) }
{
    let found = open_pair(alloc, inst, branch)?;
    match found {
        Some(node) => Ok(node),
        None => unreachable!(),
    }
}

// The first pair of required edges that is not determined, if there is one.
fn open_pair(alloc: Global, inst: &Instance, branch: &Branch) -> Result<Option<Node>, Memory>
    requires pairs { ArePairsIn inst.now branch.now }
    ensures { IfOk result (λ found. MatchOption found (AreSettledBelow inst.now branch.now (inst.now.required + 1)) (IsOpenPair inst.now branch.now)) }
{
    let allowed = branch.allowed(alloc, inst)?;
    let last = inst.required();
    for a in 1..last + 1 {
        let found = open_pair_of(alloc, inst, branch, &allowed, a)?;
        if let Some(node) = found {
            return Ok(Some(node));
        }
    }
    Ok(None)
}

// The first pair of an edge and a later one that is not determined, if there is one.
fn open_pair_of(
    alloc: Global,
    inst: &Instance,
    branch: &Branch,
    allowed: &Allowed,
    a: u32,
) -> Result<Option<Node>, Memory>
    requires pairs { ArePairsIn inst.now branch.now }
    requires allowed { PermitsUnexcluded inst.now branch.now allowed.now }
    requires a { IsRequired inst.now a }
    ensures { IfOk result (λ found. MatchOption found (IsSettledBelow inst.now branch.now a (inst.now.required + 1)) (IsOpenPair inst.now branch.now)) }
{
    let last = inst.required();
    for b in a + 1..last + 1 {
        let free = is_open(alloc, inst, branch, allowed, a, b)?;
        if free {
            return Ok(Some(Node::Pair { a, b }));
        }
    }
    Ok(None)
}

// Whether a pair is not determined. The table of allowed pairs tells most of it.
fn is_open(
    alloc: Global,
    inst: &Instance,
    branch: &Branch,
    allowed: &Allowed,
    a: u32,
    b: u32,
) -> Result<bool, Memory>
    requires pairs { ArePairsIn inst.now branch.now }
    requires allowed { PermitsUnexcluded inst.now branch.now allowed.now }
    requires a { IsRequired inst.now a }
    requires b { IsRequired inst.now b }
    ensures yes { IfOk result (λ free. IsTrue free → ¬ (IsDetermined inst.now branch.now a b)) }
    ensures no { IfOk result (λ free. IsFalse free → IsDetermined inst.now branch.now a b) }
{
    if !allowed.may(a, b) {
        return Ok(false);
    }
    let settled = branch.determined(alloc, inst, a, b)?;
    Ok(!settled)
}
