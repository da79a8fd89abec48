// The nodes of a tree, one after another.
ghost use Rattle.std.specs.Prelude.{◌≡◌, ◌+◌, ◌-◌, ◌^◌, ◌<◌, ◌≤◌, ◌++◌, ◌∷◌, [], List, IfOk, OnOk, None};
ghost use Rattle.decision_chains.specs.Pairs.{ArePairsIn};
ghost use Rattle.branch_rules.specs.Limits.{AreShoresIn, IsShoreOf};
ghost use Rattle.branch_rules.specs.declared.node.Node.{Node};
ghost use Rattle.branch_rules.specs.declared.node.Node.TheVariants as nodes;
ghost use Rattle.cert_checker.specs.Claims.{IsBacked, IsNodeRead, support_in};
ghost use Rattle.cert_checker.specs.Leaves.{AreLeaves, NodeSays};
ghost use Rattle.cert_checker.specs.Walks.{HasWalked, IsChecker};
ghost use Rattle.branch_rules.specs.Paths.{IsOpen};

use crate::claim::Claim;
use crate::leaves::Leaves;
use crate::{Part, Reason};
use branch_rules::{Branch, Node, Path};
use carp_base::{Instance, Memory};
use decision_chains::is_pair;
use std::alloc::Global;

/// What is known of the nodes so far: the first reason, or the path to the next node.
#[derive(Drop)]
pub(crate) struct Checker {
    path: Path,
    leaves: Leaves,
    taken: u64,
    pub(crate) reason: Option<Reason>,
}

impl Checker {
    /// No node was taken.
    pub(crate) fn new(alloc: Global, claim: &Claim<'_>) -> Result<Checker, Memory>
        ensures checker { IfOk result (IsChecker (support_in claim.now)) }
        ensures count { IfOk result (λ checker. checker.taken ≡ 0) }
        ensures walked { IfOk result (λ checker. HasWalked (support_in claim.now) claim.now.bound checker []) }
    {
        Ok(Checker {
            path: Path::new(alloc),
            leaves: Leaves::new(alloc, claim)?,
            taken: 0,
            reason: None,
        })
    }

    /// Tests the next node, unless there is a reason already.
    pub(crate) fn take(
        &mut self,
        alloc: Global,
        claim: &Claim<'_>,
        node: &Node,
    ) -> Result<(), Memory>
        requires checker { IsChecker (support_in claim.now) self.old }
        requires backed { IsBacked (support_in claim.now) }
        requires read { IsNodeRead (support_in claim.now) node.now }
        requires goes { self.old.reason ≡ None → IsOpen self.old.path }
        requires few { self.old.taken < 2 ^ 64 - 1 }
        ensures checker { OnOk result (IsChecker (support_in claim.now) self.new) }
        ensures count { OnOk result (self.new.taken ≤ self.old.taken + 1) }
        ensures walked { OnOk result ((taken : List Node) → HasWalked (support_in claim.now) claim.now.bound self.old taken → HasWalked (support_in claim.now) claim.now.bound self.new (taken ++ node.now ∷ [])) }
    {
        if self.reason.is_some() {
            return Ok(());
        }
        self.test(alloc, claim, node)
    }

    // Tests the next node, if there is no reason yet.
    fn test(&mut self, alloc: Global, claim: &Claim<'_>, node: &Node) -> Result<(), Memory>
        requires checker { IsChecker (support_in claim.now) self.old }
        requires backed { IsBacked (support_in claim.now) }
        requires read { IsNodeRead (support_in claim.now) node.now }
        requires none { self.old.reason ≡ None }
        requires goes { IsOpen self.old.path }
        requires few { self.old.taken < 2 ^ 64 - 1 }
        ensures checker { OnOk result (IsChecker (support_in claim.now) self.new) }
        ensures count { OnOk result (self.new.taken ≤ self.old.taken + 1) }
        ensures walked { OnOk result ((taken : List Node) → HasWalked (support_in claim.now) claim.now.bound self.old taken → HasWalked (support_in claim.now) claim.now.bound self.new (taken ++ node.now ∷ [])) }
    {
        self.taken += 1;
        let branch = self.path.branch();
        match reason_of(alloc, claim, &mut self.leaves, branch, node, self.taken)? {
            Some(reason) => {
                self.reason = Some(reason);
                Ok(())
            }
            None => self.path.pass(node),
        }
    }
}

// Why a node of this number is not as it should be under its branch, if it is not.
fn reason_of(
    alloc: Global,
    claim: &Claim<'_>,
    leaves: &mut Leaves,
    branch: &Branch,
    node: &Node,
    number: u64,
) -> Result<Option<Reason>, Memory>
    requires leaves { AreLeaves (support_in claim.now) leaves.old }
    requires backed { IsBacked (support_in claim.now) }
    requires pairs { ArePairsIn claim.now.inst.now branch.now }
    requires shores { AreShoresIn claim.now.inst.now claim.now.shores.now branch.now }
    requires read { IsNodeRead (support_in claim.now) node.now }
    ensures leaves { OnOk result (AreLeaves (support_in claim.now) leaves.new) }
    ensures says { IfOk result (NodeSays (support_in claim.now) claim.now.bound number branch.now node.now) }
{
    match *node {
        Node::Pair { a, b } => pair_reason(alloc, claim, branch, a, b, number),
        Node::Cut { shore, k } => cut_reason(alloc, claim, branch, shore, k, number),
        Node::Price { set } => leaves.price_reason(alloc, claim, branch, set, number),
        Node::Void => void_reason(alloc, claim, branch, number),
        Node::Fixed => leaves.fixed_reason(alloc, claim, branch, number),
    }
}

// Why a node that splits by a pair is not as it should be.
fn pair_reason(
    alloc: Global,
    claim: &Claim<'_>,
    branch: &Branch,
    a: u32,
    b: u32,
    node: u64,
) -> Result<Option<Reason>, Memory>
    requires pairs { ArePairsIn claim.now.inst.now branch.now }
    ensures { IfOk result (NodeSays (support_in claim.now) claim.now.bound node branch.now (nodes.Pair a b)) }
{
    if !is_pair(claim.inst, a, b) {
        return Ok(Some(Reason::Misfit(Part::Node(node))));
    }
    if branch.determined(alloc, claim.inst, a, b)? {
        return Ok(Some(Reason::NotLean { node }));
    }
    Ok(None)
}

// Why a node that splits by a cut is not as it should be.
fn cut_reason(
    alloc: Global,
    claim: &Claim<'_>,
    branch: &Branch,
    shore: u32,
    k: u64,
    node: u64,
) -> Result<Option<Reason>, Memory>
    requires pairs { ArePairsIn claim.now.inst.now branch.now }
    requires shore { IsShoreOf claim.now.inst.now claim.now.shores.now shore }
    ensures { IfOk result (NodeSays (support_in claim.now) claim.now.bound node branch.now (nodes.Cut shore k)) }
{
    let cut = Node::Cut { shore, k };
    if !branch.lean(alloc, claim.inst, claim.shores, &cut)? {
        return Ok(Some(Reason::NotLean { node }));
    }
    Ok(None)
}

// Why a leaf that says that its branch is void is not as it should be.
fn void_reason(
    alloc: Global,
    claim: &Claim<'_>,
    branch: &Branch,
    node: u64,
) -> Result<Option<Reason>, Memory>
    requires pairs { ArePairsIn claim.now.inst.now branch.now }
    requires shores { AreShoresIn claim.now.inst.now claim.now.shores.now branch.now }
    ensures { IfOk result (NodeSays (support_in claim.now) claim.now.bound node branch.now nodes.Void) }
{
    if !branch.void(alloc, claim.inst, claim.shores)? {
        return Ok(Some(Reason::NotVoid { node }));
    }
    Ok(None)
}
