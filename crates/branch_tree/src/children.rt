// What a price set shows under both decisions of an inner node.
ghost use Rattle.std.specs.Prelude.{◌≡◌, ◌≤◌, ◌++◌, ◌∷◌, [], All, IfOk};
ghost use Rattle.branch_rules.specs.Decisions.{rules_of};
ghost use Rattle.branch_rules.specs.Laws.{FitsBranch};
ghost use Rattle.branch_rules.specs.Limits.{IsFineDecision, IsShoreOf};
ghost use Rattle.branch_rules.specs.Prices.{value_of};
ghost use Rattle.grown_trees.specs.Laws.{IsOpenDecision};
ghost use Rattle.branch_tree.specs.Leaves.{AreShown, IsSplitNode};
ghost use Rattle.grown_trees.specs.Values.{IsMostShown, IsShown};

use crate::laws::known_laws;
use crate::values::shown_under;
use branch_rules::{Branch, Decision, Node, PriceSet};
use carp_base::{Instance, Memory};
use cut_pool::ShorePool;

// The greatest bounds that a price set shows under the decisions of both children of a node.
#[derive(Clone, Copy, Debug, PartialEq, Eq)]
pub(crate) struct Children {
    pub(crate) first: u64,
    pub(crate) second: u64,
}

// The greatest bounds that a price set, which fits under a branch, shows under the decisions of both children of a
// node. Afterwards the branch is as it was.
pub(crate) fn children_show(
    inst: &Instance,
    pool: &ShorePool,
    branch: &mut Branch,
    node: &Node,
    set: &PriceSet,
) -> Result<Children, Memory>
    requires node { IsSplitNode inst.now pool.now branch.old node.now }
    requires shores { All (λ w. IsShoreOf inst.now pool.now w.shore) set.now.weights }
    requires fits { FitsBranch inst.now pool.now branch.old set.now }
    requires some { 1 ≤ set.now.unit → IsShown set.now.unit (value_of (rules_of inst.now pool.now branch.old) set.now) 0 }
    ensures shown { IfOk result (AreShown inst.now pool.now branch.old set.now node.now) }
    ensures same { branch.new ≡ branch.old }
{
    let first = shown_after(inst, pool, branch, node.first_decision(), set)?;
    let second = shown_after(inst, pool, branch, node.second_decision(), set)?;
    Ok(Children { first, second })
}

// The greatest bound that a price set, which fits under a branch, shows under one more decision.
fn shown_after(
    inst: &Instance,
    pool: &ShorePool,
    branch: &mut Branch,
    decision: Decision,
    set: &PriceSet,
) -> Result<u64, Memory>
    requires fine { IsFineDecision decision }
    requires undecided { IsOpenDecision inst.now branch.old decision }
    requires shores { All (λ w. IsShoreOf inst.now pool.now w.shore) set.now.weights }
    requires fits { FitsBranch inst.now pool.now branch.old set.now }
    requires some { 1 ≤ set.now.unit → IsShown set.now.unit (value_of (rules_of inst.now pool.now branch.old) set.now) 0 }
    ensures shown { IfOk result (IsMostShown set.now.unit (value_of (rules_of inst.now pool.now (branch.old ++ decision ∷ [])) set.now)) }
    ensures same { branch.new ≡ branch.old }
{
    known_laws();
    branch.push(decision)?;
    let shown = shown_under(inst, pool, branch, set);
    branch.pop();
    Ok(shown)
}
