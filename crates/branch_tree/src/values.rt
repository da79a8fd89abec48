// What price sets show under a branch.
ghost use Rattle.std.specs.Prelude.{◌≤◌, All};
ghost use Rattle.branch_rules.specs.Decisions.{rules_of};
ghost use Rattle.branch_rules.specs.Laws.{FitsBranch};
ghost use Rattle.branch_rules.specs.Limits.{IsShoreOf};
ghost use Rattle.branch_rules.specs.Prices.{value_of};
ghost use Rattle.grown_trees.specs.Values.{IsMostShown, IsShown};

use branch_rules::{Branch, PriceSet};
use carp_base::Instance;
use cut_pool::ShorePool;

// The greatest bound that a price set that shows 0 there shows under a branch under which it fits.
pub(crate) fn shown_under(inst: &Instance, pool: &ShorePool, branch: &Branch, set: &PriceSet) -> u64
    requires shores { All (λ w. IsShoreOf inst.now pool.now w.shore) set.now.weights }
    requires fits { FitsBranch inst.now pool.now branch.now set.now }
    requires some { 1 ≤ set.now.unit → IsShown set.now.unit (value_of (rules_of inst.now pool.now branch.now) set.now) 0 }
    ensures shown { IsMostShown set.now.unit (value_of (rules_of inst.now pool.now branch.now) set.now) result }
    ensures unit { 1 ≤ set.now.unit }
{
    // What a read of the set says of it is needed: that its denominator is at least 1.
    let _ = set.unit();
    grown_trees::shown_under(inst, pool, branch, set)
}
