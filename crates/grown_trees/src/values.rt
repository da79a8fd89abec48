// What price sets show under a branch.
ghost use Rattle.std.specs.Prelude.{◌≤◌, All};
ghost use Rattle.decision_chains.specs.Exclusions.{Excluded};
ghost use Rattle.branch_rules.specs.Decisions.{rules_of};
ghost use Rattle.branch_rules.specs.Limits.{IsShoreOf};
ghost use Rattle.branch_rules.specs.Prices.{Fits, value_of};
ghost use Rattle.grown_trees.specs.Values.{IsMostShown, IsShown};

use branch_rules::{Branch, PriceSet};
use carp_base::Instance;
use cut_pool::ShorePool;

/// The greatest bound that a price set shows under a branch under which it fits: its value divided by its denominator,
/// rounded up. If that is 10^18 or more, the answer is some number of at least 10^18. It is never below 0, since the
/// bound 0 is always shown.
///
/// It takes no memory, and time as [`Branch::value_at`] does.
pub fn shown_under(inst: &Instance, pool: &ShorePool, branch: &Branch, set: &PriceSet) -> u64
    requires shores { All (λ w. IsShoreOf inst.now pool.now w.shore) set.now.weights }
    requires fits { Fits inst.now pool.now (rules_of inst.now pool.now branch.now) (λ a b. ¬ (Excluded inst.now branch.now a b)) set.now }
    requires some { IsShown set.now.unit (value_of (rules_of inst.now pool.now branch.now) set.now) 0 }
    ensures shown { IsMostShown set.now.unit (value_of (rules_of inst.now pool.now branch.now) set.now) result }
    ensures unit { 1 ≤ set.now.unit }
{
    match branch.value_at(inst, pool, set) {
        Ok(value) => rounded_up(value, set.unit()),
        Err(_) => unreachable!(),
    }
}

// A value divided by a unit, rounded up, or 0 for a value below 0. If that does not fit, it is the greatest number.
fn rounded_up(value: i128, unit: u64) -> u64
    requires some { IsShown unit value 0 }
    requires unit { 1 ≤ unit }
    ensures { IsMostShown unit value result }
{
    if value <= 0 {
        return 0;
    }
    let shown = value.unsigned_abs().div_ceil(u128::from(unit));
    shown.min(u128::from(u64::MAX)) as u64
}
