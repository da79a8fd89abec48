// Values of price sets, compared as fractions.
ghost use Rattle.std.specs.Prelude.{◌≡◌, ◌≤◌, ◌*ℤ◌, ◌≤ℤ◌, pos, All, IsFalse, IsTrue};
ghost use Rattle.branch_rules.specs.Decisions.{rules_of};
ghost use Rattle.branch_rules.specs.Laws.{FitsBranch};
ghost use Rattle.branch_rules.specs.Limits.{IsShoreOf};
ghost use Rattle.branch_rules.specs.Prices.{value_of};
ghost use Rattle.dual_master.specs.Candidates.{IsValueWithin};

use branch_rules::{Branch, PriceSet};
use carp_base::Instance;
use cut_pool::ShorePool;

// The value of a set that fits under a branch, in parts of its denominator.
pub(crate) fn value_under(
    inst: &Instance,
    pool: &ShorePool,
    branch: &Branch,
    set: &PriceSet,
) -> i128
    requires shores { All (λ w. IsShoreOf inst.now pool.now w.shore) set.now.weights }
    requires fits { FitsBranch inst.now pool.now branch.now set.now }
    ensures value { result ≡ value_of (rules_of inst.now pool.now branch.now) set.now }
    ensures within { IsValueWithin result }
{
    // What reads of the instance, the branch and the set say is needed: that all are within their limits.
    inst.validity();
    let _ = branch.len();
    let _ = set.unit();
    match branch.value_at(inst, pool, set) {
        Ok(value) => value,
        Err(_) => unreachable!(),
    }
}

// Whether a value divided by its denominator is at most another one.
pub(crate) fn is_no_more(value: i128, unit: u64, other: i128, other_unit: u64) -> bool
    requires value { IsValueWithin value }
    requires other { IsValueWithin other }
    requires unit { unit ≤ 1000000 }
    requires other_unit { other_unit ≤ 1000000 }
    ensures yes { IsTrue result → (pos other_unit *ℤ value) ≤ℤ (pos unit *ℤ other) }
    ensures no { IsFalse result → (pos unit *ℤ other) ≤ℤ (pos other_unit *ℤ value) }
{
    i128::from(other_unit) * value <= i128::from(unit) * other
}
