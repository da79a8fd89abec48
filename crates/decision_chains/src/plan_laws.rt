// Laws over fixed values, as a function whose contract is the laws.
ghost use Rattle.decision_chains.specs.PlanLaws.{FixedValueIsUnique, FixedValuesCompare};

use crate::yes_pairs_join;

/// The fixed value of a branch does not depend on the edges by which its chains are named, so a branch has at most one.
/// If each chain costs no more than in another instance with as many required edges and the same yes pairs, the fixed
/// value is no more either.
pub fn fixed_values_compare()
    ensures compare { FixedValuesCompare }
    ensures unique { FixedValueIsUnique }
{
    yes_pairs_join();
}
