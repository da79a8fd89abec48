// Laws over plain data, as functions whose contract is the law.
ghost use Rattle.dual_master.specs.Laws.{BetterReachesAsMuch, LevelSetsAreThere, PackingWeightsFit};

use deadhead_paths::least_prices_are_there;

/// A set whose services are priced at cost fits under every branch, if no weight is negative and over each edge the
/// weights sum to at most its cost, both in parts of the denominator.
///
/// No deadhead price is negative then, and a relaxed tour has nothing but its deadheads to pay, since its services add
/// nothing.
pub fn packing_weights_fit()
    ensures { PackingWeightsFit }
{}

/// Each valid instance has level sets of all levels, since each vertex has a least price from the depot or is not
/// reached. So what [`shell_prices`](crate::shell_prices) says of all families of level sets is said of one at least.
pub fn level_sets_are_there()
    ensures { LevelSetsAreThere }
{
    least_prices_are_there();
}

/// If the value of a set divided by its denominator is at most that of another one, both without decisions, the other
/// one reaches each floor that the set reaches. So the best of some sets reaches the floors of all.
pub fn better_sets_reach_as_much()
    ensures { BetterReachesAsMuch }
{}
