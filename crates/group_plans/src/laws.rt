// What packings say of plans, as functions whose contract is the law.
ghost use Rattle.group_plans.specs.Laws.{PlansArePackings};

use plan_model::required_edges_are_served_once;

/// For each lawful plan there is a packing with as many groups as walks of the plan serve. So if each packing has at
/// least k groups, at least k walks of each lawful plan serve.
pub fn plans_are_packings()
    ensures { PlansArePackings }
{
    // That one walk serves each required edge.
    required_edges_are_served_once();
}
