// Laws over plans and their tours, as functions whose contract is the law.
ghost use Rattle.task_tours.specs.Laws.{JoinedPlanCosts, LawfulPlansHaveLawfulTours, LawfulToursMakeLawfulPlans, LeastCostIsSmall, ServedOnceAreAsMany, StandsAreLinked, ToursCostAtLeast, ToursDeadheadIsThere, ToursDeadheadIsUnique};

use deadhead_paths::{least_prices_are_there, walks_are_task_tours};
use plan_model::required_edges_are_served_once;

/// Between the depot and the ends of required edges there are least prices, by cost at most 999,000,000. So tours of
/// tasks on required edges have a least deadhead in all, and only one.
pub fn tours_are_linked()
    ensures linked { StandsAreLinked }
    ensures small { LeastCostIsSmall }
    ensures there { ToursDeadheadIsThere }
    ensures unique { ToursDeadheadIsUnique }
{
    least_prices_are_there();
}

/// Walks by least paths are a lawful plan if their tours serve each required edge once within the capacity, as those of
/// every lawful plan do. Such a plan costs its services and the least deadheads of its tours. No lawful plan with the
/// same tours costs less.
pub fn plans_are_tours()
    ensures lawful { LawfulToursMakeLawfulPlans }
    ensures tours { LawfulPlansHaveLawfulTours }
    ensures cost { JoinedPlanCosts }
    ensures least { ToursCostAtLeast }
{
    walks_are_task_tours();
    required_edges_are_served_once();
}

/// Tasks that serve each required edge once, and no other edge, are as many as there are required edges.
pub fn served_once_are_as_many()
    ensures { ServedOnceAreAsMany }
{}
