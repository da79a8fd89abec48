// Small data on which a fact that no call decides holds, and on which it does not.
ghost use Rattle.std.specs.Prelude.{[]};
ghost use Rattle.deadhead_paths.specs.Examples.{town};
ghost use Rattle.branch_rules.specs.Examples.{heavy_prices, light_prices, town_pool, town_prices};
ghost use Rattle.matching_duals.specs.Joins.{IsLeastJoin};
ghost use Rattle.dual_master.specs.Examples.{bare_prices, dear_prices, half_prices, high_prices, no_town, shared_prices};
ghost use Rattle.dual_master.specs.Floors.{IsLeastCostRatio, ReachesJoin, ReachesRatio, ReachesShell, ShowsJoinShores, ShowsRatio, ShowsShell};
ghost use Rattle.dual_master.specs.Laws.{IsNoBetter, ServesAtCost, WeightsPack};
ghost use Rattle.dual_master.specs.Sets.{IsJoinSet, IsRatioSet, IsShellSet, empty_set};

use capacity_cuts::shells_are_duals;

fn services_and_weights()
    ensures at_cost { ServesAtCost town town_prices }
    ensures dearer { ¬ (ServesAtCost town dear_prices) }
    ensures packs { WeightsPack town town_pool town_prices }
    ensures too_heavy { ¬ (WeightsPack town town_pool heavy_prices) }
    ensures negative { ¬ (WeightsPack town town_pool light_prices) }
{}

fn sets_that_are_no_better()
    ensures poorer { IsNoBetter town town_pool bare_prices town_pool town_prices }
    ensures richer { ¬ (IsNoBetter town town_pool town_prices town_pool bare_prices) }
    ensures in_halves { IsNoBetter town town_pool half_prices town_pool town_prices }
{}

fn a_least_ratio()
    ensures least { IsLeastCostRatio town 5 1 }
    ensures dearer { ¬ (IsLeastCostRatio town 6 1) }
    ensures reached { ReachesRatio town town_pool town_prices }
    ensures missed { ¬ (ReachesRatio town town_pool bare_prices) }
    ensures shown { ShowsRatio town [] shared_prices }
    ensures passed { ¬ (ShowsRatio town [] high_prices) }
    ensures none { ShowsRatio no_town [] empty_set }
{}

fn a_least_join()
    ensures least { IsLeastJoin town 5 }
    ensures reached { ReachesJoin town town_pool town_prices }
    ensures missed { ¬ (ReachesJoin town town_pool bare_prices) }
    ensures shown { ShowsJoinShores town town_pool half_prices }
    ensures passed { ¬ (ShowsJoinShores town town_pool high_prices) }
{}

fn sets_that_are_made()
    ensures shell { IsShellSet town town_pool town_prices }
    ensures weightless { ¬ (IsShellSet town town_pool bare_prices) }
    ensures join { IsJoinSet town town_pool half_prices }
    ensures wholes { ¬ (IsJoinSet town town_pool town_prices) }
    ensures ratio { IsRatioSet town shared_prices }
    ensures unshared { ¬ (IsRatioSet town bare_prices) }
    ensures nothing { IsRatioSet no_town empty_set }
    ensures empty { ¬ (IsRatioSet town empty_set) }
{}

fn a_level_set()
    ensures reached { ReachesShell town town_pool town_prices }
    ensures missed { ¬ (ReachesShell town town_pool bare_prices) }
    ensures shown { ShowsShell town town_pool town_prices }
    ensures passed { ¬ (ShowsShell town town_pool high_prices) }
{
    shells_are_duals();
}
