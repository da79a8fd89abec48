// Small data on which a fact that no call decides holds, and on which it does not.
ghost use Rattle.std.specs.Prelude.{◌≡◌, [], ◌∷◌};
ghost use Rattle.deadhead_paths.specs.Prices.{ArePrices, Deadheads, IsLeastPath, IsLeastPrice, price_of};
ghost use Rattle.deadhead_paths.specs.Singles.{AreLeastTours, IsLeastTour};
ghost use Rattle.deadhead_paths.specs.Tours.{IsFollowed, IsTaskTour, LeastDeadhead, dead_price, tasks_of};
ghost use Rattle.deadhead_paths.specs.Tidy.{GoByLeastPaths, IsCheapest, IsTidied};
ghost use Rattle.deadhead_paths.specs.Examples.{IsAny, IsOther, five, forth, gratis, homeward, serve, task, task_back, town, wide_town};

fn prices_of_a_town()
    ensures in_range { ArePrices town (5 ∷ []) }
    ensures none { ¬ (ArePrices town []) }
    ensures second { price_of (7 ∷ 9 ∷ []) 2 ≡ 9 }
    ensures nothing_at_0 { price_of (7 ∷ 9 ∷ []) 0 ≡ 0 }
    ensures above { ¬ (ArePrices town (4000000000000000001 ∷ [])) }
{}

fn a_deadhead()
    ensures back { Deadheads town five 2 1 5 (homeward ∷ []) }
    ensures served { ¬ (Deadheads town five 1 2 5 (serve ∷ [])) }
    ensures elsewhere { ¬ (Deadheads town five 1 1 5 (forth ∷ [])) }
    ensures cheaper { ¬ (Deadheads town five 2 1 4 (homeward ∷ [])) }
{}

fn a_least_price()
    ensures least { IsLeastPrice town five 2 1 5 }
    ensures dearer { ¬ (IsLeastPrice town five 2 1 15) }
    ensures cheaper { ¬ (IsLeastPrice town five 2 1 0) }
{}

fn a_least_path()
    ensures least { IsLeastPath town five 2 1 (homeward ∷ []) }
    ensures round { ¬ (IsLeastPath town five 2 1 (homeward ∷ forth ∷ homeward ∷ [])) }
    ensures to_and_fro { ¬ (IsLeastPath wide_town gratis 2 1 (homeward ∷ forth ∷ homeward ∷ [])) }
{}

fn a_followed_edge()
    ensures next { IsFollowed (1 ∷ 2 ∷ []) 1 2 }
    ensures turned { ¬ (IsFollowed (1 ∷ 2 ∷ []) 2 1) }
{}

fn a_task_tour()
    ensures twice { IsTaskTour town IsAny (task ∷ task ∷ []) }
    ensures empty { ¬ (IsTaskTour town IsAny []) }
    ensures heavy { ¬ (IsTaskTour town IsAny (task ∷ task ∷ task ∷ [])) }
    ensures not_allowed { ¬ (IsTaskTour town IsOther (task ∷ task ∷ [])) }
{}

fn a_least_deadhead()
    ensures way_back { LeastDeadhead town five 1 (task ∷ []) 1 5 }
    ensures free { ¬ (LeastDeadhead town five 1 (task ∷ []) 1 0) }
    ensures same_way_twice { LeastDeadhead town five 1 (task ∷ task ∷ []) 1 10 }
    ensures to_and_fro { LeastDeadhead town five 1 (task ∷ task_back ∷ []) 1 0 }
    ensures not_both { ¬ (LeastDeadhead town five 1 (task ∷ task_back ∷ []) 1 10) }
{}

fn a_walk_as_tasks()
    ensures tasks { tasks_of (forth ∷ homeward ∷ serve ∷ homeward ∷ []) ≡ task ∷ [] }
    ensures price { dead_price five (forth ∷ homeward ∷ serve ∷ homeward ∷ []) ≡ 15 }
{}

fn tours_that_are_not_single()
    ensures stays_out { ¬ (IsLeastTour town 1 (serve ∷ [])) }
    ensures none { ¬ (AreLeastTours town []) }
{}

fn a_cheapest_walk()
    ensures empty { IsCheapest town [] }
    ensures detour { ¬ (IsCheapest town (forth ∷ homeward ∷ [])) }
{}

fn a_way_by_least_paths()
    ensures stays { GoByLeastPaths town [] 1 1 [] }
    ensures round { ¬ (GoByLeastPaths town [] 1 1 (forth ∷ homeward ∷ [])) }
{}

fn a_plan_not_tidied()
    ensures tour_dropped { ¬ (IsTidied town ((serve ∷ homeward ∷ []) ∷ []) []) }
    ensures detour { ¬ (IsTidied town ((serve ∷ homeward ∷ []) ∷ []) ((forth ∷ homeward ∷ serve ∷ homeward ∷ []) ∷ [])) }
{}
