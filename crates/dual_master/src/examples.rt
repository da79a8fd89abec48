// Small data on which a fact that no call decides holds, and on which it does not.
ghost use Rattle.std.specs.Prelude.{[]};
ghost use Rattle.deadhead_paths.specs.Examples.{town};
ghost use Rattle.branch_rules.specs.Examples.{row_prices, town_pool};
ghost use Rattle.dual_master.specs.Examples.{bare_prices, no_town};
ghost use Rattle.dual_master.specs.Sets.{empty_set};
ghost use Rattle.dual_master.specs.Candidates.{IsFloorBase};
ghost use Rattle.dual_master.specs.Raising.{HasGroupsFrom};
ghost use Rattle.dual_master.specs.Singles.{HasSingles, IsFloorPool, IsWanted};

fn a_wanted_shore()
    ensures wanted { IsWanted town [] 2 }
    ensures held { ¬ (IsWanted town town_pool 2) }
    ensures depot { ¬ (IsWanted town [] 1) }
{}

fn groups_of_a_raised_set()
    ensures of_the_start { HasGroupsFrom town row_prices row_prices }
    ensures of_neither { ¬ (HasGroupsFrom town bare_prices row_prices) }
{}

fn shores_of_single_vertices()
    ensures placed { HasSingles town [] 2 town_pool }
    ensures left_out { ¬ (HasSingles town [] 2 []) }
    ensures not_first { ¬ (HasSingles town [] 1 town_pool) }
    ensures pool { IsFloorPool no_town [] empty_set }
    ensures overvalued { ¬ (IsFloorBase no_town [] bare_prices) }
{}
