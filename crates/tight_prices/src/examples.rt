// Small data on which a fact that no call decides holds, and on which it does not.
ghost use Rattle.std.specs.Prelude.{◌≡◌, ◌≤◌, [], ◌∷◌, pos};
ghost use Rattle.deadhead_paths.specs.Examples.{town};
ghost use Rattle.branch_rules.specs.Examples.{heavy_prices, light_prices, town_pool, town_prices};
ghost use Rattle.tight_prices.specs.Tight.{AreKept, IsNeededSingle, IsNoHigher, IsTight, add_weight, weight_on, with_price, with_weight};

fn one_number_greater()
    ensures price { with_price town_prices 1 3 ≡ record { unit = 1; services = pos 10 ∷ []; weights = town_prices.weights; groups = [] } }
    ensures no_edge { with_price town_prices 2 3 ≡ town_prices }
    ensures weight { with_weight town_prices 1 1 ≡ heavy_prices }
    ensures gone { add_weight 1 1 light_prices.weights ≡ [] }
    ensures first { add_weight 1 5 (record { shore = 3; weight = pos 2 } ∷ []) ≡ record { shore = 1; weight = pos 5 } ∷ record { shore = 3; weight = pos 2 } ∷ [] }
    ensures last { add_weight 3 2 town_prices.weights ≡ record { shore = 1; weight = pos 5 } ∷ record { shore = 3; weight = pos 2 } ∷ [] }
    ensures on { weight_on town_prices.weights 1 ≡ pos 5 }
    ensures none { weight_on town_prices.weights 2 ≡ pos 0 }
{}

fn a_needed_shore()
    ensures single { IsNeededSingle town town_pool 1 }
    ensures two { ¬ (IsNeededSingle town ((1 ∷ 2 ∷ []) ∷ []) 1) }
    ensures needless { ¬ (IsNeededSingle town ((3 ∷ []) ∷ []) 1) }
{}

fn a_tight_set()
    ensures tight { IsTight town town_pool 1 [] town_prices }
    ensures price { ¬ (IsTight town town_pool 1 [] (record { unit = 1; services = pos 6 ∷ []; weights = town_prices.weights; groups = [] })) }
    ensures too_heavy { ¬ (IsTight town town_pool 1 [] heavy_prices) }
{}

fn weights_that_stay()
    ensures held { AreKept (λ shore. (shore ≤ 1) × IsNeededSingle town town_pool shore) town_prices heavy_prices }
    ensures not_held { ¬ (AreKept (λ shore. (shore ≤ 0) × IsNeededSingle town town_pool shore) town_prices heavy_prices) }
{}

fn sets_of_which_one_is_no_higher()
    ensures lower { IsNoHigher light_prices town_prices }
    ensures higher { ¬ (IsNoHigher town_prices light_prices) }
{}
