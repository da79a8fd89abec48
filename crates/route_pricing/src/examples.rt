// Small data on which a fact that no call decides holds, and on which it does not.
ghost use Rattle.std.specs.Prelude.{◌≡◌, ◌^◌, ◌+◌, ◌*◌, [], ◌∷◌, pos, neg_ℤ};
ghost use Rattle.route_pricing.specs.Values.{IsFree, IsPriced, IsRate, IsServed, lift, tour_surcharge, weighed};
ghost use Rattle.route_pricing.specs.Examples.{charged_twins, gained_twins, inward, outward, paid_twins, twins_at};

fn a_served_edge()
    ensures second { IsServed 2 (outward 1 ∷ inward 2 ∷ []) }
    ensures other { ¬ (IsServed 3 (outward 1 ∷ inward 2 ∷ [])) }
    ensures none { ¬ (IsServed 1 []) }
{}

fn prices_that_add_nothing()
    ensures free { IsFree (twins_at (pos 14 ∷ pos 8 ∷ [])) }
    ensures paid { ¬ (IsFree paid_twins) }
{}

fn a_rate()
    ensures least_load { IsRate (record { value = pos 0; load = 1 }) }
    ensures no_load { ¬ (IsRate (record { value = pos 0; load = 0 })) }
    ensures heavy { ¬ (IsRate (record { value = pos 0; load = 30001 })) }
    ensures lowest { IsRate (record { value = neg_ℤ (pos (3 * lift)); load = 3 }) }
    ensures low { ¬ (IsRate (record { value = neg_ℤ (pos (3 * lift + 1)); load = 3 })) }
    ensures high { ¬ (IsRate (record { value = pos (2 ^ 90 + 1); load = 1 })) }
{}

fn a_tour_beside_a_rate()
    ensures same { weighed (record { value = pos 4; load = 3 }) (pos 8) 6 ≡ pos 0 }
    ensures dearer { weighed (record { value = pos 4; load = 3 }) (pos 5) 3 ≡ pos 3 }
    ensures cheaper { weighed (record { value = pos 4; load = 3 }) (pos 4) 6 ≡ neg_ℤ (pos 12) }
{}

fn surcharges_of_a_tour()
    ensures twice { tour_surcharge charged_twins (outward 1 ∷ inward 2 ∷ outward 1 ∷ []) ≡ pos 6 }
    ensures alone { tour_surcharge charged_twins (outward 1 ∷ []) ≡ pos 0 }
    ensures none { tour_surcharge paid_twins (outward 1 ∷ inward 2 ∷ []) ≡ pos 0 }
    ensures gained { tour_surcharge gained_twins (outward 1 ∷ inward 2 ∷ outward 1 ∷ []) ≡ neg_ℤ (pos 6) }
    ensures not_paid { ¬ (tour_surcharge gained_twins (outward 1 ∷ inward 2 ∷ []) ≡ pos 3) }
    ensures charged { ¬ (IsFree charged_twins) }
{}

fn a_priced_tour()
    ensures there_and_back { IsPriced paid_twins (outward 1 ∷ inward 2 ∷ []) 0 (pos 4) }
    ensures other_value { ¬ (IsPriced paid_twins (outward 1 ∷ inward 2 ∷ []) 0 (pos 3)) }
    ensures one_way { ¬ (IsPriced paid_twins (outward 1 ∷ outward 2 ∷ []) 0 (pos 4)) }
    ensures after_itself { ¬ (IsPriced paid_twins (outward 1 ∷ inward 1 ∷ []) 0 (pos 8)) }
    ensures heavy { ¬ (IsPriced paid_twins (outward 2 ∷ inward 1 ∷ outward 2 ∷ []) 5 (pos 9)) }
{}
