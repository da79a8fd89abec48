// Small data on which a fact that no call decides holds, and on which it does not.
ghost use Rattle.std.specs.Prelude.{◌≡◌, [], ◌∷◌, pos, neg_ℤ};
ghost use Rattle.route_pricing.specs.Pricing.{AreSurcharges, IsServicePrice, IsSurcharge, service_price, surcharge_in};

fn a_price_of_a_service()
    ensures first { service_price (pos 10 ∷ pos 8 ∷ []) 1 ≡ pos 10 }
    ensures last { service_price (pos 10 ∷ pos 8 ∷ []) 2 ≡ pos 8 }
    ensures zero { service_price (pos 10 ∷ pos 8 ∷ []) 0 ≡ pos 0 }
    ensures past_the_last { service_price (pos 10 ∷ pos 8 ∷ []) 3 ≡ pos 0 }
    ensures in_range { IsServicePrice (neg_ℤ (pos 1000000000000000)) }
    ensures above { ¬ (IsServicePrice (pos 1000000000000001)) }
    ensures below { ¬ (IsServicePrice (neg_ℤ (pos 1000000000000001))) }
{}

fn a_surcharge()
    ensures gained { surcharge_in 2 (pos 0 ∷ neg_ℤ (pos 3) ∷ neg_ℤ (pos 3) ∷ pos 0 ∷ []) 1 2 ≡ neg_ℤ (pos 3) }
    ensures with_itself { surcharge_in 2 (pos 4 ∷ neg_ℤ (pos 3) ∷ neg_ℤ (pos 3) ∷ pos 0 ∷ []) 1 1 ≡ pos 4 }
    ensures of_none { surcharge_in 2 [] 1 2 ≡ pos 0 }
    ensures lowest { IsSurcharge (neg_ℤ (pos 2305843009213693952)) }
    ensures below { ¬ (IsSurcharge (neg_ℤ (pos 2305843009213693953))) }
    ensures above { ¬ (IsSurcharge (pos 2305843009213693953)) }
{}

fn surcharges_of_edges()
    ensures none { AreSurcharges 2 [] }
    ensures one { AreSurcharges 1 (neg_ℤ (pos 3) ∷ []) }
    ensures too_few { ¬ (AreSurcharges 2 (pos 0 ∷ [])) }
    ensures one_way { ¬ (AreSurcharges 2 (pos 0 ∷ neg_ℤ (pos 3) ∷ pos 3 ∷ pos 0 ∷ [])) }
{}
