// Small data on which a fact that no call decides holds, and on which it does not.
ghost use Rattle.std.specs.Prelude.{◌≡◌, ◌≢◌, [], ◌∷◌};
ghost use Rattle.cert_transfer.specs.Cutting.{cut_from, cut_tour, cut_tours};
ghost use Rattle.cert_transfer.specs.Examples.{home, out, star};

fn how_a_tour_is_cut()
    ensures fits { cut_tour star (out 1 ∷ home 2 ∷ []) ≡ (out 1 ∷ home 2 ∷ []) ∷ [] }
    ensures third_is_over { cut_tour star (out 1 ∷ out 2 ∷ out 3 ∷ []) ≡ (out 1 ∷ out 2 ∷ []) ∷ (out 3 ∷ []) ∷ [] }
    ensures in_order { cut_tour star (out 4 ∷ out 1 ∷ out 2 ∷ []) ≡ (out 4 ∷ []) ∷ (out 1 ∷ out 2 ∷ []) ∷ [] }
    ensures nothing { cut_tour star [] ≡ [] }
    ensures not_earlier { cut_tour star (out 1 ∷ out 2 ∷ []) ≢ (out 1 ∷ []) ∷ (out 2 ∷ []) ∷ [] }
    ensures not_later { cut_tour star (out 1 ∷ out 4 ∷ []) ≢ (out 1 ∷ out 4 ∷ []) ∷ [] }
    ensures not_turned { cut_tour star (home 1 ∷ []) ≢ (out 1 ∷ []) ∷ [] }
    ensures not_empty { cut_tour star [] ≢ [] ∷ [] }
{}

fn how_a_rest_is_cut()
    ensures goes_on { cut_from star (out 1 ∷ []) (out 2 ∷ []) ≡ (out 1 ∷ out 2 ∷ []) ∷ [] }
    ensures begins_anew { cut_from star (out 1 ∷ []) (out 4 ∷ []) ≡ (out 1 ∷ []) ∷ (out 4 ∷ []) ∷ [] }
    ensures full { cut_from star (out 1 ∷ out 2 ∷ []) [] ≡ (out 1 ∷ out 2 ∷ []) ∷ [] }
{}

fn how_tours_are_cut()
    ensures each { cut_tours star ((out 1 ∷ []) ∷ [] ∷ (out 4 ∷ out 2 ∷ []) ∷ []) ≡ (out 1 ∷ []) ∷ (out 4 ∷ []) ∷ (out 2 ∷ []) ∷ [] }
    ensures not_joined { cut_tours star ((out 1 ∷ []) ∷ (out 2 ∷ []) ∷ []) ≢ (out 1 ∷ out 2 ∷ []) ∷ [] }
{}
