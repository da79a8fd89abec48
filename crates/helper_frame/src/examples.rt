// Small data on which a fact that no call decides holds, and on which it does not.
ghost use Rattle.std.specs.Prelude.{◌≡◌, [], ◌∷◌, None, Some};
ghost use Rattle.plan_model.specs.Examples.{one_street, one_vertex};
ghost use Rattle.helper_frame.specs.Finding.{OffersFound};

fn what_is_offered()
    ensures nothing_to_serve { OffersFound one_vertex (λ plan. plan ≡ []) (Some []) }
    ensures none { ¬ (OffersFound one_vertex (λ plan. plan ≡ []) None) }
    ensures not_lawful { ¬ (OffersFound one_street (λ plan. plan ≡ []) (Some [])) }
    ensures not_found { ¬ (OffersFound one_vertex (λ plan. plan ≡ [] ∷ []) (Some [])) }
{}
