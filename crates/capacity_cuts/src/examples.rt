// Small data on which a fact that no call decides holds, and on which it does not.
ghost use Rattle.std.specs.Prelude.{◌≡◌, [], ◌∷◌, false, true};
ghost use Rattle.cut_pool.specs.Shores.{is_in};
ghost use Rattle.capacity_cuts.specs.Violation.{IsViolated, gain, loss};
ghost use Rattle.capacity_cuts.specs.Network.{demand_at, room_at};
ghost use Rattle.capacity_cuts.specs.Components.{is_needy_border};
ghost use Rattle.capacity_cuts.specs.Levels.{weighted_needs, weights_over};
ghost use Rattle.capacity_cuts.specs.Examples.{row, two_shells};

fn violations()
    ensures gain { gain row 3 (is_in (2 ∷ 3 ∷ [])) ≡ 24 }
    ensures loss { loss row 3 (5 ∷ 1 ∷ []) (is_in (2 ∷ 3 ∷ [])) ≡ 16 }
    ensures violated { IsViolated row 3 (5 ∷ 1 ∷ []) (is_in (2 ∷ 3 ∷ [])) }
    ensures met { ¬ (IsViolated row 3 (9 ∷ 1 ∷ []) (is_in (2 ∷ 3 ∷ []))) }
{}

fn a_network()
    ensures both_streets { demand_at row 2 ≡ 4 }
    ensures full { room_at row 3 (5 ∷ 1 ∷ []) 1 ≡ 10 }
{}

fn needy_borders()
    ensures vehicles { is_needy_border row 2 1 4 5 ≡ true }
    ensures enough { is_needy_border row 2 1 4 6 ≡ false }
    ensures parity { is_needy_border row 2 3 0 1 ≡ true }
    ensures even { is_needy_border row 2 2 2 0 ≡ false }
{}

fn weights_of_shells()
    ensures over_both { weights_over row two_shells 2 ≡ 4 }
    ensures needs { weighted_needs row two_shells ≡ 13 }
{}
