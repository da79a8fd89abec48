// Small data on which a fact that no call decides holds, and on which it does not.
ghost use Rattle.std.specs.Prelude.{◌≡◌, [], ◌∷◌, true, false};
ghost use Rattle.parity_cuts.specs.OddComponents.{IsOddComponent, is_odd_border};
ghost use Rattle.parity_cuts.specs.Examples.{row};

fn odd_borders()
    ensures odd { is_odd_border 3 8 0 ≡ true }
    ensures even { is_odd_border 2 8 1 ≡ false }
{}

fn what_is_no_odd_component()
    ensures even { ¬ (IsOddComponent row (0 ∷ 0 ∷ []) (2 ∷ [])) }
    ensures depot { ¬ (IsOddComponent row (0 ∷ 0 ∷ []) (1 ∷ [])) }
{}
