// Small data on which a fact that no call decides holds, and on which it does not.
ghost use Rattle.std.specs.Prelude.{◌≡◌, [], ◌∷◌};
ghost use Rattle.shore_search.specs.Shortfall.{AreFalling, AreShort, FallsShort, shortfall};
ghost use Rattle.shore_search.specs.Examples.{row};

fn how_much_is_short()
    ensures all { shortfall row (0 ∷ 0 ∷ []) (3 ∷ []) ≡ 1048576 }
    ensures a_part { shortfall row (0 ∷ 1047528 ∷ []) (3 ∷ []) ≡ 1048 }
    ensures even { shortfall row (0 ∷ 0 ∷ []) (2 ∷ []) ≡ 0 }
    ensures more_than_enough { shortfall row (0 ∷ 2097152 ∷ []) (3 ∷ []) ≡ 0 }
    ensures within { shortfall row (7 ∷ 9 ∷ []) (2 ∷ 3 ∷ []) ≡ 1048569 }
{}

fn what_falls_short()
    ensures odd { FallsShort row (0 ∷ 1047527 ∷ []) (3 ∷ []) }
    ensures too_little { ¬ (FallsShort row (0 ∷ 1047528 ∷ []) (3 ∷ [])) }
    ensures depot { ¬ (FallsShort row (0 ∷ 0 ∷ []) (1 ∷ [])) }
    ensures no_set { ¬ (FallsShort row (0 ∷ 0 ∷ []) []) }
{}

fn what_is_no_answer()
    ensures one_too_many { ¬ (AreShort row (0 ∷ 0 ∷ []) 0 ((3 ∷ []) ∷ [])) }
    ensures twice { ¬ (AreShort row (0 ∷ 0 ∷ []) 5 ((3 ∷ []) ∷ (3 ∷ []) ∷ [])) }
    ensures greater_one_behind { ¬ (AreFalling row (0 ∷ 9 ∷ []) ((3 ∷ []) ∷ (2 ∷ 3 ∷ []) ∷ [])) }
{}
