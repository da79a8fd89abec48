// Small data on which a fact that no call decides holds, and on which it does not.
ghost use Rattle.std.specs.Prelude.{◌≡◌, [], ◌∷◌};
ghost use Rattle.matching_duals.specs.Joins.{MakesEven, all_halves, halves_over, join_cost};
ghost use Rattle.matching_duals.specs.Examples.{one_street, street, two_shores};

fn deadheads_on_a_street()
    ensures back { MakesEven one_street (1 ∷ []) }
    ensures none { ¬ (MakesEven one_street (0 ∷ [])) }
    ensures another { ¬ (MakesEven one_street (1 ∷ 0 ∷ [])) }
    ensures cost { join_cost one_street (3 ∷ []) ≡ 15 }
{}

fn halves_of_shores()
    ensures over_both { halves_over two_shores (street 1 2 5) ≡ 7 }
    ensures over_one { halves_over two_shores (street 2 3 5) ≡ 3 }
    ensures over_none { halves_over two_shores (street 1 4 5) ≡ 0 }
    ensures all { all_halves two_shores ≡ 7 }
{}
