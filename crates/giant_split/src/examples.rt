// Small data on which a fact that no call decides holds, and on which it does not.
ghost use Rattle.std.specs.Prelude.{[], ◌∷◌, true};
ghost use Rattle.giant_split.specs.Splits.{IsCheapestInOrder, IsOwnSplit, IsSplit};
ghost use Rattle.giant_split.specs.Examples.{idle_town, out_and_home};

fn what_is_cheapest_in_an_order()
    ensures nothing { IsCheapestInOrder idle_town [] [] }
    ensures detour { ¬ (IsCheapestInOrder idle_town [] (out_and_home ∷ [])) }
{}

fn what_is_a_split()
    ensures nothing { IsSplit idle_town [] [] }
    ensures idle_tour { ¬ (IsSplit idle_town [] ([] ∷ [])) }
    ensures unserved { ¬ (IsSplit idle_town (record { edge = 1; forward = true } ∷ []) []) }
{}

fn what_is_a_split_of_its_own_order()
    ensures nothing { IsOwnSplit idle_town [] }
    ensures idle_tour { ¬ (IsOwnSplit idle_town ([] ∷ [])) }
{}
