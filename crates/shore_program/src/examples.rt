// Small data on which a fact that no call decides holds, and on which it does not.
ghost use Rattle.std.specs.Prelude.{◌≡◌, [], ◌∷◌, true, false};
ghost use Rattle.shore_program.specs.Programs.{AreDeadheads, HaveNoMore, IsOffered, IsTrimmed, IsWeighted, ListsNoMore, Packs, weights_over};
ghost use Rattle.shore_program.specs.Examples.{no_shore, one_shore, one_street, street, weighted_end};

fn a_weight()
    ensures of_a_shore { IsWeighted one_shore (weighted_end 5) }
    ensures nothing { ¬ (IsWeighted one_shore (weighted_end 0)) }
    ensures of_no_shore { ¬ (IsWeighted no_shore (weighted_end 5)) }
    ensures too_great { ¬ (IsWeighted one_shore (weighted_end 1000000000001)) }
{}

fn weights_that_pack()
    ensures both { weights_over (weighted_end 5 ∷ weighted_end 7 ∷ []) street ≡ 12 }
    ensures packs { Packs one_street (weighted_end 3000000 ∷ []) }
    ensures too_much { ¬ (Packs one_street (weighted_end 3000001 ∷ [])) }
{}

fn some_deadheads()
    ensures one_each { AreDeadheads one_street (5 ∷ []) }
    ensures none { ¬ (AreDeadheads one_street []) }
    ensures too_many { ¬ (AreDeadheads one_street (1073741825 ∷ [])) }
{}

fn a_shore_offered()
    ensures placed { IsOffered no_shore (2 ∷ []) 1 true one_shore }
    ensures kept_out { IsOffered no_shore (2 ∷ []) 0 false no_shore }
    ensures nothing_demanded { ¬ (IsOffered no_shore (2 ∷ []) 0 true one_shore) }
    ensures no_cause { ¬ (IsOffered no_shore (2 ∷ []) 1 false no_shore) }
{}

fn shores_held_no_more()
    ensures fewer { HaveNoMore ((2 ∷ []) ∷ []) [] }
    ensures twice { ¬ (HaveNoMore ((2 ∷ []) ∷ []) ((2 ∷ []) ∷ (2 ∷ []) ∷ [])) }
    ensures another { ¬ (HaveNoMore ((2 ∷ []) ∷ []) ((3 ∷ []) ∷ [])) }
{}

fn shores_listed_no_more()
    ensures one { ListsNoMore one_shore.shores (weighted_end 5 ∷ []) }
    ensures twice { ¬ (ListsNoMore one_shore.shores (weighted_end 5 ∷ weighted_end 7 ∷ [])) }
    ensures of_none { ¬ (ListsNoMore no_shore.shores (weighted_end 5 ∷ [])) }
{}

fn a_program_trimmed()
    ensures same { IsTrimmed one_shore one_shore }
    ensures of_few { ¬ (IsTrimmed one_shore no_shore) }
{}
