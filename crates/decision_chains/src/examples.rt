// Small data on which a fact that no call decides holds, and on which it does not.
ghost use Rattle.std.specs.Prelude.{[], ◌∷◌, None, Some};
ghost use Rattle.decision_chains.specs.Exclusions.{AreJoined, IsChainEnd, LeadsOn};
ghost use Rattle.decision_chains.specs.declared.decision.Decision.TheVariants.{Yes};

fn the_next_edge()
    ensures alone { LeadsOn [] 1 0 None }
    ensures not_the_end { ¬ (LeadsOn (Yes 1 3 ∷ []) 1 0 None) }
    ensures not_back { ¬ (LeadsOn (Yes 1 3 ∷ []) 1 3 (Some 3)) }
    ensures no_yes { ¬ (LeadsOn [] 1 0 (Some 3)) }
{}

fn a_chain_of_three()
    ensures joined { AreJoined (Yes 1 3 ∷ Yes 2 3 ∷ []) 1 2 }
    ensures itself { AreJoined [] 1 1 }
    ensures inner { ¬ (IsChainEnd (Yes 1 3 ∷ Yes 2 3 ∷ []) 3) }
{}
