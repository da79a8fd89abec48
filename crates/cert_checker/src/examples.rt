// The definitions on small data.
ghost use Rattle.std.specs.Prelude.{◌≡◌, ◌∷◌, []};
ghost use Rattle.decision_chains.specs.declared.decision.Decision.TheVariants.{Yes, No};
ghost use Rattle.branch_rules.specs.declared.node.Node.TheVariants as nodes;
ghost use Rattle.cert_checker.specs.Reasons.{FirstDiffers};
ghost use Rattle.cert_checker.specs.Walks.{Fills, waiting_for};

fn branches_that_wait()
    ensures first { waiting_for (nodes.Pair 1 2 ∷ []) ([] ∷ []) ≡ (Yes 1 2 ∷ []) ∷ ((No 1 2 ∷ []) ∷ []) }
    ensures second { waiting_for (nodes.Pair 1 2 ∷ (nodes.Void ∷ [])) ([] ∷ []) ≡ (No 1 2 ∷ []) ∷ [] }
{}

fn a_first_difference()
    ensures second { FirstDiffers 1 (3 ∷ (2 ∷ [])) (3 ∷ (1 ∷ [])) 2 2 1 }
    ensures no_later_one { FirstDiffers 1 (3 ∷ (2 ∷ [])) (4 ∷ (1 ∷ [])) 2 2 1 → ⊥ }
{}

fn nodes_that_fill_a_tree()
    ensures whole { Fills (nodes.Pair 1 2 ∷ (nodes.Void ∷ (nodes.Fixed ∷ []))) 1 }
    ensures too_few { Fills (nodes.Pair 1 2 ∷ (nodes.Void ∷ [])) 1 → ⊥ }
    ensures too_many { Fills (nodes.Void ∷ (nodes.Fixed ∷ [])) 1 → ⊥ }
{}
