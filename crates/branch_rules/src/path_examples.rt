// The branches that wait, on small data.
ghost use Rattle.std.specs.Prelude.{◌≡◌, ◌∷◌, [], Some, None};
ghost use Rattle.decision_chains.specs.declared.decision.Decision.TheVariants.{Yes, No, Low, High};
ghost use Rattle.branch_rules.specs.declared.node.Node.TheVariants as nodes;
ghost use Rattle.branch_rules.specs.Paths.{seconds_wait};
ghost use Rattle.branch_rules.specs.Waiting.{waiting_after};

fn branches_that_wait()
    ensures pair { waiting_after [] (nodes.Pair 1 2) [] ≡ (Yes 1 2 ∷ []) ∷ ((No 1 2 ∷ []) ∷ []) }
    ensures cut { waiting_after (Yes 1 2 ∷ []) (nodes.Cut 3 4) [] ≡ (Yes 1 2 ∷ (Low 3 4 ∷ [])) ∷ ((Yes 1 2 ∷ (High 3 4 ∷ [])) ∷ []) }
    ensures leaf { waiting_after (Yes 1 2 ∷ []) nodes.Void ((No 1 2 ∷ []) ∷ []) ≡ (No 1 2 ∷ []) ∷ [] }
    ensures path { seconds_wait (Yes 1 2 ∷ []) (Some (No 1 2) ∷ []) [] [] ≡ (No 1 2 ∷ []) ∷ [] }
    ensures later { seconds_wait (No 1 2 ∷ []) (None ∷ []) [] [] ≡ [] }
{}
