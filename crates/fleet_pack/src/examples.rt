// Small data on which a definition holds, and on which it does not.
ghost use Rattle.std.specs.Prelude.{◌≡◌, [], ◌∷◌};
ghost use Rattle.packing_trees.specs.declared.packing.Packing.{Packing};
ghost use Rattle.packing_trees.specs.declared.node.PackNode.TheVariants.{Share};
ghost use Rattle.fleet_pack.specs.Examples.{idle_town, lanes_town};
ghost use Rattle.fleet_pack.specs.FirstFit.{falling, first_fit_count, loads_after, put_demand};
ghost use Rattle.fleet_pack.specs.Packed.{HasTree, all_turns};

fn how_first_fit_goes()
    ensures order { falling lanes_town 4 ≡ 2 ∷ 4 ∷ 1 ∷ 3 ∷ [] }
    ensures first { put_demand 10 3 (8 ∷ 6 ∷ 2 ∷ []) ≡ 8 ∷ 9 ∷ 2 ∷ [] }
    ensures new { put_demand 10 9 (8 ∷ 6 ∷ 2 ∷ []) ≡ 8 ∷ 6 ∷ 2 ∷ 9 ∷ [] }
    ensures loads { loads_after 10 (4 ∷ 4 ∷ 3 ∷ 3 ∷ 3 ∷ 3 ∷ []) [] ≡ 8 ∷ 9 ∷ 3 ∷ [] }
    ensures count { first_fit_count lanes_town ≡ 2 }
    ensures nothing { first_fit_count idle_town ≡ 0 }
{}

fn what_a_tree_of_an_answer_is()
    ensures nothing { (found : Packing) → found.tree.items ≡ Share 0 ∷ [] → found.count ≡ 0 → found.bound ≡ 0 → found.turns ≡ 1 → HasTree idle_town found }
    ensures no_node { (found : Packing) → found.tree.items ≡ [] → ¬ (HasTree idle_town found) }
    ensures too_high { (found : Packing) → found.count ≡ 0 → found.bound ≡ 1 → ¬ (HasTree idle_town found) }
    ensures few_turns { all_turns lanes_town ≡ 128 }
{}
