// Small data on which a fact that no call decides holds, and on which it does not.
ghost use Rattle.std.specs.Prelude.{◌≡◌, pos, true, false, [], ◌∷◌};
ghost use Rattle.cut_pool.specs.Examples.{in_a_row};
ghost use Rattle.deadhead_paths.specs.Examples.{town};
ghost use Rattle.decision_chains.specs.declared.decision.Decision.TheVariants.{High, Low, No, Yes};
ghost use Rattle.branch_rules.specs.declared.node.Node.TheVariants.{Cut, Fixed, Pair, Price, Void};
ghost use Rattle.branch_rules.specs.Examples.{heavy_prices, town_pool, town_prices, town_support};
ghost use Rattle.branch_rules.specs.Trees.{cut, fixed, pair, price, void};
ghost use Rattle.grown_trees.specs.Examples.{cut_entry, cut_root, entries_showing, high_tree, low_tree, price_entry, whole};
ghost use Rattle.grown_trees.specs.Growth.{AreNoted, AreSound, IsLeastOpen, IsNotedNode, IsSoundNode, NodeReaches, ShowsUpTo, shows_just, turns_in};
ghost use Rattle.grown_trees.specs.Laws.{IsKept, IsOpenDecision};
ghost use Rattle.grown_trees.specs.Places.{IsFineNode, IsLeaf, IsLeafAt, branch_to, grown, size_of};
ghost use Rattle.grown_trees.specs.Stands.{HoldsShores, IsLeanStand, IsShownStand, NodeFits, PricesFit, stands, with_sets, with_shores};
ghost use Rattle.grown_trees.specs.Values.{IsMostShown, IsShown};

fn places_of_a_tree()
    ensures size { size_of low_tree ≡ 5 }
    ensures leaf { IsLeafAt low_tree 2 }
    ensures inner { ¬ (IsLeafAt low_tree 1) }
    ensures beyond { ¬ (IsLeafAt low_tree 5) }
    ensures split { ¬ (IsLeaf (Pair 1 2)) }
    ensures fine { IsFineNode (Cut 1 1000000) }
    ensures not_fine { ¬ (IsFineNode (Cut 1 1000001)) }
{}

fn ways_in_a_tree()
    ensures root { branch_to [] low_tree 0 ≡ [] }
    ensures first { branch_to [] low_tree 1 ≡ Yes 1 2 ∷ [] }
    ensures below { branch_to [] low_tree 2 ≡ Yes 1 2 ∷ Low 1 3 ∷ [] }
    ensures above { branch_to [] low_tree 3 ≡ Yes 1 2 ∷ High 1 3 ∷ [] }
    ensures second { branch_to (No 3 4 ∷ []) low_tree 4 ≡ No 3 4 ∷ No 1 2 ∷ [] }
{}

fn a_tree_that_grows()
    ensures last { grown low_tree 4 (pair 1 3 void (price 2)) ≡ high_tree }
    ensures back { grown high_tree 4 fixed ≡ low_tree }
    ensures inner { grown low_tree 1 fixed ≡ pair 1 2 fixed fixed }
    ensures root { grown low_tree 0 void ≡ void }
{}

fn nodes_where_they_stand()
    ensures cut { stands (Yes 1 2 ∷ []) (cut 1 3 void fixed) ≡
        record { branch = Yes 1 2 ∷ []; node = Cut 1 3 }
        ∷ record { branch = Yes 1 2 ∷ Low 1 3 ∷ []; node = Void } ∷ record { branch = Yes 1 2 ∷ High 1 3 ∷ []; node = Fixed } ∷ [] }
{}

fn sets_of_the_leaves()
    ensures inner { NodeFits town_support [] (Cut 1 0) }
    ensures none { ¬ (NodeFits town_support [] (Price 0)) }
    ensures past_the_last { ¬ (NodeFits town_support [] (Price 2)) }
    ensures without_prices { PricesFit town_support [] (pair 1 2 void fixed) }
    ensures second_leaf { ¬ (PricesFit town_support [] (pair 1 2 fixed (price 0))) }
    ensures held { HoldsShores town_support }
    ensures not_held { ¬ (HoldsShores (record { problem = town; pool = []; sets = town_prices ∷ [] })) }
    ensures more_shores { with_shores town_support ((3 ∷ []) ∷ []) ≡ record { problem = town; pool = (2 ∷ []) ∷ (3 ∷ []) ∷ []; sets = town_prices ∷ [] } }
    ensures one_more { with_sets town_support (heavy_prices ∷ []) ≡ record { problem = town; pool = town_pool; sets = town_prices ∷ heavy_prices ∷ [] } }
{}

fn facts_on_nodes()
    ensures a_cut_too_many { ¬ (IsLeanStand town_support 1 (record { branch = High 1 0 ∷ []; node = Cut 1 5 })) }
    ensures one_is_left { IsLeanStand town_support 2 (record { branch = High 1 0 ∷ []; node = Cut 1 5 }) }
    ensures inner_shows { IsShownStand town_support 7 (record { branch = []; node = Pair 1 2 }) }
    ensures none_shows { ¬ (IsShownStand town_support 7 (record { branch = []; node = Price 0 })) }
{}

fn turns_of_entries()
    ensures two { turns_in 3 (entries_showing 3 1) ≡ 2 }
    ensures each { turns_in 1 (entries_showing 3 1) ≡ 3 }
    ensures just { shows_just 3 (price_entry 1 3) ≡ true }
    ensures not_just { shows_just 3 (price_entry 1 4) ≡ false }
{}

fn the_leaf_that_shows_least()
    ensures last { IsLeastOpen 4 (entries_showing 3 1) 2 }
    ensures first_of_two { IsLeastOpen 4 (entries_showing 3 3) 1 }
    ensures not_the_first { ¬ (IsLeastOpen 4 (entries_showing 3 3) 2) }
    ensures not_the_least { ¬ (IsLeastOpen 4 (entries_showing 3 1) 1) }
    ensures shown { ¬ (IsLeastOpen 1 (entries_showing 3 1) 2) }
    ensures no_place { ¬ (IsLeastOpen 4 (entries_showing 3 1) 3) }
{}

fn what_a_node_shows()
    ensures inner { ShowsUpTo town_support (cut_root 1) 999999999999999999 }
    ensures inner_shows_more { ¬ (ShowsUpTo town_support (cut_root 1) 5) }
    ensures no_set { ¬ (ShowsUpTo town_support (record { branch = []; node = Price 0 }) 5) }
    ensures reaches { NodeReaches town_support (whole 12) [] (Price 1) }
    ensures not_reached { ¬ (NodeReaches town_support (whole 13) [] (Price 1)) }
    ensures no_leaf { NodeReaches town_support (whole 13) [] (Cut 1 1) }
{}

fn sound_nodes()
    ensures cut { IsSoundNode town_support (whole 12) (cut_root 1) (cut_entry 1 999999999999999999) }
    ensures below_its_number { ¬ (IsSoundNode town_support (whole 12) (cut_root 0) (cut_entry 0 999999999999999999)) }
    ensures shows_more { ¬ (IsSoundNode town_support (whole 12) (cut_root 1) (cut_entry 1 5)) }
    ensures another { ¬ (IsSoundNode town_support (whole 12) (cut_root 1) (cut_entry 2 999999999999999999)) }
    ensures one { AreSound town_support (whole 12) (cut_root 1 ∷ []) (cut_entry 1 999999999999999999 ∷ []) }
    ensures none { AreSound town_support (whole 12) [] [] }
    ensures one_too_many { ¬ (AreSound town_support (whole 12) [] (cut_entry 1 999999999999999999 ∷ [])) }
    ensures one_too_few { ¬ (AreSound town_support (whole 12) (cut_root 1 ∷ []) []) }
{}

fn noted_nodes()
    ensures cut { IsNotedNode town_support (cut_root 1) (cut_entry 1 999999999999999999) }
    ensures another { ¬ (IsNotedNode town_support (cut_root 1) (cut_entry 2 999999999999999999)) }
    ensures one { AreNoted town_support (cut_root 1 ∷ []) (cut_entry 1 999999999999999999 ∷ []) }
    ensures one_too_few { ¬ (AreNoted town_support (cut_root 1 ∷ []) []) }
{}

fn decisions_that_may_be_added()
    ensures cut { IsOpenDecision town [] (Low 1 0) }
    ensures one_edge { ¬ (IsOpenDecision (in_a_row 2) [] (Yes 1 1)) }
    ensures said { ¬ (IsOpenDecision (in_a_row 2) (No 1 2 ∷ []) (No 2 1)) }
    ensures not_fit { ¬ (IsKept town town_pool [] (Low 1 0) heavy_prices) }
{}

// Seven halves are rounded up to 4.
fn a_value_is_rounded_up()
    ensures most { IsMostShown 2 (pos 7) 4 }
    ensures less { ¬ (IsMostShown 2 (pos 7) 3) }
    ensures more { ¬ (IsMostShown 2 (pos 7) 5) }
    ensures whole { IsMostShown 2 (pos 8) 4 }
{}

fn a_bound_is_shown()
    ensures last { IsShown 2 (pos 7) 4 }
    ensures next { ¬ (IsShown 2 (pos 7) 5) }
    ensures whole { ¬ (IsShown 2 (pos 8) 5) }
{}
