// Small data on which a fact that no call decides holds, and on which it does not.
ghost use Rattle.std.specs.Prelude.{◌≡◌, [], ◌∷◌, negsuc, pos};
ghost use Rattle.branch_rules.specs.declared.node.Node.TheVariants.{Cut, Fixed};
ghost use Rattle.branch_rules.specs.Trees.{no_prices};
ghost use Rattle.branch_tree.specs.Counts.{HoldsFewSets};
ghost use Rattle.branch_tree.specs.Examples.{closed_state, half_open_state, state_with};
ghost use Rattle.branch_tree.specs.Splits.{IsInner};
ghost use Rattle.branch_tree.specs.Steps.{AreClosed};
ghost use Rattle.branch_tree.specs.Values.{just_above};

fn leaves_that_show_the_cost()
    ensures all { AreClosed closed_state }
    ensures but_one { ¬ (AreClosed half_open_state) }
{}

fn numbers_of_price_sets()
    ensures one_more { HoldsFewSets (state_with (no_prices ∷ no_prices ∷ no_prices ∷ no_prices ∷ []) 9) }
    ensures two_more { ¬ (HoldsFewSets (state_with (no_prices ∷ no_prices ∷ no_prices ∷ no_prices ∷ no_prices ∷ []) 9)) }
{}

fn a_millionth_above_a_bound_less_1()
    ensures of_five { just_above 5 ≡ record { unit = 1000000; value = pos 4000001 } }
    ensures of_none { just_above 0 ≡ record { unit = 1000000; value = negsuc 999998 } }
{}

fn nodes_with_two_children()
    ensures cut { IsInner (Cut 1 3) }
    ensures leaf { ¬ (IsInner Fixed) }
{}
