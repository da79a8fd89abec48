// Small data on which a fact that no call decides holds, and on which it does not.
ghost use Rattle.std.specs.Prelude.{[], ◌∷◌};
ghost use Rattle.decision_chains.specs.declared.decision.Decision.TheVariants.{High, Low, No};
ghost use Rattle.branch_rules.specs.Trees.{cut, fixed, pair, price, void};
ghost use Rattle.tree_transfer.specs.Carried.{IsCarried, WouldShow};
ghost use Rattle.tree_transfer.specs.CarriedExamples.{cut_at, paired, paired_twice, star, star_pool, waste_support};
ghost use Rattle.tree_transfer.specs.CarriedLaws.{IsShowing, WouldBeShowing};

use decision_chains::distinct_edges_sum_to_no_more;

fn pairs_that_are_carried_over()
    ensures gone { IsCarried (star 3) [] [] paired (price 2) }
    ensures not_the_first { ¬ (IsCarried (star 3) [] [] paired (price 1)) }
    ensures not_kept { ¬ (IsCarried (star 3) [] [] paired paired) }
    ensures both_gone { IsCarried (star 3) [] [] paired_twice (price 2) }
    ensures kept { IsCarried (star 4) [] [] paired paired }
    ensures not_gone { ¬ (IsCarried (star 4) [] [] paired (price 2)) }
    ensures said_no { IsCarried (star 4) [] (No 2 1 ∷ []) paired (price 2) }
    ensures leaf { IsCarried (star 4) [] [] fixed fixed }
    ensures another_leaf { ¬ (IsCarried (star 4) [] [] fixed void) }
{
    distinct_edges_sum_to_no_more();
}

fn cuts_that_are_carried_over()
    ensures gone { IsCarried (star 2) star_pool [] (cut_at 2) (price 1) }
    ensures not_kept { ¬ (IsCarried (star 2) star_pool [] (cut_at 2) (cut_at 2)) }
    ensures at_the_number { IsCarried (star 2) star_pool [] (cut_at 3) (cut_at 3) }
    ensures not_below { ¬ (IsCarried (star 2) star_pool [] (cut_at 2) void) }
    ensures kept { IsCarried (star 4) star_pool [] (cut_at 2) (cut_at 2) }
    ensures not_gone { ¬ (IsCarried (star 4) star_pool [] (cut_at 2) (price 1)) }
    ensures under_another { IsCarried (star 4) star_pool [] (cut 1 1 void (cut_at 2)) (cut 1 1 void (price 1)) }
    ensures no_longer_under_it { IsCarried (star 2) star_pool [] (cut 1 1 void (cut_at 4)) (cut_at 4) }
{}

fn what_leaves_would_show()
    ensures price { WouldShow waste_support (High 1 1 ∷ []) 10 (price 1) }
    ensures less { ¬ (WouldShow waste_support (High 1 1 ∷ []) 11 (price 1)) }
    ensures no_set { ¬ (WouldShow waste_support [] 0 (price 2)) }
    ensures void { WouldShow waste_support (High 1 1 ∷ Low 1 1 ∷ []) 10 void }
    ensures not_void { ¬ (WouldShow waste_support [] 0 void) }
    ensures fixed { WouldShow waste_support [] 0 fixed }
    ensures its_value { ¬ (WouldShow waste_support [] 1 fixed) }
    ensures void_is_not_fixed { ¬ (WouldShow waste_support (High 1 1 ∷ Low 1 1 ∷ []) 0 fixed) }
    ensures split { WouldShow waste_support (High 1 1 ∷ []) 10 (cut_at 1) }
    ensures second_child { ¬ (WouldShow waste_support (High 1 1 ∷ []) 11 (cut_at 1)) }
{}

fn trees_that_show()
    ensures shows { IsShowing waste_support 0 (price 1) }
    ensures less { ¬ (IsShowing waste_support 1 (price 1)) }
    ensures would { WouldBeShowing waste_support 0 fixed }
    ensures would_less { ¬ (WouldBeShowing waste_support 1 fixed) }
    ensures not_required { ¬ (WouldBeShowing waste_support 0 (pair 1 2 fixed fixed)) }
    ensures not_lean { ¬ (WouldBeShowing waste_support 0 (cut 1 1 fixed (cut_at 1))) }
{}
