// Small data on which a fact that no call decides holds, and on which it does not.
ghost use Rattle.std.specs.Prelude.{◌≡◌, pos, negsuc, [], ◌∷◌, IsTrue, Some, None, false};
ghost use Rattle.deadhead_paths.specs.Examples.{town};
ghost use Rattle.cut_pool.specs.Examples.{in_a_row};
ghost use Rattle.carp_base.specs.Problem.{edge_at};
ghost use Rattle.decision_chains.specs.Neighbours.{AreNeighbours};
ghost use Rattle.branch_rules.specs.Bonds.{IsApart, IsGroup, bond_weight, bonds, plan_bonds, room, surcharge};
ghost use Rattle.branch_rules.specs.Prices.{KeepsRules, deadhead_price, task_adds, value_of};
ghost use Rattle.decision_chains.specs.Exclusions.{Excluded};
ghost use Rattle.branch_rules.specs.Decisions.{IsFixed, IsVoid, Meets, MeetsAll, Spells, cuts_of, is_yes_pair, lower_of, lowest, rules_of};
ghost use Rattle.decision_chains.specs.FixedValue.{HasFixedValue};
ghost use Rattle.branch_rules.specs.Laws.{FitsBranch, IsMet};
ghost use Rattle.decision_chains.specs.Pairs.{ArePairsIn};
ghost use Rattle.branch_rules.specs.Limits.{AreShoresIn, IsNodeIn, IsSurcharge};
ghost use Rattle.branch_rules.specs.Trees.{HasTurns, IsLean, IsLeanNode, IsSoundSupport, NodesShow, PairsIn, Shows, cut, first_of, fixed, pair, preorder, price, second_of, void};
ghost use Rattle.decision_chains.specs.declared.decision.Decision.TheVariants.{High, Low, No, Yes};
ghost use Rattle.branch_rules.specs.declared.node.Node.TheVariants.{Cut, Fixed, Pair, Price};
ghost use Rattle.branch_rules.specs.Examples.{both_weights, heavy_prices, light_prices, one_row_tour, row, row_prices, row_weights, town_plan, town_pool, town_prices, town_support, two_row_tours, yes_prices, yes_weights};

use crate::fixed_value_bounds;
use decision_chains::{distinct_edges_sum_to_no_more, yes_pairs_join};

fn neighbours_in_a_plan()
    ensures one_after_the_other { AreNeighbours one_row_tour 1 2 }
    ensures turned { AreNeighbours one_row_tour 2 1 }
    ensures in_other_tours { ¬ (AreNeighbours two_row_tours 1 2) }
{}

fn decisions_of_a_plan()
    ensures yes { Meets (in_a_row 3) [] one_row_tour (Yes 2 1) }
    ensures no { ¬ (Meets (in_a_row 3) [] one_row_tour (No 1 2)) }
    ensures both { MeetsAll (in_a_row 3) [] two_row_tours (No 1 2 ∷ No 2 1 ∷ []) }
    ensures low { Meets town town_pool town_plan (Low 1 1) }
    ensures too_low { ¬ (Meets town town_pool town_plan (Low 1 0)) }
    ensures high { Meets town town_pool town_plan (High 1 0) }
    ensures too_high { ¬ (Meets town town_pool town_plan (High 1 1)) }
{}

fn a_plan_that_meets_a_branch()
    ensures none { IsMet town town_pool [] town_plan }
    ensures low { ¬ (IsMet town town_pool (Low 1 0 ∷ []) town_plan) }
    ensures spells { Spells [] town_plan }
    ensures another { ¬ (Spells [] one_row_tour) }
{}

fn numbers_of_a_shore()
    ensures need { lower_of town town_pool [] 1 ≡ 1 }
    ensures parity { lower_of town town_pool (High 1 1 ∷ []) 1 ≡ 3 }
    ensures greatest { lower_of town town_pool (High 1 4 ∷ High 1 1 ∷ []) 1 ≡ 5 }
    ensures least { lowest 1 (Low 1 2 ∷ Low 1 4 ∷ []) ≡ Some 2 }
    ensures of_another { lowest 1 (Low 2 2 ∷ High 1 4 ∷ []) ≡ None }
    ensures kept { KeepsRules (rules_of town town_pool []) 1 1 }
    ensures not_kept { ¬ (KeepsRules (rules_of town town_pool []) 1 0) }
{}

fn an_excluded_pair()
    ensures same { Excluded (in_a_row 3) [] 1 1 }
    ensures said_no { Excluded (in_a_row 3) (No 2 1 ∷ []) 1 2 }
    ensures full { Excluded (in_a_row 3) (Yes 1 3 ∷ Yes 4 1 ∷ []) 1 2 }
    ensures ends { Excluded (in_a_row 3) (Yes 1 3 ∷ Yes 3 2 ∷ []) 1 2 }
    ensures heavy { Excluded (in_a_row 2) [] 1 2 }
    ensures free { ¬ (Excluded (in_a_row 3) [] 1 2) }
{
    yes_pairs_join();
    distinct_edges_sum_to_no_more();
}

fn a_void_branch()
    ensures three { IsVoid town town_pool (Yes 1 2 ∷ Yes 1 3 ∷ Yes 1 4 ∷ []) }
    ensures cycle { IsVoid town town_pool (Yes 1 2 ∷ Yes 2 3 ∷ Yes 1 3 ∷ []) }
    ensures heavy { IsVoid (in_a_row 2) [] (Yes 1 2 ∷ []) }
    ensures crossed { IsVoid town town_pool (Low 1 0 ∷ []) }
    ensures none { ¬ (IsVoid town town_pool []) }
{
    distinct_edges_sum_to_no_more();
}

fn a_fixed_branch()
    ensures one_edge { IsFixed town town_pool [] }
    ensures void { ¬ (IsFixed town town_pool (Low 1 0 ∷ [])) }
    ensures open_pair { ¬ (IsFixed (in_a_row 3) [] []) }
    ensures value { HasFixedValue town [] 12 }
    ensures dearer { ¬ (HasFixedValue town [] 13) }
{
    distinct_edges_sum_to_no_more();
    fixed_value_bounds();
}

fn a_price_set()
    ensures adds { task_adds town town_prices 1 ≡ pos 0 }
    ensures crossing { deadhead_price town_pool town_prices (edge_at town 1) ≡ pos 0 }
    ensures value { value_of (rules_of town town_pool []) town_prices ≡ pos 12 }
    ensures raised { value_of (rules_of town town_pool (High 1 1 ∷ [])) town_prices ≡ pos 22 }
    ensures negative { value_of (rules_of town town_pool (Low 1 3 ∷ [])) light_prices ≡ pos 4 }
    ensures fits { FitsBranch town town_pool [] town_prices }
    ensures too_heavy { ¬ (FitsBranch town town_pool [] heavy_prices) }
    ensures no_upper { ¬ (FitsBranch town town_pool [] light_prices) }
{}

fn bonds_of_a_group()
    ensures group { IsGroup (in_a_row 3) row }
    ensures one_edge { ¬ (IsGroup (in_a_row 3) (1 ∷ [])) }
    ensures twice { bonds row (1 ∷ 2 ∷ 1 ∷ []) ≡ 2 }
    ensures between { bonds row (1 ∷ 3 ∷ 2 ∷ []) ≡ 0 }
    ensures one_tour { plan_bonds row one_row_tour ≡ 1 }
    ensures two_tours { plan_bonds row two_row_tours ≡ 0 }
    ensures one_vehicle { room (in_a_row 3) row ≡ 1 }
    ensures two_vehicles { room (in_a_row 2) row ≡ 0 }
    ensures weigh { bond_weight row_weights (1 ∷ 2 ∷ 1 ∷ []) ≡ pos 6 }
    ensures surcharge { surcharge row_weights 2 1 ≡ pos 3 }
    ensures none { surcharge row_weights 2 3 ≡ pos 0 }
    ensures added { surcharge both_weights 2 1 ≡ pos 5 }
    ensures of_one { surcharge both_weights 2 3 ≡ pos 2 }
    ensures apart { IsApart row_weights 3 }
    ensures together { ¬ (IsApart row_weights 2) }
    ensures greatest { IsSurcharge (pos 2000000000000000000) }
    ensures too_great { ¬ (IsSurcharge (pos 2000000000000000001)) }
    ensures value { value_of (rules_of (in_a_row 3) [] []) row_prices ≡ pos 5 }
    ensures full { value_of (rules_of (in_a_row 2) [] []) row_prices ≡ pos 8 }
{}

fn a_yes_weight()
    ensures yes { IsTrue (is_yes_pair (Yes 2 1 ∷ []) row) }
    ensures said_no { is_yes_pair (No 1 2 ∷ []) row ≡ false }
    ensures three_edges { is_yes_pair (Yes 1 2 ∷ []) (1 ∷ 2 ∷ 3 ∷ []) ≡ false }
    ensures surcharge { surcharge yes_weights 1 2 ≡ negsuc 3 }
    ensures weigh { bond_weight yes_weights (1 ∷ 2 ∷ 1 ∷ []) ≡ negsuc 7 }
    ensures value { value_of (rules_of (in_a_row 3) [] (Yes 1 2 ∷ [])) yes_prices ≡ pos 6 }
    ensures fits { FitsBranch (in_a_row 3) [] (Yes 1 2 ∷ []) yes_prices }
    ensures no_yes { ¬ (FitsBranch (in_a_row 3) [] [] yes_prices) }
    ensures another_pair { ¬ (FitsBranch (in_a_row 3) [] (Yes 1 3 ∷ []) yes_prices) }
{}

fn a_tree_that_shows_a_bound()
    ensures sound { IsSoundSupport town_support }
    ensures prices { Shows town_support [] 12 (price 1) }
    ensures low { ¬ (Shows town_support [] 13 (price 1)) }
    ensures no_set { ¬ (Shows town_support [] 12 (price 0)) }
    ensures fixed_leaf { Shows town_support [] 12 fixed }
    ensures split { Shows town_support [] 12 (cut 1 0 void (price 1)) }
    ensures nodes { NodesShow town_support 12 (Price 1 ∷ []) ([] ∷ []) }
    ensures one_more { ¬ (NodesShow town_support 12 (Price 1 ∷ Fixed ∷ []) ([] ∷ [])) }
    ensures in_order { preorder (cut 1 0 fixed (price 1)) ≡ Cut 1 0 ∷ Fixed ∷ Price 1 ∷ [] }
{
    distinct_edges_sum_to_no_more();
}

fn a_lean_tree()
    ensures lean { IsLean town_support [] 4 (cut 1 1 (price 1) (price 1)) }
    ensures below { ¬ (IsLean town_support [] 4 (cut 1 0 (price 1) (price 1))) }
    ensures again { ¬ (IsLean town_support [] 4 (cut 1 1 (cut 1 1 fixed fixed) fixed)) }
    ensures no_cut_left { ¬ (IsLean town_support [] 0 (cut 1 1 fixed fixed)) }
    ensures determined { ¬ (IsLean town_support [] 4 (pair 1 1 fixed fixed)) }
    ensures required { ¬ (PairsIn town (pair 1 2 fixed fixed)) }
    ensures closed { HasTurns town_support [] 12 (price 1) 1 }
    ensures open { HasTurns town_support [] 13 (price 1) 0 }
    ensures inner { HasTurns town_support [] 12 (cut 1 0 void (price 1)) 3 }
    ensures a_turn_too_few { ¬ (HasTurns town_support [] 12 (cut 1 0 void (price 1)) 2) }
{}

fn premises_of_a_branch()
    ensures pairs { ArePairsIn (in_a_row 3) (Yes 2 1 ∷ Low 1 5 ∷ []) }
    ensures one_edge { ¬ (ArePairsIn (in_a_row 3) (No 1 1 ∷ [])) }
    ensures not_required { ¬ (ArePairsIn (in_a_row 3) (Yes 1 3 ∷ [])) }
    ensures no_shore { ¬ (AreShoresIn town town_pool (Low 2 0 ∷ [])) }
    ensures node { ¬ (IsNodeIn town town_pool (Pair 1 1)) }
    ensures cuts { cuts_of (Low 1 2 ∷ Yes 1 2 ∷ High 1 3 ∷ []) ≡ 2 }
{}

fn decisions_of_a_node()
    ensures low_first { first_of (Cut 1 3) ≡ Low 1 3 }
    ensures high_second { second_of (Cut 1 3) ≡ High 1 3 }
    ensures yes_first { first_of (Pair 1 2) ≡ Yes 1 2 }
    ensures no_second { second_of (Pair 1 2) ≡ No 1 2 }
{}

fn a_lean_node()
    ensures cut { IsLeanNode town town_pool [] 4 (Cut 1 1) }
    ensures below { ¬ (IsLeanNode town town_pool [] 4 (Cut 1 0)) }
    ensures none_left { ¬ (IsLeanNode town town_pool [] 0 (Cut 1 1)) }
    ensures one_edge { ¬ (IsLeanNode town town_pool [] 4 (Pair 1 1)) }
    ensures leaf { IsLeanNode town town_pool [] 0 Fixed }
{}
