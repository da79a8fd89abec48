// Laws over branches, price sets and trees, as functions whose contract is the law.
ghost use Rattle.branch_rules.specs.Laws.{
  ApartHasNoSurcharge,
  BondsAreBounded,
  SurchargeIsSymmetric,
  SurchargesAreBondWeights,
  YesPairsHaveOneBond,
  ExcludedAreApart,
  VoidIsMetByNone,
  NumbersAreKept,
  FixedValueBounds,
  FixedBranchBounds,
  ValueIsBelow,
  PricesBound,
  TreeBounds,
  LeanIsSmall,
  NodesShowTree,
};
ghost use Rattle.decision_chains.specs.Laws.{ExcludedIsSymmetric};

use cut_pool::need_is_met;
use deadhead_paths::{least_prices_are_there, walks_are_task_tours};
use decision_chains::{distinct_edges_sum_to_no_more, excluded_is_symmetric, yes_pairs_join};
use plan_model::required_edges_are_served_once;

/// A lawful plan has at most so many bonds in a group as the group has edges, less the vehicles that its demand takes.
pub fn bonds_are_bounded()
    ensures { BondsAreBounded }
{
    required_edges_are_served_once();
}

/// A lawful plan that meets a branch has exactly one bond in each pair that the branch says yes to. So the size of a
/// negative weight on such a pair is gained exactly once.
pub fn yes_pairs_have_one_bond()
    ensures { YesPairsHaveOneBond }
{
    yes_pairs_join();
    distinct_edges_sum_to_no_more();
    required_edges_are_served_once();
}

/// What the bonds of a tour weigh is the sum of the surcharges of its edges that follow each other. A surcharge is the
/// same in either order, and an edge of no group has none.
pub fn surcharges_are_bond_weights()
    ensures sum { SurchargesAreBondWeights }
    ensures symmetric { SurchargeIsSymmetric }
    ensures apart { ApartHasNoSurcharge }
{}

/// The edges of an excluded pair are no neighbours in a lawful plan that meets the branch. An excluded pair is excluded
/// in either order.
pub fn excluded_pairs_are_apart()
    ensures apart { ExcludedAreApart }
    ensures symmetric { ExcludedIsSymmetric }
{
    yes_pairs_join();
    distinct_edges_sum_to_no_more();
    excluded_is_symmetric();
}

/// No lawful plan meets a void branch.
pub fn void_is_met_by_none()
    ensures { VoidIsMetByNone }
{
    yes_pairs_join();
    distinct_edges_sum_to_no_more();
    need_is_met();
}

/// In a lawful plan that meets a branch, the deadheads over each shore are at least its lower number, and at most its
/// upper number if there is one.
pub fn numbers_are_kept()
    ensures { NumbersAreKept }
{
    need_is_met();
}

/// A lawful plan whose neighbours are exactly the yes pairs costs at least the fixed value. So does every lawful plan
/// that meets a fixed branch.
pub fn fixed_value_bounds()
    ensures spelt { FixedValueBounds }
    ensures met { FixedBranchBounds }
{
    yes_pairs_join();
    distinct_edges_sum_to_no_more();
    required_edges_are_served_once();
}

/// The value of a price set that fits under a branch is at most its denominator times the cost of each lawful plan that
/// meets the branch. If it is above the denominator times a bound less 1, the plan costs at least the bound.
pub fn prices_bound()
    ensures below { ValueIsBelow }
    ensures bound { PricesBound }
{
    yes_pairs_join();
    distinct_edges_sum_to_no_more();
    required_edges_are_served_once();
    need_is_met();
    least_prices_are_there();
    walks_are_task_tours();
}

/// A tree that shows a bound shows it for every lawful plan, if the instance is valid, no shore has the depot, and each
/// price set has a price for each required edge.
pub fn tree_bounds()
    ensures { TreeBounds }
{
    yes_pairs_join();
    distinct_edges_sum_to_no_more();
    required_edges_are_served_once();
    need_is_met();
    least_prices_are_there();
    walks_are_task_tours();
}

/// A lean tree of at most four cuts on a path, whose pairs are of required edges, has fewer than 2^(m (m - 1) / 2 + 5)
/// turns with m required edges, whatever the cost.
pub fn lean_trees_are_small()
    ensures { LeanIsSmall }
{
    yes_pairs_join();
}

/// A list of nodes in preorder shows a bound exactly if its tree does.
pub fn nodes_show_their_tree()
    ensures { NodesShowTree }
{}
