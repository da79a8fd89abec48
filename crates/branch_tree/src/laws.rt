// The laws that a search stands on, as one, and laws on what it holds.
ghost use Rattle.branch_tree.specs.Counts.{SearchesHoldFewSets, SearchesStayLight};
ghost use Rattle.branch_tree.specs.Known.{Known};
ghost use Rattle.branch_tree.specs.Reaching.{SearchesReachFloors};

use decision_chains::fixed_values_compare;
use dual_master::growth_keeps_sets;
use grown_trees::{
    decisions_keep_sets, grown_trees_stay_sound, more_support_keeps_trees_sound,
    sound_trees_are_lean,
};
use task_tours::short_plans_cost_little;

// What is known of grown trees, of branches, of price sets and of plans.
pub(crate) fn known_laws()
    ensures { Known }
{
    grown_trees_stay_sound();
    more_support_keeps_trees_sound();
    sound_trees_are_lean();
    decisions_keep_sets();
    growth_keeps_sets();
    fixed_values_compare();
    short_plans_cost_little();
}

/// Each price leaf of a search names a set whose value under its decisions, divided by its denominator, is at least each
/// floor, if the base of the search reaches the floors. It does so when a search has just begun, and each step, one for
/// which memory did not suffice, and each plan that is taken keep it.
pub fn searches_reach_floors()
    ensures { SearchesReachFloors }
{
    sound_trees_are_lean();
}

/// A search that began anew holds at most one price set more than it has turns, at each moment: it does so when it has
/// just begun, and each step and each plan that it takes keep that.
pub fn searches_hold_few_sets()
    ensures { SearchesHoldFewSets }
{}

/// A search that began anew is light at each moment: the edges of the groups of each of its price sets, and six for each
/// group, are at most 5,000 together, and the number of each cut of its tree is at most 999. It is so when it has just
/// begun, and each step and each plan that it takes keep that.
pub fn searches_stay_light()
    ensures { SearchesStayLight }
{}
