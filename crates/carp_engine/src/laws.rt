// The laws that certificates and searches stand on, as one.
ghost use Rattle.carp_engine.specs.Known.{Known};

use branch_rules::{lean_trees_are_small, tree_bounds};
use branch_tree::resumed_trees_have_turns;
use cert_format::{counts_are_in_range, good_is_proof, plans_are_on_edges};
use cert_lines::{fine_is_spellable, light_texts_are_short, shores_are_fine, spellable_is_fine};
use decision_chains::fixed_values_compare;
use task_tours::{short_plans_are_allowed, short_plans_cost_little};
use tree_transfer::named_sets_suffice;

// What is known of certificates, of plans, and of trees that are taken up.
pub(crate) fn known_laws()
    ensures { Known }
{
    tree_bounds();
    lean_trees_are_small();
    counts_are_in_range();
    fine_is_spellable();
    spellable_is_fine();
    shores_are_fine();
    short_plans_cost_little();
    short_plans_are_allowed();
    plans_are_on_edges();
    good_is_proof();
    fixed_values_compare();
    named_sets_suffice();
    resumed_trees_have_turns();
    light_texts_are_short();
}
