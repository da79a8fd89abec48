// The laws that a carried certificate stands on, as one.
ghost use Rattle.cert_transfer.specs.Known.{Known};

use branch_rules::tree_bounds;
use cert_format::{counts_are_in_range, plans_are_on_edges};
use cert_lines::{fine_is_spellable, spellable_is_fine};
use task_tours::{plans_are_tours, short_plans_cost_little};
use tree_transfer::{carried_trees_show, edits_raise_instances, raised_sets_stay_fit};

// What is known of certificates, of plans, and of raised instances.
pub(crate) fn known_laws()
    ensures { Known }
{
    edits_raise_instances();
    raised_sets_stay_fit();
    carried_trees_show();
    plans_are_tours();
    plans_are_on_edges();
    tree_bounds();
    fine_is_spellable();
    spellable_is_fine();
    counts_are_in_range();
    short_plans_cost_little();
}
