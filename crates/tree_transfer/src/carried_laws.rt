// What a carried tree shows, as a function whose contract is the law.
ghost use Rattle.tree_transfer.specs.CarriedLaws.{CarriedTreesShow};

use crate::{
    raised_fixed_values_are_no_less, raised_needs_are_no_less, raised_rooms_are_no_more,
    raised_sets_stay_fit,
};
use decision_chains::{excluded_is_symmetric, yes_pairs_join};
use grown_trees::decisions_keep_exclusions;

/// If numbers rise, the tree that is carried over is lean, its pairs are of required edges, and it shows each bound
/// that the older tree showed, by each value that a fixed branch has.
pub fn carried_trees_show()
    ensures { CarriedTreesShow }
{
    yes_pairs_join();
    excluded_is_symmetric();
    decisions_keep_exclusions();
    raised_needs_are_no_less();
    raised_sets_stay_fit();
    raised_rooms_are_no_more();
    raised_fixed_values_are_no_less();
}
