// Laws over raised instances, as functions whose contract is the law.
ghost use Rattle.tree_transfer.specs.Laws.{DeadheadsStayLight, EditsRaise, FixedValuesRise, NeedsRise, RoomWeightsFall, RoomsFall, SetsStayFit};

use deadhead_paths::least_prices_are_there;
use decision_chains::fixed_values_compare;

/// Edits raise an instance: they only add to numbers, and close only streets that need no service.
pub fn edits_raise_instances()
    ensures { EditsRaise }
{}

/// In a raised instance a set of vertices has as many required crossings as before, and needs no fewer deadheads.
pub fn raised_needs_are_no_less()
    ensures { NeedsRise }
{}

/// In a raised instance a group has no more room for bonds, and the most that the bonds of groups can weigh is no more.
pub fn raised_rooms_are_no_more()
    ensures rooms { RoomsFall }
    ensures weights { RoomWeightsFall }
{}

/// A price set that fits an instance fits a raised one, also under a branch that has the same upper numbers, says yes
/// to no fewer pairs and excludes no fewer.
pub fn raised_sets_stay_fit()
    ensures deadheads { DeadheadsStayLight }
    ensures fit { SetsStayFit }
{
    least_prices_are_there();
}

/// With the same yes pairs, all of required edges, the fixed value in a raised instance is no less.
pub fn raised_fixed_values_are_no_less()
    ensures { FixedValuesRise }
{
    fixed_values_compare();
}
