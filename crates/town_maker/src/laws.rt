// What holds of all towns.
ghost use Rattle.town_maker.specs.Laws.{TownsAreValid};

use carp_base::valid_where_no_fault;

/// A law, with nothing to run: each number has a valid town.
pub fn towns_are_valid()
    ensures { TownsAreValid }
{
    valid_where_no_fault();
}
