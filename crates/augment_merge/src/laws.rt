// Laws of the crates below, in one.
ghost use Rattle.augment_merge.specs.TourLaws.{TourLaws};

use deadhead_paths::{least_prices_are_distances, least_prices_are_there};
use task_tours::tours_are_linked;

pub(crate) fn tours_have_deadheads()
    ensures { TourLaws }
{
    least_prices_are_distances();
    least_prices_are_there();
    tours_are_linked();
}
