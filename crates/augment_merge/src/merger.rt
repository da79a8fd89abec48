// The helper that offers the plan of augment-merge.
ghost use Rattle.augment_merge.specs.Joins.{NoJoinSaves};
ghost use Rattle.augment_merge.specs.Merging.{IsAugmentMerged};

use crate::making::augment_merge;
use carp_base::{Instance, Memory};
use deadhead_paths::Distances;
use helper_frame::{Finder, Helper, Keeper};
use plan_model::Plan;
use std::alloc::Global;

/// Finds the plan of [`augment_merge`], in the time that [`augment_merge`] takes. It draws nothing, and the best plan
/// so far changes nothing.
#[derive(Drop)]
pub struct MergeFinder;

impl Finder for MergeFinder {
    ghost finds = { λ p _ plan. IsAugmentMerged p plan × NoJoinSaves p plan };

    fn seeded(_word: u64) -> MergeFinder {
        MergeFinder
    }

    fn find(
        &mut self,
        alloc: Global,
        inst: &Instance,
        dist: &Distances,
        _best: &Plan,
    ) -> Result<Plan, Memory> {
        augment_merge(alloc, inst, dist)
    }
}

/// A helper that offers the plan of [`augment_merge`]: a [`Helper`] with what [`MergeFinder`] finds. Asked again about the
/// same instance it offers a copy ([`Keeper`]), until it is seeded anew.
pub type Merger = Helper<Keeper<MergeFinder>>;
