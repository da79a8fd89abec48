// The helper that offers settled plans.
ghost use Rattle.local_moves.specs.Offering.{IsSettledFrom};

use crate::perturbed::perturbed;
use crate::plans::settle_on;
use carp_base::{Instance, Memory};
use deadhead_paths::Distances;
use helper_frame::{Finder, Helper};
use plan_model::Plan;
use rand_pcg::Lcg64Xsh32;
use ruin_recreate::board_of;
use std::alloc::Global;

/// Changes the best plan so far by ruin and recreate, if that makes it no dearer, and settles it.
///
/// The draws begin with the seed, and go on from call to call. No clause speaks of them.
///
/// With r required edges it takes time in proportion to r for each service that one of at most 240,000 steps of ruin
/// and recreate puts back, and to r * r for each change that settling finds.
#[derive(Drop)]
pub struct MoveFinder {
    generator: Lcg64Xsh32,
}

impl Finder for MoveFinder {
    ghost finds = { IsSettledFrom };

    fn seeded(word: u64) -> MoveFinder {
        MoveFinder {
            generator: Lcg64Xsh32::new(word, 1),
        }
    }

    fn find(
        &mut self,
        alloc: Global,
        inst: &Instance,
        dist: &Distances,
        best: &Plan,
    ) -> Result<Plan, Memory> {
        let board = board_of(alloc, inst, dist)?;
        let found = perturbed(alloc, inst, dist, &board, best, &mut self.generator)?;
        settle_on(alloc, inst, dist, &board, found.as_ref().unwrap_or(best))
    }
}

/// A helper that offers the best plan so far after ruin and recreate, and settled: a [`Helper`] with what
/// [`MoveFinder`] finds.
pub type Mover = Helper<MoveFinder>;
