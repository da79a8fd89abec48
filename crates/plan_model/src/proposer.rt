// A helper that offers plans.
ghost use Rattle.std.specs.Prelude.{◌≡◌, ℕ, ◌+◌, ◌<◌, None};
ghost use Rattle.plan_model.specs.Plans.{IsLawful};
ghost use Rattle.plan_model.specs.Offers.{AfterOffer, Tally};

use crate::Plan;
use carp_base::{Instance, Memory};
use std::alloc::Global;

/// A helper that offers plans for an instance. It need not be trusted: each offer is judged.
///
/// Contracts see its id, its seed, how often it was asked, and its tally. The tally has the number of unlawful plans
/// that it offered, the least cost of its lawful offers, and the cost of its latest offer if that was lawful.
pub trait Proposer: Drop {
    ghost id: { Self → ℕ };

    ghost seed: { Self → ℕ };

    ghost asked: { Self → ℕ };

    ghost tally: { Self → Tally };

    /// The helper's number, which never changes.
    fn id(&self) -> u64
        ensures { result ≡ id self.now };

    /// How many unlawful plans it offered since it was seeded.
    fn fouls(&self) -> u64
        ensures { result ≡ (tally self.now).fouls };

    /// Starts afresh from a seed.
    fn reseed(&mut self, word: u64)
        ensures id { id self.new ≡ id self.old }
        ensures seed { seed self.new ≡ word }
        ensures asked { asked self.new ≡ 0 }
        ensures tally { tally self.new ≡ record { fouls = 0; least = None; last = None } };

    /// Offers a plan, or none. It may look at the best lawful plan so far. From one seed to the next it may be asked at
    /// most 1,000 times, and not again after 1,000 unlawful plans. After want of memory it counts as asked, and its
    /// latest offer is none.
    fn propose(
        &mut self,
        alloc: Global,
        inst: &Instance,
        best: &Plan,
    ) -> Result<Option<Plan>, Memory>
        requires lawful { IsLawful inst.now best.now }
        requires not_often { asked self.old < 1000 }
        requires few_fouls { (tally self.old).fouls < 1000 }
        ensures id { id self.new ≡ id self.old }
        ensures seed { seed self.new ≡ seed self.old }
        ensures asked { asked self.new ≡ asked self.old + 1 }
        ensures offer { AfterOffer inst.now result (tally self.old) (tally self.new) };
}

impl Proposer for Box<dyn Proposer> {
    ghost id = { λ b. (Proposer-box b).id b.value };

    ghost seed = { λ b. (Proposer-box b).seed b.value };

    ghost asked = { λ b. (Proposer-box b).asked b.value };

    ghost tally = { λ b. (Proposer-box b).tally b.value };

    fn id(&self) -> u64 {
        (**self).id()
    }

    fn fouls(&self) -> u64 {
        (**self).fouls()
    }

    fn reseed(&mut self, word: u64) {
        (**self).reseed(word);
    }

    fn propose(
        &mut self,
        alloc: Global,
        inst: &Instance,
        best: &Plan,
    ) -> Result<Option<Plan>, Memory> {
        (**self).propose(alloc, inst, best)
    }
}
