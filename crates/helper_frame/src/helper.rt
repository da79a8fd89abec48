// A helper that offers what a finder finds.
ghost use Rattle.std.specs.Prelude.{◌≡◌, ◌+◌, ◌<◌, List, IfOk, None};
ghost use Rattle.carp_base.specs.Problem.{Problem};
ghost use Rattle.plan_model.specs.declared.step.Step.{Step};
ghost use Rattle.plan_model.specs.Offers.{AfterOffer};
ghost use Rattle.plan_model.specs.Plans.{IsLawful};
ghost use Rattle.deadhead_paths.specs.Prices.{costs_of};
ghost use Rattle.helper_frame.specs.Finding.{OffersFound};

use crate::known_distances::KnownDistances;
use crate::standing::Standing;
use carp_base::{Instance, Memory};
use deadhead_paths::Distances;
use plan_model::{Plan, Proposer};
use std::alloc::Global;
use task_tours::lawful_cost;

/// A way to find lawful plans, by the distances of an instance and the best plan so far. It may draw.
///
/// Contracts see only what holds of each plan that it finds, in an instance with a best plan so far.
pub trait Finder: Drop {
    ghost finds: { Problem → List (List Step) → List (List Step) → Type 0 };

    /// The finder whose draws begin with this seed.
    fn seeded(word: u64) -> Self;

    /// Finds a lawful plan. The distances are those by cost. The only error is want of memory.
    fn find(
        &mut self,
        alloc: Global,
        inst: &Instance,
        dist: &Distances,
        best: &Plan,
    ) -> Result<Plan, Memory>
        requires problem { dist.now.problem ≡ inst.now }
        requires prices { dist.now.prices ≡ costs_of inst.now }
        requires best { IsLawful inst.now best.now }
        ensures lawful { IfOk result (λ plan. IsLawful inst.now plan) }
        ensures found { IfOk result (λ plan. finds inst.now best.now plan) };
}

/// A helper that offers what a finder finds.
///
/// An offer takes what the finder takes, and time in proportion to the edges of the instance and to the steps of the
/// plan. The helper keeps the distances of the instance that it was asked about last ([`KnownDistances`]), so the first
/// offer for an instance takes time in proportion to n (n + m) log n more, with n vertices and m edges. What it keeps
/// is 20 bytes for each pair of vertices: 20 MB at 1,000 vertices.
#[derive(Drop)]
pub struct Helper<F: Finder> {
    standing: Standing,
    known: KnownDistances,
    finder: F,
}

impl<F: Finder> Helper<F> {
    /// The helper of this id, before it was asked, with seed 0.
    pub fn new(id: u64) -> Helper<F>
        ensures id { ⟦<Helper<F> as Proposer>⟧.id result ≡ id }
        ensures seed { ⟦<Helper<F> as Proposer>⟧.seed result ≡ 0 }
        ensures asked { ⟦<Helper<F> as Proposer>⟧.asked result ≡ 0 }
        ensures tally { ⟦<Helper<F> as Proposer>⟧.tally result ≡ record { fouls = 0; least = None; last = None } }
    {
        Helper {
            standing: Standing::new(id),
            known: KnownDistances::new(),
            finder: F::seeded(0),
        }
    }
}

impl<F: Finder> Proposer for Helper<F> {
    ghost use Rattle.helper_frame.specs.Standings.{tally_of};

    ghost id = { λ h. h.standing.id };

    ghost seed = { λ h. h.standing.seed };

    ghost asked = { λ h. h.standing.asked };

    ghost tally = { λ h. tally_of h.standing };

    fn id(&self) -> u64 {
        self.standing.id
    }

    fn fouls(&self) -> u64 {
        self.standing.fouls
    }

    fn reseed(&mut self, word: u64) {
        self.standing.reseed(word);
        self.finder = F::seeded(word);
    }

    fn propose(
        &mut self,
        alloc: Global,
        inst: &Instance,
        best: &Plan,
    ) -> Result<Option<Plan>, Memory>
        requires lawful { IsLawful inst.now best.now }
        requires not_often { ⟦<Helper<F> as Proposer>⟧.asked self.old < 1000 }
        requires few_fouls { (⟦<Helper<F> as Proposer>⟧.tally self.old).fouls < 1000 }
        ensures id { ⟦<Helper<F> as Proposer>⟧.id self.new ≡ ⟦<Helper<F> as Proposer>⟧.id self.old }
        ensures seed { ⟦<Helper<F> as Proposer>⟧.seed self.new ≡ ⟦<Helper<F> as Proposer>⟧.seed self.old }
        ensures asked { ⟦<Helper<F> as Proposer>⟧.asked self.new ≡ ⟦<Helper<F> as Proposer>⟧.asked self.old + 1 }
        ensures offer { AfterOffer inst.now result (⟦<Helper<F> as Proposer>⟧.tally self.old) (⟦<Helper<F> as Proposer>⟧.tally self.new) }
        ensures found { IfOk result (OffersFound inst.now (F.finds inst.now best.now)) }
    {
        self.standing.ask();
        let dist = self.known.distances(alloc, inst)?;
        let plan = self.finder.find(alloc, inst, dist, best)?;
        self.standing.offer(lawful_cost(alloc, inst, &plan)?);
        Ok(Some(plan))
    }
}
