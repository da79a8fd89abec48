// A finder that keeps the plan that it found.
ghost use Rattle.std.specs.Prelude.{IfSome};
ghost use Rattle.plan_model.specs.Plans.{IsLawful};
ghost use Rattle.helper_frame.specs.Keeping.{IsFoundBesideSome};

use crate::helper::Finder;
use crate::known_distances::is_same;
use carp_base::{Instance, Memory};
use deadhead_paths::Distances;
use plan_model::Plan;
use std::alloc::Global;
use std::marker::PhantomData;

// An instance, and a lawful plan of it that a finder found.
#[derive(Drop)]
struct KnownPlan<F: Finder> {
    inst: Instance,
    plan: Plan,
    finder: PhantomData<F>,
    ghost lawful: { ∥ IsLawful inst plan ∥₁ },
    ghost found: { IsFoundBesideSome F.finds inst plan },
}

impl<F: Finder> KnownPlan<F> {
    // A copy of an instance, with a copy of a plan.
    fn of(alloc: Global, inst: &Instance, plan: &Plan) -> Result<KnownPlan<F>, Memory>
        requires lawful { IsLawful inst.now plan.now }
        requires found { IsFoundBesideSome F.finds inst.now plan.now }
    {
        Ok(KnownPlan {
            inst: inst.copy(alloc)?,
            plan: plan.copy(alloc)?,
            finder: PhantomData,
        })
    }
}

/// A finder that keeps the plan of the instance that it was asked about last. While the instance is the same, it answers
/// a copy of that plan.
///
/// It is for finders that draw nothing and do not look at the best plan so far: they would find the same plan again. The
/// plan that is kept was found beside an earlier best plan, so the contract says that the finder finds it beside some
/// best plan. A finder that is seeded anew has kept nothing.
///
/// The first answer for an instance takes what the finder takes. Each further one takes time in proportion to the edges
/// of the instance and to the steps of the plan. It keeps 72 bytes for each edge, and the plan.
#[derive(Drop)]
pub struct Keeper<F: Finder> {
    finder: F,
    known: Option<KnownPlan<F>>,
}

impl<F: Finder> Keeper<F> {
    // The plan that is kept, if it is of this instance.
    fn kept(&self, inst: &Instance) -> Option<&Plan>
        ensures lawful { IfSome result (λ plan. IsLawful inst.now plan.now) }
        ensures found { IfSome result (λ plan. IsFoundBesideSome F.finds inst.now plan.now) }
    {
        match &self.known {
            Some(known) if is_same(&known.inst, inst) => Some(&known.plan),
            _ => None,
        }
    }
}

impl<F: Finder> Finder for Keeper<F> {
    ghost finds = { λ p _ plan. IsFoundBesideSome F.finds p plan };

    fn seeded(word: u64) -> Keeper<F> {
        Keeper {
            finder: F::seeded(word),
            known: None,
        }
    }

    fn find(
        &mut self,
        alloc: Global,
        inst: &Instance,
        dist: &Distances,
        best: &Plan,
    ) -> Result<Plan, Memory> {
        if let Some(plan) = self.kept(inst) {
            return plan.copy(alloc);
        }
        let plan = self.finder.find(alloc, inst, dist, best)?;
        self.known = Some(KnownPlan::of(alloc, inst, &plan)?);
        Ok(plan)
    }
}
