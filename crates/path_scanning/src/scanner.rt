// The helper that offers scanned plans.
ghost use Rattle.std.specs.Prelude.{◌≡◌, IfOk};
ghost use Rattle.plan_model.specs.Plans.{IsLawful, plan_cost};
ghost use Rattle.deadhead_paths.specs.Prices.{costs_of};
ghost use Rattle.path_scanning.specs.Cheapest.{IsCheapestOf};
ghost use Rattle.path_scanning.specs.Scans.{IsScanned};

use crate::rule::Rule;
use crate::scanning::scan;
use carp_base::{Instance, Memory};
use deadhead_paths::{Distances, least_prices_are_there, walks_are_task_tours};
use helper_frame::{Finder, Helper, Keeper};
use plan_model::Plan;
use std::alloc::Global;
use task_tours::lawful_cost;

// The rules after the first.
const OTHER_RULES: [Rule; 4] = [Rule::Near, Rule::Cheap, Rule::Dear, Rule::Half];

// A lawful plan with its cost.
#[derive(Drop)]
pub(crate) struct Scan {
    plan: Plan,
    cost: u128,
}

impl Scan {
    // The scan by a rule.
    fn by(alloc: Global, inst: &Instance, dist: &Distances, rule: Rule) -> Result<Scan, Memory>
        requires problem { dist.now.problem ≡ inst.now }
        requires prices { dist.now.prices ≡ costs_of inst.now }
        ensures lawful { IfOk result (λ s. IsLawful inst.now s.plan) }
        ensures scanned { IfOk result (λ s. IsScanned inst.now rule s.plan) }
        ensures cost { IfOk result (λ s. s.cost ≡ plan_cost inst.now s.plan) }
    {
        let plan = scan(alloc, inst, dist, rule)?;
        let cost = lawful_cost(alloc, inst, &plan)?;
        Ok(Scan { plan, cost })
    }

    // The cheapest of the scans by all rules, by the first rule among equal ones.
    fn cheapest(alloc: Global, inst: &Instance, dist: &Distances) -> Result<Scan, Memory>
        requires problem { dist.now.problem ≡ inst.now }
        requires prices { dist.now.prices ≡ costs_of inst.now }
        ensures lawful { IfOk result (λ s. IsLawful inst.now s.plan) }
        ensures cheapest { IfOk result (λ s. IsCheapestOf inst.now 5 s.plan) }
        ensures cost { IfOk result (λ s. s.cost ≡ plan_cost inst.now s.plan) }
    {
        least_prices_are_there();
        walks_are_task_tours();
        inst.validity();
        let mut best = Scan::by(alloc, inst, dist, Rule::Far)?;
        for &rule in &OTHER_RULES {
            let next = Scan::by(alloc, inst, dist, rule)?;
            if next.cost < best.cost {
                best = next;
            }
        }
        Ok(best)
    }
}

/// Finds the cheapest of the plans of the five rules, and that of the first rule among equal ones. It draws nothing,
/// and the best plan so far changes nothing.
///
/// With r required edges it takes time in proportion to r * r.
#[derive(Drop)]
pub struct ScanFinder;

impl Finder for ScanFinder {
    ghost finds = { λ p _ plan. IsCheapestOf p 5 plan };

    fn seeded(_word: u64) -> ScanFinder {
        ScanFinder
    }

    fn find(
        &mut self,
        alloc: Global,
        inst: &Instance,
        dist: &Distances,
        _best: &Plan,
    ) -> Result<Plan, Memory> {
        let found = Scan::cheapest(alloc, inst, dist)?;
        Ok(found.plan)
    }
}

/// A helper that offers the cheapest of the plans of the five rules: a [`Helper`] with what [`ScanFinder`] finds. Asked
/// again about the same instance it offers a copy ([`Keeper`]), until it is seeded anew.
pub type Scanner = Helper<Keeper<ScanFinder>>;
