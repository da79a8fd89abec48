// Asks a helper, and takes what is better.
ghost use Rattle.std.specs.Prelude.{◌≡◌, ◌+◌, ◌<◌, ◌↔◌, Ok, IfOk, IsOk, IsSomeAnd, MatchOption, OnOk, Some};
ghost use Rattle.deadhead_paths.specs.Prices.{costs_of};
ghost use Rattle.deadhead_paths.specs.Tidy.{IsTidied};
ghost use Rattle.plan_model.specs.Offers.{smaller};
ghost use Rattle.plan_model.specs.Plans.{IsLawful, plan_cost};
ghost use Rattle.task_tours.specs.Shorts.{IsShortPlan};
ghost use Rattle.helper_rounds.specs.Helpers.{Hears, IsTidiedOffer};

use carp_base::{Instance, Memory};
use deadhead_paths::{Distances, tidy};
use plan_model::{JudgeRoom, Plan, Proposer, Verdict, judge, verdicts_are_exact};
use std::alloc::Global;
use task_tours::lawful_cost;

/// What a helper's offer was.
#[derive(Clone, Copy, Debug, PartialEq, Eq)]
pub enum Heard {
    /// A lawful plan that costs less than the best one so far.
    Better,
    /// A lawful plan that does not cost less than the best one so far, or no plan.
    Same,
    /// A plan that is not lawful.
    Foul,
}

/// Asks a helper once. If its offer is lawful and costs less, the offer takes the place of the best plan, with its
/// services joined by least paths and without empty tours. After every other answer the best plan stays. The only error
/// is want of memory, and then it stays too. The distances are those by cost.
///
/// Beside what the helper takes, it takes time in proportion to the tours and steps of the two plans, and to the steps
/// that it writes.
pub fn consult(
    alloc: Global,
    inst: &Instance,
    dist: &Distances,
    best: &mut Plan,
    helper: &mut dyn Proposer,
) -> Result<Heard, Memory>
    requires problem { dist.now.problem ≡ inst.now }
    requires prices { dist.now.prices ≡ costs_of inst.now }
    requires lawful { IsLawful inst.now best.old }
    requires not_often { asked helper.old < 1000 }
    requires few_fouls { (tally helper.old).fouls < 1000 }
    ensures id { id helper.new ≡ id helper.old }
    ensures seed { seed helper.new ≡ seed helper.old }
    ensures asked { asked helper.new ≡ asked helper.old + 1 }
    ensures least { OnOk result ((tally helper.new).least ≡ smaller (tally helper.old).least (tally helper.new).last) }
    ensures foul { result ≡ Ok Heard.Foul → (tally helper.new).fouls ≡ (tally helper.old).fouls + 1 }
    ensures no_foul { OnOk result ((result ≡ Ok Heard.Foul → ⊥) → (tally helper.new).fouls ≡ (tally helper.old).fouls) }
    ensures better { (result ≡ Ok Heard.Better) ↔ (IsOk result × IsSomeAnd (tally helper.new).last (λ cost. cost < plan_cost inst.now best.old)) }
    ensures short { result ≡ Ok Heard.Better → IsShortPlan inst.now best.new }
    ensures taken { result ≡ Ok Heard.Better → IsTidiedOffer inst.now (tally helper.new).last best.new }
    ensures stays { (result ≡ Ok Heard.Better → ⊥) → best.new ≡ best.old }
{
    let offer = helper.propose(alloc, inst, best)?;
    hear(alloc, inst, dist, best, offer)
}

// Takes an offer, if it is lawful and costs less.
pub(crate) fn hear(
    alloc: Global,
    inst: &Instance,
    dist: &Distances,
    best: &mut Plan,
    offer: Option<Plan>,
) -> Result<Heard, Memory>
    requires problem { dist.now.problem ≡ inst.now }
    requires prices { dist.now.prices ≡ costs_of inst.now }
    requires lawful { IsLawful inst.now best.old }
    ensures hears { IfOk result (Hears inst.now best.old offer) }
    ensures short { result ≡ Ok Heard.Better → IsShortPlan inst.now best.new }
    ensures taken { result ≡ Ok Heard.Better → IsSomeAnd offer (λ plan. IsTidied inst.now plan best.new) }
    ensures stays { (result ≡ Ok Heard.Better → ⊥) → best.new ≡ best.old }
{
    match offer {
        None => Ok(Heard::Same),
        Some(plan) => weigh(alloc, inst, dist, best, &plan),
    }
}

// Takes a plan, if it is lawful and costs less.
fn weigh(
    alloc: Global,
    inst: &Instance,
    dist: &Distances,
    best: &mut Plan,
    plan: &Plan,
) -> Result<Heard, Memory>
    requires problem { dist.now.problem ≡ inst.now }
    requires prices { dist.now.prices ≡ costs_of inst.now }
    requires lawful { IsLawful inst.now best.old }
    ensures hears { IfOk result (Hears inst.now best.old (Some plan.now)) }
    ensures short { result ≡ Ok Heard.Better → IsShortPlan inst.now best.new }
    ensures taken { result ≡ Ok Heard.Better → IsTidied inst.now plan.now best.new }
    ensures stays { (result ≡ Ok Heard.Better → ⊥) → best.new ≡ best.old }
{
    match cost_if_lawful(alloc, inst, plan)? {
        None => Ok(Heard::Foul),
        Some(cost) if cost < lawful_cost(alloc, inst, best)? => {
            *best = tidy(alloc, inst, dist, plan)?;
            Ok(Heard::Better)
        }
        Some(_) => Ok(Heard::Same),
    }
}

// What a plan costs, if it is lawful.
fn cost_if_lawful(alloc: Global, inst: &Instance, plan: &Plan) -> Result<Option<u128>, Memory>
    ensures { IfOk result (λ found. MatchOption found (¬ (IsLawful inst.now plan.now)) (λ cost. IsLawful inst.now plan.now × (cost ≡ plan_cost inst.now plan.now))) }
{
    verdicts_are_exact();
    let mut room = JudgeRoom::new(alloc, inst)?;
    match judge(inst, plan, &mut room) {
        Verdict::Lawful { cost } => Ok(Some(cost)),
        _ => Ok(None),
    }
}
