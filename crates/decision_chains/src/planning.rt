// A plan of a tour for each chain.
ghost use Rattle.std.specs.Prelude.{◌≡◌, ℕ, ◌+◌, ◌≤◌, IfOk, length, false};
ghost use Rattle.decision_chains.specs.ChainPlans.{IsChainTour, IsPartPlan};
ghost use Rattle.decision_chains.specs.ChainTables.{IsChainTable};
ghost use Rattle.decision_chains.specs.ChainWalks.{AreClosed, is_marked, unmarked};
ghost use Rattle.decision_chains.specs.Exclusions.{IsHeavy};
ghost use Rattle.decision_chains.specs.FixedValue.{HasFixedValue};
ghost use Rattle.carp_base.specs.Problem.{IsRequired};
ghost use Rattle.deadhead_paths.specs.Prices.{costs_of};
ghost use Rattle.plan_model.specs.Plans.{IsLawful, plan_cost, steps_of};

use crate::ordering::order;
use crate::{Chains, direct, yes_pairs_join};
use carp_base::Memory;
use deadhead_paths::{
    Distances, least_prices_are_distances, least_prices_are_there, walks_are_task_tours,
};
use plan_model::{Plan, Walk};
use std::alloc::Global;
use task_tours::{join, plans_are_tours};

// The cheapest walk along the chain of an edge that is not marked yet. Its edges are marked.
fn tour(
    alloc: Global,
    chains: &Chains<'_>,
    dist: &Distances,
    marks: &mut [bool],
    edge: u32,
) -> Result<Walk, Memory>
    requires table { IsChainTable chains.now }
    requires untangled { chains.now.tangled ≡ false }
    requires problem { dist.now.problem ≡ chains.now.inst.now }
    requires prices { dist.now.prices ≡ costs_of chains.now.inst.now }
    requires edge { IsRequired chains.now.inst.now edge }
    requires long { length marks.old ≡ chains.now.inst.now.required }
    requires free { is_marked marks.old edge ≡ false }
    requires closed { AreClosed chains.now.decisions.now marks.old }
    ensures { IfOk result (λ walk. IsChainTour chains.now edge marks.old walk marks.new) }
{
    chains.inst.validity();
    let edges = order(alloc, chains, marks, edge)?;
    let tasks = direct(alloc, chains.inst, dist, &edges)?;
    let walk = join(alloc, chains.inst, dist, &tasks)?;
    Ok(walk)
}

// A tour for each chain. No edge is marked before.
fn tours(
    alloc: Global,
    chains: &Chains<'_>,
    dist: &Distances,
    marks: &mut [bool],
) -> Result<Plan, Memory>
    requires table { IsChainTable chains.now }
    requires untangled { chains.now.tangled ≡ false }
    requires light { (e : ℕ) → ¬ (IsHeavy chains.now.inst.now chains.now.decisions.now e e) }
    requires problem { dist.now.problem ≡ chains.now.inst.now }
    requires prices { dist.now.prices ≡ costs_of chains.now.inst.now }
    requires long { length marks.old ≡ chains.now.inst.now.required }
    requires none { (e : ℕ) → is_marked marks.old e ≡ false }
    requires all { unmarked marks.old ≡ chains.now.inst.now.required }
    ensures { IfOk result (IsPartPlan chains.now (chains.now.inst.now.required + 1) marks.new) }
{
    yes_pairs_join();
    least_prices_are_distances();
    least_prices_are_there();
    walks_are_task_tours();
    let mut plan = Plan::new(alloc);
    for edge in 1..chains.inst.required() + 1 {
        if marks[edge as usize - 1] {
            continue;
        }
        let walk = tour(alloc, chains, dist, marks, edge)?;
        plan.push(walk)?;
    }
    Ok(plan)
}

/// A plan of a cheapest tour for each chain. No edge has three yes neighbours, no yes pairs form a cycle, and no chain
/// is above the capacity. The distances are those by cost. The only error is want of memory.
///
/// The plan is lawful. Its cost is the sum, over the chains, of the least cost of a walk that serves the chain in its
/// order, each edge in either direction (Bode and Irnich 2012). It has at most one tour for each required edge, and at
/// most 2,000,000 steps.
///
/// With m required edges it takes time in proportion to m * m and to the steps that it writes.
pub fn plan(alloc: Global, chains: &Chains<'_>, dist: &Distances) -> Result<Plan, Memory>
    requires table { IsChainTable chains.now }
    requires untangled { chains.now.tangled ≡ false }
    requires light { (e : ℕ) → ¬ (IsHeavy chains.now.inst.now chains.now.decisions.now e e) }
    requires problem { dist.now.problem ≡ chains.now.inst.now }
    requires prices { dist.now.prices ≡ costs_of chains.now.inst.now }
    ensures lawful { IfOk result (IsLawful chains.now.inst.now) }
    ensures fixed { IfOk result (λ plan. HasFixedValue chains.now.inst.now chains.now.decisions.now (plan_cost chains.now.inst.now plan)) }
    ensures few_tours { IfOk result (λ plan. length plan ≤ chains.now.inst.now.required) }
    ensures few_steps { IfOk result (λ plan. length (steps_of plan) ≤ 2000000) }
{
    plans_are_tours();
    let mut marks = vec![in alloc; false; chains.inst.required() as usize]?;
    let plan = tours(alloc, chains, dist, &mut marks)?;
    Ok(plan)
}
