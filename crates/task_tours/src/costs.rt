// Distances by the costs of the edges.
ghost use Rattle.std.specs.Prelude.{◌≡◌, ◌≤◌, IfOk};
ghost use Rattle.plan_model.specs.Plans.{IsLawful, plan_cost};
ghost use Rattle.deadhead_paths.specs.Prices.{IsLeastPrice, costs_of, price_of};
ghost use Rattle.task_tours.specs.Tours.{IsStand};

use crate::laws::tours_are_linked;
use carp_base::{Instance, Memory};
use deadhead_paths::{Distances, cost_prices, distances};
use plan_model::{JudgeRoom, Plan, Verdict, judge, verdicts_are_exact};
use road_network::Network;
use std::alloc::Global;

/// Distances by the costs of the edges.
///
/// With n vertices and m edges it takes time in proportion to n (n + m) log n, and memory for n * n numbers. The only
/// error is want of memory.
pub fn cost_distances(alloc: Global, inst: &Instance) -> Result<Distances, Memory>
    ensures problem { IfOk result (λ dist. dist.problem ≡ inst.now) }
    ensures prices { IfOk result (λ dist. dist.prices ≡ costs_of inst.now) }
{
    let net = Network::new(alloc, inst)?;
    let prices = cost_prices(alloc, inst)?;
    distances(alloc, inst, &net, &prices)
}

/// The least cost of a deadhead between two vertices where a tour can stand: the depot and the ends of required edges.
/// It is at most 999,000,000, in the instance's unit of cost. The distances are those by cost. It takes constant time
/// and no memory.
pub fn least_cost(inst: &Instance, dist: &Distances, from: u32, to: u32) -> u64
    requires problem { dist.now.problem ≡ inst.now }
    requires prices { dist.now.prices ≡ costs_of inst.now }
    requires from { IsStand inst.now from }
    requires to { IsStand inst.now to }
    ensures least { IsLeastPrice inst.now (price_of (costs_of inst.now)) from to result }
    ensures small { result ≤ 999000000 }
{
    tours_are_linked();
    inst.validity();
    dist.get(from, to).unwrap() as u64
}

/// What a lawful plan costs. It takes time in proportion to the plan's walks and steps and the number of required
/// edges, and memory for a number for each required edge. The only error is want of memory.
pub fn lawful_cost(alloc: Global, inst: &Instance, plan: &Plan) -> Result<u128, Memory>
    requires { IsLawful inst.now plan.now }
    ensures { IfOk result (λ cost. cost ≡ plan_cost inst.now plan.now) }
{
    verdicts_are_exact();
    let mut room = JudgeRoom::new(alloc, inst)?;
    match judge(inst, plan, &mut room) {
        Verdict::Lawful { cost } => Ok(cost),
        _ => unreachable!(),
    }
}
