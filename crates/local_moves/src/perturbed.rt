// Plans that come of ruin and recreate, which promises nothing of its answer: it is tested.
ghost use Rattle.std.specs.Prelude.{◌≡◌, ◌≢◌, ℕ, ◌+◌, ◌*◌, ◌<◌, IfOk, IfSome, IsTrue, length, slice_index};
ghost use Rattle.plan_model.specs.Plans.{IsLawful};
ghost use Rattle.deadhead_paths.specs.Prices.{costs_of};
ghost use Rattle.ruin_recreate.specs.Boards.{IsBoard, IsBoardOf};
ghost use Rattle.local_moves.specs.Offering.{IsLawfulNoDearer};
ghost use Rattle.local_moves.specs.Stops.{IsProperSequence};

use crate::tours::{plan_of_sequence, sequence_of_plan};
use carp_base::{Instance, Memory};
use deadhead_paths::Distances;
use plan_model::{
    JudgeRoom, Plan, Verdict, judge, required_edges_are_served_once, verdicts_are_exact,
};
use rand_pcg::Lcg64Xsh32;
use ruin_recreate::{Board, ruin_and_recreate};
use std::alloc::Global;
use task_tours::{lawful_cost, plans_are_tours};

// The cost of each stop's edge; 0 of the depot's.
fn stop_costs(alloc: Global, inst: &Instance) -> Result<Vec<u32>, Memory>
    ensures { IfOk result (λ costs. length costs.items ≡ 2 * inst.now.required + 2) }
{
    let mut costs = vec![in alloc; 0; 2 * inst.required() as usize + 2]?;
    for e in 1..inst.required() + 1 {
        let cost = inst.edge(e).cost as u32;
        costs[2 * e as usize] = cost;
        costs[2 * e as usize + 1] = cost;
    }
    Ok(costs)
}

// Whether none of the stops is stop 1, which is no service.
fn has_services_only(sequence: &[u32]) -> bool
    ensures { IsTrue result → (k : ℕ) → k < length sequence.now → slice_index sequence.now k ≢ 1 }
{
    for i in 0..sequence.len() {
        if sequence[i] == 1 {
            return false;
        }
    }
    true
}

// Whether stops begin and end with the depot, are not too many, and none of them is stop 1.
fn is_proper(sequence: &[u32]) -> bool
    ensures { IsTrue result → IsProperSequence sequence.now }
{
    if sequence.is_empty() || sequence.len() > 30_000 {
        return false;
    }
    sequence[0] == 0 && sequence[sequence.len() - 1] == 0 && has_services_only(sequence)
}

// The plan, if it is lawful and costs no more than the best one.
fn no_dearer(
    alloc: Global,
    inst: &Instance,
    plan: Plan,
    best: &Plan,
) -> Result<Option<Plan>, Memory>
    requires { IsLawful inst.now best.now }
    ensures { IfOk result (λ found. IfSome found (IsLawfulNoDearer inst.now best.now)) }
{
    verdicts_are_exact();
    let most = lawful_cost(alloc, inst, best)?;
    let mut room = JudgeRoom::new(alloc, inst)?;
    match judge(inst, &plan, &mut room) {
        Verdict::Lawful { cost } if cost <= most => Ok(Some(plan)),
        _ => Ok(None),
    }
}

// The best plan after ruin and recreate, if that is lawful and costs no more.
pub(crate) fn perturbed(
    alloc: Global,
    inst: &Instance,
    dist: &Distances,
    board: &Board,
    best: &Plan,
    generator: &mut Lcg64Xsh32,
) -> Result<Option<Plan>, Memory>
    requires problem { dist.now.problem ≡ inst.now }
    requires prices { dist.now.prices ≡ costs_of inst.now }
    requires board { IsBoard board.now }
    requires of { IsBoardOf inst.now board.now }
    requires lawful { IsLawful inst.now best.now }
    ensures { IfOk result (λ found. IfSome found (IsLawfulNoDearer inst.now best.now)) }
{
    plans_are_tours();
    required_edges_are_served_once();
    inst.validity();
    let costs = stop_costs(alloc, inst)?;
    let start = sequence_of_plan(alloc, inst, best)?;
    let sequence = ruin_and_recreate(alloc, board, &costs, start, generator)?;
    if !is_proper(&sequence) {
        return Ok(None);
    }
    let plan = plan_of_sequence(alloc, inst, dist, &sequence)?;
    no_dearer(alloc, inst, plan, best)
}
