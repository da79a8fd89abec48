// Settled plans.
ghost use Rattle.std.specs.Prelude.{◌≡◌, ◌≢◌, ◌≤◌, ◌+◌, [], IfOk};
ghost use Rattle.std.specs.List.{AllByRecursion};
ghost use Rattle.carp_base.specs.Problem.{required_cost};
ghost use Rattle.plan_model.specs.Plans.{IsLawful, plan_cost};
ghost use Rattle.deadhead_paths.specs.Prices.{costs_of};
ghost use Rattle.task_tours.specs.Tours.{PlanGoesByLeastPaths, plan_tours};
ghost use Rattle.ruin_recreate.specs.Boards.{IsBoard, IsBoardOf};
ghost use Rattle.local_moves.specs.Changes.{IsSettledPlan};
ghost use Rattle.local_moves.specs.Sequences.{links_of};
ghost use Rattle.local_moves.specs.Stops.{IsFullSequence};

use crate::settling::settle_sequence;
use crate::tours::{plan_of_sequence, sequence_of_plan};
use carp_base::{Instance, Memory};
use deadhead_paths::Distances;
use plan_model::{Plan, required_edges_are_served_once};
use ruin_recreate::{Board, board_of};
use std::alloc::Global;
use task_tours::plans_are_tours;

// The settled plan that comes of a sequence.
pub(crate) fn settle_from(
    alloc: Global,
    inst: &Instance,
    dist: &Distances,
    board: &Board,
    sequence: Vec<u32>,
) -> Result<Plan, Memory>
    requires problem { dist.now.problem ≡ inst.now }
    requires prices { dist.now.prices ≡ costs_of inst.now }
    requires board { IsBoard board.now }
    requires of { IsBoardOf inst.now board.now }
    requires sequence { IsFullSequence inst.now board.now sequence.items }
    ensures lawful { IfOk result (IsLawful inst.now) }
    ensures cost { IfOk result (λ plan. plan_cost inst.now plan ≤ required_cost inst.now + links_of board.now sequence.items) }
    ensures settled { IfOk result (IsSettledPlan inst.now) }
    ensures paths { IfOk result (PlanGoesByLeastPaths inst.now) }
    ensures each_serves { IfOk result (λ after. AllByRecursion (λ tour. tour ≢ []) (plan_tours after)) }
{
    plans_are_tours();
    inst.validity();
    let settled = settle_sequence(alloc, board, sequence)?;
    plan_of_sequence(alloc, inst, dist, &settled)
}

// The same of a lawful plan, which it costs no more than.
pub(crate) fn settle_on(
    alloc: Global,
    inst: &Instance,
    dist: &Distances,
    board: &Board,
    plan: &Plan,
) -> Result<Plan, Memory>
    requires problem { dist.now.problem ≡ inst.now }
    requires prices { dist.now.prices ≡ costs_of inst.now }
    requires board { IsBoard board.now }
    requires of { IsBoardOf inst.now board.now }
    requires lawful { IsLawful inst.now plan.now }
    ensures lawful { IfOk result (IsLawful inst.now) }
    ensures cost { IfOk result (λ after. plan_cost inst.now after ≤ plan_cost inst.now plan.now) }
    ensures settled { IfOk result (IsSettledPlan inst.now) }
    ensures paths { IfOk result (PlanGoesByLeastPaths inst.now) }
    ensures each_serves { IfOk result (λ after. AllByRecursion (λ tour. tour ≢ []) (plan_tours after)) }
{
    plans_are_tours();
    required_edges_are_served_once();
    inst.validity();
    let sequence = sequence_of_plan(alloc, inst, plan)?;
    settle_from(alloc, inst, dist, board, sequence)
}

/// A plan that no small change makes cheaper, and that costs no more than the lawful plan from which it comes. The only
/// error is want of memory.
///
/// A small change turns the direction of one service. Or it moves one service, in either direction, to any place of any
/// tour or to a tour of its own. Or it lets two services change places, each in its direction. No lawful plan whose
/// tours are one such change away costs less. Each tour serves an edge, and goes by least paths. The distances are
/// those by cost.
///
/// With m required edges a pass over all changes takes time in proportion to m * m, and so does the table of least
/// prices that it reads. Passes go on until one finds no change. Each change lowers the cost, so there are at most as
/// many changes as the cost has units.
pub fn settle(alloc: Global, inst: &Instance, dist: &Distances, plan: &Plan) -> Result<Plan, Memory>
    requires problem { dist.now.problem ≡ inst.now }
    requires prices { dist.now.prices ≡ costs_of inst.now }
    requires lawful { IsLawful inst.now plan.now }
    ensures lawful { IfOk result (IsLawful inst.now) }
    ensures cost { IfOk result (λ after. plan_cost inst.now after ≤ plan_cost inst.now plan.now) }
    ensures settled { IfOk result (IsSettledPlan inst.now) }
    ensures paths { IfOk result (PlanGoesByLeastPaths inst.now) }
    ensures each_serves { IfOk result (λ after. AllByRecursion (λ tour. tour ≢ []) (plan_tours after)) }
{
    let board = board_of(alloc, inst, dist)?;
    settle_on(alloc, inst, dist, &board, plan)
}
