// Ruin and recreate.
ghost use Rattle.std.specs.Prelude.{◌≡◌, ◌<◌, ◌≤◌, IfOk, OnOk, length};
ghost use Rattle.std.specs.List.{All};
ghost use Rattle.ruin_recreate.specs.Boards.{IsBoard};
ghost use Rattle.ruin_recreate.specs.Annealing.{IsAnnealingOn};

use crate::annealing::{Annealing, Recreation};
use crate::board::Board;
use carp_base::Memory;
use rand_pcg::Lcg64Xsh32;
use std::alloc::Global;

// Up to so many edges there are annealings by regret. With more edges they take too long.
const FEW_EDGES: u32 = 120;

// The greatest number of steps in order.
const MOST_STEPS: u32 = 120_000;

// The number of steps if there are more edges: one of four is by regret, which takes longer.
const MIXED_STEPS: u32 = 90_000;

// How many steps all annealings of a kind have: more for more pairs of edges, so that few edges are done soon.
fn steps(edges: u32) -> u32
    requires { edges ≤ 600 }
{
    if edges <= FEW_EDGES {
        (8_000 + 18 * edges * edges).min(MOST_STEPS)
    } else {
        MIXED_STEPS
    }
}

// So many annealings, each from one tour for each service.
fn anneal_anew(
    annealing: &mut Annealing,
    board: &Board,
    costs: &[u32],
    times: u32,
    steps: u32,
    generator: &mut Lcg64Xsh32,
) -> Result<(), Memory>
    requires board { IsBoard board.now }
    requires some { 4 ≤ board.now.width }
    requires annealing { IsAnnealingOn board.now.width annealing.old }
    requires costs { length costs.now ≡ board.now.width }
    ensures { OnOk result (IsAnnealingOn board.now.width annealing.new) }
{
    for _ in 0..times {
        annealing.current.scatter(board)?;
        annealing.anneal(board, costs, steps, generator)?;
    }
    Ok(())
}

/// Looks for a cheaper sequence by simulated annealing over steps of ruin and recreate. A step takes strings of services
/// near one another out of their tours. It puts them back in an order that is drawn, each where it costs least, or by
/// regret: the service goes first whose second best tour costs the most more than its best one. Each way finds sequences
/// that the other one misses. Loads above the room are permitted on the way, at a price that follows how many sequences
/// are lawful.
///
/// A sequence is a list of stops of the board: the depot before, between and after the tours. `costs` has for each stop
/// what a crossing of its edge costs. The answer is meant to be the start, or a sequence with the same services whose
/// deadheads cost less and whose tours load no more than the room. The contract promises only that its stops are stops
/// of the board, so the caller has to test it. The only error is want of memory.
///
/// The same generator gives the same answer. With m required edges there are up to six annealings, the first from the
/// start and the others from one tour for each service. If m is at most 120, they put services back in order, with 8,000
/// + 18 * m * m steps together and at most 120,000, and as many annealings with as many steps follow that put them back
/// by regret. If m is more, they have 90,000 steps together, one of four by regret. The steps are rounded down to as many
/// for each. With fewer than two required edges the answer is the start. A step takes out at most 28 services. It takes
/// time in proportion to m for each of them. The neighbours of all edges, found once, take time in proportion to m * m
/// log m. Beside the board it takes memory in proportion to m.
pub fn ruin_and_recreate(
    alloc: Global,
    board: &Board,
    costs: &[u32],
    start: Vec<u32>,
    generator: &mut Lcg64Xsh32,
) -> Result<Vec<u32>, Memory>
    requires board { IsBoard board.now }
    requires costs { length costs.now ≡ board.now.width }
    requires within { All (λ x. x < board.now.width) start.items }
    ensures { IfOk result (λ sequence. All (λ x. x < board.now.width) sequence.items) }
{
    let edges = board.edges();
    if edges < 2 {
        return Ok(start);
    }
    // If there are few edges, new starts gain. If there are many, one long annealing is better than some short ones.
    let annealings = (600 / edges).clamp(1, 6);
    let steps = steps(edges) / annealings;
    let few = edges <= FEW_EDGES;
    let first = if few {
        Recreation::InOrder
    } else {
        Recreation::Mixed
    };
    let mut annealing = Annealing::new(alloc, board, start, first)?;
    annealing.anneal(board, costs, steps, generator)?;
    anneal_anew(
        &mut annealing,
        board,
        costs,
        annealings - 1,
        steps,
        generator,
    )?;
    if few {
        annealing.recreation = Recreation::ByRegret;
        anneal_anew(&mut annealing, board, costs, annealings, steps, generator)?;
    }
    Ok(annealing.top)
}
