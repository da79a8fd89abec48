// Directions that are chosen from the last edge to the first.
ghost use Rattle.std.specs.Prelude.{◌≡◌, ◌+◌, ◌-◌, ◌*◌, ◌<◌, ◌≤◌, ℕ, List, All, IfOk, drop, length, slice_index_or};
ghost use Rattle.carp_base.specs.Problem.{IsRequired};
ghost use Rattle.deadhead_paths.specs.Prices.{costs_of};
ghost use Rattle.task_tours.specs.Tours.{IsStand};
ghost use Rattle.decision_chains.specs.Choosing.{IsBestStart, IsFilled, IsLeastLeft, IsLeftAfter, IsSmallLeft};
ghost use Rattle.decision_chains.specs.Directions.{IsCheapestDirected};

use carp_base::{Instance, Memory, Task};
use deadhead_paths::Distances;
use std::alloc::Global;
use task_tours::{ends, least_cost, tours_are_linked};

// What the deadheads after an edge cost at least, if it is crossed forward and if it is crossed backward.
#[derive(Clone, Copy)]
struct Left {
    forward: u64,
    backward: u64,
}

// A direction, and what the deadheads then cost at least.
#[derive(Clone, Copy)]
struct Start {
    forward: bool,
    cost: u64,
}

// The tasks on an edge.
fn task(edge: u32, forward: bool) -> Task
    ensures edge { result.edge ≡ edge }
    ensures forward { result.forward ≡ forward }
{
    Task { edge, forward }
}

// The better direction of an edge from where a tour stands, given what is left after it.
fn better(inst: &Instance, dist: &Distances, at: u32, edge: u32, left: Left) -> Start
    requires problem { dist.now.problem ≡ inst.now }
    requires prices { dist.now.prices ≡ costs_of inst.now }
    requires stand { IsStand inst.now at }
    requires edge { IsRequired inst.now edge }
    requires room { IsSmallLeft 30000 left }
    ensures best { (edges : List ℕ) → IsLeftAfter inst.now edge edges left → IsBestStart inst.now at edge edges left result.forward result.cost }
    ensures small { (n : ℕ) → IsSmallLeft n left → result.cost ≤ 999000000 * (n + 1) }
{
    let out = least_cost(inst, dist, at, ends(inst, task(edge, true)).0) + left.forward;
    let back = least_cost(inst, dist, at, ends(inst, task(edge, false)).0) + left.backward;
    if out <= back {
        Start {
            forward: true,
            cost: out,
        }
    } else {
        Start {
            forward: false,
            cost: back,
        }
    }
}

// What the deadheads from where a tour stands over the edges from a place on cost at least.
fn cost_left(
    inst: &Instance,
    dist: &Distances,
    edges: &[u32],
    lefts: &[Left],
    i: usize,
    at: u32,
) -> u64
    requires problem { dist.now.problem ≡ inst.now }
    requires prices { dist.now.prices ≡ costs_of inst.now }
    requires stand { IsStand inst.now at }
    requires required { All (IsRequired inst.now) edges.now }
    requires few { length edges.now ≤ 29999 }
    requires place { i ≤ length edges.now }
    requires filled { IsFilled inst.now edges.now lefts.now i }
    ensures least { IsLeastLeft inst.now at (drop i edges.now) result }
    ensures small { result ≤ 999000000 * (length edges.now - i + 1) }
{
    if i == edges.len() {
        least_cost(inst, dist, at, inst.depot())
    } else {
        better(inst, dist, at, edges[i], lefts[i]).cost
    }
}

// What is left after the edge at a place.
fn left_after(inst: &Instance, dist: &Distances, edges: &[u32], lefts: &[Left], i: usize) -> Left
    requires problem { dist.now.problem ≡ inst.now }
    requires prices { dist.now.prices ≡ costs_of inst.now }
    requires required { All (IsRequired inst.now) edges.now }
    requires few { length edges.now ≤ 29999 }
    requires place { i < length edges.now }
    requires filled { IsFilled inst.now edges.now lefts.now (i + 1) }
    ensures least { IsLeftAfter inst.now (slice_index_or edges.now i 0) (drop (i + 1) edges.now) result }
    ensures small { IsSmallLeft (length edges.now - i) result }
{
    let edge = edges[i];
    let (head, tail) = (
        ends(inst, task(edge, true)).1,
        ends(inst, task(edge, false)).1,
    );
    Left {
        forward: cost_left(inst, dist, edges, lefts, i + 1, head),
        backward: cost_left(inst, dist, edges, lefts, i + 1, tail),
    }
}

// Fills in what is left after each edge, from the last one to the first.
fn fill(inst: &Instance, dist: &Distances, edges: &[u32], lefts: &mut [Left])
    requires problem { dist.now.problem ≡ inst.now }
    requires prices { dist.now.prices ≡ costs_of inst.now }
    requires required { All (IsRequired inst.now) edges.now }
    requires few { length edges.now ≤ 29999 }
    requires long { length lefts.old ≡ length edges.now }
    ensures { IsFilled inst.now edges.now lefts.new 0 }
{
    for i in (0..edges.len()).rev() {
        lefts[i] = left_after(inst, dist, edges, lefts, i);
    }
}

// The tasks in the better direction of each edge, from the first to the last.
fn follow(
    alloc: Global,
    inst: &Instance,
    dist: &Distances,
    edges: &[u32],
    lefts: &[Left],
) -> Result<Vec<Task>, Memory>
    requires problem { dist.now.problem ≡ inst.now }
    requires prices { dist.now.prices ≡ costs_of inst.now }
    requires required { All (IsRequired inst.now) edges.now }
    requires few { length edges.now ≤ 29999 }
    requires filled { IsFilled inst.now edges.now lefts.now 0 }
    ensures { IfOk result (λ tasks. IsCheapestDirected inst.now edges.now tasks.items) }
{
    tours_are_linked();
    let mut tasks = Vec::new(alloc);
    let mut at = inst.depot();
    for i in 0..edges.len() {
        let start = better(inst, dist, at, edges[i], lefts[i]);
        let next = task(edges[i], start.forward);
        tasks.push(next)?;
        at = ends(inst, next).1;
    }
    Ok(tasks)
}

/// Tasks on required edges in their order, at most 29,999 of them, and an edge may come again. Their directions are
/// such that the deadheads from the depot over them and back cost least (Beullens and others 2003). It is not promised
/// which of equally cheap choices is taken. The distances are those by cost.
///
/// It takes time and memory in proportion to the number of edges. The only error is want of memory.
pub fn direct(
    alloc: Global,
    inst: &Instance,
    dist: &Distances,
    edges: &[u32],
) -> Result<Vec<Task>, Memory>
    requires problem { dist.now.problem ≡ inst.now }
    requires prices { dist.now.prices ≡ costs_of inst.now }
    requires required { All (IsRequired inst.now) edges.now }
    requires few { length edges.now ≤ 29999 }
    ensures { IfOk result (λ tasks. IsCheapestDirected inst.now edges.now tasks.items) }
{
    let mut lefts = none_left(alloc, edges.len())?;
    fill(inst, dist, edges, &mut lefts);
    follow(alloc, inst, dist, edges, &lefts)
}

// Nothing is known yet.
fn none_left(alloc: Global, edges: usize) -> Result<Vec<Left>, Memory>
    ensures { IfOk result (λ lefts. length lefts.items ≡ edges) }
{
    Ok(vec![in alloc; Left {
        forward: 0,
        backward: 0
    }; edges]?)
}
