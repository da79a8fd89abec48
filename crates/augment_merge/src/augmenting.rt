// Tours of one service each that are taken, and absorb services on their way.
ghost use Rattle.std.specs.Prelude.{◌≡◌, ℕ, [], ◌+◌, ◌≤◌, ◌<◌, List, true, false, length, IfOk, IfSome, IsSomeAnd, MatchOption, IsTrue, slice_index_or};
ghost use Rattle.std.specs.List.{AllByRecursion};
ghost use Rattle.carp_base.specs.declared.edge.Task.{Task};
ghost use Rattle.carp_base.specs.Problem.{IsRequired, edge_at};
ghost use Rattle.plan_model.specs.Plans.{IsLawful, walk_at, walk_cost};
ghost use Rattle.deadhead_paths.specs.Prices.{costs_of};
ghost use Rattle.deadhead_paths.specs.Singles.{AreLeastTours};
ghost use Rattle.augment_merge.specs.Augmenting.{AreAugmented, is_absorbed};
ghost use Rattle.augment_merge.specs.Absorbing.{FlagsSay, IsAbsorbed, IsAugmented, IsDearest, IsFlagged, unflagged};

use crate::tour::Tour;
use carp_base::{Instance, Memory, Task};
use deadhead_paths::{Distances, single_tours};
use plan_model::{Plan, Walk, cost_of};
use std::alloc::Global;

// What each walk of a lawful plan costs.
fn walk_costs(alloc: Global, inst: &Instance, plan: &Plan) -> Result<Vec<u128>, Memory>
    requires { IsLawful inst.now plan.now }
    ensures long { IfOk result (λ costs. length costs.items ≡ length plan.now) }
    ensures costs { IfOk result (λ costs. (k : ℕ) → k < length plan.now → slice_index_or costs.items k 0 ≡ walk_cost inst.now (walk_at plan.now k)) }
{
    let mut costs = Vec::new(alloc);
    for i in 0..plan.len() {
        costs.push(cost_of(inst, plan.walk(i)))?;
    }
    Ok(costs)
}

// Whether a place has a greater cost than the best place so far.
fn is_dearer(costs: &[u128], best: Option<usize>, place: usize) -> bool
    requires in_range { place < length costs.now }
    requires best_in_range { IfSome best (λ found. found < length costs.now) }
    ensures yes { result ≡ true → IfSome best (λ found. slice_index_or costs.now found 0 < slice_index_or costs.now place 0) }
    ensures no { result ≡ false → IsSomeAnd best (λ found. slice_index_or costs.now place 0 ≤ slice_index_or costs.now found 0) }
{
    match best {
        Some(found) => costs[found] < costs[place],
        None => true,
    }
}

// The place of the greatest cost without a flag, the first of equal ones, or none if all have flags.
fn dearest(costs: &[u128], flags: &[bool]) -> Option<usize>
    requires { length costs.now ≡ length flags.now }
    ensures { MatchOption result ((k : ℕ) → k < length flags.now → slice_index_or flags.now k false ≡ true) (IsDearest costs.now flags.now (length flags.now)) }
{
    let mut best: Option<usize> = None;
    for place in 0..flags.len() {
        if !flags[place] && is_dearer(costs, best, place) {
            best = Some(place);
        }
    }
    best
}

// Whether the service of the edge stands in no taken tour, and fits beside the load.
fn absorbs(inst: &Instance, served: &[bool], load: u64, edge: u32) -> bool
    requires load { load ≤ inst.now.capacity }
    requires flags { length served.now ≡ inst.now.required }
    ensures exact { (taken : List Task) → FlagsSay inst.now served.now taken → result ≡ is_absorbed inst.now taken load edge }
    ensures required { result ≡ true → IsRequired inst.now edge }
    ensures fits { result ≡ true → load + (edge_at inst.now edge).demand ≤ inst.now.capacity }
{
    1 <= edge
        && edge <= inst.required()
        && !served[edge as usize - 1]
        && load + inst.edge(edge).demand <= inst.capacity()
}

// The tasks of a tour that is taken: what its walk serves, and what it absorbs. The services of the walk have flags
// before.
fn absorb(
    alloc: Global,
    inst: &Instance,
    walk: &Walk,
    load: u64,
    served: &mut [bool],
) -> Result<Tour, Memory>
    requires load { load ≤ inst.now.capacity }
    requires flags { length served.old ≡ inst.now.required }
    requires own { AllByRecursion (λ s. IsTrue s.served → IsFlagged inst.now served.old s.edge) walk.now }
    ensures tour { IfOk result (λ tour. (taken : List Task) → FlagsSay inst.now served.old taken → IsAbsorbed inst.now load walk.now served.new taken tour) }
    ensures fewer { unflagged served.new ≤ unflagged served.old }
{
    inst.validity();
    let mut load = load;
    let mut tour = Tour::new(alloc);
    for i in 0..walk.len() {
        let step = walk.step(i);
        if !step.served {
            if !absorbs(inst, served, load, step.edge) {
                continue;
            }
            served[step.edge as usize - 1] = true;
            load += inst.edge(step.edge).demand;
        }
        tour.push(Task {
            edge: step.edge,
            forward: step.forward,
        })?;
    }
    Ok(tour)
}

// Takes tours, the dearest first, until each service stands in one.
fn take_all(
    alloc: Global,
    inst: &Instance,
    singles: &Plan,
    costs: &[u128],
    served: &mut [bool],
) -> Result<Vec<Tour>, Memory>
    requires singles { AreLeastTours inst.now singles.now }
    requires long { length costs.now ≡ length singles.now }
    requires costs { (k : ℕ) → k < length singles.now → slice_index_or costs.now k 0 ≡ walk_cost inst.now (walk_at singles.now k) }
    requires none { FlagsSay inst.now served.old [] }
    ensures taken { IfOk result (λ tours. AreAugmented inst.now singles.now [] tours.items) }
    ensures few { IfOk result (λ tours. length tours.items ≤ 600) }
{
    inst.validity();
    let mut tours = Vec::new(alloc);
    while let Some(place) = dearest(costs, served) {
        served[place] = true;
        let load = inst.edge(place as u32 + 1).demand;
        let tour = absorb(alloc, inst, singles.walk(place), load, served)?;
        tours.push(tour)?;
    }
    Ok(tours)
}

// The tours of one service each, after each was taken.
pub(crate) fn augment(alloc: Global, inst: &Instance, dist: &Distances) -> Result<Vec<Tour>, Memory>
    requires problem { dist.now.problem ≡ inst.now }
    requires prices { dist.now.prices ≡ costs_of inst.now }
    ensures { IfOk result (λ tours. IsAugmented inst.now tours.items) }
{
    let singles = single_tours(alloc, inst, dist)?;
    let costs = walk_costs(alloc, inst, &singles)?;
    let mut served = vec![in alloc; false; inst.required() as usize]?;
    take_all(alloc, inst, &singles, &costs, &mut served)
}
