// Passes over the tours of a plan: where one is broken, is away from the depot, or is overloaded. Places count from 0.
ghost use Rattle.std.specs.Prelude.{◌≡◌, ℕ, ◌-◌, ◌<◌, ◌↔◌, length, IsTrue};
ghost use Rattle.carp_base.specs.Problem.{IsValid, IsEdgeNumber};
ghost use Rattle.plan_model.specs.Plans.{step_at, walk_at, plan_cost};
ghost use Rattle.plan_model.specs.Verdicts.{start_of, end_of};
ghost use Rattle.plan_model.specs.Passes.{FindsNot, FindsBroken, FindsOverload, Continues, ContinuesAt, IsAtDepot};

use crate::{Plan, Step, Walk, cost_of, load_of};
use carp_base::Instance;

fn is_edge(inst: &Instance, e: u32) -> bool
    ensures { IsTrue result ↔ IsEdgeNumber inst.now e }
{
    1 <= e && e <= inst.edge_count()
}

fn start_of(inst: &Instance, step: Step) -> u32
    requires { IsEdgeNumber inst.now step.edge }
    ensures { result ≡ start_of inst.now step }
{
    inst.edge(step.edge).tail(step.forward)
}

fn end_of(inst: &Instance, step: Step) -> u32
    requires { IsEdgeNumber inst.now step.edge }
    ensures { result ≡ end_of inst.now step }
{
    inst.edge(step.edge).head(step.forward)
}

// Whether the step at a place is on an edge, and starts where the step before it ends.
fn continues(inst: &Instance, walk: &Walk, i: usize) -> bool
    requires in_range { i < length walk.now }
    requires before { 0 < i → IsEdgeNumber inst.now (step_at walk.now (i - 1)).edge }
    ensures { IsTrue result ↔ ContinuesAt inst.now walk.now i }
{
    let step = walk.step(i);
    if !is_edge(inst, step.edge) {
        return false;
    }
    if i == 0 {
        return true;
    }
    start_of(inst, step) == end_of(inst, walk.step(i - 1))
}

fn first_break(inst: &Instance, walk: &Walk) -> Option<u32>
    ensures { FindsNot (length walk.now) (ContinuesAt inst.now walk.now) result }
{
    for i in 0..walk.len() {
        if !continues(inst, walk, i) {
            return Some(i as u32);
        }
    }
    None
}

/// The first tour with a broken step, and that step.
pub(crate) fn first_broken(inst: &Instance, plan: &Plan) -> Option<(u32, u32)>
    ensures { FindsBroken inst.now plan.now result }
{
    for tour in 0..plan.len() {
        if let Some(step) = first_break(inst, plan.walk(tour)) {
            return Some((tour as u32, step));
        }
    }
    None
}

fn is_at_depot(inst: &Instance, walk: &Walk) -> bool
    requires { Continues inst.now walk.now }
    ensures { IsTrue result ↔ IsAtDepot inst.now walk.now }
{
    if walk.len() == 0 {
        return true;
    }
    let last = walk.step(walk.len() - 1);
    start_of(inst, walk.step(0)) == inst.depot() && end_of(inst, last) == inst.depot()
}

/// The first tour that does not start and end at the depot.
pub(crate) fn first_away(inst: &Instance, plan: &Plan) -> Option<u32>
    requires { (k : ℕ) → k < length plan.now → Continues inst.now (walk_at plan.now k) }
    ensures { FindsNot (length plan.now) (λ k. IsAtDepot inst.now (walk_at plan.now k)) result }
{
    for tour in 0..plan.len() {
        if !is_at_depot(inst, plan.walk(tour)) {
            return Some(tour as u32);
        }
    }
    None
}

/// The first tour whose load is above the capacity, and its load.
pub(crate) fn first_overload(inst: &Instance, plan: &Plan) -> Option<(u32, u128)>
    requires { (k : ℕ) → k < length plan.now → Continues inst.now (walk_at plan.now k) }
    ensures { FindsOverload inst.now plan.now result }
{
    let capacity = u128::from(inst.capacity());
    for tour in 0..plan.len() {
        let load = load_of(inst, plan.walk(tour));
        if load > capacity {
            return Some((tour as u32, load));
        }
    }
    None
}

/// What the plan costs.
pub(crate) fn plan_cost_of(inst: &Instance, plan: &Plan) -> u128
    requires valid { IsValid inst.now }
    requires continues { (k : ℕ) → k < length plan.now → Continues inst.now (walk_at plan.now k) }
    ensures { result ≡ plan_cost inst.now plan.now }
{
    let mut sum: u128 = 0;
    for tour in 0..plan.len() {
        sum += cost_of(inst, plan.walk(tour));
    }
    sum
}
