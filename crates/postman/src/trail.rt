// One step of a circuit that is being laid.
ghost use Rattle.std.specs.Prelude.{◌≡◌, ℕ, ◌+◌, ◌-◌, ◌^◌, ◌<◌, ◌≤◌, ◌++◌, ◌∷◌, [], List, length, slice_index, slice_set, IfOk, OnOk};
ghost use Rattle.carp_base.specs.Problem.{IsEdgeNumber, IsValid, IsVertex, edge_at};
ghost use Rattle.plan_model.specs.declared.step.Step.{Step as OneStep};
ghost use Rattle.road_network.specs.Incidence.{far_end, incident};
ghost use Rattle.edge_components.specs.Parts.{parts_of};
ghost use Rattle.postman.specs.Trails.{Advances, IsTrail, IsTurned, crossing};

use carp_base::{Instance, Memory};
use plan_model::{Step, Walk};
use road_network::{Network, far_end};

// The first place, from a place on, among the edges at a vertex at which crossings are left, or their number.
fn first_open(net: &Network, left: &[u64], v: u32, from: u32) -> u32
    requires long { length left.now ≡ length net.now.edges }
    requires vertex { IsVertex net.now v }
    ensures before { (i : ℕ) → from ≤ i → i < result → parts_of left.now (slice_index (incident net.now v) i) ≡ 0 }
    ensures open { result < length (incident net.now v) → 1 ≤ parts_of left.now (slice_index (incident net.now v) result) }
{
    for i in from..net.degree(v) {
        if left[net.edge_at(v, i) as usize - 1] > 0 {
            return i;
        }
    }
    net.degree(v)
}

// Crosses an edge from a vertex, and gives its other end. The last crossing of a required edge serves it.
fn cross(
    inst: &Instance,
    v: u32,
    e: u32,
    left: &mut [u64],
    stack: &mut Vec<Step>,
) -> Result<u32, Memory>
    requires long { length left.old ≡ length inst.now.edges }
    requires number { IsEdgeNumber inst.now e }
    requires some { 1 ≤ slice_index left.old (e - 1) }
    ensures stack { OnOk result (stack.new.items ≡ stack.old.items ++ crossing inst.now v e (slice_index left.old (e - 1)) ∷ []) }
    ensures left { OnOk result (left.new ≡ slice_set left.old (e - 1) (slice_index left.old (e - 1) - 1)) }
    ensures to { IfOk result (λ w. w ≡ far_end v (edge_at inst.now e)) }
{
    let edge = inst.edge(e);
    let place = e as usize - 1;
    stack.push(Step {
        edge: e,
        forward: edge.u == v,
        served: e <= inst.required() && left[place] == 1,
    })?;
    left[place] -= 1;
    Ok(far_end(&edge, v))
}

// Moves the last step of the stack to the walk, turned, and gives the vertex where it started.
fn turn(inst: &Instance, stack: &mut Vec<Step>, walk: &mut Walk) -> Result<Option<u32>, Memory>
    requires number { (xs : List OneStep) (s : OneStep) → stack.old.items ≡ xs ++ s ∷ [] → IsEdgeNumber inst.now s.edge }
    requires room { length walk.old < 2 ^ 32 - 1 }
    ensures { IfOk result (λ to. IsTurned inst.now stack.old.items walk.old stack.new.items walk.new to) }
{
    let Some(step) = stack.pop() else {
        return Ok(None);
    };
    let edge = inst.edge(step.edge);
    walk.push(Step {
        edge: step.edge,
        forward: !step.forward,
        served: step.served,
    })?;
    Ok(Some(edge.tail(step.forward)))
}

// Crosses an edge from the vertex at hand, or goes back over the last step where no crossing is left there. It gives
// the next vertex at hand, or none where the walk is closed.
pub(crate) fn advance(
    inst: &Instance,
    net: &Network,
    v: u32,
    left: &mut [u64],
    next: &mut [u32],
    stack: &mut Vec<Step>,
    walk: &mut Walk,
) -> Result<Option<u32>, Memory>
    requires valid { IsValid inst.now }
    requires net { net.now ≡ inst.now }
    requires trail { IsTrail inst.now left.old next.old stack.old.items walk.old v }
    ensures { IfOk result (λ to. Advances inst.now left.old stack.old.items walk.old v left.new next.new stack.new.items walk.new to) }
{
    let i = first_open(net, left, v, next[v as usize]);
    next[v as usize] = i;
    if i < net.degree(v) {
        let to = cross(inst, v, net.edge_at(v, i), left, stack)?;
        Ok(Some(to))
    } else {
        turn(inst, stack, walk)
    }
}
