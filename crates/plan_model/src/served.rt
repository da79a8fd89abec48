// Passes over what a plan serves: which other edges, and each required edge how often.
ghost use Rattle.std.specs.Prelude.{◌≡◌, ◌+◌, ◌≤◌, ◌↔◌, length, slice_index, IsTrue, count_by, min, if◌then◌else◌, EachIndex};
ghost use Rattle.carp_base.specs.Problem.{IsRequired, IsValid};
ghost use Rattle.plan_model.specs.Plans.{serves, services_of, steps_of};
ghost use Rattle.plan_model.specs.Offers.{smaller};
ghost use Rattle.plan_model.specs.Passes.{FindsNot, FindsLeast, ServesOtherIn, CountsMore};

use crate::{Plan, Step, Walk};
use carp_base::Instance;

// The highest count: an edge that is served more often than this is as wrong.
const MANY: u8 = 2;

fn is_required(inst: &Instance, e: u32) -> bool
    ensures { IsTrue result ↔ IsRequired inst.now e }
{
    1 <= e && e <= inst.required()
}

// The smaller of two edges, where none is no edge.
fn smaller(a: Option<u32>, b: Option<u32>) -> Option<u32>
    ensures { result ≡ smaller a b }
{
    match (a, b) {
        (Some(a), Some(b)) => Some(a.min(b)),
        (None, other) => other,
        (some, None) => some,
    }
}

// The step's edge, where it is served and not required.
fn other_edge(inst: &Instance, step: Step) -> Option<u32>
    ensures { FindsLeast (λ e. ¬ (IsRequired inst.now e) × IsTrue (serves e step)) result }
{
    if step.served && !is_required(inst, step.edge) {
        return Some(step.edge);
    }
    None
}

fn least_other_in(inst: &Instance, walk: &Walk) -> Option<u32>
    ensures { FindsLeast (ServesOtherIn inst.now walk.now) result }
{
    let mut least = None;
    for i in 0..walk.len() {
        least = smaller(least, other_edge(inst, walk.step(i)));
    }
    least
}

/// The least edge that is served and not required.
pub(crate) fn least_other(inst: &Instance, plan: &Plan) -> Option<u32>
    ensures least { FindsLeast (ServesOtherIn inst.now (steps_of plan.now)) result }
    ensures valid { IsValid inst.now }
{
    // What a read of the instance says of it reaches the caller, who needs that it is valid.
    inst.validity();
    let mut least = None;
    for tour in 0..plan.len() {
        least = smaller(least, least_other_in(inst, plan.walk(tour)));
    }
    least
}

fn count_step(step: Step, counts: &mut [u8])
    requires { EachIndex counts.old (λ k. slice_index counts.old k ≤ 2) }
    ensures { CountsMore counts.old (λ e. (if serves e step then 1 else 0)) counts.new }
{
    if step.served && step.edge >= 1 && step.edge as usize <= counts.len() {
        let i = step.edge as usize - 1;
        counts[i] = MANY.min(counts[i] + 1);
    }
}

fn count_walk(walk: &Walk, counts: &mut [u8])
    requires { EachIndex counts.old (λ k. slice_index counts.old k ≤ 2) }
    ensures { CountsMore counts.old (λ e. count_by (serves e) walk.now) counts.new }
{
    for i in 0..walk.len() {
        count_step(walk.step(i), counts);
    }
}

/// Sets the count of each edge, from edge 1 on, to how often the plan serves it, or to 2 if that is more.
pub(crate) fn count_services(plan: &Plan, counts: &mut [u8])
    ensures { EachIndex counts.new (λ k. slice_index counts.new k ≡ min 2 (services_of (k + 1) plan.now)) }
{
    counts.fill(0);
    for tour in 0..plan.len() {
        count_walk(plan.walk(tour), counts);
    }
}

/// The place of the first edge that is served more than once.
pub(crate) fn first_twice(counts: &[u8]) -> Option<usize>
    ensures { FindsNot (length counts.now) (λ k. slice_index counts.now k ≤ 1) result }
{
    counts.iter().position(|count| *count > 1)
}

/// The place of the first edge that is never served.
pub(crate) fn first_unserved(counts: &[u8]) -> Option<usize>
    ensures { FindsNot (length counts.now) (λ k. 1 ≤ slice_index counts.now k) result }
{
    counts.iter().position(|count| *count == 0)
}
