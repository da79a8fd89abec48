// Instances that are small enough for a generation.
ghost use Rattle.std.specs.Prelude.{◌≤◌};

use carp_base::Instance;

// Above these a generation does not come near its end in time: required edges, edges, and steps of one fill.
const MOST_REQUIRED: u32 = 120;

const MOST_EDGES: u32 = 400;

const MOST_STEPS: u64 = 100_000_000;

/// Whether the instance is small enough: it has at most 120 required edges and 400 edges, and for m required edges and
/// a capacity Q, `4 * Q * m * m` is at most 10^8.
pub fn is_small(inst: &Instance) -> bool {
    inst.required() <= MOST_REQUIRED
        && inst.edge_count() <= MOST_EDGES
        && steps_of_fill(inst) <= MOST_STEPS
}

/// The steps of one fill of the table, and at least 1.
pub(crate) fn steps_of_fill(inst: &Instance) -> u64
    ensures { 1 ≤ result }
{
    let tasks = u64::from(inst.required()).saturating_mul(2);
    tasks
        .saturating_mul(tasks)
        .saturating_mul(inst.capacity())
        .max(1)
}
