// What a judge says of a plan.

/// What a judge says of a plan: what it costs if it is lawful, and otherwise the first thing that is wrong with it.
///
/// Tours and steps count from 1, in the plan's order. If several things are wrong, the answer is the kind that comes
/// first in the order `Broken`, `NotAtDepot`, `ServesOther`, `ServedTwice`, `NotServed`, `Overload`. Within a kind it
/// is the least tour and then the least step, or the least edge.
#[derive(Clone, Copy, Debug, PartialEq, Eq)]
pub enum Verdict {
    /// The plan is lawful.
    Lawful {
        /// What the plan costs, in the instance's unit of cost.
        cost: u128,
    },
    /// The step is on no edge of the instance, or does not start at the vertex at which the step before it in its tour
    /// ends.
    Broken {
        /// The tour's number.
        tour: u64,
        /// The step's number in its tour.
        step: u64,
    },
    /// The tour's first step does not start at the depot, or its last does not end there.
    NotAtDepot {
        /// The tour's number.
        tour: u64,
    },
    /// A step serves the edge, which is not required.
    ServesOther {
        /// The edge's number.
        edge: u32,
    },
    /// The required edge is served more than once over the whole plan.
    ServedTwice {
        /// The edge's number.
        edge: u32,
    },
    /// The required edge is never served.
    NotServed {
        /// The edge's number.
        edge: u32,
    },
    /// The tour serves more than the capacity.
    Overload {
        /// The tour's number.
        tour: u64,
        /// The demand that it serves.
        load: u128,
    },
}
