// How great the numbers of an instance are.
ghost use Rattle.std.specs.Prelude.{◌≡◌, ◌≤◌};
ghost use Rattle.carp_base.specs.Problem.{IsRequired};

use carp_base::{Edge, Instance};
use cut_pool::Shore;
use deadhead_paths::Distances;
use linear_program::RowBounds;
use price_points::UNIT;

// No bound of a multiplier is greater.
const MOST: u64 = 1 << 54;

// No way is longer.
const MOST_WAY: u128 = 1 << 40;

/// How great the costs of an instance are.
#[derive(Clone, Copy)]
pub(crate) struct Scale {
    /// The mean cost of an edge, rounded down, and at least 1.
    pub(crate) mean: u64,
    // The greatest cost of a way from the depot to an end of a required edge and back from its other end.
    way: u64,
}

impl Scale {
    /// The scale of an instance, by distances at its costs.
    pub(crate) fn of(inst: &Instance, dist: &Distances) -> Scale
        requires { dist.now.problem ≡ inst.now }
    {
        Scale {
            mean: mean_cost(inst.edges()),
            way: longest_way(inst, dist),
        }
    }

    /// The greatest cost that a column or a multiplier is to have.
    pub(crate) fn penalty(self) -> u64
        ensures { result ≤ 18014398509481984 }
    {
        parts(self.way.saturating_add(self.mean).saturating_mul(16))
    }

    /// The row of a service: it is done once.
    pub(crate) fn service_bounds(self, cost: u64, way: u64) -> RowBounds {
        let least = cost.saturating_add(self.mean).saturating_mul(4);
        let most = way
            .saturating_mul(2)
            .saturating_add(self.mean.saturating_mul(4));
        RowBounds {
            right_side: 1,
            least: (parts(least) as i64).saturating_neg(),
            most: parts(most) as i64,
        }
    }

    /// The row of a group.
    pub(crate) fn group_bounds(self, right_side: i64) -> RowBounds {
        RowBounds {
            right_side,
            least: 0,
            most: (self.penalty() / 8) as i64,
        }
    }

    /// The row of a decision.
    pub(crate) fn decision_bounds(self, right_side: i64) -> RowBounds {
        RowBounds {
            right_side,
            least: 0,
            most: self.penalty() as i64,
        }
    }
}

/// The row of a shore: a deadhead over it costs no less than its weight, in the end.
pub(crate) fn shore_bounds(edges: &[Edge], shore: &Shore, right_side: i64) -> RowBounds {
    let least = least_cost_over(edges, shore);
    RowBounds {
        right_side,
        least: 0,
        most: parts(least.saturating_mul(2).saturating_add(1)) as i64,
    }
}

// A cost in parts, as far as the program goes.
fn parts(cost: u64) -> u64
    ensures { result ≤ 18014398509481984 }
{
    cost.saturating_mul(UNIT).min(MOST)
}

// The least cost of an edge over a shore.
fn least_cost_over(edges: &[Edge], shore: &Shore) -> u64 {
    let mut least = 1_000_000;
    for edge in edges {
        if shore.crosses(edge) {
            least = edge.cost.min(least);
        }
    }
    least
}

fn mean_cost(edges: &[Edge]) -> u64 {
    let mut sum: u64 = 0;
    for edge in edges {
        sum = sum.saturating_add(edge.cost);
    }
    (sum / (edges.len() as u64).max(1)).max(1)
}

/// The cost of a way from the depot to an end of a required edge, and of one to its other end.
pub(crate) fn way_to(inst: &Instance, dist: &Distances, e: u32) -> u64
    requires dist { dist.now.problem ≡ inst.now }
    requires edge { IsRequired inst.now e }
{
    inst.validity();
    let edge = inst.edge(e);
    let out = dist.get(inst.depot(), edge.u).unwrap_or(0);
    let back = dist.get(inst.depot(), edge.v).unwrap_or(0);
    out.saturating_add(back).min(MOST_WAY) as u64
}

fn longest_way(inst: &Instance, dist: &Distances) -> u64
    requires { dist.now.problem ≡ inst.now }
{
    let mut longest: u64 = 1;
    for e in 1..inst.required() + 1 {
        longest = longest.max(way_to(inst, dist, e));
    }
    longest
}
