// What the tours and the deadheads of a plan have to meet together, beside the services.

use crate::members::Members;
use branch_rules::Decision;
use carp_base::Edge;
use cut_pool::Shore;

// No right side is further from 0.
const MOST_RIGHT_SIDE: u64 = 1 << 40;

/// What is counted.
#[derive(Drop)]
pub enum Demand {
    /// Deadheads over a shore, of which there are at least so many.
    Deadheads(Shore),
    /// Deadheads over a shore, of which there are at most so many.
    FewDeadheads(Shore),
    /// Bonds of a group, of which there are at most so many.
    Bonds(Members),
    /// Bonds of a pair that is to be served together, of which there are at least so many.
    Joined(Members),
}

/// What tours and deadheads meet together. A weight on it, which is not below 0, is its multiplier.
#[derive(Drop)]
pub struct Constraint {
    /// What is counted.
    pub demand: Demand,
    /// How many there are at least or at most.
    pub number: u64,
    /// The decision that it stands for. Without one it is known of each plan that matters.
    pub decision: Option<Decision>,
}

impl Constraint {
    /// The constraint of a demand that stands for no decision.
    pub fn new(demand: Demand, number: u64) -> Constraint {
        Constraint {
            demand,
            number,
            decision: None,
        }
    }

    /// The right side of it as "at least": the number, or the negative of one that there is at most. It is within 2^40
    /// either way.
    pub fn right_side(&self) -> i64 {
        let number = self.number.min(MOST_RIGHT_SIDE) as i64;
        match &self.demand {
            Demand::Deadheads(_) | Demand::Joined(_) => number,
            Demand::FewDeadheads(_) | Demand::Bonds(_) => number.saturating_neg(),
        }
    }

    /// The coefficient of a deadhead on an edge.
    pub fn of_edge(&self, edge: &Edge) -> i64 {
        match &self.demand {
            Demand::Deadheads(shore) => i64::from(shore.crosses(edge)),
            Demand::FewDeadheads(shore) => i64::from(shore.crosses(edge)).saturating_neg(),
            Demand::Bonds(_) | Demand::Joined(_) => 0,
        }
    }

    /// The shore over which there are to be deadheads, if it asks for some.
    pub fn asks_over(&self) -> Option<&Shore> {
        match &self.demand {
            Demand::Deadheads(shore) => Some(shore),
            _ => None,
        }
    }

    /// The shore over which there are to be few deadheads, if it asks for few.
    pub fn spares_over(&self) -> Option<&Shore> {
        match &self.demand {
            Demand::FewDeadheads(shore) => Some(shore),
            _ => None,
        }
    }

    /// Whether it asks for deadheads over this shore.
    pub fn asks_deadheads_over(&self, other: &Shore) -> bool {
        match self.asks_over() {
            Some(shore) => *shore == *other,
            None => false,
        }
    }

    /// Whether it is on this shore, whether it asks for many deadheads or for few.
    pub fn is_over(&self, other: &Shore) -> bool {
        match &self.demand {
            Demand::Deadheads(shore) | Demand::FewDeadheads(shore) => *shore == *other,
            Demand::Bonds(_) | Demand::Joined(_) => false,
        }
    }

    /// Whether it asks for deadheads over this shore, and stands for no decision.
    pub fn is_on_shore(&self, other: &Shore) -> bool {
        self.decision.is_none() && self.asks_deadheads_over(other)
    }

    /// Whether it is on the group of these edges.
    pub fn is_on_group(&self, edges: &[u32]) -> bool {
        match &self.demand {
            Demand::Bonds(members) => members.edges.as_slice() == edges,
            _ => false,
        }
    }

    /// Whether it stands for this decision.
    pub fn is_of(&self, decision: &Decision) -> bool {
        self.decision == Some(*decision)
    }

    /// Whether it holds for each plan that meets the decisions.
    pub fn holds_under(&self, decisions: &[Decision]) -> bool {
        match self.decision {
            Some(decision) => decisions.iter().any(|other| *other == decision),
            None => true,
        }
    }
}
