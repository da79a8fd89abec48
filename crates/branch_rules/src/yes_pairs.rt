// The pairs that a branch says yes to.
ghost use Rattle.std.specs.Prelude.{◌≡◌, All, IfErr, OnOk};
ghost use Rattle.std.specs.List.{list_any};
ghost use Rattle.decision_chains.specs.Exclusions.{says_yes};
ghost use Rattle.branch_rules.specs.Refusals.{HasYes, IsWithoutYes};
ghost use Rattle.branch_rules.specs.Signs.{LacksYes};

use crate::{Branch, Decision, PriceSet, WeightedGroup};

/// Why a price set does not fit under a branch: a negative weight stands on a pair of edges to which the branch does
/// not say yes.
#[derive(Clone, Copy, Debug, PartialEq, Eq)]
pub struct NoYes {
    /// The first edge of the pair of the first such weight, by its number.
    pub a: u32,
    /// The second edge of the pair.
    pub b: u32,
}

impl Branch {
    /// Tests that the branch says yes to the pair of each negative weight on a group, as a set that fits under it
    /// needs.
    ///
    /// If it does not, the error is the first such pair. It takes no memory, and time in proportion to the number of
    /// groups times the number of decisions.
    pub fn check_yes(&self, set: &PriceSet) -> Result<(), NoYes>
        ensures accepted { OnOk result (All (HasYes self.now) set.now.groups) }
        ensures refused { IfErr result (IsWithoutYes self.now set.now) }
    {
        for group in set.groups() {
            match self.check_pair(group) {
                Ok(()) => {}
                Err(refusal) => return Err(refusal),
            }
        }
        Ok(())
    }

    // The same for one group.
    fn check_pair(&self, group: &WeightedGroup) -> Result<(), NoYes>
        ensures accepted { OnOk result (HasYes self.now group.now) }
        ensures refused { IfErr result (LacksYes self.now group.now) }
    {
        if group.weight() >= 0 {
            return Ok(());
        }
        let edges = group.edges();
        let (a, b) = (edges[0], edges[1]);
        if self.joins(a, b) {
            Ok(())
        } else {
            Err(NoYes { a, b })
        }
    }

    // Whether the branch says yes to a pair.
    fn joins(&self, a: u32, b: u32) -> bool
        ensures { result ≡ list_any (says_yes a b) self.now }
    {
        self.decisions()
            .iter()
            .any(|decision| joins(decision, a, b))
    }
}

// Whether a decision is a yes to a pair, in either order.
fn joins(decision: &Decision, a: u32, b: u32) -> bool
    ensures { result ≡ says_yes a b decision.now }
{
    match *decision {
        Decision::Yes { a: c, b: d } => (c == a && d == b) || (c == b && d == a),
        _ => false,
    }
}
