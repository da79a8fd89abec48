// The way from the root to the node that is read next.
ghost use Rattle.std.specs.Prelude.{◌≡◌, ◌<◌, ◌++◌, ◌∷◌, [], length, IsTrue, OnOk, false, ◌↔◌};
ghost use Rattle.branch_rules.specs.Limits.{IsFineDecision, IsNodeIn};
ghost use Rattle.branch_rules.specs.Trees.{Support};
ghost use Rattle.branch_rules.specs.Paths.{IsDecisionIn, IsFineSplit, IsOpen, IsPath, IsPathIn, branch_of, seconds_of, waits};
ghost use Rattle.branch_rules.specs.Steps.{Enters, LeavesOne};
ghost use Rattle.branch_rules.specs.Waiting.{waiting_after};

use crate::{Branch, Decision, Node};
use carp_base::Memory;
use std::alloc::Global;

/// The way from the root of a tree to the node that is read next in preorder.
///
/// It holds the branch of that node, and for each decision of it whose first child is being read, the decision of the
/// second child. So it holds one branch, whatever the tree.
#[derive(Drop)]
pub struct Path {
    branch: Branch,
    seconds: Vec<Option<Decision>>,
    whole: bool,
}

impl Path {
    /// The way to the root.
    pub fn new(alloc: Global) -> Path
        ensures path { IsPath result }
        ensures inside { (s : Support) → IsPathIn s result }
        ensures waits { waits result ≡ [] ∷ [] }
    {
        Path {
            branch: Branch::new(alloc),
            seconds: Vec::new(alloc),
            whole: false,
        }
    }

    /// The decisions on the way to the node that is read next. If the tree is whole, they say nothing.
    pub fn branch(&self) -> &Branch
        ensures { result.now ≡ branch_of self.now }
    {
        &self.branch
    }

    /// Whether no node is still to come.
    pub fn is_whole(&self) -> bool
        ensures whole { IsTrue result ↔ (waits self.now ≡ []) }
        ensures goes { result ≡ false → IsOpen self.now }
    {
        self.whole
    }

    /// Goes past a node, which stands where the path leads: to its first child, or after a leaf to the nearest second
    /// child that is still to be read. If there is none, the tree is whole. The number of a cut is at most 1,000,000.
    /// The only error is want of memory, after which the path is of no more use.
    ///
    /// Past all nodes of a tree it takes time in proportion to their number.
    pub fn pass(&mut self, node: &Node) -> Result<(), Memory>
        requires path { IsPath self.old }
        requires goes { IsOpen self.old }
        requires fine { IsFineSplit node.now }
        ensures path { OnOk result (IsPath self.new) }
        ensures inside { OnOk result ((s : Support) → IsPathIn s self.old → IsNodeIn s.problem s.pool node.now → IsPathIn s self.new) }
        ensures waits { OnOk result (waits self.new ≡ waiting_after (branch_of self.old) node.now (seconds_of self.old)) }
    {
        match *node {
            Node::Pair { a, b } => self.split(Decision::Yes { a, b }, Decision::No { a, b }),
            Node::Cut { shore, k } => {
                self.split(Decision::Low { shore, k }, Decision::High { shore, k })
            }
            Node::Price { .. } => self.go_on(),
            Node::Void => self.go_on(),
            Node::Fixed => self.go_on(),
        }
    }

    // Goes to the first of two children.
    fn split(&mut self, first: Decision, second: Decision) -> Result<(), Memory>
        requires path { IsPath self.old }
        requires goes { IsOpen self.old }
        requires first { IsFineDecision first }
        requires second { IsFineDecision second }
        ensures path { OnOk result (IsPath self.new) }
        ensures inside { OnOk result ((s : Support) → IsPathIn s self.old → IsDecisionIn s first → IsDecisionIn s second → IsPathIn s self.new) }
        ensures waits { OnOk result (waits self.new ≡ (self.old.branch ++ first ∷ []) ∷ ((self.old.branch ++ second ∷ []) ∷ seconds_of self.old)) }
    {
        self.enter(first, Some(second))
    }

    // Goes to the nearest second child that is still to be read. If there is none, the tree is whole.
    fn go_on(&mut self) -> Result<(), Memory>
        requires path { IsPath self.old }
        requires goes { IsOpen self.old }
        ensures path { OnOk result (IsPath self.new) }
        ensures inside { OnOk result ((s : Support) → IsPathIn s self.old → IsPathIn s self.new) }
        ensures waits { OnOk result (waits self.new ≡ seconds_of self.old) }
    {
        while !self.seconds.is_empty() {
            if let Some(decision) = self.leave() {
                return self.enter(decision, None);
            }
        }
        self.whole = true;
        Ok(())
    }

    // Goes on by a decision.
    fn enter(&mut self, decision: Decision, second: Option<Decision>) -> Result<(), Memory>
        requires { IsFineDecision decision }
        ensures { OnOk result (Enters self.old self.new decision second) }
    {
        self.branch.push(decision)?;
        self.seconds.push(second)?;
        Ok(())
    }

    // Goes back by a decision, and gives that of the second child, if the second child is still to be read.
    fn leave(&mut self) -> Option<Decision>
        requires path { IsPath self.old }
        requires some { 0 < length self.old.seconds.items }
        ensures { LeavesOne self.new self.old result }
    {
        self.branch.pop();
        self.seconds.pop().flatten()
    }
}
