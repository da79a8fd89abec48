// One turn of a search.
ghost use Rattle.std.specs.Prelude.{◌≡◌, ℕ, ◌<◌, ◌≤◌, All, OnErr, IfOk};
ghost use Rattle.task_tours.specs.Shorts.{IsShortPlan};
ghost use Rattle.grown_trees.specs.Growth.{IsLeastOpen};
ghost use Rattle.branch_tree.specs.Leaves.{IsAtLeaf, IsTurn};
ghost use Rattle.branch_tree.specs.Searches.{IsSearch, state_of};
ghost use Rattle.branch_tree.specs.Steps.{IsAsBefore, IsStep};

use crate::kinds::{Kind, kind_of};
use crate::laws::known_laws;
use crate::search::{Search, Turn};
use branch_rules::Branch;
use carp_base::{Instance, Memory};
use leaf_adviser::{Adviser, NoAdvice};

impl Search {
    /// The turns of the tree for the best plan's cost: its inner nodes, and its leaves that show the cost by themselves.
    pub fn done(&self) -> u64
        ensures { result ≡ self.now.done }
    {
        self.done
    }

    /// The budget: the turns at which the search may end.
    pub fn budget(&self) -> u64
        ensures { result ≡ self.now.turns }
    {
        self.turns
    }

    /// The cost of the best plan so far.
    pub fn cost(&self) -> u64
        ensures { result ≡ self.now.cost }
    {
        self.cost
    }

    /// The greatest bound, up to the cost of the best plan, that all nodes show. It takes time in proportion to the
    /// number of nodes.
    pub fn shown(&self) -> u64
        ensures at_most { result ≤ self.now.cost }
        ensures each { All (λ entry. result ≤ entry.shows) self.now.tree.nodes }
        ensures greatest { (bound : ℕ) → bound ≤ self.now.cost → All (λ entry. bound ≤ entry.shows) self.now.tree.nodes → bound ≤ result }
    {
        self.tree.shown(self.cost)
    }

    /// Takes the first leaf that shows least, if it does not show the best plan's cost.
    ///
    /// - If its branch is void or fixed, the step closes the leaf as that. If the plan of a fixed leaf is cheaper, it
    ///   is the best one from then on.
    /// - Else, if the search has fewer than 256 price sets, the step seeks a tight set for the leaf
    ///   (`dual_master::raise`). If that shows the cost, the set closes the leaf. If not, the step splits the leaf by the
    ///   first pair of required edges that is not determined. Both new leaves name the set.
    /// - If the search has 256 price sets, both new leaves name the set of the leaf.
    ///
    /// A short best plan stays short. If the search began anew, the set of each price leaf stays worth at least each
    /// floor: its value under the leaf's decisions, divided by its denominator and never rounded
    /// ([`searches_reach_floors`](crate::searches_reach_floors)).
    ///
    /// It is what [`step_with`](Search::step_with) does with no advisers. The turns of the search are below its budget.
    /// The only error is want of memory. Then the tree, the price sets and the best plan are as before.
    ///
    /// ```
    /// let mut search = Search::begin(alloc, &inst, 64, plan)?;
    /// while search.done() < search.budget() {
    ///     if search.step(&inst)? == Turn::Done {
    ///         break;
    ///     }
    /// }
    /// let found = search.finish(alloc, &inst)?;
    /// ```
    pub fn step(&mut self, inst: &Instance) -> Result<Turn, Memory>
        requires search { IsSearch inst.now self.old }
        requires left { self.old.done < self.old.turns }
        ensures search { IsSearch inst.now self.new }
        ensures turns { self.new.turns ≡ self.old.turns }
        ensures least { self.new.least ≡ self.old.least }
        ensures short { IsShortPlan inst.now self.old.best → IsShortPlan inst.now self.new.best }
        ensures step { IfOk result (IsStep inst.now (state_of self.old) (state_of self.new)) }
        ensures err { OnErr result (IsAsBefore (state_of self.old) (state_of self.new)) }
    {
        let mut none: Vec<NoAdvice> = Vec::new(self.alloc);
        self.step_with(inst, &mut none)
    }

    /// The same with advisers. They are asked for prices of a leaf that is neither void nor fixed
    /// (`dual_master::raise_with`), and then for a node to split it by: the first one that is offered is taken if it may
    /// stand there, and if it is no cut of a number above 999. Who the advisers are is no matter to what a step
    /// promises.
    ///
    /// The only error is want of memory. Then the tree, the price sets and the best plan are as before, and shores may
    /// have been added. It takes the time of `raise_with`, of the advisers and, with n nodes, m required edges and d
    /// decisions on the way to the leaf, in proportion to n + m * (m * m + d).
    pub fn step_with<A: Adviser>(
        &mut self,
        inst: &Instance,
        advisers: &mut Vec<A>,
    ) -> Result<Turn, Memory>
        requires search { IsSearch inst.now self.old }
        requires left { self.old.done < self.old.turns }
        ensures search { IsSearch inst.now self.new }
        ensures turns { self.new.turns ≡ self.old.turns }
        ensures least { self.new.least ≡ self.old.least }
        ensures short { IsShortPlan inst.now self.old.best → IsShortPlan inst.now self.new.best }
        ensures step { IfOk result (IsStep inst.now (state_of self.old) (state_of self.new)) }
        ensures err { OnErr result (IsAsBefore (state_of self.old) (state_of self.new)) }
    {
        match self.tree.open_leaf(self.cost) {
            None => Ok(Turn::Done),
            Some(place) => self.take_leaf(inst, place, advisers),
        }
    }

    // A step that takes the leaf at a place.
    fn take_leaf<A: Adviser>(
        &mut self,
        inst: &Instance,
        place: usize,
        advisers: &mut Vec<A>,
    ) -> Result<Turn, Memory>
        requires search { IsSearch inst.now self.old }
        requires left { self.old.done < self.old.turns }
        requires place { IsLeastOpen self.old.cost self.old.tree.nodes place }
        ensures { IsTurn inst.now self.old self.new result }
    {
        known_laws();
        let mut branch = self.tree.branch_to(self.alloc, place)?;
        self.treat_leaf(inst, place, &mut branch, advisers)
    }

    // A step at a leaf, by what its decisions are.
    fn treat_leaf<A: Adviser>(
        &mut self,
        inst: &Instance,
        place: usize,
        branch: &mut Branch,
        advisers: &mut Vec<A>,
    ) -> Result<Turn, Memory>
        requires search { IsSearch inst.now self.old }
        requires left { self.old.done < self.old.turns }
        requires at { IsAtLeaf (state_of self.old) place branch.old }
        ensures { IsTurn inst.now self.old self.new result }
    {
        known_laws();
        let kind = kind_of(self.alloc, inst, &self.pool, branch)?;
        match kind {
            Kind::Void => Ok(self.close_void(inst, place, branch)),
            Kind::Fixed => self.close_fixed(inst, place, branch),
            Kind::Open => self.treat_open(inst, place, branch, advisers),
        }
    }
}
