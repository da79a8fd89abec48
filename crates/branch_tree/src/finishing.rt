// What a search has found.
ghost use Rattle.std.specs.Prelude.{◌≡◌, ◌≤◌, map, IfOk};
ghost use Rattle.branch_tree.specs.Founds.{IsFound, findings_of};
ghost use Rattle.branch_tree.specs.Searches.{IsSearch, state_of};
ghost use Rattle.branch_tree.specs.Steps.{AreClosed};

use crate::search::Search;
use branch_rules::{PriceSet, Tree};
use carp_base::{Instance, Memory};
use cut_pool::ShorePool;
use grown_trees::sound_trees_are_lean;
use plan_model::Plan;
use std::alloc::Global;
use task_tours::short_plans_cost_little;

/// What a search has found.
#[derive(Drop)]
pub struct Found {
    /// The best plan.
    pub plan: Plan,
    /// The shores that were found. Cuts and price sets name some of them.
    pub shores: ShorePool,
    /// The price sets. Leaves name some of them, by numbers from 1.
    pub sets: Vec<PriceSet>,
    /// The nodes of the tree in preorder.
    pub tree: Tree,
    /// The greatest bound, up to the plan's cost, that the tree shows.
    pub bound: u64,
}

impl Search {
    /// The best plan, the tree, and the greatest bound up to the plan's cost that the tree shows. The bound is the cost
    /// if each leaf is closed, and no less than what the tree showed at first. If the search began anew, the set of each
    /// price leaf is worth at least each floor, never rounded
    /// ([`searches_reach_floors`](crate::searches_reach_floors)). The only error is want of memory, and then all is
    /// dropped.
    ///
    /// It takes time in proportion to the number of nodes.
    pub fn finish(self, alloc: Global, inst: &Instance) -> Result<Found, Memory>
        requires { IsSearch inst.now self }
        ensures plan { IfOk result (λ found. found.plan ≡ self.best) }
        ensures shores { IfOk result (λ found. found.shores ≡ self.pool) }
        ensures sets { IfOk result (λ found. found.sets.items ≡ self.sets.items) }
        ensures tree { IfOk result (λ found. found.tree.nodes ≡ map (λ entry. entry.node) self.tree.nodes) }
        ensures found { IfOk result (λ found. IsFound inst.now (findings_of found) self.done) }
        ensures least { IfOk result (λ found. self.least ≤ found.bound) }
        ensures closed { AreClosed (state_of self) → IfOk result (λ found. found.bound ≡ self.cost) }
    {
        // The instance tells only what the search is for.
        let _ = inst;
        sound_trees_are_lean();
        short_plans_cost_little();
        let bound = self.tree.shown(self.cost);
        let tree = self.tree.tree(alloc)?;
        Ok(Found {
            plan: self.best,
            shores: self.pool,
            sets: self.sets,
            tree,
            bound,
        })
    }
}
