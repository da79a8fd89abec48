// How a search goes on from a tree.
ghost use Rattle.std.specs.Prelude.{◌≡◌, ◌+◌, ◌≤◌, IfOk, min};
ghost use Rattle.task_tours.specs.Shorts.{IsAllowedPlan};
ghost use Rattle.grown_trees.specs.Growth.{turns_in};
ghost use Rattle.branch_tree.specs.Resumes.{IsResumed, MayResume, ResumedTreesHaveTurns};
ghost use Rattle.branch_tree.specs.Searches.{IsSearch, state_of};
ghost use Rattle.branch_tree.specs.Values.{millionths};

use crate::beginning::{allowed_cost, tools_of};
use crate::raising::FIRST_ROUNDS;
use crate::search::{Base, Search};
use branch_rules::PriceSet;
use carp_base::{Instance, Memory};
use cut_pool::ShorePool;
use grown_trees::{GrowingNode, GrowingTree, sound_trees_are_lean};
use plan_model::Plan;
use std::alloc::Global;
use task_tours::short_plans_cost_little;

// The most turns of a budget.
const MOST_TURNS: u64 = 1_048_576;

impl Search {
    /// A search that goes on from a tree and a plan, for so many turns beyond those that the tree has for the plan's
    /// cost, and at most 1,048,576 in all. A tree that has as many takes no turn.
    ///
    /// The plan is lawful and has at most 100,000 tours and 2,000,000 steps. The tree may be another's: its price
    /// leaves may lie below the floors, and it may have all nodes, price sets and shores that a certificate can spell.
    /// It shows the bound `least` then and at each moment. Memory for all nodes that the budget can make, twice its turns
    /// and one more, is taken here, so that no later step is refused one.
    ///
    /// The only error is want of memory. It takes the time of least paths between all pairs of vertices, and in
    /// proportion to the number of nodes and to the budget.
    pub fn resume(
        alloc: Global,
        inst: &Instance,
        turns: u64,
        best: Plan,
        nodes: &[GrowingNode],
        sets: Vec<PriceSet>,
        pool: ShorePool,
        least: u64,
    ) -> Result<Search, Memory>
        requires some_turns { 1 ≤ turns }
        requires turns_in_range { turns ≤ 1048576 }
        requires allowed { IsAllowedPlan inst.now best }
        requires may { MayResume inst.now pool sets.items least nodes.now }
        ensures search { IfOk result (IsSearch inst.now) }
        ensures turns { IfOk result (λ search. search.turns ≡ min (search.done + turns) 1048576) }
        ensures resumed { IfOk result (λ search. IsResumed inst.now best pool sets.items least nodes.now (state_of search)) }
    {
        short_plans_cost_little();
        inst.validity();
        let cost = allowed_cost(alloc, inst, &best)?;
        let tools = tools_of(alloc, inst)?;
        let done = turns_for(nodes, cost);
        let budget = budget_from(done, turns);
        let base = base_above(least);
        let room = 2 * budget as usize + 1;
        let tree = GrowingTree::of(alloc, nodes, room)?;
        Ok(Search {
            alloc,
            net: tools.net,
            dist: tools.dist,
            table: tools.table,
            tree,
            sets,
            pool,
            best,
            cost,
            done,
            turns: budget,
            least,
            base,
            rounds: FIRST_ROUNDS,
        })
    }
}

// A bound less 1, and a millionth more.
fn base_above(least: u64) -> Base
    ensures unit { result.unit ≡ 1000000 }
    ensures value { result.value ≡ millionths least }
{
    Base {
        unit: 1_000_000,
        value: 1_000_000 * i128::from(least) - 999_999,
    }
}

// The turns of nodes for a cost.
fn turns_for(nodes: &[GrowingNode], cost: u64) -> u64
    ensures { result ≡ turns_in cost nodes.now }
{
    nodes.iter().filter(|entry| cost <= entry.shows).count() as u64
}

// So many turns more, and the greatest budget at most.
fn budget_from(done: u64, turns: u64) -> u64
    ensures { result ≡ min (done + turns) 1048576 }
{
    done.saturating_add(turns).min(MOST_TURNS)
}

/// If a search may go on from a tree, the turns of the tree for a cost are its nodes that show the cost by themselves.
pub fn resumed_trees_have_turns()
    ensures { ResumedTreesHaveTurns }
{
    sound_trees_are_lean();
}
