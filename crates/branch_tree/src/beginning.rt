// How a search begins.
ghost use Rattle.std.specs.Prelude.{◌≡◌, ◌≤◌, ◌*◌, ◌≤ℤ◌, ◌∷◌, [], pos, IfOk};
ghost use Rattle.plan_model.specs.Plans.{plan_cost};
ghost use Rattle.task_tours.specs.Shorts.{IsAllowedPlan};
ghost use Rattle.dual_master.specs.Floors.{plain_value};
ghost use Rattle.branch_tree.specs.Beginnings.{AreTools, IsFloor, IsRoot};
ghost use Rattle.branch_tree.specs.Searches.{IsBegun, IsSearch, state_of};

use crate::changing::price_leaf;
use crate::raising::FIRST_ROUNDS;
use crate::search::{Base, Search};
use crate::values::shown_under;
use branch_rules::{Branch, PriceSet, prices_bound};
use carp_base::{Instance, Memory};
use cut_pool::ShorePool;
use deadhead_paths::Distances;
use dual_master::{floors, level_sets_are_there};
use grown_trees::GrowingTree;
use plan_model::Plan;
use road_network::Network;
use route_pricing::Table;
use std::alloc::Global;
use task_tours::{cost_distances, lawful_cost, short_plans_cost_little};

// What a search works with.
#[derive(Drop)]
pub(crate) struct Tools {
    pub(crate) net: Network,
    pub(crate) dist: Distances,
    pub(crate) table: Table,
}

// The best set of the floors, and its pool.
#[derive(Drop)]
pub(crate) struct Floor {
    pub(crate) pool: ShorePool,
    pub(crate) set: PriceSet,
}

impl Search {
    /// A search for an instance from a plan on, for a budget of turns from 1 to 1,048,576.
    ///
    /// The plan is lawful and has at most 100,000 tours and 2,000,000 steps. The tree is one leaf with the best set of
    /// the floors (`dual_master::floors`), and the pool is as `floors` leaves it. The value of that set, divided by its
    /// denominator, is at least each floor. What each price leaf names is worth no less, at this and at each later
    /// moment, and never rounded ([`searches_reach_floors`](crate::searches_reach_floors)).
    ///
    /// It takes the memory for all nodes that the budget can make, `2 * turns + 1`, so that no later step is refused
    /// one.
    ///
    /// The only error is want of memory. It takes the time of least paths between all pairs of vertices and of the
    /// floors, and in proportion to the budget.
    pub fn begin(alloc: Global, inst: &Instance, turns: u64, best: Plan) -> Result<Search, Memory>
        requires some_turns { 1 ≤ turns }
        requires turns_in_range { turns ≤ 1048576 }
        requires allowed { IsAllowedPlan inst.now best }
        ensures search { IfOk result (IsSearch inst.now) }
        ensures turns { IfOk result (λ search. search.turns ≡ turns) }
        ensures begun { IfOk result (λ search. IsBegun inst.now best (state_of search)) }
    {
        short_plans_cost_little();
        let cost = allowed_cost(alloc, inst, &best)?;
        let mut tools = tools_of(alloc, inst)?;
        let floor = floor_of(alloc, inst, &mut tools)?;
        let base = base_of(alloc, inst, &floor, cost);
        let mut tree = plant(alloc, inst, turns, &floor)?;
        let sets = one_set(alloc, floor.set)?;
        let least = tree.node(0).shows;
        let done = tree.turns(cost) as u64;
        Ok(Search {
            alloc,
            net: tools.net,
            dist: tools.dist,
            table: tools.table,
            tree,
            sets,
            pool: floor.pool,
            best,
            cost,
            done,
            turns,
            least,
            base,
            rounds: FIRST_ROUNDS,
        })
    }
}

// What an allowed plan costs.
pub(crate) fn allowed_cost(alloc: Global, inst: &Instance, plan: &Plan) -> Result<u64, Memory>
    requires { IsAllowedPlan inst.now plan.now }
    ensures { IfOk result (λ cost. cost ≡ plan_cost inst.now plan.now) }
{
    short_plans_cost_little();
    inst.validity();
    let cost = lawful_cost(alloc, inst, plan)?;
    Ok(cost as u64)
}

// The network, the distances by cost and the table of an instance.
pub(crate) fn tools_of(alloc: Global, inst: &Instance) -> Result<Tools, Memory>
    ensures { IfOk result (AreTools inst.now) }
{
    let net = Network::new(alloc, inst)?;
    let dist = cost_distances(alloc, inst)?;
    let table = Table::new(alloc, inst)?;
    Ok(Tools { net, dist, table })
}

// The best set of the floors, with its pool.
fn floor_of(alloc: Global, inst: &Instance, tools: &mut Tools) -> Result<Floor, Memory>
    requires { AreTools inst.now tools.old }
    ensures floor { IfOk result (IsFloor inst.now) }
    ensures tools { AreTools inst.now tools.new }
{
    level_sets_are_there();
    prices_bound();
    // What reads of the instance and of the set say is needed: that both are within their limits.
    inst.validity();
    let mut pool = ShorePool::new(alloc);
    let set = floors(
        alloc,
        inst,
        &tools.net,
        &tools.dist,
        &mut tools.table,
        &mut pool,
    )?;
    let _ = set.unit();
    Ok(Floor { pool, set })
}

// What the first set is worth without decisions. A lawful plan costs no less, so that the value has a place.
fn base_of(alloc: Global, inst: &Instance, floor: &Floor, cost: u64) -> Base
    requires floor { IsFloor inst.now floor.now }
    requires covered { plain_value inst.now floor.now.pool floor.now.set ≤ℤ pos (floor.now.set.unit * cost) }
    requires little { cost ≤ 2000000000000 }
    ensures unit { result.unit ≡ floor.now.set.unit }
    ensures value { result.value ≡ plain_value inst.now floor.now.pool floor.now.set }
{
    match Branch::new(alloc).value_at(inst, &floor.pool, &floor.set) {
        Ok(value) => Base {
            unit: floor.set.unit(),
            value,
        },
        Err(_) => unreachable!(),
    }
}

// The tree of one leaf that names the first set, with memory for all nodes that so many turns can make.
fn plant(alloc: Global, inst: &Instance, turns: u64, floor: &Floor) -> Result<GrowingTree, Memory>
    requires turns { turns ≤ 1048576 }
    requires floor { IsFloor inst.now floor.now }
    ensures { IfOk result (IsRoot inst.now turns floor.now) }
{
    let shows = shown_under(inst, &floor.pool, &Branch::new(alloc), &floor.set);
    let room = 2 * turns as usize + 1;
    GrowingTree::new(alloc, price_leaf(1, shows), room)
}

// The list of one price set.
fn one_set(alloc: Global, set: PriceSet) -> Result<Vec<PriceSet>, Memory>
    ensures { IfOk result (λ sets. sets.items ≡ set ∷ []) }
{
    let mut sets = Vec::with_capacity(alloc, 1)?;
    sets.push(set)?;
    Ok(sets)
}
