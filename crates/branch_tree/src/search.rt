// The search, and what its steps answer.

use branch_rules::PriceSet;
use cut_pool::ShorePool;
use deadhead_paths::Distances;
use grown_trees::GrowingTree;
use plan_model::Plan;
use road_network::Network;
use route_pricing::Table;
use std::alloc::Global;

/// A search for a tree of decisions that shows what the best plan costs, by turns (Land and Doig 1960).
///
/// Each leaf of the tree is a void or a fixed branch, or names a price set that fits under its decisions. A leaf is
/// closed if it shows the best plan's cost by itself. `least` is a bound that the tree showed when the search began,
/// and shows at each moment. `base` is a fraction that shows it, and that each price leaf reaches at each moment: the
/// value of its set under its decisions, divided by the set's denominator, is no less. Contracts see what `state_of`
/// reads.
#[derive(Drop)]
pub struct Search {
    pub(crate) alloc: Global,
    pub(crate) net: Network,
    pub(crate) dist: Distances,
    pub(crate) table: Table,
    pub(crate) tree: GrowingTree,
    pub(crate) sets: Vec<PriceSet>,
    pub(crate) pool: ShorePool,
    pub(crate) best: Plan,
    pub(crate) cost: u64,
    pub(crate) done: u64,
    pub(crate) turns: u64,
    pub(crate) least: u64,
    pub(crate) base: Base,
    // The rounds for the next leaf that is raised.
    pub(crate) rounds: u32,
}

// A value in parts of a unit.
#[derive(Clone, Copy, Debug, PartialEq, Eq)]
pub(crate) struct Base {
    pub(crate) unit: u64,
    pub(crate) value: i128,
}

/// What a step did.
#[derive(Clone, Copy, Debug, PartialEq, Eq)]
pub enum Turn {
    /// Nothing: each leaf is closed.
    Done,
    /// It closed a leaf.
    Closed,
    /// It split a leaf.
    Split,
}
