// Whoever offers prices, splits and tours.
ghost use Rattle.std.specs.Prelude.{IfOk, IfSome};
ghost use Rattle.cut_pool.specs.Pools.{IsGrown};
ghost use Rattle.branch_rules.specs.Limits.{AreShoresIn};
ghost use Rattle.leaf_adviser.specs.Leaves.{AreOf, IsLeaf};
ghost use Rattle.leaf_adviser.specs.Offers.{IsOffer, IsPriced};

use crate::aim::Aim;
use crate::leaf::Leaf;
use branch_rules::{Node, PriceSet};
use carp_base::{Memory, Task};
use cut_pool::ShorePool;
use route_pricing::Table;
use std::alloc::Global;

/// Whoever offers price sets for the leaves of a tree. It need not be trusted: what it offers is judged.
///
/// Each call may fill the table, and may place shores that belong to the instance in the pool behind those that it held.
/// The only error is want of memory. What an adviser saw of another instance before is no matter to what it promises.
pub trait Adviser: Drop {
    /// Hears that a search of so many turns begins anew, so that what it kept of another one is of no use. It takes no
    /// memory.
    fn restart(&mut self, alloc: Global, turns: u64) {}

    /// Offers a price set for a leaf, or none. `best` is the best set so far. The aim has the number by which the leaf
    /// names the set that it started from, rounds, and a cost that is enough.
    ///
    /// Nothing is promised of the set's value, nor that it fits. But it has a price for each required edge, weights on
    /// shores of the pool that belong to the instance, and weights on groups of required edges.
    fn prices(
        &mut self,
        alloc: Global,
        leaf: &Leaf<'_>,
        table: &mut Table,
        pool: &mut ShorePool,
        best: &PriceSet,
        aim: Aim,
    ) -> Result<Option<PriceSet>, Memory>
        requires leaf { IsLeaf leaf.now }
        requires tools { AreOf leaf.now.inst.now table.old pool.old }
        requires best { IsPriced leaf.now.inst.now pool.old best.now }
        ensures offer { IfOk result (λ found. IfSome found (IsOffer leaf.now.inst.now pool.new)) }
        ensures grown { IsGrown pool.old pool.new }
        ensures tools { AreOf leaf.now.inst.now table.new pool.new };

    /// Offers a node to split the leaf by for which prices were asked last, or none. The children will name their set
    /// by the number. Nothing is promised of the node.
    fn split(
        &mut self,
        alloc: Global,
        leaf: &Leaf<'_>,
        table: &mut Table,
        pool: &mut ShorePool,
        number: u32,
    ) -> Result<Option<Node>, Memory>
        requires leaf { IsLeaf leaf.now }
        requires tools { AreOf leaf.now.inst.now table.old pool.old }
        requires shores { AreShoresIn leaf.now.inst.now pool.old leaf.now.branch.now }
        ensures grown { IsGrown pool.old pool.new }
        ensures tools { AreOf leaf.now.inst.now table.new pool.new }
    {
        Ok(None)
    }

    /// Offers the tours of a plan that it saw since this was asked before, as lists of tasks, or none. Nothing is
    /// promised of them.
    fn tours(&mut self) -> Option<Vec<Vec<Task>>> {
        None
    }
}
