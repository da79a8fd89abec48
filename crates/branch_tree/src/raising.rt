// Price sets for the leaf that a step takes.
ghost use Rattle.std.specs.Prelude.{◌≡◌, ◌≤◌, All, IfOk, length};
ghost use Rattle.cut_pool.specs.Pools.{IsGrown};
ghost use Rattle.cut_pool.specs.Shores.{Belongs};
ghost use Rattle.branch_rules.specs.Decisions.{rules_of};
ghost use Rattle.branch_rules.specs.Laws.{FitsBranch};
ghost use Rattle.branch_rules.specs.Limits.{AreShoresIn, IsShoreOf};
ghost use Rattle.branch_rules.specs.Prices.{value_of};
ghost use Rattle.grown_trees.specs.Values.{IsShown};
ghost use Rattle.route_pricing.specs.Tables.{IsRoom};
ghost use Rattle.leaf_adviser.specs.Leaves.{AreOf, IsLeaf};
ghost use Rattle.branch_tree.specs.Leaves.{IsRaisedFrom, IsRepriced, MayBegin, NamesSet, with_pool};
ghost use Rattle.branch_tree.specs.Searches.{IsSearch, set_in, state_of};

use crate::laws::known_laws;
use crate::search::Search;
use crate::values::shown_under;
use branch_rules::{Branch, Node, PriceSet};
use carp_base::{Instance, Memory};
use cut_pool::ShorePool;
use dual_master::{growth_keeps_sets, raise_with};
use leaf_adviser::{Adviser, Aim, Leaf};
use route_pricing::Table;
use std::alloc::Global;

// The rounds for which advisers are asked at the first leaf that a search raises. The other ones get none: they go on from
// what the advisers kept.
pub(crate) const FIRST_ROUNDS: u32 = 400;

// A tight set, and a node that is proposed to split the leaf by. Nothing is said of the node: who takes it judges it.
#[derive(Drop)]
pub(crate) struct Raised {
    pub(crate) set: PriceSet,
    pub(crate) proposed: Option<Node>,
}

impl Search {
    // A tight set for a leaf that is neither void nor fixed, from the set that the leaf names, and a node that is
    // proposed to split the leaf by if the set does not show the best plan's cost. It may add shores to the pool, also
    // if it ends for want of memory.
    pub(crate) fn raise_leaf<A: Adviser>(
        &mut self,
        inst: &Instance,
        place: usize,
        branch: &Branch,
        number: u32,
        advisers: &mut Vec<A>,
    ) -> Result<Raised, Memory>
        requires search { IsSearch inst.now self.old }
        requires names { NamesSet inst.now (state_of self.old) place branch.now number }
        ensures framed { IsRepriced inst.now self.old self.new }
        ensures state { state_of self.new ≡ with_pool (state_of self.old) self.new.pool }
        ensures grown { IsGrown self.old.pool self.new.pool }
        ensures belong { All (Belongs inst.now) self.new.pool }
        ensures raised { IfOk result (λ raised. IsRaisedFrom inst.now self.old.pool branch.now self.old.sets.items number self.new.pool raised.set) }
    {
        known_laws();
        inst.validity();
        let aim = Aim {
            number,
            rounds: self.rounds,
            cost: self.cost,
        };
        self.rounds = 0;
        let leaf = Leaf {
            inst,
            net: &self.net,
            branch,
        };
        raise_and_propose(
            self.alloc,
            &leaf,
            &mut self.table,
            &mut self.pool,
            &self.sets,
            aim,
            advisers,
        )
    }
}

// A tight set, from the set of a number, and a node that is proposed to split the leaf by if the set does not show the
// cost.
fn raise_and_propose<A: Adviser>(
    alloc: Global,
    leaf: &Leaf<'_>,
    table: &mut Table,
    pool: &mut ShorePool,
    sets: &[PriceSet],
    aim: Aim,
    advisers: &mut Vec<A>,
) -> Result<Raised, Memory>
    requires leaf { IsLeaf leaf.now }
    requires room { IsRoom leaf.now.inst.now table.old }
    requires belong { All (Belongs leaf.now.inst.now) pool.old }
    requires begins { MayBegin leaf.now.inst.now pool.old leaf.now.branch.now sets.now aim.number }
    requires shores { AreShoresIn leaf.now.inst.now pool.old leaf.now.branch.now }
    requires some { 1 ≤ (set_in sets.now aim.number).unit → IsShown (set_in sets.now aim.number).unit (value_of (rules_of leaf.now.inst.now pool.old leaf.now.branch.now) (set_in sets.now aim.number)) 0 }
    requires few { length sets.now ≤ 256 }
    ensures raised { IfOk result (λ raised. IsRaisedFrom leaf.now.inst.now pool.old leaf.now.branch.now sets.now aim.number pool.new raised.set) }
    ensures grown { IsGrown pool.old pool.new }
    ensures belong { All (Belongs leaf.now.inst.now) pool.new }
    ensures room { IsRoom leaf.now.inst.now table.new }
{
    growth_keeps_sets();
    let set = raise_from(alloc, leaf, table, pool, sets, aim, advisers)?;
    let added = sets.len() as u32 + 1;
    let proposed = propose(alloc, leaf, table, pool, &set, added, advisers, aim.cost)?;
    Ok(Raised { set, proposed })
}

// A tight set, from the set of a number.
fn raise_from<A: Adviser>(
    alloc: Global,
    leaf: &Leaf<'_>,
    table: &mut Table,
    pool: &mut ShorePool,
    sets: &[PriceSet],
    aim: Aim,
    advisers: &mut Vec<A>,
) -> Result<PriceSet, Memory>
    requires leaf { IsLeaf leaf.now }
    requires room { IsRoom leaf.now.inst.now table.old }
    requires belong { All (Belongs leaf.now.inst.now) pool.old }
    requires begins { MayBegin leaf.now.inst.now pool.old leaf.now.branch.now sets.now aim.number }
    ensures raised { IfOk result (IsRaisedFrom leaf.now.inst.now pool.old leaf.now.branch.now sets.now aim.number pool.new) }
    ensures grown { IsGrown pool.old pool.new }
    ensures belong { All (Belongs leaf.now.inst.now) pool.new }
    ensures room { IsRoom leaf.now.inst.now table.new }
{
    let start = &sets[aim.number as usize - 1];
    let _ = start.unit();
    raise_with(alloc, leaf, table, pool, start, aim, advisers)
}

// A node that an adviser offers to split a leaf by, if the leaf's new set does not show the cost. Its children will
// know the set by the number.
fn propose<A: Adviser>(
    alloc: Global,
    leaf: &Leaf<'_>,
    table: &mut Table,
    pool: &mut ShorePool,
    set: &PriceSet,
    number: u32,
    advisers: &mut Vec<A>,
    cost: u64,
) -> Result<Option<Node>, Memory>
    requires leaf { IsLeaf leaf.now }
    requires room { IsRoom leaf.now.inst.now table.old }
    requires belong { All (Belongs leaf.now.inst.now) pool.old }
    requires shores { AreShoresIn leaf.now.inst.now pool.old leaf.now.branch.now }
    requires weights { All (λ w. IsShoreOf leaf.now.inst.now pool.old w.shore) set.now.weights }
    requires fits { FitsBranch leaf.now.inst.now pool.old leaf.now.branch.now set.now }
    requires some { 1 ≤ set.now.unit → IsShown set.now.unit (value_of (rules_of leaf.now.inst.now pool.old leaf.now.branch.now) set.now) 0 }
    ensures grown { IsGrown pool.old pool.new }
    ensures belong { All (Belongs leaf.now.inst.now) pool.new }
    ensures room { IsRoom leaf.now.inst.now table.new }
{
    if cost <= shown_under(leaf.inst, pool, leaf.branch, set) {
        return Ok(None);
    }
    first_split(alloc, leaf, table, pool, number, advisers)
}

// The first node that an adviser offers to split a leaf by, in the order of the list. Nothing is said of the node.
fn first_split<A: Adviser>(
    alloc: Global,
    leaf: &Leaf<'_>,
    table: &mut Table,
    pool: &mut ShorePool,
    number: u32,
    advisers: &mut Vec<A>,
) -> Result<Option<Node>, Memory>
    requires leaf { IsLeaf leaf.now }
    requires tools { AreOf leaf.now.inst.now table.old pool.old }
    requires shores { AreShoresIn leaf.now.inst.now pool.old leaf.now.branch.now }
    ensures grown { IsGrown pool.old pool.new }
    ensures tools { AreOf leaf.now.inst.now table.new pool.new }
{
    for adviser in advisers.iter_mut() {
        let offered = adviser.split(alloc, leaf, table, pool, number)?;
        if offered.is_some() {
            return Ok(offered);
        }
    }
    Ok(None)
}
