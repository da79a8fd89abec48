// Steps at a leaf that is neither void nor fixed.
ghost use Rattle.std.specs.Prelude.{◌≡◌, ◌<◌, ◌≤◌, ◌+◌, length, All, IfOk, OnErr};
ghost use Rattle.branch_rules.specs.Decisions.{rules_of, IsFixed, IsVoid};
ghost use Rattle.branch_rules.specs.Laws.{FitsBranch};
ghost use Rattle.branch_rules.specs.Limits.{AreShoresIn, IsShoreOf};
ghost use Rattle.branch_rules.specs.Prices.{value_of};
ghost use Rattle.decision_chains.specs.Pairs.{ArePairsIn};
ghost use Rattle.grown_trees.specs.Values.{IsShown};
ghost use Rattle.branch_tree.specs.Leaves.{HasClosed, HasSplit, IsAtLeaf, IsFramed, IsSplitBy, IsTurn, MayBegin, MayStand, NamesSet, with_set};
ghost use Rattle.branch_tree.specs.Searches.{IsSearch, set_in, state_of};

use crate::changing::price_leaf;
use crate::children::{Children, children_show};
use crate::choosing::choose_split;
use crate::laws::known_laws;
use crate::raising::Raised;
use crate::search::{Search, Turn};
use crate::values::shown_under;
use branch_rules::{Branch, Node, PriceSet};
use carp_base::{Instance, Memory};
use cut_pool::ShorePool;
use leaf_adviser::Adviser;
use std::alloc::Global;

// The most price sets that a search has.
const MOST_SETS: usize = 256;

// A node to split by, and what a set shows under the decisions of both children.
#[derive(Clone, Copy, Debug, PartialEq, Eq)]
struct Halves {
    node: Node,
    children: Children,
}

impl Search {
    // A step at a leaf whose decisions are neither void nor fixed.
    pub(crate) fn treat_open<A: Adviser>(
        &mut self,
        inst: &Instance,
        place: usize,
        branch: &mut Branch,
        advisers: &mut Vec<A>,
    ) -> Result<Turn, Memory>
        requires search { IsSearch inst.now self.old }
        requires left { self.old.done < self.old.turns }
        requires at { IsAtLeaf (state_of self.old) place branch.old }
        requires not_void { ¬ (IsVoid inst.now self.old.pool branch.old) }
        requires not_fixed { ¬ (IsFixed inst.now self.old.pool branch.old) }
        ensures { IsTurn inst.now self.old self.new result }
    {
        let number = self.named_set(inst, place, branch);
        if self.sets.len() < MOST_SETS {
            self.treat_with_new(inst, place, branch, number, advisers)
        } else {
            self.split_with_old(inst, place, branch, number)
        }
    }

    // The number of the price set that a leaf names.
    fn named_set(&self, inst: &Instance, place: usize, branch: &Branch) -> u32
        requires search { IsSearch inst.now self.now }
        requires at { IsAtLeaf (state_of self.now) place branch.now }
        requires not_void { ¬ (IsVoid inst.now self.now.pool branch.now) }
        requires not_fixed { ¬ (IsFixed inst.now self.now.pool branch.now) }
        ensures { NamesSet inst.now (state_of self.now) place branch.now result }
    {
        known_laws();
        // The instance and the branch tell only that the leaf is neither void nor fixed.
        let _ = inst;
        let _ = branch;
        let entry = self.tree.node(place);
        match entry.node {
            Node::Price { set } => set,
            _ => unreachable!(),
        }
    }

    // A step at a leaf for which a tight set is sought.
    fn treat_with_new<A: Adviser>(
        &mut self,
        inst: &Instance,
        place: usize,
        branch: &mut Branch,
        number: u32,
        advisers: &mut Vec<A>,
    ) -> Result<Turn, Memory>
        requires search { IsSearch inst.now self.old }
        requires left { self.old.done < self.old.turns }
        requires names { NamesSet inst.now (state_of self.old) place branch.old number }
        requires few { length self.old.sets.items < 256 }
        ensures { IsTurn inst.now self.old self.new result }
    {
        known_laws();
        let raised = self.raise_leaf(inst, place, branch, number, advisers)?;
        let Raised { set, proposed } = raised;
        let shown = shown_under(inst, &self.pool, branch, &set);
        if self.cost <= shown {
            self.close_with(place, set, shown)
        } else {
            self.split_with_new(inst, place, branch, number, set, proposed)
        }
    }

    // Adds a set, and closes a leaf by it.
    fn close_with(&mut self, place: usize, set: PriceSet, shown: u64) -> Result<Turn, Memory>
        requires place { place < length self.old.tree.nodes }
        requires few { length self.old.sets.items < 256 }
        ensures framed { IsFramed self.old self.new }
        ensures ok { IfOk result (HasClosed (state_of self.old) place set shown (state_of self.new)) }
        ensures err { OnErr result (state_of self.new ≡ state_of self.old) }
    {
        self.push_set(set)?;
        let number = self.sets.len() as u32;
        self.put_leaf(place, price_leaf(number, shown));
        Ok(Turn::Closed)
    }

    // Adds a set, and splits a leaf into two that carry it.
    fn split_with_new(
        &mut self,
        inst: &Instance,
        place: usize,
        branch: &mut Branch,
        number: u32,
        set: PriceSet,
        proposed: Option<Node>,
    ) -> Result<Turn, Memory>
        requires search { IsSearch inst.now self.old }
        requires left { self.old.done < self.old.turns }
        requires names { NamesSet inst.now (state_of self.old) place branch.old number }
        requires may { MayStand inst.now (state_of self.old) branch.old number set }
        requires few { length self.old.sets.items < 256 }
        ensures framed { IsFramed self.old self.new }
        ensures ok { IfOk result (HasSplit inst.now (with_set (state_of self.old) set) place branch.old set (length self.old.sets.items + 1) (state_of self.new)) }
        ensures err { OnErr result (state_of self.new ≡ state_of self.old) }
    {
        known_laws();
        let halves = choose_halves(self.alloc, inst, &self.pool, branch, &set, proposed)?;
        self.put_split_with(place, halves.node, set, halves.children)?;
        Ok(Turn::Split)
    }

    // Splits a leaf into two that carry its set.
    fn split_with_old(
        &mut self,
        inst: &Instance,
        place: usize,
        branch: &mut Branch,
        number: u32,
    ) -> Result<Turn, Memory>
        requires search { IsSearch inst.now self.old }
        requires left { self.old.done < self.old.turns }
        requires names { NamesSet inst.now (state_of self.old) place branch.old number }
        requires full { 256 ≤ length self.old.sets.items }
        ensures { IsTurn inst.now self.old self.new result }
    {
        known_laws();
        let halves = choose_halves_of(self.alloc, inst, &self.pool, branch, &self.sets, number)?;
        self.put_split(place, halves.node, number, halves.children);
        Ok(Turn::Split)
    }
}

// A node that splits a branch that is neither void nor fixed, and what a set that fits there shows under the decisions
// of both children. The branch is as it was afterwards.
fn choose_halves(
    alloc: Global,
    inst: &Instance,
    pool: &ShorePool,
    branch: &mut Branch,
    set: &PriceSet,
    proposed: Option<Node>,
) -> Result<Halves, Memory>
    requires pairs { ArePairsIn inst.now branch.old }
    requires shores { AreShoresIn inst.now pool.now branch.old }
    requires not_void { ¬ (IsVoid inst.now pool.now branch.old) }
    requires not_fixed { ¬ (IsFixed inst.now pool.now branch.old) }
    requires weights { All (λ w. IsShoreOf inst.now pool.now w.shore) set.now.weights }
    requires fits { FitsBranch inst.now pool.now branch.old set.now }
    requires some { 1 ≤ set.now.unit → IsShown set.now.unit (value_of (rules_of inst.now pool.now branch.old) set.now) 0 }
    ensures split { IfOk result (λ halves. IsSplitBy inst.now pool.now branch.old set.now halves.node halves.children) }
    ensures some_unit { 1 ≤ set.now.unit }
{
    let _ = set.unit();
    let node = choose_split(alloc, inst, pool, branch, proposed)?;
    let children = children_show(inst, pool, branch, &node, set)?;
    Ok(Halves { node, children })
}

// The same for the set of a number.
fn choose_halves_of(
    alloc: Global,
    inst: &Instance,
    pool: &ShorePool,
    branch: &mut Branch,
    sets: &[PriceSet],
    number: u32,
) -> Result<Halves, Memory>
    requires begins { MayBegin inst.now pool.now branch.old sets.now number }
    requires shores { AreShoresIn inst.now pool.now branch.old }
    requires not_void { ¬ (IsVoid inst.now pool.now branch.old) }
    requires not_fixed { ¬ (IsFixed inst.now pool.now branch.old) }
    requires some { 1 ≤ (set_in sets.now number).unit → IsShown (set_in sets.now number).unit (value_of (rules_of inst.now pool.now branch.old) (set_in sets.now number)) 0 }
    ensures split { IfOk result (λ halves. IsSplitBy inst.now pool.now branch.old (set_in sets.now number) halves.node halves.children) }
    ensures some_unit { 1 ≤ (set_in sets.now number).unit }
{
    choose_halves(alloc, inst, pool, branch, set_of(sets, number), None)
}

// The price set of a number from 1.
fn set_of(sets: &[PriceSet], number: u32) -> &PriceSet
    requires from_one { 1 ≤ number }
    requires in_range { number ≤ length sets.now }
    ensures { result.now ≡ set_in sets.now number }
{
    &sets[number as usize - 1]
}
