// Changes of a search, each of them whole.
ghost use Rattle.std.specs.Prelude.{◌≡◌, ◌<◌, ◌≤◌, ◌+◌, ◌++◌, ◌∷◌, [], length, take, drop, OnOk, OnErr};
ghost use Rattle.grown_trees.specs.Growth.{turns_in};
ghost use Rattle.branch_tree.specs.Leaves.{IsFramed, split_nodes, with_cheaper, with_news, with_set};
ghost use Rattle.branch_tree.specs.Searches.{state_of};

use crate::children::Children;
use crate::search::Search;
use branch_rules::{Node, PriceSet};
use carp_base::Memory;
use grown_trees::{GrowingNode, GrowingTree};
use plan_model::Plan;

impl Search {
    // Puts another leaf in the place of a leaf.
    pub(crate) fn put_leaf(&mut self, place: usize, leaf: GrowingNode)
        requires { place < length self.old.tree.nodes }
        ensures framed { IsFramed self.old self.new }
        ensures state { state_of self.new ≡ with_news (state_of self.old) place (leaf ∷ []) }
    {
        self.done = replace_leaf(&mut self.tree, place, leaf, self.cost);
    }

    // Puts an inner node with two price leaves of one set in the place of a leaf.
    pub(crate) fn put_split(&mut self, place: usize, node: Node, set: u32, children: Children)
        requires place { place < length self.old.tree.nodes }
        requires room { length self.old.tree.nodes + 2 ≤ self.old.tree.room }
        ensures framed { IsFramed self.old self.new }
        ensures state { state_of self.new ≡ with_news (state_of self.old) place (split_nodes node set children) }
    {
        let cost = self.cost;
        self.done = split_leaf(&mut self.tree, place, node, set, children, cost);
    }

    // Adds a price set behind the others, and splits a leaf into two that carry it. Without memory all stays as it was.
    pub(crate) fn put_split_with(
        &mut self,
        place: usize,
        node: Node,
        set: PriceSet,
        children: Children,
    ) -> Result<(), Memory>
        requires place { place < length self.old.tree.nodes }
        requires room { length self.old.tree.nodes + 2 ≤ self.old.tree.room }
        requires few_sets { length self.old.sets.items < 256 }
        ensures framed { IsFramed self.old self.new }
        ensures ok { OnOk result (state_of self.new ≡ with_news (with_set (state_of self.old) set) place (split_nodes node (length self.old.sets.items + 1) children)) }
        ensures err { OnErr result (state_of self.new ≡ state_of self.old) }
    {
        self.sets.push(set)?;
        let added = self.sets.len() as u32;
        let cost = self.cost;
        self.done = split_leaf(&mut self.tree, place, node, added, children, cost);
        Ok(())
    }

    // Adds a price set behind the others. Without memory they stay as they were.
    pub(crate) fn push_set(&mut self, set: PriceSet) -> Result<(), Memory>
        ensures framed { IsFramed self.old self.new }
        ensures ok { OnOk result (state_of self.new ≡ with_set (state_of self.old) set) }
        ensures err { OnErr result (state_of self.new ≡ state_of self.old) }
    {
        self.sets.push(set)?;
        Ok(())
    }

    // Takes a plan of this cost, if it is cheaper than the best plan.
    pub(crate) fn keep_cheaper(&mut self, plan: Plan, cost: u64)
        ensures framed { IsFramed self.old self.new }
        ensures state { state_of self.new ≡ with_cheaper (state_of self.old) plan cost }
    {
        if cost < self.cost {
            self.best = plan;
            self.cost = cost;
        }
    }
}

// Puts another leaf in the place of a leaf. It gives the turns of the tree for a cost.
fn replace_leaf(tree: &mut GrowingTree, place: usize, leaf: GrowingNode, cost: u64) -> u64
    requires { place < length tree.old.nodes }
    ensures nodes { tree.new.nodes ≡ take place tree.old.nodes ++ ((leaf ∷ []) ++ drop (place + 1) tree.old.nodes) }
    ensures long { length tree.new.nodes ≡ length tree.old.nodes }
    ensures room { tree.new.room ≡ tree.old.room }
    ensures turns { result ≡ turns_in cost tree.new.nodes }
{
    tree.replace(place, leaf);
    tree.turns(cost) as u64
}

// Puts an inner node with two price leaves of one set in the place of a leaf. It gives the turns of the tree for a
// cost.
fn split_leaf(
    tree: &mut GrowingTree,
    place: usize,
    node: Node,
    set: u32,
    children: Children,
    cost: u64,
) -> u64
    requires place { place < length tree.old.nodes }
    requires room { length tree.old.nodes + 2 ≤ tree.old.room }
    ensures nodes { tree.new.nodes ≡ take place tree.old.nodes ++ (split_nodes node set children ++ drop (place + 1) tree.old.nodes) }
    ensures long { length tree.new.nodes ≡ length tree.old.nodes + 2 }
    ensures room { tree.new.room ≡ tree.old.room }
    ensures turns { result ≡ turns_in cost tree.new.nodes }
{
    let inner = GrowingNode {
        node,
        shows: u64::MAX,
    };
    let first = price_leaf(set, children.first);
    let second = price_leaf(set, children.second);
    tree.split(place, inner, first, second);
    tree.turns(cost) as u64
}

// A leaf that names a price set, and the greatest bound that it shows.
pub(crate) fn price_leaf(set: u32, shows: u64) -> GrowingNode
    ensures { result ≡ record { node = Node.Price set; shows = shows } }
{
    GrowingNode {
        node: Node::Price { set },
        shows,
    }
}
