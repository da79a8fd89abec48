// A block: some of the nodes of a tree, next to each other, and what is known of them.
ghost use Rattle.std.specs.Prelude.{◌≡◌, ◌+◌, ◌<◌, ◌≤◌, ◌++◌, ◌∷◌, [], length, map, take, drop, true, false, vec_capacity, IfOk};
ghost use Rattle.grown_trees.specs.Blocks.{IsLeast, IsSummary, inner_skipped, leaf_skipped, node_skipped, skip_of};
ghost use Rattle.grown_trees.specs.Growth.{turns_in};

use crate::growing::GrowingNode;
use branch_rules::Node;
use carp_base::Memory;
use std::alloc::Global;
use std::marker::Model;

// The most nodes of a block.
pub(crate) const MOST_NODES: usize = 1024;
// The nodes of each block of a tree that is made of many nodes, and of the first half of a block that is divided.
pub(crate) const HALF: usize = 512;
// The fewest nodes of a half: a block is divided only where no two nodes more go into it.
pub(crate) const LEAST_HALF: usize = 511;

// What a way needs to go past a block without a decision, and what it gains there.
#[derive(Clone, Copy)]
pub(crate) struct Skip {
    // The whole subtrees that there have to be behind the block.
    pub(crate) need: usize,
    pub(crate) leaves: usize,
    pub(crate) inner: usize,
}

impl Skip {
    // One more node, in front of the others.
    fn read(&mut self, node: &Node)
        requires { self.old.leaves + self.old.inner < 1024 }
        ensures { self.new ≡ node_skipped self.old node.now }
    {
        match *node {
            Node::Pair { .. } => self.join(),
            Node::Cut { .. } => self.join(),
            Node::Price { .. } => self.end(),
            Node::Void => self.end(),
            Node::Fixed => self.end(),
        }
    }

    // One more inner node.
    fn join(&mut self)
        requires { self.old.leaves + self.old.inner < 1024 }
        ensures { self.new ≡ inner_skipped self.old }
    {
        self.need = self.need.max((self.inner + 2).saturating_sub(self.leaves));
        self.inner += 1;
    }

    // One more leaf.
    fn end(&mut self)
        requires { self.old.leaves + self.old.inner < 1024 }
        ensures { self.new ≡ leaf_skipped self.old }
    {
        self.leaves += 1;
    }
}

// What is known of the nodes of a block.
#[derive(Clone, Copy)]
pub(crate) struct Summary {
    // The cost for which the turns were counted.
    pub(crate) cost: u64,
    pub(crate) turns: usize,
    // The least number of a node.
    pub(crate) least: u64,
    pub(crate) skip: Skip,
}

// Contracts see the list of the nodes.
#[derive(Drop)]
pub(crate) struct Block {
    nodes: Vec<GrowingNode>,
    summary: Summary,
    ghost taken: { 1024 ≤ vec_capacity nodes },
}

impl Model for Block {
    ghost use Rattle.std.specs.Prelude.{List};
    ghost use Rattle.grown_trees.specs.declared.growing.GrowingNode.{GrowingNode};

    ghost Value = { List GrowingNode };

    ghost use Rattle.grown_trees.specs.Blocks.{IsSummary};

    ghost view = { λ b. b.nodes.items };

    ghost invariant = { λ b. IsSummary b.nodes.items b.summary };
}

impl Block {
    // The block of no nodes, with memory for all that it can hold. The only error is want of memory.
    pub(crate) fn new(alloc: Global) -> Result<Block, Memory>
        ensures { IfOk result (λ block. block ≡ []) }
    {
        Ok(Block {
            nodes: Vec::with_capacity(alloc, MOST_NODES)?,
            summary: summary_of(&[], 0),
        })
    }

    // Puts these nodes in the place of all, and counts their turns for a cost. It takes no memory.
    pub(crate) fn refill(&mut self, nodes: &[GrowingNode], cost: u64)
        requires { length nodes.now ≤ 1024 }
        ensures { self.new ≡ nodes.now }
    {
        self.nodes.clear();
        self.nodes.extend_from_slice(nodes).unwrap();
        self.summary = summary_of(&self.nodes, cost);
    }

    // The number of nodes.
    pub(crate) fn len(&self) -> usize
        ensures { result ≡ length self.now }
    {
        self.nodes.len()
    }

    // The nodes.
    pub(crate) fn nodes(&self) -> &[GrowingNode]
        ensures { result.now ≡ self.now }
    {
        &self.nodes
    }

    // The least number of a node, or 2^64 - 1 if there is no node.
    pub(crate) fn least(&self) -> u64
        ensures { IsLeast 18446744073709551615 self.now result }
    {
        self.summary.least
    }

    // What a way needs to go past the block, and what it gains there.
    pub(crate) fn skip(&self) -> Skip
        ensures { result ≡ skip_of (map (λ entry. entry.node) self.now) }
    {
        self.summary.skip
    }

    // Whether there is room for two nodes more.
    pub(crate) fn is_roomy(&self) -> bool
        ensures roomy { result ≡ true → length self.now + 2 ≤ 1024 }
        ensures full { result ≡ false → 1022 < length self.now }
        ensures few { length self.now ≤ 1024 }
    {
        self.nodes.len() + 2 <= MOST_NODES
    }

    // Puts another node in the place of a node.
    pub(crate) fn replace(&mut self, place: usize, leaf: GrowingNode)
        requires { place < length self.old }
        ensures { self.new ≡ take place self.old ++ ((leaf ∷ []) ++ drop (place + 1) self.old) }
    {
        self.nodes[place] = leaf;
        self.summary = summary_of(&self.nodes, self.summary.cost);
    }

    // Puts a node with two behind it in the place of a node.
    pub(crate) fn split(
        &mut self,
        place: usize,
        inner: GrowingNode,
        first: GrowingNode,
        second: GrowingNode,
    )
        requires place { place < length self.old }
        requires room { length self.old + 2 ≤ 1024 }
        ensures { self.new ≡ take place self.old ++ ((inner ∷ first ∷ second ∷ []) ++ drop (place + 1) self.old) }
    {
        self.nodes[place] = second;
        self.nodes.insert(place, first).unwrap();
        self.nodes.insert(place, inner).unwrap();
        self.summary = summary_of(&self.nodes, self.summary.cost);
    }

    // Puts the nodes from the half on into another block, in the place of all that it holds.
    pub(crate) fn copy_upper_half(&self, other: &mut Block)
        requires { 512 ≤ length self.now }
        ensures { other.new ≡ drop 512 self.now }
    {
        let (_, upper) = self.nodes.split_at(HALF);
        other.refill(upper, self.summary.cost);
    }

    // Takes away the nodes from the half on.
    pub(crate) fn keep_lower_half(&mut self)
        ensures { self.new ≡ take 512 self.old }
    {
        self.nodes.truncate(HALF);
        self.summary = summary_of(&self.nodes, self.summary.cost);
    }

    // The number of nodes that show a cost by themselves. They are counted only if those of another cost were.
    pub(crate) fn turns(&mut self, cost: u64) -> usize
        ensures same { self.new ≡ self.old }
        ensures turns { result ≡ turns_in cost self.old }
    {
        if self.summary.cost != cost {
            self.summary = summary_of(&self.nodes, cost);
        }
        self.summary.turns
    }
}

// What is known of nodes, whose turns are counted for a cost.
fn summary_of(nodes: &[GrowingNode], cost: u64) -> Summary
    requires { length nodes.now ≤ 1024 }
    ensures summary { IsSummary nodes.now result }
    ensures cost { result.cost ≡ cost }
{
    Summary {
        cost,
        turns: turns_for(nodes, cost),
        least: least_shown(nodes, u64::MAX),
        skip: skip_of(nodes),
    }
}

// The number of nodes that show a cost by themselves.
fn turns_for(nodes: &[GrowingNode], cost: u64) -> usize
    ensures { result ≡ turns_in cost nodes.now }
{
    nodes.iter().filter(|entry| cost <= entry.shows).count()
}

// The least of a cost and the numbers of the nodes.
fn least_shown(nodes: &[GrowingNode], cost: u64) -> u64
    ensures { IsLeast cost nodes.now result }
{
    let mut least = cost;
    for entry in nodes {
        least = least.min(entry.shows);
    }
    least
}

// What a way needs to go past the nodes, and what it gains there.
fn skip_of(nodes: &[GrowingNode]) -> Skip
    requires { length nodes.now ≤ 1024 }
    ensures { result ≡ skip_of (map (λ entry. entry.node) nodes.now) }
{
    let mut skip = Skip {
        need: 0,
        leaves: 0,
        inner: 0,
    };
    for i in (0..nodes.len()).rev() {
        skip.read(&nodes[i].node);
    }
    skip
}
