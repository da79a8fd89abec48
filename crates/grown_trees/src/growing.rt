// Trees that grow at their leaves.
ghost use Rattle.std.specs.Prelude.{◌≡◌, ℕ, ◌+◌, ◌<◌, ◌≤◌, ◌++◌, ◌∷◌, [], length, map, take, drop, slice_index_or, All, IfOk, IfSome, IfNone};
ghost use Rattle.branch_rules.specs.Trees.{Tree as DecisionTree, preorder};
ghost use Rattle.grown_trees.specs.Growth.{IsLeastOpen, turns_in};
ghost use Rattle.grown_trees.specs.Places.{IsFineNode, branch_to};

use crate::block::Block;
use crate::blocks::{
    blocks_of, first_that_shows, least_of, most_blocks, node_in, replace_in, spare_blocks,
    split_in, tree_of, turns_of,
};
use crate::way::branch_at;
use branch_rules::{Branch, Node, Tree};
use carp_base::Memory;
use std::alloc::Global;
use std::marker::Model;

/// A node of a tree that grows, and the greatest bound that it shows by itself.
#[derive(Clone, Copy, Debug, PartialEq, Eq)]
pub struct GrowingNode {
    pub node: Node,
    /// The greatest bound that it shows. An inner node shows every bound, and has 10^18 - 1 or more here.
    pub shows: u64,
}

/// The nodes of a tree in preorder, each with the greatest bound that it shows by itself.
///
/// The nodes stand in blocks of at most 1,024, and a full block is divided into two. Contracts see the list of all
/// nodes, and the number of nodes for which there is memory, the room. All of it is taken when the tree is made, in
/// room / 511 + 2 blocks with memory for 1,024 nodes each: about 2.004 entries for each node of the room, and 2,048
/// more. A tree that is made of more nodes than that takes a block for each 512 of them. `replace`, `split` and `turns`
/// take no memory.
///
/// With n nodes, `len` takes the same time whatever the tree; `node`, `replace`, `split`, `shown`, `open_leaf`, and
/// `turns` for the cost of the last call take time in proportion to 1,024 + n / 512. `branch_to` takes that time once,
/// and once more for each decision on the way at most. `tree`, and `turns` for another cost, take time in proportion to
/// n; `new` and `of` in proportion to n and the room / 511.
#[derive(Drop)]
pub struct GrowingTree {
    blocks: Vec<Block>,
    // Blocks for nodes to come.
    spare: Vec<Block>,
    len: usize,
    room: usize,
}

impl Model for GrowingTree {
    ghost use Rattle.std.specs.Prelude.{◌≡◌, ◌^◌, ◌<◌, length, vec_capacity};
    ghost use Rattle.grown_trees.specs.Growth.{Growth};

    ghost Value = { Growth };

    ghost use Rattle.grown_trees.specs.Blocks.{IsProvided, joined};

    ghost view = { λ t. record { nodes = joined t.blocks.items; room = t.room } };

    ghost invariant = { λ t. (t.len ≡ length (joined t.blocks.items)) × ((t.len < 2 ^ 64) × IsProvided t.blocks.items (length t.spare.items) t.room (vec_capacity t.blocks)) };
}

impl GrowingTree {
    /// The tree of one node, with memory for so many. The only error is want of memory.
    pub fn new(alloc: Global, root: GrowingNode, room: usize) -> Result<GrowingTree, Memory>
        ensures { IfOk result (λ tree. tree ≡ record { nodes = root ∷ []; room = room }) }
    {
        GrowingTree::of(alloc, &[root], room)
    }

    /// The tree of these nodes, with memory for so many. The only error is want of memory.
    pub fn of(alloc: Global, nodes: &[GrowingNode], room: usize) -> Result<GrowingTree, Memory>
        ensures { IfOk result (λ tree. tree ≡ record { nodes = nodes.now; room = room }) }
    {
        let most = most_blocks(room);
        let blocks = blocks_of(alloc, nodes, most)?;
        let spare = spare_blocks(alloc, most.saturating_sub(blocks.len()))?;
        Ok(GrowingTree {
            blocks,
            spare,
            len: nodes.len(),
            room,
        })
    }

    /// The number of nodes.
    pub fn len(&self) -> usize
        ensures { result ≡ length self.now.nodes }
    {
        self.len
    }

    /// The node at a place from 0.
    pub fn node(&self, place: usize) -> GrowingNode
        requires { place < length self.now.nodes }
        ensures { result ≡ slice_index_or self.now.nodes place result }
    {
        node_in(&self.blocks, place)
    }

    /// The decisions on the way to the node at a place, from the root on. The nodes before the place tell them.
    ///
    /// The only error is want of memory.
    pub fn branch_to(&self, alloc: Global, place: usize) -> Result<Branch, Memory>
        requires place { place < length self.now.nodes }
        requires fine { All (λ entry. IsFineNode entry.node) self.now.nodes }
        ensures { (tree : DecisionTree) → preorder tree ≡ map (λ entry. entry.node) self.now.nodes → IfOk result (λ branch. branch ≡ branch_to [] tree place) }
    {
        branch_at(alloc, &self.blocks, place)
    }

    /// Puts another node in the place of a node. The list stays that of a tree if both are leaves. It takes no memory.
    pub fn replace(&mut self, place: usize, leaf: GrowingNode)
        requires { place < length self.old.nodes }
        ensures { self.new ≡ record { nodes = take place self.old.nodes ++ ((leaf ∷ []) ++ drop (place + 1) self.old.nodes); room = self.old.room } }
    {
        replace_in(&mut self.blocks, place, leaf);
    }

    /// Puts a node with two behind it in the place of a node. The list stays that of a tree if the first is an inner
    /// node, and the two and the one that gives way are leaves. It takes no memory.
    pub fn split(
        &mut self,
        place: usize,
        inner: GrowingNode,
        first: GrowingNode,
        second: GrowingNode,
    )
        requires place { place < length self.old.nodes }
        requires room { length self.old.nodes + 2 ≤ self.old.room }
        ensures { self.new ≡ record { nodes = take place self.old.nodes ++ ((inner ∷ first ∷ second ∷ []) ++ drop (place + 1) self.old.nodes); room = self.old.room } }
    {
        split_in(
            &mut self.blocks,
            &mut self.spare,
            place,
            inner,
            first,
            second,
        );
        self.len += 2;
    }

    /// The number of nodes that show a cost by themselves: the inner nodes, and the leaves that are closed for the
    /// cost. The list is as it was. The tree keeps what it counted, until the cost is another one.
    pub fn turns(&mut self, cost: u64) -> usize
        ensures same { self.new ≡ self.old }
        ensures turns { result ≡ turns_in cost self.old.nodes }
    {
        turns_of(&mut self.blocks, cost)
    }

    /// The greatest bound, up to a cost, that each node shows: the least of the cost and the numbers of all nodes.
    pub fn shown(&self, cost: u64) -> u64
        ensures at_most { result ≤ cost }
        ensures each { All (λ entry. result ≤ entry.shows) self.now.nodes }
        ensures greatest { (bound : ℕ) → bound ≤ cost → All (λ entry. bound ≤ entry.shows) self.now.nodes → bound ≤ result }
    {
        least_of(&self.blocks, cost)
    }

    /// The first place of a node that does not show a cost by itself and whose number is the least of all, or `None`
    /// exactly if each node shows the cost. In a tree of sound nodes it is a leaf, if the cost is below 10^18
    /// ([`sound_trees_are_lean`](crate::sound_trees_are_lean)).
    pub fn open_leaf(&self, cost: u64) -> Option<usize>
        ensures some { IfSome result (λ place. IsLeastOpen cost self.now.nodes place) }
        ensures none { IfNone result (All (λ entry. cost ≤ entry.shows) self.now.nodes) }
    {
        let least = self.shown(cost);
        if least == cost {
            return None;
        }
        first_that_shows(&self.blocks, least)
    }

    /// The nodes as a tree. The only error is want of memory.
    pub fn tree(&self, alloc: Global) -> Result<Tree, Memory>
        ensures { IfOk result (λ tree. tree.nodes ≡ map (λ entry. entry.node) self.now.nodes) }
    {
        tree_of(alloc, &self.blocks, self.len)
    }
}
