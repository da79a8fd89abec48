// The decisions on the way to a place of a tree.
ghost use Rattle.std.specs.Prelude.{◌≡◌, suc, ◌+◌, ◌<◌, ◌^◌, ◌++◌, ◌∷◌, [], length, map, take, All, IfOk, OnOk};
ghost use Rattle.branch_rules.specs.Limits.{IsFineDecision};
ghost use Rattle.branch_rules.specs.Trees.{Tree, preorder};
ghost use Rattle.grown_trees.specs.Backward.{all_read, found_by, node_read, read_from, split_read};
ghost use Rattle.grown_trees.specs.Blocks.{joined};
ghost use Rattle.grown_trees.specs.Places.{IsFineNode, branch_to};

use crate::block::Block;
use crate::blocks::find;
use crate::growing::GrowingNode;
use branch_rules::{Branch, Decision, Node};
use carp_base::Memory;
use std::alloc::Global;

// The decisions on the way to the node at a place of the nodes of blocks, in preorder, from the root on. The nodes are
// those of a whole tree, of which those before the place suffice.
pub(crate) fn branch_at(alloc: Global, blocks: &[Block], place: usize) -> Result<Branch, Memory>
    requires place { place < length (joined blocks.now) }
    requires few { length (joined blocks.now) < 2 ^ 64 }
    requires fine { All (λ entry. IsFineNode entry.node) (joined blocks.now) }
    ensures { (tree : Tree) → preorder tree ≡ map (λ entry. entry.node) (joined blocks.now) → IfOk result (λ branch. branch ≡ branch_to [] tree place) }
{
    let decisions = decisions_to(alloc, blocks, place)?;
    branch_of(alloc, &decisions)
}

// The decisions on the way to a place, from the root on.
pub(crate) fn decisions_to(
    alloc: Global,
    blocks: &[Block],
    place: usize,
) -> Result<Vec<Decision>, Memory>
    requires place { place < length (joined blocks.now) }
    requires few { length (joined blocks.now) < 2 ^ 64 }
    requires fine { All (λ entry. IsFineNode entry.node) (joined blocks.now) }
    ensures way { (tree : Tree) → preorder tree ≡ map (λ entry. entry.node) (joined blocks.now) → IfOk result (λ decisions. decisions.items ≡ branch_to [] tree place) }
    ensures fine { IfOk result (λ decisions. All IsFineDecision decisions.items) }
{
    let mut decisions = decisions_back(alloc, blocks, place)?;
    decisions.reverse();
    Ok(decisions)
}

// What the nodes before a place tell of the way to it, read from the last to the first.
#[derive(Drop)]
struct Way {
    // The decisions that were found, the last of the way first.
    decisions: Vec<Decision>,
    // The number of whole subtrees since the last of them.
    whole: usize,
}

impl Way {
    // Reads the nodes of blocks.
    fn read_blocks(&mut self, blocks: &[Block]) -> Result<(), Memory>
        requires { self.old.whole + length (joined blocks.now) < 2 ^ 64 }
        ensures { OnOk result (found_by self.new ≡ read_from (found_by self.old) (map (λ entry. entry.node) (joined blocks.now))) }
    {
        for i in (0..blocks.len()).rev() {
            self.read_block(&blocks[i])?;
        }
        Ok(())
    }

    // Reads the nodes of a block. If enough whole subtrees are behind it, each inner node in it joins two of them, and
    // no node is looked at.
    fn read_block(&mut self, block: &Block) -> Result<(), Memory>
        requires { self.old.whole + length block.now < 2 ^ 64 }
        ensures { OnOk result (found_by self.new ≡ read_from (found_by self.old) (map (λ entry. entry.node) block.now)) }
    {
        let skip = block.skip();
        if self.whole < skip.need {
            return self.read_nodes(block.nodes());
        }
        self.whole = self.whole + skip.leaves - skip.inner;
        Ok(())
    }

    // Reads nodes.
    fn read_nodes(&mut self, nodes: &[GrowingNode]) -> Result<(), Memory>
        requires { self.old.whole + length nodes.now < 2 ^ 64 }
        ensures { OnOk result (found_by self.new ≡ read_from (found_by self.old) (map (λ entry. entry.node) nodes.now)) }
    {
        for i in (0..nodes.len()).rev() {
            self.read(&nodes[i].node)?;
        }
        Ok(())
    }

    // Reads a node. If no whole subtree is behind a node with two children, the way goes through its first child. If
    // one is, it goes through the second child. If more are, the node is the root of a whole subtree itself, as a leaf
    // is.
    fn read(&mut self, node: &Node) -> Result<(), Memory>
        requires { self.old.whole + 1 < 2 ^ 64 }
        ensures { OnOk result (found_by self.new ≡ node_read (found_by self.old) node.now) }
    {
        match *node {
            Node::Pair { a, b } => self.split(Decision::Yes { a, b }, Decision::No { a, b }),
            Node::Cut { shore, k } => {
                self.split(Decision::Low { shore, k }, Decision::High { shore, k })
            }
            Node::Price { .. } => self.end(),
            Node::Void => self.end(),
            Node::Fixed => self.end(),
        }
    }

    // Reads a node with two children, which follow these decisions.
    fn split(&mut self, first: Decision, second: Decision) -> Result<(), Memory>
        ensures { OnOk result (found_by self.new ≡ split_read self.old.decisions.items self.old.whole first second) }
    {
        match self.whole {
            0 => self.take(first),
            1 => self.take(second),
            _ => {
                self.whole -= 1;
                Ok(())
            }
        }
    }

    // Reads a leaf.
    fn end(&mut self) -> Result<(), Memory>
        requires { self.old.whole + 1 < 2 ^ 64 }
        ensures { OnOk result (found_by self.new ≡ record { decisions = self.old.decisions.items; whole = suc self.old.whole }) }
    {
        self.whole += 1;
        Ok(())
    }

    // The way goes by this decision.
    fn take(&mut self, decision: Decision) -> Result<(), Memory>
        ensures { OnOk result (found_by self.new ≡ record { decisions = self.old.decisions.items ++ decision ∷ []; whole = 0 }) }
    {
        self.decisions.push(decision)?;
        self.whole = 0;
        Ok(())
    }
}

// The decisions on the way to the node at a place, the last one first.
fn decisions_back(alloc: Global, blocks: &[Block], place: usize) -> Result<Vec<Decision>, Memory>
    requires place { place < length (joined blocks.now) }
    requires few { length (joined blocks.now) < 2 ^ 64 }
    ensures { IfOk result (λ decisions. decisions.items ≡ (all_read (map (λ entry. entry.node) (take place (joined blocks.now)))).decisions) }
{
    let spot = find(blocks, place);
    let mut way = Way {
        decisions: Vec::new(alloc),
        whole: 0,
    };
    way.read_nodes(&blocks[spot.block].nodes()[..spot.inner])?;
    way.read_blocks(&blocks[..spot.block])?;
    Ok(way.decisions)
}

// The branch of these decisions.
fn branch_of(alloc: Global, decisions: &[Decision]) -> Result<Branch, Memory>
    requires { All IsFineDecision decisions.now }
    ensures { IfOk result (λ branch. branch ≡ decisions.now) }
{
    let mut branch = Branch::new(alloc);
    for decision in decisions {
        branch.push(*decision)?;
    }
    Ok(branch)
}
