// The blocks of a tree: their nodes, one block behind the other, are those of the tree in preorder.
ghost use Rattle.std.specs.Prelude.{◌≡◌, ◌+◌, ◌-◌, ◌*◌, ◌^◌, ◌<◌, ◌≤◌, ◌++◌, ◌∷◌, [], List, length, map, take, drop, slice_index_or, position, vec_capacity, IfOk};
ghost use Rattle.grown_trees.specs.Blocks.{IsLeast, IsRoomySpot, IsSpot, joined, lacking};
ghost use Rattle.grown_trees.specs.Growth.{shows_just, turns_in};
ghost use Rattle.grown_trees.specs.declared.growing.GrowingNode.{GrowingNode as Entry};

use crate::block::{Block, HALF, LEAST_HALF};
use crate::growing::GrowingNode;
use branch_rules::Tree;
use carp_base::Memory;
use std::alloc::Global;

// Where a node stands.
#[derive(Clone, Copy)]
pub(crate) struct Spot {
    // The number of its block.
    pub(crate) block: usize,
    // Its place in the block.
    pub(crate) inner: usize,
}

// The number of blocks to take for a tree of at most so many nodes. All blocks but one hold at least 511 nodes, so n
// nodes have at most n / 511 + 1 blocks, and one more is spare at each split.
pub(crate) fn most_blocks(room: usize) -> usize
    ensures { room + 511 ≤ 511 * result }
{
    room / LEAST_HALF + 2
}

// The blocks of these nodes, each but the last half full, in a list with memory for so many. The only error is want of
// memory.
pub(crate) fn blocks_of(
    alloc: Global,
    nodes: &[GrowingNode],
    most: usize,
) -> Result<Vec<Block>, Memory>
    ensures nodes { IfOk result (λ blocks. joined blocks.items ≡ nodes.now) }
    ensures filled { IfOk result (λ blocks. lacking blocks.items ≤ 511) }
    ensures capacity { IfOk result (λ blocks. most ≤ vec_capacity blocks) }
{
    let mut blocks = Vec::with_capacity(alloc, most)?;
    let mut rest = nodes;
    while rest.len() > 0 {
        let (first, behind) = rest.split_at(rest.len().min(HALF));
        let mut block = Block::new(alloc)?;
        block.refill(first, 0);
        blocks.push(block)?;
        rest = behind;
    }
    Ok(blocks)
}

// So many blocks of no nodes. The only error is want of memory.
pub(crate) fn spare_blocks(alloc: Global, number: usize) -> Result<Vec<Block>, Memory>
    ensures { IfOk result (λ spare. length spare.items ≡ number) }
{
    let mut spare = Vec::with_capacity(alloc, number)?;
    for _ in 0..number {
        spare.push(Block::new(alloc)?)?;
    }
    Ok(spare)
}

// Where the node at a place stands.
pub(crate) fn find(blocks: &[Block], place: usize) -> Spot
    requires { place < length (joined blocks.now) }
    ensures { IsSpot blocks.now place result }
{
    let mut inner = place;
    for block in 0..blocks.len() {
        let len = blocks[block].len();
        if inner < len {
            return Spot { block, inner };
        }
        inner -= len;
    }
    unreachable!()
}

// The node at a place.
pub(crate) fn node_in(blocks: &[Block], place: usize) -> GrowingNode
    requires { place < length (joined blocks.now) }
    ensures { result ≡ slice_index_or (joined blocks.now) place result }
{
    let spot = find(blocks, place);
    blocks[spot.block].nodes()[spot.inner]
}

// Puts another node in the place of a node.
pub(crate) fn replace_in(blocks: &mut Vec<Block>, place: usize, leaf: GrowingNode)
    requires { place < length (joined blocks.old.items) }
    ensures nodes { joined blocks.new.items ≡ take place (joined blocks.old.items) ++ ((leaf ∷ []) ++ drop (place + 1) (joined blocks.old.items)) }
    ensures filled { lacking blocks.new.items ≤ lacking blocks.old.items }
    ensures number { length blocks.new.items ≡ length blocks.old.items }
    ensures capacity { vec_capacity blocks.new ≡ vec_capacity blocks.old }
{
    let spot = find(blocks, place);
    blocks[spot.block].replace(spot.inner, leaf);
}

// Puts a node with two behind it in the place of a node. A block may be taken from the spare ones.
pub(crate) fn split_in(
    blocks: &mut Vec<Block>,
    spare: &mut Vec<Block>,
    place: usize,
    inner: GrowingNode,
    first: GrowingNode,
    second: GrowingNode,
)
    requires place { place < length (joined blocks.old.items) }
    requires spare { 0 < length spare.old.items }
    requires taken { length blocks.old.items < vec_capacity blocks.old }
    ensures nodes { joined blocks.new.items ≡ take place (joined blocks.old.items) ++ ((inner ∷ first ∷ second ∷ []) ++ drop (place + 1) (joined blocks.old.items)) }
    ensures filled { lacking blocks.new.items ≤ lacking blocks.old.items }
    ensures number { length blocks.new.items + length spare.new.items ≡ length blocks.old.items + length spare.old.items }
    ensures capacity { vec_capacity blocks.old ≤ vec_capacity blocks.new }
{
    let spot = roomy_spot(blocks, spare, place);
    blocks[spot.block].split(spot.inner, inner, first, second);
}

// Where the node at a place stands, in a block with room for two nodes more. A block without it is divided before.
fn roomy_spot(blocks: &mut Vec<Block>, spare: &mut Vec<Block>, place: usize) -> Spot
    requires place { place < length (joined blocks.old.items) }
    requires spare { 0 < length spare.old.items }
    requires taken { length blocks.old.items < vec_capacity blocks.old }
    ensures same { joined blocks.new.items ≡ joined blocks.old.items }
    ensures spot { IsRoomySpot blocks.new.items place result }
    ensures filled { lacking blocks.new.items ≤ lacking blocks.old.items }
    ensures number { length blocks.new.items + length spare.new.items ≡ length blocks.old.items + length spare.old.items }
    ensures capacity { vec_capacity blocks.old ≤ vec_capacity blocks.new }
{
    let spot = find(blocks, place);
    if blocks[spot.block].is_roomy() {
        return spot;
    }
    let upper = spare.pop().unwrap();
    divide(blocks, upper, spot.block);
    spot_in_halves(spot)
}

// Divides a block into two: its first 512 nodes, and the others, which are put into a block that was spare.
fn divide(blocks: &mut Vec<Block>, mut upper: Block, block: usize)
    requires block { block < length blocks.old.items }
    requires full { 512 ≤ length (slice_index_or blocks.old.items block []) }
    requires taken { length blocks.old.items < vec_capacity blocks.old }
    ensures divided { (before behind : List (List Entry)) (here : List Entry) → blocks.old.items ≡ before ++ (here ∷ behind) → block ≡ length before → blocks.new.items ≡ before ++ (take 512 here ∷ drop 512 here ∷ behind) }
    ensures capacity { vec_capacity blocks.old ≤ vec_capacity blocks.new }
{
    blocks[block].copy_upper_half(&mut upper);
    blocks.insert(block + 1, upper).unwrap();
    blocks[block].keep_lower_half();
}

// Where a node stands after its block was divided.
fn spot_in_halves(spot: Spot) -> Spot
    requires { spot.block + 1 < 2 ^ 64 }
    ensures first { spot.inner < 512 → result ≡ spot }
    ensures second { 512 ≤ spot.inner → result ≡ record { block = spot.block + 1; inner = spot.inner - 512 } }
{
    if spot.inner < HALF {
        return spot;
    }
    Spot {
        block: spot.block + 1,
        inner: spot.inner - HALF,
    }
}

// The number of nodes that show a cost by themselves.
pub(crate) fn turns_of(blocks: &mut Vec<Block>, cost: u64) -> usize
    requires { length (joined blocks.old.items) < 2 ^ 64 }
    ensures same { blocks.new.items ≡ blocks.old.items }
    ensures capacity { vec_capacity blocks.new ≡ vec_capacity blocks.old }
    ensures turns { result ≡ turns_in cost (joined blocks.old.items) }
{
    let mut turns = 0;
    for i in 0..blocks.len() {
        turns += blocks[i].turns(cost);
    }
    turns
}

// The least of a cost and the numbers of the nodes.
pub(crate) fn least_of(blocks: &[Block], cost: u64) -> u64
    ensures { IsLeast cost (joined blocks.now) result }
{
    let mut least = cost;
    for block in blocks {
        least = least.min(block.least());
    }
    least
}

// The first place of a node of this number.
pub(crate) fn first_that_shows(blocks: &[Block], shows: u64) -> Option<usize>
    requires { length (joined blocks.now) < 2 ^ 64 }
    ensures { result ≡ position (shows_just shows) (joined blocks.now) }
{
    let mut before = 0;
    for block in blocks {
        if let Some(place) = first_in(block, shows) {
            return Some(before + place);
        }
        before += block.len();
    }
    None
}

// The first place in a block of a node of this number. If the least number is greater, no node is looked at.
fn first_in(block: &Block, shows: u64) -> Option<usize>
    ensures { result ≡ position (shows_just shows) block.now }
{
    if shows < block.least() {
        return None;
    }
    first_node(block.nodes(), shows)
}

// The first place of a node of this number.
fn first_node(nodes: &[GrowingNode], shows: u64) -> Option<usize>
    ensures { result ≡ position (shows_just shows) nodes.now }
{
    nodes.iter().position(|entry| entry.shows == shows)
}

// The nodes as a tree.
pub(crate) fn tree_of(alloc: Global, blocks: &[Block], len: usize) -> Result<Tree, Memory>
    requires { len ≡ length (joined blocks.now) }
    ensures { IfOk result (λ tree. tree.nodes ≡ map (λ entry. entry.node) (joined blocks.now)) }
{
    let mut tree = Tree::new(alloc, len)?;
    for block in blocks {
        put_nodes(&mut tree, block.nodes());
    }
    Ok(tree)
}

// Puts nodes behind those of a tree.
fn put_nodes(tree: &mut Tree, nodes: &[GrowingNode])
    requires { length tree.old.nodes + length nodes.now ≤ tree.old.room }
    ensures { tree.new ≡ record { nodes = tree.old.nodes ++ map (λ entry. entry.node) nodes.now; room = tree.old.room } }
{
    for entry in nodes {
        tree.put_node(entry.node);
    }
}
