// A packing with a tree that is to prove a bound.

use crate::PackNode;

/// Groups of the required edges, and a tree that is to prove how many groups every packing takes at least. What a
/// packing says may be false. [`check_pack`](crate::check_pack) says whether it is true, except for its turns.
/// `fleet_pack::pack` gives true ones.
#[derive(Drop)]
pub struct Packing {
    /// The group of each required edge, from 1 to the count, in the order of the edges.
    pub groups: Vec<u32>,
    /// The number of groups.
    pub count: u32,
    /// So many groups every packing takes at least, if the tree shows it.
    pub bound: u32,
    /// The nodes of the tree in preorder.
    pub tree: Vec<PackNode>,
    /// The turns of the tree for the count: its inner nodes, and its leaves whose value is at least the count.
    /// `check_pack` does not read them.
    pub turns: u64,
}
