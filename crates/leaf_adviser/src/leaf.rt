// What is asked for.

use branch_rules::Branch;
use carp_base::Instance;
use road_network::Network;

/// A leaf of a tree for an instance.
#[derive(Clone, Copy)]
pub struct Leaf<'a> {
    /// The instance.
    pub inst: &'a Instance,
    /// Its network.
    pub net: &'a Network,
    /// The decisions on the way to the leaf.
    pub branch: &'a Branch,
}
