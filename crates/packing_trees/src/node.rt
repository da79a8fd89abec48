// Nodes of packing trees, and choices on the way to them.

/// A choice on the way to a node of a packing tree: the two required edges lie in one group, or in two. The lesser edge
/// stands first.
#[derive(Clone, Copy, Debug, PartialEq, Eq)]
pub enum PackChoice {
    Together { a: u32, b: u32 },
    Apart { a: u32, b: u32 },
}

/// A node of a packing tree.
#[derive(Clone, Copy, Debug, PartialEq, Eq)]
pub enum PackNode {
    /// An inner node: in its first child the two required edges lie in one group, in its second child they do not.
    Pair { a: u32, b: u32 },
    /// A leaf whose bundles are counted by their weights. `s`, at most half the capacity, is the least weight that
    /// counts.
    Share { s: u64 },
    /// A leaf in which no two bundles can lie in one group.
    Apart,
}
