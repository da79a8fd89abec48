// What a check of a packing answers.

/// The first reason why a packing and its tree are not what they claim to be. Nodes are counted from 1.
#[derive(Clone, Copy, Debug, PartialEq, Eq)]
pub enum PackReason {
    /// There are `stated` groups of edges, and `found` required edges.
    GroupsDiffer { stated: u64, found: u64 },
    /// The required edge lies in no group from 1 to the count.
    GroupWrong { edge: u32 },
    /// No edge lies in the group.
    GroupEmpty { group: u32 },
    /// The group's demand is above the capacity.
    Overload { group: u32, load: u128 },
    /// The nodes are not one whole tree: it is whole at this node and others follow, or the nodes end here. If there
    /// are no nodes, the number is 0.
    NotWhole { node: u64 },
    /// The node is a pair that is not of two required edges, the lesser one first.
    Misfit { node: u64 },
    /// The node is a pair that is closed already.
    NotLean { node: u64 },
    /// The node is a share of more than half the capacity.
    ShareWrong { node: u64 },
    /// The node is a leaf `Apart`, and two of its bundles could lie in one group.
    NotApart { node: u64 },
    /// The node is a leaf whose value is below the bound.
    LeafLow { node: u64, value: u64 },
}

/// What a check of a packing answers.
#[derive(Clone, Copy, Debug, PartialEq, Eq)]
pub enum PackAnswer {
    /// The groups are a packing with the stated count, and the tree proves the bound.
    Accepted,
    /// The first reason why they are not.
    Rejected(PackReason),
}
