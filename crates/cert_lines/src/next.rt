// Which line stands next.

/// The kind of line that stands next in the text of a certificate.
#[derive(Clone, Copy, Debug, PartialEq, Eq)]
pub enum Next {
    /// The version, which is the first line.
    Version,
    /// The numbers of the instance, which versions 2 and 4 have.
    Counts,
    /// The cost of the plan.
    Cost,
    /// The lower bound.
    Bound,
    /// How many tours follow.
    Tours,
    /// A tour. `left` is how many are still to come, this one included.
    Tour { left: u64 },
    /// How many shores follow.
    Shores,
    /// A shore. `left` is how many are still to come, this one included.
    Shore { left: u64 },
    /// How many price sets follow.
    Sets,
    /// The prices of a set. `left` is how many sets are still to come, this one included.
    Prices { left: u64 },
    /// The weights of the set whose prices stand on the line before. `left` is how many sets are still to come, this
    /// one included.
    Weights { left: u64 },
    /// The groups of the set whose weights stand on the line before. Only version 4 has this line. `left` is how many
    /// sets are still to come, this one included.
    Bonds { left: u64 },
    /// How many nodes follow.
    Nodes,
    /// A node. `left` is how many nodes are still to come, and `open` how many whole subtrees, this one included.
    Node { left: u64, open: u64 },
    /// The line `end`.
    End,
    /// No line may follow.
    Nothing,
}
