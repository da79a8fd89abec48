// What stands between two steps: sets with weights, a matching of the outermost ones, and a tree of them.

/// Two members of different outermost sets, seen from the set of the first.
#[derive(Clone, Copy)]
pub(crate) struct Pair {
    pub inside: usize,
    pub outside: usize,
}

/// Where a node stands in the tree: not in it, at an even number of pairs from the root, or at an odd one.
#[derive(Clone, Copy, PartialEq, Eq)]
pub(crate) enum Label {
    Free,
    Outer,
    Inner,
}

/// Nodes below `size` are the single members. The others are slots for larger sets.
#[derive(Drop)]
pub(crate) struct State {
    pub size: usize,
    /// Whether a node holds a member, row after row.
    pub held: Vec<bool>,
    /// The weight of each node.
    pub halves: Vec<u64>,
    /// The outermost node of each member.
    pub top: Vec<usize>,
    /// The weights of the nodes that hold a member, summed.
    pub sums: Vec<u64>,
    /// A child of each node of three or more.
    pub child: Vec<Option<usize>>,
    /// The child after this one, in the cycle of its siblings.
    pub next: Vec<usize>,
    /// The tight pair that joins this child to the one after it.
    pub link: Vec<Pair>,
    /// The pair by which an outermost node is matched.
    pub mate: Vec<Option<Pair>>,
    pub label: Vec<Label>,
    /// The tight pair by which an inner node was reached.
    pub entry: Vec<Pair>,
    /// How many steps up from the one end of a pair a node stands, while a set is made.
    pub one_way: Vec<Option<usize>>,
    /// The same from the other end.
    pub other_way: Vec<Option<usize>>,
    /// A member of each node: the base of its first child, if it is a larger set.
    pub base: Vec<usize>,
    /// The member from which a search goes on.
    pub root: usize,
}
