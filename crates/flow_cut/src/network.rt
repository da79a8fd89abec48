// The arcs of a network, and a flow with a cut.

/// An arc from one node to another, and how much may flow on it. Nodes are numbered from 1.
#[derive(Clone, Copy, Debug, PartialEq, Eq)]
pub struct Arc {
    /// The node where the arc begins.
    pub from: u32,
    /// The node where the arc ends.
    pub to: u32,
    /// The most that may flow on the arc: at most 10^18.
    pub room: u64,
}

/// A flow from one node to another, and a side of the nodes that shows that no flow brings more.
#[derive(Debug, Drop)]
pub struct Flow {
    /// What flows out of the source, less what flows into it.
    pub value: u128,
    /// The flow on each arc, in the order of the arcs.
    pub flows: Vec<u64>,
    /// Whether each node is on the side of the source: node 1 first, and then the others in their order.
    pub side: Vec<bool>,
}
