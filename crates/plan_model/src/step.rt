// A step of a walk.

/// One crossing of an edge.
#[derive(Clone, Copy, Debug, PartialEq, Eq)]
pub struct Step {
    /// The edge's number, from 1.
    pub edge: u32,
    /// Whether the edge is crossed from its first end to its second.
    pub forward: bool,
    /// Whether the edge is served. A step that does not serve is a deadhead.
    pub served: bool,
}
