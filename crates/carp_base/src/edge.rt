// Edges, and the tasks on them.
ghost use Rattle.std.specs.Prelude.{◌≡◌};
ghost use Rattle.carp_base.specs.Problem.{head_of, tail_of};

/// An edge as it is described, before it is known to be valid.
#[derive(Clone, Copy, Debug, PartialEq, Eq)]
pub struct RawEdge {
    /// The first end, a vertex number from 1.
    pub u: u64,
    /// The second end, a vertex number from 1.
    pub v: u64,
    /// What one crossing without service costs, in the instance's unit of cost.
    pub cost: u64,
    /// How much of a vehicle's capacity a service takes.
    pub demand: u64,
    /// What one crossing with service costs, in the instance's unit of cost.
    pub service: u64,
}

/// An edge of a valid instance.
#[derive(Clone, Copy, Debug, PartialEq, Eq)]
pub struct Edge {
    /// The first end, from 1 to the number of vertices.
    pub u: u32,
    /// The second end, another vertex.
    pub v: u32,
    /// What one crossing without service costs, 0 to 1,000,000.
    pub cost: u64,
    /// How much of the capacity a service takes: 1 to the capacity, or 0 if the edge is not required.
    pub demand: u64,
    /// What one crossing with service costs: 0 to 1,000,000. It is 0 if the edge is not required.
    pub service: u64,
}

impl Edge {
    /// The end at which a crossing starts. A crossing is forward if it goes from the first end to the second.
    pub fn tail(&self, forward: bool) -> u32
        ensures { result ≡ tail_of self.now forward }
    {
        if forward { self.u } else { self.v }
    }

    /// The end that a crossing reaches. A crossing is forward if it goes from the first end to the second.
    pub fn head(&self, forward: bool) -> u32
        ensures { result ≡ head_of self.now forward }
    {
        if forward { self.v } else { self.u }
    }
}

/// An edge with the direction in which it is crossed.
#[derive(Clone, Copy, Debug, PartialEq, Eq)]
pub struct Task {
    /// The edge's number, from 1.
    pub edge: u32,
    /// Whether it is crossed from its first end to its second.
    pub forward: bool,
}
