// The two ends of an edge.
ghost use Rattle.std.specs.Prelude.{◌≡◌};
ghost use Rattle.road_network.specs.Incidence.{far_end};

use carp_base::Edge;

/// The other end of an edge. For a vertex that is no end of the edge, it is the edge's first end.
pub fn far_end(edge: &Edge, v: u32) -> u32
    ensures { result ≡ far_end v edge.now }
{
    if edge.u == v { edge.v } else { edge.u }
}
