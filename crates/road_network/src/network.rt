// What an instance's network tells of a vertex.
ghost use Rattle.std.specs.Prelude.{◌≡◌, ℕ, ◌<◌, ◌↔◌, length, slice_index, IsTrue, IfOk, Contains};
ghost use Rattle.carp_base.specs.Problem.{IsVertex, IsReached, IsEdgeNumber, edge_at};
ghost use Rattle.road_network.specs.Incidence.{has_end, incident, required_degree_of};

use crate::counting::{count_ends, lay_out, starts_of};
use crate::reach::find_reached;
use carp_base::{Instance, Memory};
use std::alloc::Global;
use std::marker::Model;

/// The edges at each vertex of an instance, in rising number, and which vertices the depot reaches.
///
/// Contracts see the instance that it was made for, of which it keeps a copy.
#[derive(Drop)]
pub struct Network {
    inst: Instance,
    starts: Vec<u32>,
    incident: Vec<u32>,
    required_degrees: Vec<u32>,
    reached: Vec<bool>,
}

impl Model for Network {
    ghost use Rattle.carp_base.specs.Problem.{Problem};
    ghost use Rattle.road_network.specs.Lists.{IsLaidOut};

    ghost Value = { Problem };

    ghost view = { λ n. n.inst };

    ghost invariant = { λ n. IsLaidOut n.inst n.starts.items n.incident.items n.required_degrees.items n.reached.items };
}

impl Network {
    /// The network of an instance. It takes time and memory in proportion to the vertices and edges. The only error is
    /// want of memory.
    pub fn new(alloc: Global, inst: &Instance) -> Result<Network, Memory>
        ensures { IfOk result (λ net. net ≡ inst.now) }
    {
        let vertices = inst.vertices();
        let edges = inst.edges();
        let starts = starts_of(alloc, vertices, edges)?;
        let incident = lay_out(alloc, vertices, edges, &starts)?;
        let required = &edges[..inst.required() as usize];
        let required_degrees = count_ends(alloc, vertices, required)?;
        let reached = find_reached(alloc, inst, &starts, &incident)?;
        Ok(Network {
            inst: inst.copy(alloc)?,
            starts,
            incident,
            required_degrees,
            reached,
        })
    }

    /// The number of edges with an end at the vertex.
    pub fn degree(&self, v: u32) -> u32
        requires { IsVertex self.now v }
        ensures value { result ≡ length (incident self.now v) }
        ensures complete { (e : ℕ) → IsEdgeNumber self.now e → IsTrue (has_end v (edge_at self.now e)) → Contains (incident self.now v) e }
    {
        self.starts[v as usize + 1] - self.starts[v as usize]
    }

    /// The number of required edges with an end at the vertex.
    pub fn required_degree(&self, v: u32) -> u32
        requires { IsVertex self.now v }
        ensures { result ≡ required_degree_of self.now v }
    {
        self.required_degrees[v as usize]
    }

    /// The edge at a place from 0, below the degree, among the edges at the vertex in rising number.
    pub fn edge_at(&self, v: u32, i: u32) -> u32
        requires vertex { IsVertex self.now v }
        requires below { i < length (incident self.now v) }
        ensures value { result ≡ slice_index (incident self.now v) i }
        ensures number { IsEdgeNumber self.now result }
        ensures there { IsTrue (has_end v (edge_at self.now result)) }
    {
        self.incident[self.starts[v as usize] as usize + i as usize]
    }

    /// Whether the depot reaches the vertex.
    pub fn reached(&self, v: u32) -> bool
        requires { IsVertex self.now v }
        ensures { IsTrue result ↔ IsReached self.now v }
    {
        self.reached[v as usize]
    }
}
