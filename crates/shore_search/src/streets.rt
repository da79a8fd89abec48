// The edges at each vertex, as a search over sets of vertices sees them.
ghost use Rattle.std.specs.Prelude.{◌≡◌, ◌+◌, ◌<◌, ◌≤◌, IfOk, OnOk, length};
ghost use Rattle.std.specs.List.{All};
ghost use Rattle.carp_base.specs.Problem.{IsVertex};
ghost use Rattle.road_network.specs.Incidence.{incident};
ghost use Rattle.edge_components.specs.Parts.{AreParts};
ghost use Rattle.shore_search.specs.Tables.{AreStreets};

use carp_base::{Instance, Memory};
use road_network::{Network, far_end};
use set_search::UNIT;
use std::alloc::Global;

// An edge as it is seen from one of its ends.
#[derive(Clone, Copy)]
pub(crate) struct Half {
    // The vertex at the other end.
    pub(crate) to: usize,
    // What it adds to the border that it crosses: its deadheads, and one unit more where it is required.
    pub(crate) room: i64,
    // Its demand, and 1; both are 0 where it is not required.
    pub(crate) demand: i64,
    pub(crate) required: i64,
}

// The edges at each vertex. Vertices are places from 1; place 0 is no vertex.
#[derive(Drop)]
pub(crate) struct Streets {
    // The number of places: one more than the vertices.
    pub(crate) width: usize,
    pub(crate) depot: usize,
    pub(crate) capacity: u64,
    // The demand of all edges.
    pub(crate) demand: i64,
    // Where the edges of each vertex begin, and the end.
    starts: Vec<usize>,
    pub(crate) halves: Vec<Half>,
}

// The edge at a place among the edges at a vertex.
fn half_at(inst: &Instance, net: &Network, x: &[u64], v: u32, i: u32) -> Half
    requires net { net.now ≡ inst.now }
    requires parts { AreParts inst.now x.now }
    requires vertex { IsVertex inst.now v }
    requires below { i < length (incident inst.now v) }
    ensures { result.to < inst.now.vertices + 1 }
{
    let e = net.edge_at(v, i);
    let edge = inst.edge(e);
    let required = i64::from(e <= inst.required());
    let parts = i64::try_from(x[e as usize - 1]).unwrap_or(i64::MAX);
    Half {
        to: far_end(&edge, v) as usize,
        room: parts.saturating_add(required.saturating_mul(UNIT)),
        demand: i64::try_from(edge.demand).unwrap_or(0),
        required,
    }
}

// Adds the edges at a vertex.
fn add_halves(
    inst: &Instance,
    net: &Network,
    x: &[u64],
    v: u32,
    halves: &mut Vec<Half>,
) -> Result<(), Memory>
    requires net { net.now ≡ inst.now }
    requires parts { AreParts inst.now x.now }
    requires vertex { IsVertex inst.now v }
    requires within { All (λ h. h.to < inst.now.vertices + 1) halves.old.items }
    ensures { OnOk result (All (λ h. h.to < inst.now.vertices + 1) halves.new.items) }
{
    for i in 0..net.degree(v) {
        halves.push(half_at(inst, net, x, v, i))?;
    }
    Ok(())
}

impl Streets {
    // The edges at each vertex of an instance, with these deadheads.
    pub(crate) fn new(
        alloc: Global,
        inst: &Instance,
        net: &Network,
        x: &[u64],
    ) -> Result<Streets, Memory>
        requires net { net.now ≡ inst.now }
        requires parts { AreParts inst.now x.now }
        ensures streets { IfOk result AreStreets }
        ensures width { IfOk result (λ streets. streets.width ≡ inst.now.vertices + 1) }
    {
        let width = inst.vertices() as usize + 1;
        let mut starts = Vec::with_capacity(alloc, width + 1)?;
        let mut halves = Vec::with_capacity(alloc, 2 * inst.edge_count() as usize)?;
        starts.push(0)?;
        for v in 1..inst.vertices() + 1 {
            starts.push(halves.len())?;
            add_halves(inst, net, x, v, &mut halves)?;
        }
        starts.push(halves.len())?;
        Ok(Streets {
            width,
            depot: inst.depot() as usize,
            capacity: inst.capacity(),
            demand: i64::try_from(inst.total_demand()).unwrap_or(i64::MAX),
            starts,
            halves,
        })
    }

    // The places of the edges at a vertex: the first one, and the end.
    pub(crate) fn at(&self, v: usize) -> (usize, usize)
        requires streets { AreStreets self.now }
        requires vertex { v < self.now.width }
        ensures { result.1 ≤ length self.now.halves.items }
    {
        (self.starts[v], self.starts[v + 1].min(self.halves.len()))
    }
}
