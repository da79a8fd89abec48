// A valid instance.
ghost use Rattle.std.specs.Prelude.{◌≡◌, ◌^◌, ◌<◌, ◌≤◌, IfErr, IfOk, OnOk, length};
ghost use Rattle.carp_base.specs.Problem.{total_demand, required_cost, IsValid, described, edge_at};
ghost use Rattle.carp_base.specs.Refusals.{RefusesFirstFault};

use crate::description::Description;
use crate::draft::Draft;
use crate::{Edge, Fail, InstanceFault, Memory, RawEdge};
use std::alloc::Global;
use std::marker::Model;

/// A valid instance of the capacitated arc routing problem (Golden and Wong 1981). Contracts see it as its numbers and
/// the plain list of its edges, the required ones first. Each look takes constant time, except for
/// [`Instance::total_demand`] and [`Instance::required_cost`].
#[derive(Drop)]
pub struct Instance {
    vertices: u32,
    depot: u32,
    capacity: u64,
    required: u32,
    edges: Vec<Edge>,
}

impl Model for Instance {
    ghost use Rattle.carp_base.specs.Problem.{Problem, IsValid};

    ghost Value = { Problem };

    ghost view = { λ i. record { vertices = i.vertices; depot = i.depot; capacity = i.capacity; required = i.required; edges = i.edges.items } };

    ghost invariant = { λ i. IsValid (record { vertices = i.vertices; depot = i.depot; capacity = i.capacity; required = i.required; edges = i.edges.items }) };
}

impl Instance {
    ghost use Rattle.carp_base.specs.Drafts.{drafted};

    /// The instance with just these numbers and edges, the required edges first. Of an edge of `others`, `build` reads
    /// neither the demand nor the service cost: both are 0.
    ///
    /// If faults apply, `build` refuses with the first of them, in the order of [`InstanceFault`] and then by the edge
    /// number. `Fail::Memory` says only that there was not enough memory. It takes time and memory at most in
    /// proportion to the vertices and edges.
    ///
    /// ```
    /// // One street of cost 5 from the depot, whose demand fills a vehicle.
    /// let street = RawEdge { u: 1, v: 2, cost: 5, demand: 1, service: 5 };
    /// let inst = Instance::build(alloc, 2, 1, 1, &[street], &[])?;
    /// assert_eq!(rt; (inst.required(), inst.required_cost()), (1, 5));
    /// ```
    pub fn build(
        alloc: Global,
        vertices: u64,
        depot: u64,
        capacity: u64,
        required: &[RawEdge],
        others: &[RawEdge],
    ) -> Result<Instance, Fail<InstanceFault>>
        requires few_required { length required.now < 2 ^ 32 }
        requires few_others { length others.now < 2 ^ 32 }
        ensures built { IfOk result (λ inst. inst ≡ described vertices depot capacity required.now others.now) }
        ensures accepted { OnOk result (IsValid (described vertices depot capacity required.now others.now)) }
        ensures refused { IfErr result (RefusesFirstFault (described vertices depot capacity required.now others.now)) }
    {
        let description = Description {
            vertices,
            depot,
            capacity,
            required,
            others,
        };
        description.check_counts().map_err(Fail::Refused)?;
        description.check_ends().map_err(Fail::Refused)?;
        let draft = description.draft(alloc)?;
        draft.check_numbers().map_err(Fail::Refused)?;
        draft.check_reach(alloc)?;
        draft.check_services().map_err(Fail::Refused)?;
        Ok(Instance::from_draft(draft))
    }

    /// The instance of a draft without a fault.
    fn from_draft(draft: Draft) -> Instance
        requires { IsValid (drafted draft) }
        ensures { result ≡ drafted draft }
    {
        Instance {
            vertices: draft.vertices as u32,
            depot: draft.depot as u32,
            capacity: draft.capacity,
            required: draft.required as u32,
            edges: draft.edges,
        }
    }

    /// A copy of the instance, in time and memory in proportion to the edges. The only error is want of memory.
    pub fn copy(&self, alloc: Global) -> Result<Instance, Memory>
        ensures { IfOk result (λ inst. inst ≡ self.now) }
    {
        Ok(Instance {
            vertices: self.vertices,
            depot: self.depot,
            capacity: self.capacity,
            required: self.required,
            edges: Vec::from_slice(alloc, &self.edges)?,
        })
    }

    /// Says that the instance is valid, as each instance is. It does nothing: proofs need what it says.
    pub fn validity(&self)
        ensures { IsValid self.now }
    {
        let _vertices = self.vertices;
    }

    /// The number of vertices, 1 to 1,000. Vertices are numbered from 1.
    pub fn vertices(&self) -> u32
        ensures value { result ≡ self.now.vertices }
        ensures valid { IsValid self.now }
    {
        self.vertices
    }

    /// The vertex where every tour starts and ends.
    pub fn depot(&self) -> u32
        ensures value { result ≡ self.now.depot }
        ensures valid { IsValid self.now }
    {
        self.depot
    }

    /// The capacity of a vehicle, 1 to 30,000.
    pub fn capacity(&self) -> u64
        ensures value { result ≡ self.now.capacity }
        ensures valid { IsValid self.now }
    {
        self.capacity
    }

    /// The number of required edges, 0 to 600. They are the edges from 1 to this number.
    pub fn required(&self) -> u32
        ensures value { result ≡ self.now.required }
        ensures valid { IsValid self.now }
    {
        self.required
    }

    /// The number of edges, 0 to 4,000. Edges are numbered from 1.
    pub fn edge_count(&self) -> u32
        ensures value { result ≡ length self.now.edges }
        ensures valid { IsValid self.now }
    {
        self.edges.len() as u32
    }

    /// The total demand, in the unit of the capacity: the sum of the demands of the required edges. It is at most
    /// 12,000,000 (by the limit on states). It takes time in proportion to the required edges.
    pub fn total_demand(&self) -> u64
        ensures { result ≡ total_demand self.now }
    {
        let mut sum = 0;
        for e in 1..self.required() + 1 {
            sum += self.edge(e).demand;
        }
        sum
    }

    /// What it costs to serve each required edge once, in the instance's unit of cost: the sum of the service costs of
    /// the required edges. It is at most 600,000,000. It takes time in proportion to the required edges.
    pub fn required_cost(&self) -> u64
        ensures { result ≡ required_cost self.now }
    {
        let mut sum = 0;
        for e in 1..self.required() + 1 {
            sum += self.edge(e).service;
        }
        sum
    }

    /// The edges in the order of their numbers: first the required ones, and then the others.
    pub fn edges(&self) -> &[Edge]
        ensures value { result.now ≡ self.now.edges }
        ensures valid { IsValid self.now }
    {
        &self.edges
    }

    /// The edge of a number.
    pub fn edge(&self, e: u32) -> Edge
        requires from_one { 1 ≤ e }
        requires in_range { e ≤ length self.now.edges }
        ensures { result ≡ edge_at self.now e }
    {
        self.edges[e as usize - 1]
    }
}
