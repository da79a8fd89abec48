// A description of an instance, before it is known to be valid.
ghost use Rattle.std.specs.Prelude.{◌≡◌, ◌+◌, ◌^◌, ◌<◌, ◌++◌, All, length, map, position, IfSome, IfOk, MatchResult};
ghost use Rattle.carp_base.specs.Problem.{required_edge, other_edge};
ghost use Rattle.carp_base.specs.Faults.{IsFirstFault};
ghost use Rattle.carp_base.specs.Checks.{IsClear, is_outside, has_end_outside};

use crate::draft::Draft;
use crate::{Edge, InstanceFault, Memory, RawEdge};
use std::alloc::Global;

/// The numbers and lists of a description.
#[derive(Clone, Copy)]
pub(crate) struct Description<'a> {
    pub(crate) vertices: u64,
    pub(crate) depot: u64,
    pub(crate) capacity: u64,
    pub(crate) required: &'a [RawEdge],
    pub(crate) others: &'a [RawEdge],
    ghost few_required: { length required.now < 2 ^ 32 },
    ghost few_others: { length others.now < 2 ^ 32 },
}

fn is_outside(vertices: u64, v: u64) -> bool
    ensures { result ≡ is_outside vertices v }
{
    v == 0 || v > vertices
}

fn first_outside(vertices: u64, edges: &[RawEdge]) -> Option<usize>
    ensures value { result ≡ position (has_end_outside vertices) edges.now }
    ensures bound { IfSome result (λ i. i < length edges.now) }
{
    edges
        .iter()
        .position(|x| is_outside(vertices, x.u) || is_outside(vertices, x.v))
}

fn push_required(edges: &mut Vec<Edge>, required: &[RawEdge]) -> Result<(), Memory>
    requires { All (λ x. (x.u < 2 ^ 32) × (x.v < 2 ^ 32)) required.now }
    ensures { IfOk result (λ _. edges.new.items ≡ edges.old.items ++ map required_edge required.now) }
{
    for x in required {
        edges.push(Edge {
            u: x.u as u32,
            v: x.v as u32,
            cost: x.cost,
            demand: x.demand,
            service: x.service,
        })?;
    }
    Ok(())
}

fn push_others(edges: &mut Vec<Edge>, others: &[RawEdge]) -> Result<(), Memory>
    requires { All (λ x. (x.u < 2 ^ 32) × (x.v < 2 ^ 32)) others.now }
    ensures { IfOk result (λ _. edges.new.items ≡ edges.old.items ++ map other_edge others.now) }
{
    for x in others {
        edges.push(Edge {
            u: x.u as u32,
            v: x.v as u32,
            cost: x.cost,
            demand: 0,
            service: 0,
        })?;
    }
    Ok(())
}

impl Description<'_> {
    ghost use Rattle.carp_base.specs.Drafts.{drafted, stated};

    /// Looks for too many vertices or edges.
    pub(crate) fn check_counts(&self) -> Result<(), InstanceFault>
        ensures { MatchResult result (λ _. IsClear (stated self.now) 3) (λ fault. IsFirstFault (stated self.now) fault) }
    {
        let edges = self.required.len() as u64 + self.others.len() as u64;
        if self.vertices > 1000 {
            Err(InstanceFault::TooManyVertices(self.vertices))
        } else if edges > 4000 {
            Err(InstanceFault::TooManyEdges(edges))
        } else if self.required.len() > 600 {
            Err(InstanceFault::TooManyRequired(self.required.len() as u64))
        } else {
            Ok(())
        }
    }

    /// Looks for an edge with an end that is no vertex.
    pub(crate) fn check_ends(&self) -> Result<(), InstanceFault>
        requires { IsClear (stated self.now) 3 }
        ensures { MatchResult result (λ _. IsClear (stated self.now) 4) (λ fault. IsFirstFault (stated self.now) fault) }
    {
        if let Some(i) = first_outside(self.vertices, self.required) {
            return Err(InstanceFault::EndOutOfRange(i as u64 + 1));
        }
        match first_outside(self.vertices, self.others) {
            Some(i) => Err(InstanceFault::EndOutOfRange((self.required.len() + i) as u64 + 1)),
            None => Ok(()),
        }
    }

    /// The same with the edges in one list.
    pub(crate) fn draft(&self, alloc: Global) -> Result<Draft, Memory>
        requires { IsClear (stated self.now) 4 }
        ensures { IfOk result (λ draft. drafted draft ≡ stated self.now) }
    {
        let mut edges = Vec::with_capacity(alloc, self.required.len() + self.others.len())?;
        push_required(&mut edges, self.required)?;
        push_others(&mut edges, self.others)?;
        Ok(Draft {
            vertices: self.vertices,
            depot: self.depot,
            capacity: self.capacity,
            required: self.required.len(),
            edges,
        })
    }
}
