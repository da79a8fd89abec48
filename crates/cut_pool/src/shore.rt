// Sets of vertices.
ghost use Rattle.std.specs.Prelude.{◌≡◌, ◌<◌, ◌↔◌, All, IsTrue, IfOk, length, nat_eq, slice_index};
ghost use Rattle.std.specs.Cmp.Lexicographic.{pointwise};
ghost use Rattle.std.specs.Cmp.Rules.{comparing, hashing};
ghost use Rattle.std.specs.Hash as fed;
ghost use Rattle.std.proofs.Common.{rules};
ghost use Rattle.carp_base.specs.Problem.{IsVertex};
ghost use Rattle.plan_model.specs.Plans.{crosses};
ghost use Rattle.cut_pool.specs.Shores.{is_in, IsShore, Belongs};
ghost use Rattle.cut_pool.specs.Marks.{AreMarks};

use carp_base::{Edge, Instance, Memory};
use std::alloc::Global;
use std::hash::{Hash, Hasher};
use std::marker::Model;

/// A set of numbers that is not empty. [`Shore::belongs`] tells whether it is a set of vertices of an instance without
/// the depot. Contracts see its rising list.
///
/// It keeps a mark for each vertex up to its greatest, so that each look takes constant time.
#[derive(Drop)]
pub struct Shore {
    vertices: Vec<u32>,
    marks: Vec<bool>,
}

/// A shore with a weight. It stands here since those who give weights and those who place shores share no other crate.
#[derive(Drop)]
pub struct Weighted {
    /// The shore.
    pub shore: Shore,
    /// Its weight, in a unit that the giver of the weight names.
    pub weight: i64,
}

impl Model for Shore {
    ghost use Rattle.std.specs.Prelude.{List, ℕ};
    ghost use Rattle.cut_pool.specs.Marks.{KeepsShore};

    ghost Value = { List ℕ };

    ghost view = { λ s. s.vertices.items };

    ghost invariant = { λ s. KeepsShore s.vertices.items s.marks.items };
}

impl PartialEq for Shore {
    ghost eq = { pointwise nat_eq };

    ghost laws = { Prim.search (comparing, rules) };

    fn eq(&self, other: &Shore) -> bool {
        self.vertices == other.vertices
    }
}

impl Eq for Shore {
    ghost laws = { Prim.search (comparing, rules) };
}

impl Hash for Shore {
    ghost hash_input = { fed.slice fed.u32 };

    ghost respects_eq = { Prim.search (hashing, rules) };

    fn hash<H: Hasher>(&self, state: &mut H) {
        self.vertices.hash(state);
    }
}

impl Shore {
    /// The set of the vertices of a list that is not empty and rises strictly.
    ///
    /// It takes memory and time in proportion to the greatest vertex, which is at most 2^32 - 1: a byte for each number
    /// up to it, besides the list. `Memory` says only that there was not enough memory.
    pub fn from_list(alloc: Global, list: &[u32]) -> Result<Shore, Memory>
        requires { IsShore list.now }
        ensures { IfOk result (λ shore. shore ≡ list.now) }
    {
        let vertices = Vec::from_slice(alloc, list)?;
        let marks = marks_of(alloc, list)?;
        Ok(Shore { vertices, marks })
    }

    /// The same set again. It takes memory and time as [`Shore::from_list`] does, and its only error is want of memory.
    pub fn copy(&self, alloc: Global) -> Result<Shore, Memory>
        ensures { IfOk result (λ copy. copy ≡ self.now) }
    {
        Shore::from_list(alloc, &self.vertices)
    }

    /// Whether each of its vertices is in the instance, and none is the depot. It takes constant time.
    pub fn belongs(&self, inst: &Instance) -> bool
        ensures { IsTrue result ↔ Belongs inst.now self.now }
    {
        self.is_within(inst) && !self.has(inst.depot())
    }

    /// Whether exactly one end of the edge is in the set. It takes constant time.
    pub fn crosses(&self, e: &Edge) -> bool
        ensures { result ≡ crosses (is_in self.now) e.now }
    {
        self.has(e.u) != self.has(e.v)
    }

    /// The number of vertices. It takes constant time.
    pub fn len(&self) -> usize
        ensures value { result ≡ length self.now }
        ensures shore { IsShore self.now }
    {
        self.vertices.len()
    }

    /// The vertex at a place from 0, in rising order. It takes constant time.
    pub fn vertex(&self, i: usize) -> u32
        requires { i < length self.now }
        ensures { result ≡ slice_index self.now i }
    {
        self.vertices[i]
    }

    // Whether each of its vertices is in the instance.
    fn is_within(&self, inst: &Instance) -> bool
        ensures { IsTrue result ↔ All (IsVertex inst.now) self.now }
    {
        let greatest = self.vertex(self.len() - 1);
        1 <= self.vertex(0) && greatest <= inst.vertices()
    }

    /// Whether the vertex is in the set.
    pub(crate) fn has(&self, vertex: u32) -> bool
        ensures { result ≡ is_in self.now vertex }
    {
        let vertex = vertex as usize;
        vertex < self.marks.len() && self.marks[vertex]
    }
}

// A mark for each vertex up to the greatest of the list, which says whether it is in the list.
fn marks_of(alloc: Global, list: &[u32]) -> Result<Vec<bool>, Memory>
    requires { IsShore list.now }
    ensures { IfOk result (λ marks. AreMarks list.now marks.items) }
{
    let greatest = list[list.len() - 1];
    let mut marks = vec![in alloc; false; greatest as usize + 1]?;
    for vertex in list {
        marks[*vertex as usize] = true;
    }
    Ok(marks)
}
