// The vertices that a path leads to from the depot.
ghost use Rattle.std.specs.Prelude.{◌≡◌, ◌*◌, ◌^◌, ◌<◌, ◌≤◌, length, IfOk, vec_len};
ghost use Rattle.carp_base.specs.Problem.{IsReached};
ghost use Rattle.carp_base.specs.Search.{arc_tail, arc_head, EndsWithin, AreChains, IsMarked, IsSearch, Extends, LeadsToMarks, MarksReached};
ghost use Rattle.carp_base.specs.Drafts.{drafted};

use crate::draft::Draft;
use crate::{Edge, Memory};
use std::alloc::Global;

/// The arcs out of each vertex, chained: a link is one more than an arc, or 0 at the end of a chain.
#[derive(Drop)]
struct Arcs {
    first: Vec<usize>,
    next: Vec<usize>,
}

/// The vertices found so far, as marks by vertex and in the order in which they were found.
#[derive(Drop)]
struct Finds {
    marks: Vec<bool>,
    order: Vec<u32>,
}

fn arc_tail(edges: &[Edge], arc: usize) -> u32
    requires { arc < 2 * length edges.now }
    ensures { result ≡ arc_tail edges.now arc }
{
    let edge = edges[arc / 2];
    if arc % 2 == 0 { edge.u } else { edge.v }
}

fn arc_head(edges: &[Edge], arc: usize) -> u32
    requires { arc < 2 * length edges.now }
    ensures { result ≡ arc_head edges.now arc }
{
    let edge = edges[arc / 2];
    if arc % 2 == 0 { edge.v } else { edge.u }
}

impl Arcs {
    /// The chains of the arcs of these edges, whose ends are at most `vertices`.
    fn of(alloc: Global, vertices: usize, edges: &[Edge]) -> Result<Arcs, Memory>
        requires few { vertices < 2 ^ 32 }
        requires few_edges { length edges.now < 2 ^ 32 }
        requires ends { EndsWithin edges.now vertices }
        ensures { IfOk result (λ arcs. AreChains edges.now vertices (2 * length edges.now) arcs.first.items arcs.next.items) }
    {
        let mut first = vec![in alloc; 0; vertices + 1]?;
        let mut next = Vec::with_capacity(alloc, 2 * edges.len())?;
        for arc in 0..2 * edges.len() {
            let tail = arc_tail(edges, arc) as usize;
            next.push(first[tail])?;
            first[tail] = arc + 1;
        }
        Ok(Arcs { first, next })
    }
}

impl Finds {
    /// Marks a vertex that is reached.
    fn mark(&mut self, draft: &Draft, v: u32) -> Result<(), Memory>
        requires search { IsSearch (drafted draft.now) self.old.marks.items self.old.order.items }
        requires in_range { v ≤ draft.now.vertices }
        requires reached { IsReached (drafted draft.now) v }
        ensures search { IfOk result (λ _. IsSearch (drafted draft.now) self.new.marks.items self.new.order.items) }
        ensures extends { IfOk result (λ _. Extends self.old.marks.items self.old.order.items self.new.marks.items self.new.order.items) }
        ensures marked { IfOk result (λ _. IsMarked self.new.marks.items v) }
    {
        if !self.marks[v as usize] {
            self.order.push(v)?;
            self.marks[v as usize] = true;
        }
        Ok(())
    }

    /// Marks the far ends of all arcs out of a vertex that is reached.
    fn visit(&mut self, draft: &Draft, arcs: &Arcs, v: u32) -> Result<(), Memory>
        requires chains { AreChains draft.now.edges.items draft.now.vertices (2 * length draft.now.edges.items) arcs.now.first.items arcs.now.next.items }
        requires ends { EndsWithin draft.now.edges.items draft.now.vertices }
        requires search { IsSearch (drafted draft.now) self.old.marks.items self.old.order.items }
        requires in_range { v ≤ draft.now.vertices }
        requires reached { IsReached (drafted draft.now) v }
        ensures search { IfOk result (λ _. IsSearch (drafted draft.now) self.new.marks.items self.new.order.items) }
        ensures extends { IfOk result (λ _. Extends self.old.marks.items self.old.order.items self.new.marks.items self.new.order.items) }
        ensures around { IfOk result (λ _. LeadsToMarks draft.now.edges.items v self.new.marks.items) }
    {
        let mut link = arcs.first[v as usize];
        while link > 0 {
            let arc = link - 1;
            self.mark(draft, arc_head(&draft.edges, arc))?;
            link = arcs.next[arc];
        }
        Ok(())
    }

    /// Only the depot is marked.
    fn start(alloc: Global, draft: &Draft) -> Result<Finds, Memory>
        requires few { draft.now.vertices < 2 ^ 32 }
        requires depot { draft.now.depot ≤ draft.now.vertices }
        ensures search { IfOk result (λ finds. IsSearch (drafted draft.now) finds.marks.items finds.order.items) }
        ensures depot { IfOk result (λ finds. IsMarked finds.marks.items draft.now.depot) }
    {
        let vertices = draft.vertices as usize;
        let mut finds = Finds {
            marks: vec![in alloc; false; vertices + 1]?,
            order: Vec::with_capacity(alloc, vertices)?,
        };
        finds.mark(draft, draft.depot as u32)?;
        Ok(finds)
    }
}

/// Marks the vertices that a path leads to from the depot, by one look at each arc.
pub(crate) fn marks_reached(alloc: Global, draft: &Draft) -> Result<Vec<bool>, Memory>
    requires few { draft.now.vertices < 2 ^ 32 }
    requires few_edges { vec_len draft.now.edges < 2 ^ 32 }
    requires ends { EndsWithin draft.now.edges.items draft.now.vertices }
    requires depot { draft.now.depot ≤ draft.now.vertices }
    ensures { IfOk result (λ marks. MarksReached (drafted draft.now) marks.items) }
{
    let arcs = Arcs::of(alloc, draft.vertices as usize, &draft.edges)?;
    let mut finds = Finds::start(alloc, draft)?;
    let mut done = 0;
    while done < finds.order.len() {
        let v = finds.order[done];
        finds.visit(draft, &arcs, v)?;
        done += 1;
    }
    Ok(finds.marks)
}
