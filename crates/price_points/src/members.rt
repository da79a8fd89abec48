// Edges of a group.

use carp_base::Memory;
use std::alloc::Global;

/// The edges of a group, by their rising numbers.
#[derive(Drop)]
pub struct Members {
    /// The numbers of the edges, as they were given.
    pub edges: Vec<u32>,
    // Whether each number is one of them.
    marks: Vec<bool>,
}

impl Members {
    /// The group of these edges, which are numbers up to `required`. Others do not count. The only error is want of
    /// memory. It takes time in proportion to `required` and to the number of the edges.
    pub fn new(alloc: Global, required: u32, edges: &[u32]) -> Result<Members, Memory> {
        let mut marks = vec![in alloc; false; required as usize + 1]?;
        mark_all(&mut marks, edges);
        Ok(Members {
            edges: Vec::from_slice(alloc, edges)?,
            marks,
        })
    }

    /// Whether an edge is one of them. It takes constant time.
    pub fn has(&self, e: u32) -> bool {
        let place = e as usize;
        place < self.marks.len() && self.marks[place]
    }
}

// Marks these numbers.
fn mark_all(marks: &mut [bool], edges: &[u32]) {
    for e in edges {
        let place = *e as usize;
        if place < marks.len() {
            marks[place] = true;
        }
    }
}
