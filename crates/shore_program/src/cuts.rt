// The shores of a program.
ghost use Rattle.std.specs.Prelude.{◌↔◌, IsTrue};
ghost use Rattle.std.specs.List.{Contains};
ghost use Rattle.shore_program.specs.Tableaus.{shores_of};

use carp_base::{Edge, Memory};
use cut_pool::Shore;
use std::alloc::Global;

/// A shore over which deadheads are demanded (Belenguer and Benavent 1998).
#[derive(Drop)]
pub(crate) struct Cut {
    pub shore: Shore,
    /// How many deadheads are demanded over it.
    pub least: u64,
    /// How many edges cross it.
    pub crossings: u32,
}

/// Whether one of the cuts is of an equal shore.
pub(crate) fn is_held(cuts: &[Cut], shore: &Shore) -> bool
    ensures { IsTrue result ↔ Contains (shores_of cuts.now) shore.now }
{
    for place in 0..cuts.len() {
        if cuts[place].shore == *shore {
            return true;
        }
    }
    false
}

/// A mark for each edge, which says whether it crosses the shore.
pub(crate) fn marks_of(alloc: Global, edges: &[Edge], shore: &Shore) -> Result<Vec<bool>, Memory> {
    Ok(edges.iter().map(|edge| shore.crosses(edge)).collect(alloc)?)
}

/// How many marks are set.
pub(crate) fn count_marks(marks: &[bool]) -> u32 {
    let mut count: u32 = 0;
    for mark in marks {
        count = count.saturating_add(u32::from(*mark));
    }
    count
}
