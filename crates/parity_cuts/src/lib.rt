//! Odd components: sets of vertices that each lawful plan crosses without service at least once (Belenguer and Benavent
//! 1998), found as components of the edges that have deadheads.
//!
//! In the field: separation of odd edge cutset constraints by connected components.
//!
//! [`find`] gives each component, without the depot, that an odd number of required edges cross. No edge with deadheads
//! crosses it, and yet each lawful plan has an odd number of deadheads over it, by the law [`cut_pool::need_is_met`].
#![tactic(auto)]

mod examples;
mod finding;

pub use finding::find;
