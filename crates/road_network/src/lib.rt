//! The edges at each vertex of an instance, and which vertices the depot reaches.
//!
//! In the field: the graph of an instance as adjacency lists.
//!
//! A [`Network`] is made once for an instance, in time and space in proportion to its vertices and edges. Its answers
//! then take constant time and no memory.
//!
//! - `network`: what is told of a vertex, over `counting` (the edges at each vertex, sorted into one list) and `reach`
//!   (a search from the depot).
//! - `ends`: the other end of an edge.
#![tactic(auto)]

mod counting;
mod ends;
mod network;
mod reach;

pub use ends::far_end;
pub use network::Network;
