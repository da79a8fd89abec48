//! Greatest flows and least cuts in a network of arcs with rooms (Ford and Fulkerson 1956).
//!
//! [`max_flow`] gives a flow from one node to another that no flow exceeds, and a side of the nodes that shows it: the
//! rooms of the arcs that leave the side add up to the flow. It layers the residual network by breadth-first search,
//! sends over all shortest ways, and goes on until the target is not reached (Dinic 1970). [`cut_bounds_flow`] and
//! [`equal_is_best`] say why such a flow is greatest and such a cut least.
//!
//! - `network`: arcs, and a flow with a cut.
//! - `residual`, `adjacency`: the two ways across an arc, and lists of them for each node.
//! - `layers`, `paths`, `blocking`: nodes by their distance from the source, ways through them, and what is sent over
//!   these.
//! - `dinic`: the call. `laws`: what is proved of all flows and cuts.
#![tactic(auto)]

mod adjacency;
mod blocking;
mod dinic;
mod examples;
mod laws;
mod layers;
mod network;
mod paths;
mod residual;

pub use dinic::max_flow;
pub use laws::{cut_bounds_flow, equal_is_best};
pub use network::{Arc, Flow};
