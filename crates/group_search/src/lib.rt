//! Groups of required edges that a fractional flow between services violates.
//!
//! In the field: heuristic separation of rounded capacity cuts on the graph of services.
//!
//! A [`Flow`] says how much of one service directly follows another. A group is violated if the flow out of it is less
//! than two units for each vehicle that its demand takes ([`violation`]). A [`GroupSearch`] grows groups from single
//! edges, and moves edges in and out of the best of them, by `set_search`. It computes its answers anew from each group,
//! so that nothing rests on the tables of the search.
//!
//! - `flow`, `group`: the flow between services, and a group that was found.
//! - `services`: the required edges, as the search sees them.
//! - `judging`: the sets that are violated, as groups. `search`: the public call.
#![tactic(auto)]

mod effort;
mod examples;
mod flow;
mod group;
mod judging;
mod search;
mod services;

pub use effort::Effort;
pub use flow::Flow;
pub use group::Group;
pub use judging::violation;
pub use search::GroupSearch;
