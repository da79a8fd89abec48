//! Sets of vertices that fractional deadheads leave short of what every lawful plan has over them, many at once.
//!
//! In the field: heuristic separation of capacity and odd edge cutset constraints.
//!
//! A [`ShoreSearch`] judges the components that `parity_cuts` and `capacity_cuts` find, and those of edges with a part of
//! a deadhead. It judges least cuts, and lets sets grow and change by `set_search`. It computes its answers anew from each
//! set, so that nothing rests on the tables of the search.
//!
//! - `streets`: the edges at each vertex, with what they add to a border.
//! - `cuts`: least cuts in networks in which demand counts for more and more.
//! - `separating`: the ways in which sets are looked for.
//! - `judging`: the sets that fall short, as shores. `search`: the public call.
#![tactic(auto)]

mod cuts;
mod examples;
mod judging;
mod search;
mod separating;
mod streets;

pub use judging::shortfall;
pub use search::{Effort, ShoreSearch};
