//! Few vehicles: packings of the required edges, and trees that prove how many groups every packing takes at least.
//!
//! In the field: bin packing: the least number of vehicles by load alone, by branch and bound.
//!
//! - `item`, `first_fit`, `filling`, `grouping`, `judging`: packings by first fit, better ones, and whether groups are
//!   a packing.
//! - `share`, `pairs`: the best share at a leaf, and the heaviest open pair.
//! - `search`, `ending`, `numbering`: the tree that grows, its last leaves and its bound, and the groups of a branch.
//! - `packing`: the call. `laws`: how many turns a tree can have.
#![tactic(auto)]

mod ending;
mod examples;
mod filling;
mod first_fit;
mod grouping;
mod item;
mod judging;
mod laws;
mod numbering;
mod packing;
mod pairs;
mod search;
mod share;

pub use laws::lean_trees_are_small;
pub use packing::pack;
