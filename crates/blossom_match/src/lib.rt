//! Least perfect matchings of an even number of members, with weights on odd sets that show that no perfect matching
//! costs less (Edmonds 1965).
//!
//! [`match_least`] takes a table of [`Costs`] and gives a [`Matching`]: a mate for each member, and sets of an odd number
//! of members, nested or disjoint, each with a weight in halves. The weights of the sets that separate a pair sum to at
//! most twice its cost, and all weights sum to twice the matching's cost. [`packing_bounds_matching`] and
//! [`proved_is_least`] say why no perfect matching costs less.
//!
//! - `costs`, `least`: the table, the call and its answer.
//! - `state`: the sets, their weights, the matched pairs and the tree of a search, between two steps.
//! - `search`: one tree, grown from one unmatched member. A turn finds how far its weights can be raised (`room`), raises
//!   them (`raise`), and answers what stops them: `grow`, `augment`, `shrink` or `expand`.
//! - `cycle`: the children of a set, made outermost nodes and matched, for `expand` and `unfold`.
//! - `unfold`: the pairs inside the sets, once all outermost sets are matched.
//! - `laws`: what is proved of all packings and matchings.
#![tactic(auto)]

mod augment;
mod beginning;
mod costs;
mod cycle;
mod examples;
mod expand;
mod gather;
mod grow;
mod laws;
mod least;
mod picking;
mod raise;
mod room;
mod rooms;
mod search;
mod shrink;
mod state;
mod unfold;
mod ways;

pub use costs::{Costs, MAX_COST, MAX_MEMBERS};
pub use laws::{packing_bounds_matching, proved_is_least};
pub use least::{Matching, match_least};
