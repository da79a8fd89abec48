//! Trees of decisions that are carried over to another instance, or taken up again by a search.
//!
//! In the field: reoptimization: a branch-and-bound tree with its dual solutions, reused for changed data.
//!
//! If costs, service costs and demands rise, and streets that need no service are closed, the proof of a bound need not
//! be found anew. [`carry_tree`] reads the tree of the older instance under the new one. A pair that is excluded there
//! gives way to its second child, and so does a cut below the lower number of its shore. All else stays. What is left
//! shows each bound that the older tree showed ([`carried_trees_show`]), if its fixed branches have values.
//!
//! [`greatest_bound`] says what such a tree shows with the price sets that it names, and [`note_nodes`] what each of
//! its nodes shows. [`keep_named_sets`] leaves the other sets out. Laws say which facts about the old instance are facts
//! about the new one.
//!
//! - `carrying`: a tree that is carried over, node by node.
//! - `bounding`, `noting`: the greatest bound that a tree shows, and that of each node.
//! - `naming`: the price sets that a tree names.
//! - `laws`, `carried_laws`: what is proved of raised instances, and of carried trees.
#![tactic(auto)]

mod bounding;
mod carried_examples;
mod carried_laws;
mod carrying;
mod examples;
mod laws;
mod naming;
mod noting;

pub use bounding::greatest_bound;
pub use carried_laws::carried_trees_show;
pub use carrying::carry_tree;
pub use laws::{
    edits_raise_instances, raised_fixed_values_are_no_less, raised_needs_are_no_less,
    raised_rooms_are_no_more, raised_sets_stay_fit,
};
pub use naming::{keep_named_sets, named_sets_suffice};
pub use noting::note_nodes;
