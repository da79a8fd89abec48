//! Trees of decisions that grow at their leaves.
//!
//! In the field: a branch-and-bound tree with its open nodes.
//!
//! A search holds the nodes of its tree in preorder, each with the greatest bound that it shows by itself
//! ([`GrowingTree`]). It takes the leaf that shows least, and puts an inner node with two leaves, or another leaf, in
//! its place.
//!
//! Its nodes stay sound if each new one is sound under the decisions on the way to it ([`grown_trees_stay_sound`]), and
//! if the support gains price sets or shores ([`more_support_keeps_trees_sound`]). A tree of sound nodes is lean, and
//! shows what each of its nodes shows ([`sound_trees_are_lean`]).
//!
//! A price set that fits under a branch fits under it with one more decision, on a shore or on a pair that is not
//! determined ([`decisions_keep_sets`]). So the two leaves of a split may name the set of the leaf that was split. Such
//! a decision leaves each excluded pair excluded, and each chain within the capacity ([`decisions_keep_exclusions`]).
//!
//! - `growing`, `blocks`, `block`: the tree, the blocks that its nodes stand in, and what is known of each block.
//! - `way`: the decisions on the way to a place of a tree.
//! - `values`: what price sets show under a branch.
//! - `laws`: what is proved of all trees that grow.
#![tactic(auto)]

mod block;
mod blocks;
mod examples;
mod growing;
mod laws;
mod values;
mod way;

pub use growing::{GrowingNode, GrowingTree};
pub use laws::{
    decisions_keep_exclusions, decisions_keep_sets, grown_trees_stay_sound,
    more_support_keeps_trees_sound, sound_trees_are_lean,
};
pub use values::shown_under;
