//! A search by turns for a tree of decisions that shows what the best plan costs.
//!
//! In the field: branch and bound, best bound first.
//!
//! [`Search::begin`] plants a tree of one leaf, which has the best set of the floors. [`Search::resume`] goes on from
//! another tree. [`Search::step`] takes one turn (Land and Doig 1960): it closes the first leaf that shows least, or
//! splits it. [`Search::take_plan`] takes a plan that the program of the leaf showed, if it is cheaper than the best
//! one. [`Search::finish`] gives what was [`Found`]: the best plan, the tree, and the greatest bound that the tree
//! shows.
//!
//! - `search`, `beginning`, `resuming`, `finishing`: the search, how it begins and goes on, and what it has found.
//! - `stepping`, `kinds`, `closing`: one turn, what a branch is, and steps that close a leaf.
//! - `raising`, `choosing`, `children`, `splitting`: price sets for a leaf and a split that is proposed, which split is
//!   taken, what both children show, and steps at a leaf that is neither void nor fixed.
//! - `offering`: plans that the programs of leaves show.
//! - `changing`: changes of a search, each of them whole.
//! - `values`: what price sets show under a branch. `laws`: the laws that a search stands on, what it holds, and what
//!   its price leaves are worth.
#![tactic(auto)]

mod beginning;
mod changing;
mod children;
mod choosing;
mod closing;
mod examples;
mod finishing;
mod kinds;
mod laws;
mod offering;
mod raising;
mod resuming;
mod search;
mod splitting;
mod stepping;
mod values;

pub use finishing::Found;
pub use laws::{searches_hold_few_sets, searches_reach_floors, searches_stay_light};
pub use resuming::resumed_trees_have_turns;
pub use search::{Search, Turn};
