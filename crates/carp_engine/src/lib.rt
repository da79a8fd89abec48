//! Finds plans with the aid of helpers, and a bound on all plans.
//!
//! In the field: an exact method: primal heuristics, and then branch and bound.
//!
//! [`solve`] starts with one tour for each required edge, asks helpers in rounds, each of which is any
//! [`plan_model::Proposer`] (`helper_rounds`), and then searches a tree of decisions by turns (`branch_tree`). No
//! helper need be trusted: each offer is judged. [`solve_with`] asks advisers too (`leaf_adviser`), of whom nothing is
//! trusted either. [`improve`] goes on from the plan and the tree of a good certificate in the same way. [`consult`] asks one helper, and [`dismiss`] drops those that offered an unlawful plan.
//!
//! - `solving`, `improving`: [`solve`], [`solve_with`] and [`improve`].
//! - `searching`, `certifying`: the search within a budget of turns, and the certificate of what it found.
//! - `laws`: the laws of crates below that both rest on.
#![tactic(auto)]

mod certifying;
mod improving;
mod laws;
mod searching;
mod solving;

pub use helper_rounds::{Heard, consult, dismiss};
pub use improving::improve;
pub use solving::{Solved, solve, solve_with};
