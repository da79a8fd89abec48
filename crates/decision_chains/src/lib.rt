//! Decisions on the way to a node of a tree, the chains that their yes pairs make, and plans that
//! drive these chains.
//!
//! In the field: branching on followers and non-followers (Bode and Irnich 2012).
//!
//! A [`Decision`] is what a plan must do to meet a branch. [`Chains`] keeps which required edges
//! the yes pairs of a list of decisions join. It answers which pairs are excluded, which are
//! determined, and whether a chain is too heavy.
//!
//! [`plan`] drives each chain as a tour, each edge in the better direction, and costs the fixed
//! value of the decisions. [`direct`] finds the cheapest directions of a tour whose edges have an
//! order.
//!
//! - `decision`, `chains`, `near`: decisions, the chains of their yes pairs, and the yes neighbours
//!   of an edge.
//! - `excluding`: which pairs are excluded and determined, and whether a chain is too heavy.
//! - `ordering`, `directing`, `planning`: the edges of a chain in order, their directions, and the
//!   plan of all chains.
//! - `laws`, `plan_laws`: what is proved of all chains and their plans.
#![tactic(auto)]

mod chains;
mod decision;
mod directing;
mod examples;
mod excluding;
mod laws;
mod near;
mod ordering;
mod plan_laws;
mod planning;

pub use chains::Chains;
pub use decision::{Decision, is_pair};
pub use directing::direct;
pub use laws::{distinct_edges_sum_to_no_more, excluded_is_symmetric, yes_pairs_join};
pub use plan_laws::fixed_values_compare;
pub use planning::plan;
