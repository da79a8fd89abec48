//! Walks and plans of an instance, what makes a plan lawful, and what it costs.
//!
//! In the field: solutions, which are lists of routes, and the test that a solution is feasible.
//!
//! A [`Plan`] is a list of [`Walk`]s, and a walk is a list of [`Step`]s. Contracts see plain lists. [`judge`] tells
//! what is first wrong with a plan, or what it costs if it is lawful. [`Proposer`] is the interface of a helper that
//! offers plans.
//!
//! - `step`, `walk`, `plan`: steps, walks and plans.
//! - `totals`: what a walk serves and costs.
//! - `verdict`, `judging`, with `served` and `tours`: what a judge says, the judge, and its passes over the services
//!   and the tours of a plan.
//! - `proposer`: the interface of a helper.
//! - `laws`: what is proved of all plans.
#![tactic(auto)]

mod examples;
mod judging;
mod laws;
mod plan;
mod proposer;
mod served;
mod step;
mod totals;
mod tours;
mod verdict;
mod walk;

pub use judging::{JudgeRoom, judge};
pub use laws::{
    deadheads_are_on_crossing_edges, required_cost_is_least, required_edges_are_served_once,
    verdicts_are_exact,
};
pub use plan::Plan;
pub use proposer::Proposer;
pub use step::Step;
pub use totals::{cost_of, load_of};
pub use verdict::Verdict;
pub use walk::Walk;
