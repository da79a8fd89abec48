//! Plans by augment-merge: tours of one service each that absorb what they pass, and then are joined end to end.
//!
//! In the field: augment-merge (Golden and Wong 1981).
//!
//! [`augment_merge`] makes the plan, and [`Merger`] is a helper that offers it.
//!
//! - `making`: the plan.
//! - `augmenting`, `tour`: tours that absorb services on their way, and a tour as the list of its tasks.
//! - `merging`, `searching`, `renewing`, with `joins` and `outline`: tours that are joined, the search for the best
//!   join, and the best joins after one was made.
//! - `merger`: the helper.
#![tactic(auto)]

mod augmenting;
mod examples;
mod joins;
mod laws;
mod making;
mod merger;
mod merging;
mod outline;
mod renewing;
mod searching;
mod tour;

pub use making::augment_merge;
pub use merger::{MergeFinder, Merger};
