//! Asks helpers for better plans, and trusts none of them.
//!
//! In the field: a portfolio of heuristics, asked in turn.
//!
//! A helper is any [`plan_model::Proposer`]. [`consult`] asks one, and takes its offer if it is lawful and costs less.
//! [`ask_all`] asks a list in rounds. [`dismiss`] drops those that offered an unlawful plan.
//!
//! - `consulting`, `dismissing`: one helper is asked, and those that offered an unlawful plan are dropped.
//! - `rounds`: a list of helpers is asked, round after round.
#![tactic(auto)]

mod consulting;
mod dismissing;
mod rounds;

pub use consulting::{Heard, consult};
pub use dismissing::dismiss;
pub use rounds::ask_all;
