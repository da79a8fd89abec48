//! Price sets of which no single number can be raised.
//!
//! In the field: dual feasibility of a solution of the master problem, and maximal dual solutions.
//!
//! [`fits`] decides whether a price set fits under a branch, by one fill of the table of least relaxed tours.
//! [`tighten`] raises the numbers of a set that fits, one after another, each as far as it goes: the weights on shores
//! of one vertex, and the prices of services. What is left is tight: raised by 1, none of these numbers lets the set
//! fit. One pass is enough, since a number that is raised lets no other one rise further than before.
//!
//! - `fitting`, `probe`: whether a set fits, and whether its tours pay, by a fill of the table.
//! - `passes`, `search`: the passes over all numbers of a set, and the greatest raise of one.
//! - `place`, `heavier`, `across`: one number of a set, the weights with one of them greater, and the least deadhead
//!   price over a shore.
#![tactic(auto)]

mod across;
mod examples;
mod fitting;
mod heavier;
mod passes;
mod place;
mod probe;
mod search;

pub use fitting::fits;
pub use passes::tighten;
