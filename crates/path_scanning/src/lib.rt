//! Plans by path scanning: tours that go to the nearest edge that fits, with five rules for ties.
//!
//! In the field: path scanning (Golden, DeArmon and Baker 1983).
//!
//! [`scan`] makes the plan of one rule, and [`Scanner`] is a helper that offers the cheapest of the five.
//!
//! - `scanning`, `nearest`, `candidate`: a plan that grows tour by tour, the task that a tour takes next, and what
//!   tasks are compared by.
//! - `rule`: the five rules for ties.
//! - `scanner`: the helper.
#![tactic(auto)]

mod candidate;
mod examples;
mod nearest;
mod rule;
mod scanner;
mod scanning;

pub use rule::Rule;
pub use scanner::{ScanFinder, Scanner};
pub use scanning::scan;
