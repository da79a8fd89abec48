//! Tours as lists of tasks: joined by least paths to walks, and what plans of such tours cost.
//!
//! In the field: routes as sequences of required arcs.
//!
//! [`join`] makes the walk of a tour, and [`add_tour`] adds it to a plan. The laws say that plans of such walks are
//! lawful if their tours serve each required edge once within the capacity, what they cost, and that no lawful plan
//! with the same tours costs less.
//!
//! A plan is short if it is lawful, has no more tours than there are required edges, and has at most 2,000,000 steps.
//! Every plan that the engine makes is short. A search may begin with any plan that a certificate can hold, of at most
//! 100,000 tours and 2,000,000 steps: its cost is far below what a bound may be, and its certificate can be spelled.
//!
//! - `joining`: tasks joined by least paths.
//! - `stands`, `costs`: where a task starts and ends, and least costs between such vertices.
//! - `laws`, `short_laws`: what is proved of plans and their tours, and of short plans.
#![tactic(auto)]

mod costs;
mod examples;
mod joining;
mod laws;
mod short_examples;
mod short_laws;
mod stands;

pub use costs::{cost_distances, lawful_cost, least_cost};
pub use joining::{add_tour, join};
pub use laws::{plans_are_tours, served_once_are_as_many, tours_are_linked};
pub use short_laws::{short_plans_are_allowed, short_plans_cost_little};
pub use stands::ends;
