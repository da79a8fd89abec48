//! Plans that no small change makes cheaper.
//!
//! In the field: local search with the moves invert, relocate and exchange.
//!
//! [`settle`] turns, moves and swaps services of a lawful plan as long as that makes it cheaper. [`Mover`] is a helper
//! that changes the best plan by ruin and recreate, and then settles it.
//!
//! - `plans`, `settling`, `searching`: a plan and a sequence of stops that are settled, and the search for a change.
//! - `moves`, `opening`, `swaps`: a service in another place, in a tour of its own, and two services that change
//!   places.
//! - `tours`, `loads`: tours as a sequence of stops and back, and the loads before and behind each stop.
//! - `mover`, `perturbed`: the helper, and the best plan after ruin and recreate.
#![tactic(auto)]

mod examples;
mod loads;
mod mover;
mod moves;
mod opening;
mod perturbed;
mod plans;
mod searching;
mod settling;
mod swaps;
mod tours;

pub use mover::{MoveFinder, Mover};
pub use plans::settle;
