//! The frame that helpers share: what a helper keeps of itself and of an instance, and how it offers what it finds.
//!
//! In the field: what construction and improvement heuristics share.
//!
//! A [`Finder`] finds lawful plans by distances. [`Helper`] makes a [`plan_model::Proposer`] of it: it counts how often
//! it is asked and what it offers ([`Standing`]), and keeps the distances of the instance that it was asked about last
//! ([`KnownDistances`]). [`Keeper`] makes of a finder one that keeps the plan that it found last.
//!
//! - `helper`: finders, and the helper of a finder.
//! - `standing`, `known_distances`: what a helper keeps of itself and of an instance.
//! - `keeping`: finders that keep the plan of an instance.
#![tactic(auto)]

mod examples;
mod helper;
mod keeping;
mod known_distances;
mod standing;

pub use helper::{Finder, Helper};
pub use keeping::Keeper;
pub use known_distances::KnownDistances;
pub use standing::Standing;
