//! Whoever offers prices and splits for the leaves of a tree.
//!
//! In the field: bounding heuristics, as dual ascent or column generation.
//!
//! A [`Leaf`] of a tree has an instance and the decisions on the way to it. An [`Adviser`] offers price sets for a leaf,
//! and it may offer a split of it and tours of a plan. It need not be trusted: the exact table says whether a set fits,
//! and a split and a plan are judged by whoever takes them. [`NoAdvice`] offers nothing.
//!
//! - `leaf`, `aim`: what is asked for, and how far.
//! - `adviser`, `boxed`: the interface, and the same through a box.
//! - `no_advice`: an adviser that offers nothing.
#![tactic(auto)]

mod adviser;
mod aim;
mod boxed;
mod leaf;
mod no_advice;

pub use adviser::Adviser;
pub use aim::Aim;
pub use leaf::Leaf;
pub use no_advice::NoAdvice;
