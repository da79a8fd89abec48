//! Towns that a number determines: a hundred crossings on a grid, with streets whose costs and demands are drawn.
//!
//! In the field: an instance generator.
//!
//! A town serves to try the solver on an instance that anyone can make again. [`town`] makes it, and it is valid for
//! every number.
//!
//! - `grid`, `draws`: where the streets lie, and what is drawn for them.
//! - `maker`: the town of a number. `laws`: each number has a valid one.
#![tactic(auto)]

mod draws;
mod grid;
mod laws;
mod maker;

pub use laws::towns_are_valid;
pub use maker::town;
