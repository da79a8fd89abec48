//! A search for sets of least cut: those that many vehicles must enter and that too little leads out of.
//!
//! In the field: heuristic separation of rounded capacity cuts by greedy growth and tabu search (Augerat, Belenguer,
//! Benavent, Corberán and Naddef 1998).
//!
//! A [`Ground`] has the elements that sets are made of, with the links between them. A [`Search`] judges sets that its
//! caller names, lets sets grow from single elements, and moves elements in and out of the best of them. Nothing is
//! promised of its sets: whoever uses one judges it anew.
//!
//! - `ground`: the elements and their links. `extent`: how far a search goes, and which sets it keeps.
//! - `sums`, `places`: what a set adds up to, and what each change of one element would add to that.
//! - `aims`, `growing`: which element is to change sides next, and a set that changes by one element at a time.
//! - `best`: the best sets so far. `draws`: numbers at random. `search`: the ways in which sets are looked for.
#![tactic(auto)]

mod aims;
mod best;
mod draws;
mod extent;
mod ground;
mod growing;
mod places;
mod search;
mod sums;

pub use best::Candidate;
pub use draws::shuffle;
pub use extent::Extent;
pub use ground::{Element, Ground, Leaving, Link, UNIT};
pub use search::Search;
