//! An adviser that offers prices, splits and tours by linear programs for the leaves of a tree.
//!
//! In the field: branch and price, with strong branching (Applegate, Bixby, Chvatal and Cook 1995).
//!
//! Each leaf of a tree has a linear program over tours, shores and groups (`column_generation`). [`LeafPrograms`] tells
//! which leaf goes on from which program: a child from that of its parent, or from its own after its split was tried. It
//! offers a price set for a leaf, and a split of it: splits that look worth it are tried on copies of the program. It
//! only offers: the pricing table says whether a set fits, and whoever takes a split judges it.
//!
//! - `adviser`: the adviser. `programs`: its type, and the programs of a leaf.
//! - `kept_programs`: programs that are kept, and for which leaf.
//! - `cuts`, `pairs`, `poor`, `candidates`: splits that look worth a trial.
//! - `decisions`: the decisions of a split, and the branches of its children.
//! - `trials`, `ranked_splits`, `rivals`: what both children of a split come to, and which split is offered.
#![tactic(auto)]

mod adviser;
mod candidates;
mod cuts;
mod decisions;
mod kept_programs;
mod pairs;
mod poor;
mod programs;
mod ranked_splits;
mod rivals;
mod trials;

pub use programs::LeafPrograms;
