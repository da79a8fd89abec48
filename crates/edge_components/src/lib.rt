//! Components of the edges of an instance with at least so many parts of deadheads, and what lies at their borders.
//!
//! In the field: connected components of the support graph of a fractional solution.
//!
//! Deadheads may be fractions: each edge has a whole number of parts of a unit. [`label_components`] gives each vertex
//! the least vertex of its component. [`crossings_by_label`], [`demand_by_label`] and [`parts_by_label`] add up what
//! the edges at the border of each component have. [`list_marked`] makes shores of some of them. Each takes time in
//! proportion to the vertices and edges, and [`list_marked`] besides in proportion to the greatest vertices of its
//! shores.
//!
//! - `labelling`: the search that labels one component after another.
//! - `tallies`: what the edges at the border of each component add up to.
//! - `listing`: shores of the vertices of one label.
//! - `laws`: what is proved of all labels.
#![tactic(auto)]

mod examples;
mod labelling;
mod laws;
mod listing;
mod tallies;

pub use labelling::label_components;
pub use laws::{equal_sets_have_one_border, kept_labels_are_components, vertices_are_listed};
pub use listing::{is_free_label, list_marked};
pub use tallies::{are_parts, crossings_by_label, demand_by_label, parts_by_label};
