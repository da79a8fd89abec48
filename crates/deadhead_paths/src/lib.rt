//! Deadheads of least price between the vertices of an instance, and plans tidied by them.
//!
//! In the field: all-pairs shortest paths (Dijkstra 1959).
//!
//! [`distances`] makes a table of the least prices between all pairs of vertices, for any price per edge, from which
//! [`Distances::get`] reads a price and [`Distances::path`] a list of steps. [`tidy`] joins the services of a plan by
//! such paths, and [`single_tours`] serves each required edge in a tour of its own.
//!
//! - `making`, `search`: tables of distances, and the search towards one vertex that fills a row.
//! - `table`: what is read from a table.
//! - `tidying`, `touring`: plans with the same services by least paths, and one tour for each required edge.
//! - `laws`: what is proved of all least prices and relaxed tours.
#![tactic(auto)]

mod examples;
mod laws;
mod making;
mod search;
mod table;
mod tidying;
mod touring;

pub use laws::{least_prices_are_distances, least_prices_are_there, walks_are_task_tours};
pub use making::{cost_prices, distances};
pub use table::Distances;
pub use tidying::tidy;
pub use touring::single_tours;
