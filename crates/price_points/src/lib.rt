//! What proposals of price sets share: points, what the exact table shows of one, and the placing of its weights.
//!
//! In the field: the bookkeeping of Lagrangian and of column generation bounds over relaxed tours.
//!
//! A proposal moves a [`Point`]: prices of services, and weights of [`Constraint`]s. [`score`] weighs it by a table of
//! least relaxed tours (`route_pricing`), and makes of it one at which no tour is worth less than 0. [`place_weights`]
//! places the shores of a point in a pool. Nothing here is proved of how good points are.
//!
//! - `problem`: what a set is proposed for. `numbers`: the denominator of proposals, and sums that stay within limits.
//! - `constraints`, `members`: what tours and deadheads meet together, beside the services.
//! - `points`: prices and weights. `start`: the numbers of a set to begin with.
//! - `scores`: a point made one that pays, with `dual_repair` and `ranks` (weights that no street is overloaded by) and
//!   `paying_prices` (prices that pay).
//! - `tours`: tours that a filled table tells, and how often they serve and cross each edge. `deadheads`: deadheads in
//!   parts.
//! - `placed_weights`: shores with weights that are placed in a pool, and the list of their weights.
#![tactic(auto)]

mod constraints;
mod deadheads;
mod dual_repair;
mod members;
mod numbers;
mod paying_prices;
mod placed_weights;
mod points;
mod problem;
mod ranks;
mod scores;
mod start;
mod tours;

pub use constraints::{Constraint, Demand};
pub use deadheads::parts_of;
pub use dual_repair::Easing;
pub use members::Members;
pub use numbers::{PARTS, UNIT, add_at, clamped, floor, number_at, quotient};
pub use placed_weights::{number_in, place_weights, shores_with_weights};
pub use points::{Point, negative, positive_weight, service_cost, service_costs, sum_within};
pub use problem::PricingProblem;
pub use ranks::{Ranked, sort_by_share};
pub use scores::{Scored, score};
pub use start::{start_prices, start_sizes, start_weight};
pub use tours::{Cover, best_tour, excess_over, least_tour, load_of, tour_over};
