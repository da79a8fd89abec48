//! An adviser that offers price sets by an ascent along relaxed tours.
//!
//! In the field: the subgradient method on the Lagrangian dual (Held and Karp 1971).
//!
//! The price of a service and the weights of shores are multipliers of the two kinds of constraints that tours meet
//! together: each required edge is served once, and over each shore there are as many deadheads as it needs.
//! [`AscentAdviser`] moves both at once along what relaxed tours serve and cross. It only offers: the pricing table says
//! whether a set fits.
//!
//! - `adviser`: the adviser. `offer`: the price set of an ascent.
//! - `ascent`: the steps, with `step_size` (their length, and when the ascent turns back or ends) and `slopes` (their
//!   direction). `cover`: how the tours of a point serve and cross.
//! - `start`: the points at which an ascent begins.
#![tactic(auto)]

mod adviser;
mod ascent;
mod cover;
mod offer;
mod slopes;
mod start;
mod step_size;

pub use adviser::AscentAdviser;
