//! Certificates that stay good when an instance is edited.
//!
//! In the field: reoptimization: a solution and its proof, reused for changed data.
//!
//! If costs, service costs and demands rise, and streets that need no service are closed, what
//! showed that no plan costs less than a bound still shows it: each price set that fitted still
//! fits, and what decisions excluded they still exclude. [`carry`] makes of a certificate that was
//! good for the instance before the edits one that is good for the instance after them, with a
//! bound that is no lower, without any search. The edits, their text and the edited instance are
//! those of [`instance_edits`].
//!
//! If demands rose, a tour of the old plan can be too heavy for a vehicle. If streets were closed,
//! its way may be gone. [`carry_plan`] keeps the services of each tour in their order and
//! direction, cuts the tour if the vehicle would be too full, and joins the services again by least
//! paths.
//!
//! - `carrying`, `copies`: a certificate that is carried over, and the parts of it that stay.
//! - `carrying_tours`, `reading`, `cutting`: a plan that is carried over, the services of a walk,
//!   and the places where a tour is cut.
//! - `laws`: the laws that a carried certificate stands on, as one.
#![tactic(auto)]

mod carrying;
mod carrying_tours;
mod copies;
mod cutting;
mod examples;
mod laws;
mod reading;

pub use carrying::carry;
pub use carrying_tours::carry_plan;
pub use instance_edits::{Edit, EditFault, edited, read_edits};
