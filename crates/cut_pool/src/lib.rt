//! Sets of vertices without the depot, what every lawful plan does at their border, and a pool of such sets.
//!
//! In the field: edge cutsets of vertex sets without the depot, and a pool of them as in a cutting plane
//! method.
//!
//! A [`Shore`] is a set of vertices, which contracts see as its rising list. [`need`] is a number of deadheads that
//! every lawful plan has over it at least, by the law [`need_is_met`]. A [`ShorePool`] numbers shores in the order of
//! discovery.
//!
//! - `shore`, `border`: a set of vertices, and what the required edges at its border ask for.
//! - `pool`: shores in the order of discovery.
//! - `laws`: what is proved of all lawful plans.
#![tactic(auto)]

mod border;
mod examples;
mod laws;
mod pool;
mod shore;

pub use border::{need, required_crossings, touched};
pub use laws::need_is_met;
pub use pool::{MOST_SHORES, PoolFull, ShorePool};
pub use shore::{Shore, Weighted};
