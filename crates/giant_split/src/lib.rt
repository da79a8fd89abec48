//! Plans that are cut from one order of all tasks: route first, cluster second.
//!
//! In the field: route first, cluster second.
//!
//! [`split`] makes the cheapest plan that serves in a given order, and [`Splitter`] is a helper that changes the order
//! of the best plan by draws and offers such a plan.
//!
//! - `legs`, `cutting`, `cutter`: what is to be known of each task of an order, the least cutting of the order, and the
//!   memory for it.
//! - `splitting`: the cheapest plan of an order.
//! - `exchange`, `splitter`: small changes of an order, and the helper.
#![tactic(auto)]

mod cutter;
mod cutting;
mod examples;
mod exchange;
mod legs;
mod splitter;
mod splitting;

pub use splitter::{SplitFinder, Splitter, order_of};
pub use splitting::split;
