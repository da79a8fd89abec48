//! Plans with a tour for each group of a packing, and how many groups a plan stands for.
//!
//! In the field: cluster first, route second.
//!
//! A packing puts each required edge into a group that one vehicle can carry (Martello and Toth 1990).
//! [`plan_of_groups`] makes a lawful plan of such groups, and [`plans_are_packings`] says that for each lawful plan
//! there is a packing with as many groups as walks of the plan serve.
//!
//! - `gathering`, `planning`: the tasks of a group, and the plan of a packing.
//! - `laws`: what packings say of plans.
#![tactic(auto)]

mod examples;
mod gathering;
mod laws;
mod planning;

pub use laws::plans_are_packings;
pub use planning::plan_of_groups;
