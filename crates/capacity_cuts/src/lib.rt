//! Sets of vertices that a plan must cross more often than some deadheads do, and the sets of the vertices beyond each
//! distance from the depot (Belenguer and Benavent 1998).
//!
//! In the field: separation of capacity constraints by maximum flows, and the cutsets of the level sets of
//! distance.
//!
//! The violation of a set S without the depot is `2 t(S) / Q - r(S) - x(S) / unit`. Here t(S) is the demand that
//! touches it, r(S) the number of required edges over it, x(S) the parts of deadheads over it, and Q the capacity.
//!
//! - `fractional`: [`find_fractional`], a set of greatest violation by one greatest flow.
//! - `components`: [`find_components`], the components of the edges with at least a unit whose need
//!   ([`cut_pool::need`]) is above the deadheads over them.
//! - `shelling`: [`shells`], the sets of the vertices beyond each distance.
//! - `network`, `lengths`: the network whose cuts tell how much a set is violated, and distances from the depot as
//!   numbers.
//! - `laws`: what is proved of all such networks and of the shells.
#![tactic(auto)]

mod components;
mod examples;
mod fractional;
mod laws;
mod lengths;
mod network;
mod shelling;

pub use components::find_components;
pub use fractional::find_fractional;
pub use laws::{cut_is_violation, least_cut_is_most_violated, network_is_fine, shells_are_duals};
pub use shelling::shells;
