//! Price sets that need no decisions, and better ones under a branch (in the field's terms: the master problem's dual
//! solutions).
//!
//! A price set that fits shows its value as a lower bound of every lawful plan (`branch_rules`). Three sets can be read
//! off the instance, one for each simple floor of the bound:
//!
//! - [`shell_prices`] weighs the sets of the vertices beyond each distance from the depot.
//! - [`ratio_prices`] shares the least deadhead per unit of load out over the demands.
//! - [`join_prices`] weighs the shores that show the least cost of making every vertex even.
//!
//! Each set fits under every branch. Its value divided by its denominator is its floor, or above it in the one case of
//! Join. Services at cost and weights that pack fit ([`packing_weights_fit`]), level sets are there
//! ([`level_sets_are_there`]), and the best of such sets reaches all their floors ([`better_sets_reach_as_much`]).
//!
//! [`floors`] takes the set of greatest value, and places the shores of one vertex behind those of the floor. A pool
//! may grow without any change of the sets whose shores it held ([`growth_keeps_sets`]). [`raise_with`] looks for
//! a better set under a branch among the offers of advisers (`leaf_adviser`), and raises each number of it to its limit;
//! [`raise`] does so with none.
//!
//! - `shell`, `ratio`, `join`: the sets of the floors, over `services` and `placing` (prices of services, and shores
//!   that are placed in a pool with their weights).
//! - `best`, `candidate`, `values`: the best of them, each with a pool of its own, compared as fractions.
//! - `singles`: the shores of one vertex.
//! - `raising`: price sets that are raised.
//! - `laws`, `floor_laws`: what is proved of pools that grow, and of the floors.
#![tactic(auto)]

mod best;
mod candidate;
mod examples;
mod floor_examples;
mod floor_laws;
mod join;
mod laws;
mod placing;
mod raising;
mod ratio;
mod services;
mod shell;
mod singles;
mod values;

pub use best::floors;
pub use floor_laws::{better_sets_reach_as_much, level_sets_are_there, packing_weights_fit};
pub use join::join_prices;
pub use laws::growth_keeps_sets;
pub use raising::{raise, raise_with};
pub use ratio::ratio_prices;
pub use shell::shell_prices;
