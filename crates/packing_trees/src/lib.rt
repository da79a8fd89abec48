//! Trees that prove how many groups every packing of the required edges takes at least.
//!
//! In the field: branch-and-bound trees of bin packing, which branch on two items together or apart (Ryan and
//! Foster 1981).
//!
//! A packing gives each required edge a group that one vehicle carries. A tree splits all packings by whether two edges
//! lie in one group ([`PackNode`], [`PackChoice`]). At each leaf the edges that are together make bundles
//! ([`Bundles`]), whose weights bound the number of groups from below. [`check_pack`] checks a packing with such a
//! tree, and names the first reason why it is none.
//!
//! - `packing`, `node`: a packing with its tree, and the nodes and choices of a tree.
//! - `bundling`, `shares`: the bundles of a branch, and the value of a share of some size.
//! - `closing`: whether two bundles can lie in one group.
//! - `grouping`, `shape`, `walking`: whether groups are a packing, whether nodes are one whole tree of pairs, and what
//!   each node claims, in preorder.
//! - `checking`, `reason`: the check of all three, and the first reason.
//! - `laws`: what is proved of all packings.
#![tactic(auto)]

mod bundling;
mod checking;
mod closing;
mod examples;
mod grouping;
mod laws;
mod node;
mod packing;
mod reason;
mod shape;
mod shares;
mod walking;

pub use bundling::{Bundles, bundle_count, bundles_of, share_value};
pub use checking::check_pack;
pub use closing::{all_closed, is_closed};
pub use laws::{bundles_are_joined, pack_answers_are_exact, trees_bound_packings};
pub use node::{PackChoice, PackNode};
pub use packing::Packing;
pub use reason::{PackAnswer, PackReason};
