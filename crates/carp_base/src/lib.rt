//! Instances of the capacitated arc routing problem, and the answer for want of memory.
//!
//! An [`Instance`] is a street network with a depot, a vehicle capacity and a list of streets that have to be
//! served. It is valid by its type: [`Instance::build`] makes it, or names the first fault. An [`Allowed`] says which
//! of those streets may be served one directly after the other.
//!
//! - `edge`, `fault`, `fail`: what is said of a street, why a description is refused, and want of memory.
//! - `instance`: the instance and how it is built, by way of a `description`, whose lists are as they were given, and a
//!   `draft`, whose edges stand in one list. `search` finds the vertices that a path leads to.
//! - `allowed`: the relation on required edges.
//! - `laws`: what is proved of all descriptions.
#![tactic(auto)]

mod allowed;
mod description;
mod draft;
mod edge;
mod fail;
mod fault;
mod instance;
mod laws;
mod search;

pub use allowed::Allowed;
pub use edge::{Edge, RawEdge, Task};
pub use fail::{Fail, Memory};
pub use fault::InstanceFault;
pub use instance::Instance;
pub use laws::valid_where_no_fault;

mod examples;
