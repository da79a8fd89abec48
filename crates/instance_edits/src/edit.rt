// Edits of an instance, and why they are refused.

use carp_base::InstanceFault;
use thiserror::Error;

/// An edit of an instance. Edges have their numbers, from 1, in the instance before all edits, and none is one that an
/// earlier edit closes. What is added is 0 to 999,999,999,999, if [`read_edits`](crate::read_edits) gives it.
#[derive(Clone, Copy, Debug, PartialEq, Eq)]
pub enum Edit {
    /// Adds to the cost of an edge.
    Cost { edge: u32, add: u64 },
    /// Adds to the service cost of a required edge.
    Service { edge: u32, add: u64 },
    /// Adds to the demand of a required edge.
    Demand { edge: u32, add: u64 },
    /// Takes an edge out that is not required.
    Close { edge: u32 },
}

/// Why edits are refused. Lines are counted from 1.
#[derive(Clone, Copy, Debug, PartialEq, Eq, Error)]
pub enum EditFault {
    /// The line is no edit.
    #[error("line {0} cannot be read")]
    Syntax(u64),
    /// The line names an edge that it may not name.
    #[error("line {0} names a wrong edge")]
    Unknown(u64),
    /// The edited instance has this fault, with its edge numbers. [`read_edits`](crate::read_edits) never answers it.
    #[error("the edited instance is not valid: {0}")]
    Refused(InstanceFault),
}
