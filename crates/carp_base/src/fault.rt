// Why an instance is not valid.

use thiserror::Error;

/// Why a description is no valid instance. A fault of an edge carries the edge's number, counted from 1 over the
/// required edges and then the others. A fault of another kind carries the number that is out of range.
///
/// If several faults apply, the answer is the one that stands first here, and among those of this kind the one with the
/// least edge number.
#[derive(Clone, Copy, Debug, PartialEq, Eq, Error)]
pub enum InstanceFault {
    /// There are more than 1,000 vertices.
    #[error("{0} vertices are too many")]
    TooManyVertices(u64),
    /// There are more than 4,000 edges.
    #[error("{0} edges are too many")]
    TooManyEdges(u64),
    /// More than 600 edges are required.
    #[error("{0} required edges are too many")]
    TooManyRequired(u64),
    /// The edge has an end that is no vertex.
    #[error("edge {0} has an end out of range")]
    EndOutOfRange(u64),
    /// The edge leads from a vertex to itself.
    #[error("edge {0} is a loop")]
    Loop(u64),
    /// The edge's cost is above 1,000,000.
    #[error("edge {0} has too large a cost")]
    CostTooLarge(u64),
    /// The capacity is 0 or above 30,000.
    #[error("capacity {0} is out of range")]
    CapacityOutOfRange(u64),
    /// The required edge has demand 0.
    #[error("required edge {0} has demand 0")]
    ZeroDemand(u64),
    /// The required edge's demand is above the capacity.
    #[error("edge {0} has a demand above the capacity")]
    Overweight(u64),
    /// The depot is no vertex.
    #[error("depot {0} is out of range")]
    DepotOutOfRange(u64),
    /// Twice the number of required edges times one more than the capacity is above 24,000,000.
    #[error("{0} states are too many")]
    TooManyStates(u64),
    /// No path leads from the depot to the required edge.
    #[error("edge {0} cannot be reached")]
    Unreachable(u64),
    /// The required edge's service cost is above 1,000,000.
    #[error("edge {0} has too large a service cost")]
    ServiceTooLarge(u64),
}
