// Why no round is given.

use thiserror::Error;

/// Why no round is given.
#[derive(Clone, Copy, Debug, PartialEq, Eq, Error)]
pub enum PostmanFault {
    /// No path over required edges leads from the depot to this required edge, the least such one. Edges are numbered
    /// from 1.
    #[error("edge {0} is not joined to the depot by required edges")]
    NotJoined(u32),
}
