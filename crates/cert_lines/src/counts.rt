// The size of an instance, as a certificate states it.

/// The numbers of the instance for which a certificate was made. A checker refuses the certificate beside a file with
/// other numbers.
///
/// The numbers in a text are in the ranges below, and so are those of a valid instance.
#[derive(Clone, Copy, Debug, PartialEq, Eq)]
pub struct Counts {
    /// The number of vertices, 1 to 1,000.
    pub vertices: u64,
    /// The number of edges, 0 to 4,000.
    pub edges: u64,
    /// The number of required edges, 0 to 600.
    pub required: u64,
    /// The capacity of a vehicle, 1 to 30,000.
    pub capacity: u64,
    /// The total demand, 0 to 18,000,000.
    pub demand: u64,
}
