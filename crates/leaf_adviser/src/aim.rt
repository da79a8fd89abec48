// How far a price set is raised.

/// How far a price set is raised.
#[derive(Clone, Copy)]
pub struct Aim {
    /// The number by which the leaf names the set that it starts from.
    pub number: u32,
    /// Rounds of search for shores, and steps of an ascent. If it is 0, there is neither.
    pub rounds: u32,
    /// A value that shows this bound is enough.
    pub cost: u64,
}
