// Groups of the required edges.

/// The group of each required edge, from 1 to the count, in the order of the edges.
#[derive(Drop)]
pub(crate) struct Grouping {
    pub(crate) groups: Vec<u32>,
    pub(crate) count: u32,
}
