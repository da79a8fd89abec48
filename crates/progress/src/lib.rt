//! What a run that takes long tells on its way.
//!
//! A [`Watch`] is told, and changes nothing of the run: no contract of a run speaks of its watch. [`Silent`] tells
//! nobody.
#![tactic(auto)]

/// Where a search stands.
#[derive(Clone, Copy, Debug, PartialEq, Eq)]
pub struct Standing {
    /// The turns so far.
    pub turn: u64,
    /// The turns that the search may take in all.
    pub turns: u64,
    /// The cost of the best plan so far.
    pub cost: u64,
    /// The greatest bound, up to the cost, that is shown so far.
    pub bound: u64,
}

/// Whoever is told how far a run is.
pub trait Watch {
    /// Whether it is to be told anything. What is told can take time to find.
    fn listens(&self) -> bool;

    /// Helpers are asked for tours.
    fn asks(&mut self);

    /// The search stands here, before the first turn or after one.
    fn turns(&mut self, standing: Standing);

    /// Nothing is told any more.
    fn ends(&mut self);
}

/// A watch that tells nobody.
#[derive(Drop)]
pub struct Silent;

impl Watch for Silent {
    fn listens(&self) -> bool {
        false
    }

    fn asks(&mut self) {}

    fn turns(&mut self, _standing: Standing) {}

    fn ends(&mut self) {}
}
