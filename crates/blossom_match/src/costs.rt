// A table of costs between members.
ghost use Rattle.std.specs.Prelude.{◌≡◌, ◌≢◌, ℕ, ◌+◌, ◌-◌, ◌<◌, ◌≤◌, ◌↔◌, IfOk, IsTrue};
ghost use Rattle.blossom_match.specs.Table.{cost, IsMetric, IsTable, IsWritten};
ghost use Rattle.blossom_match.specs.declared.costs.TheConstants.{MAX_COST, MAX_MEMBERS};

use carp_base::Memory;
use std::alloc::Global;

/// The most members of a table.
pub const MAX_MEMBERS: u32 = 1_000;

/// The greatest cost.
pub const MAX_COST: u64 = 1_000_000_000_000;

/// The costs of the pairs of some members, which are numbered from 1: one cost for both orders of a pair.
#[derive(Debug, Drop)]
pub struct Costs {
    pub(crate) size: usize,
    pub(crate) cells: Vec<u64>,
}

impl Costs {
    /// A table of `size` members, 0 to [`MAX_MEMBERS`], in which all costs are 0. It takes memory of the order of
    /// `size * size`. Its only error is want of memory.
    pub fn new(alloc: Global, size: u32) -> Result<Costs, Memory>
        requires few { size ≤ MAX_MEMBERS }
        ensures size { IfOk result (λ c. c.size ≡ size) }
        ensures table { IfOk result IsTable }
        ensures zero { IfOk result (λ c. (u v : ℕ) → cost c u v ≡ 0) }
    {
        let size = size as usize;
        Ok(Costs {
            size,
            cells: vec![in alloc; 0; size * size]?,
        })
    }

    /// The number of members.
    pub fn members(&self) -> u32
        requires { IsTable self.now }
        ensures { result ≡ self.now.size }
    {
        self.size as u32
    }

    /// Sets the cost of the pair of two different members, 0 to [`MAX_COST`], in both orders.
    pub fn set(&mut self, a: u32, b: u32, value: u64)
        requires table { IsTable self.old }
        requires a_in { (1 ≤ a) × (a ≤ self.old.size) }
        requires b_in { (1 ≤ b) × (b ≤ self.old.size) }
        requires apart { a ≢ b }
        requires small { value ≤ MAX_COST }
        ensures table { IsTable self.new }
        ensures written { IsWritten self.old self.new (a - 1) (b - 1) value }
    {
        let (u, v) = (a as usize - 1, b as usize - 1);
        self.cells[u * self.size + v] = value;
        self.cells[v * self.size + u] = value;
    }

    /// The cost of the pair of two members, or 0 if they are one member.
    pub fn get(&self, a: u32, b: u32) -> u64
        requires table { IsTable self.now }
        requires a_in { (1 ≤ a) × (a ≤ self.now.size) }
        requires b_in { (1 ≤ b) × (b ≤ self.now.size) }
        ensures { result ≡ cost self.now (a - 1) (b - 1) }
    {
        self.between(a as usize - 1, b as usize - 1)
    }

    /// The cost of the pair of two members, numbered from 0.
    #[tactic(auto, using(crate::proofs::Cells::cell_in))]
    pub(crate) fn between(&self, u: usize, v: usize) -> u64
        requires table { IsTable self.now }
        requires u_in { u < self.now.size }
        requires v_in { v < self.now.size }
        ensures value { result ≡ cost self.now u v }
        ensures small { result ≤ MAX_COST }
    {
        self.cells[u * self.size + v]
    }

    /// Whether no way from one member to another is cheaper by way of this member.
    fn detours_cost(&self, u: usize, v: usize) -> bool
        requires table { IsTable self.now }
        requires u_in { u < self.now.size }
        requires v_in { v < self.now.size }
        ensures { IsTrue result ↔ ((w : ℕ) → w < self.now.size → cost self.now u w ≤ cost self.now u v + cost self.now v w) }
    {
        for w in 0..self.size {
            if self.between(u, w) > self.between(u, v) + self.between(v, w) {
                return false;
            }
        }
        true
    }

    /// Whether no way from this member is cheaper by way of another one.
    fn is_metric_from(&self, u: usize) -> bool
        requires table { IsTable self.now }
        requires u_in { u < self.now.size }
        ensures { IsTrue result ↔ ((v w : ℕ) → v < self.now.size → w < self.now.size → cost self.now u w ≤ cost self.now u v + cost self.now v w) }
    {
        for v in 0..self.size {
            if !self.detours_cost(u, v) {
                return false;
            }
        }
        true
    }

    /// Whether the triangle inequality holds for all three members. It takes time of the order of `size ^ 3`.
    pub fn is_metric(&self) -> bool
        requires table { IsTable self.now }
        ensures { IsTrue result ↔ IsMetric self.now }
    {
        for u in 0..self.size {
            if !self.is_metric_from(u) {
                return false;
            }
        }
        true
    }
}
