// Weights on the bonds of groups.
ghost use Rattle.std.specs.Prelude.{◌≡◌, ◌≤◌, pos, neg_ℤ, ◌*ℤ◌, ◌≤ℤ◌, length, IfOk};
ghost use Rattle.carp_base.specs.Problem.{edge_at};
ghost use Rattle.branch_rules.specs.Bonds.{GroupWeight, bond, group_demand, is_of, room, surcharge};
ghost use Rattle.branch_rules.specs.Limits.{IsFineGroup, IsPriceNumber, IsSurcharge};
ghost use Rattle.branch_rules.specs.Prices.{weigh_bonds};
ghost use Rattle.branch_rules.specs.Sums.{signed_sum};

use carp_base::{Instance, Memory};
use std::alloc::Global;
use std::marker::Model;

/// A weight on the bonds of a group, which is a set of two or more edges. A bond is a place where a tour serves two
/// edges of the group one directly after the other. An edge that is not required has no demand, and no tour serves it.
///
/// The weight is not 0 and within 10^15 either way, in parts of the denominator of its price set. A weight above 0 is
/// charged for each bond. A weight below 0 stands on a group of two edges, and its size is gained for each bond.
/// Contracts see the edges and the weight.
#[derive(Drop)]
pub struct WeightedGroup {
    edges: Vec<u32>,
    weight: i64,
}

impl Model for WeightedGroup {
    ghost use Rattle.branch_rules.specs.Bonds.{GroupWeight};
    ghost use Rattle.branch_rules.specs.Limits.{IsFineGroup};

    ghost Value = { GroupWeight };

    ghost view = { λ w. record { edges = w.edges.items; weight = w.weight } };

    ghost invariant = { λ w. IsFineGroup (record { edges = w.edges.items; weight = w.weight }) };
}

impl WeightedGroup {
    /// This weight on the group of these edges, by their rising numbers, in time and memory in proportion to the edges.
    /// The only error is want of memory.
    pub fn new(alloc: Global, edges: &[u32], weight: i64) -> Result<WeightedGroup, Memory>
        requires { IsFineGroup (record { edges = edges.now; weight = weight }) }
        ensures { IfOk result (λ group. group ≡ record { edges = edges.now; weight = weight }) }
    {
        Ok(WeightedGroup {
            edges: Vec::from_slice(alloc, edges)?,
            weight,
        })
    }

    /// The same weight on the same group, in time and memory in proportion to the edges. The only error is want of
    /// memory.
    pub fn copy(&self, alloc: Global) -> Result<WeightedGroup, Memory>
        ensures { IfOk result (λ group. group ≡ self.now) }
    {
        WeightedGroup::new(alloc, self.edges(), self.weight())
    }

    /// The edges, two to 600, by their rising numbers.
    pub fn edges(&self) -> &[u32]
        ensures value { result.now ≡ self.now.edges }
        ensures fine { IsFineGroup self.now }
    {
        &self.edges
    }

    /// The weight, within 10^15 either way and not 0.
    pub fn weight(&self) -> i64
        ensures value { result ≡ self.now.weight }
        ensures fine { IsFineGroup self.now }
    {
        self.weight
    }

    /// Whether an edge is of the group. It takes time in proportion to the number of edges of the group.
    pub fn has(&self, e: u32) -> bool
        ensures { result ≡ is_of self.now.edges e }
    {
        self.edges.iter().any(|x| *x == e)
    }

    // What two edges that follow each other weigh in this group only.
    fn bond_weighs(&self, e: u32, f: u32) -> i64
        ensures value { result ≡ self.now.weight *ℤ pos (bond self.now.edges e f) }
        ensures within { IsPriceNumber result }
    {
        let weight = self.weight();
        if self.has(e) && self.has(f) {
            weight
        } else {
            0
        }
    }
}

/// The surcharge of two edges that follow each other: the sum of the weights of the groups that both are of, within
/// 2 * 10^18 either way. What the bonds of a tour weigh is the sum of the surcharges of its edges that follow each
/// other ([`surcharges_are_bond_weights`](crate::surcharges_are_bond_weights)).
///
/// It takes no memory, and time in proportion to the number of edges of all groups together.
pub fn surcharge_of(groups: &[WeightedGroup], e: u32, f: u32) -> i64
    requires { length groups.now ≤ 2000 }
    ensures value { result ≡ surcharge groups.now e f }
    ensures within { IsSurcharge result }
{
    let mut sum: i64 = 0;
    for group in groups {
        sum += group.bond_weighs(e, f);
    }
    sum
}

/// The room of a group: how many bonds a lawful plan can have in it ([`bonds_are_bounded`](crate::bonds_are_bounded)).
/// It is the number of its edges less the vehicles that its demand takes, 0 to 600. It is also said of a list of at
/// most 600 edges that is no group.
///
/// It takes no memory, and time in proportion to the number of edges of the list.
pub fn bond_room(inst: &Instance, edges: &[u32]) -> u64
    requires { length edges.now ≤ 600 }
    ensures value { result ≡ room inst.now edges.now }
    ensures small { result ≤ 600 }
{
    let vehicles = demand_of(inst, edges).div_ceil(inst.capacity());
    (edges.len() as u64).saturating_sub(vehicles)
}

// The demand of a group.
fn demand_of(inst: &Instance, edges: &[u32]) -> u64
    requires { length edges.now ≤ 600 }
    ensures value { result ≡ group_demand inst.now edges.now }
    ensures small { result ≤ 18000000 }
{
    let mut demand: u64 = 0;
    for e in edges {
        demand += demand_at(inst, *e);
    }
    demand
}

// The demand of the edge of a number, which is 0 if it is not to be served.
fn demand_at(inst: &Instance, e: u32) -> u64
    ensures value { result ≡ (edge_at inst.now e).demand }
    ensures small { result ≤ 30000 }
{
    if 1 <= e && e <= inst.required() {
        inst.edge(e).demand
    } else {
        0
    }
}

// The most that the bonds of all groups can weigh in a plan.
pub(crate) fn rooms_weigh(inst: &Instance, groups: &[WeightedGroup]) -> i128
    requires { length groups.now ≤ 2000 }
    ensures value { result ≡ signed_sum (λ w. weigh_bonds w.weight (room inst.now w.edges)) groups.now }
    ensures low { neg_ℤ (pos 1200000000000000000000) ≤ℤ result }
    ensures high { result ≤ℤ pos 1200000000000000000000 }
{
    let mut sum: i128 = 0;
    for group in groups {
        sum += room_weighs(inst, group);
    }
    sum
}

// The most that the bonds of a group can weigh in a plan.
fn room_weighs(inst: &Instance, group: &WeightedGroup) -> i128
    ensures value { result ≡ weigh_bonds group.now.weight (room inst.now group.now.edges) }
    ensures low { neg_ℤ (pos 600000000000000000) ≤ℤ result }
    ensures high { result ≤ℤ pos 600000000000000000 }
{
    let weight = i128::from(group.weight());
    if weight < 0 {
        weight
    } else {
        weight * i128::from(bond_room(inst, group.edges()))
    }
}
