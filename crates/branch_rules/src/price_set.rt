// Prices of services, and weights on shores and on the bonds of groups.
ghost use Rattle.std.specs.Prelude.{◌≡◌, ◌<◌, ◌≤◌, pos, neg_ℤ, ◌≤ℤ◌, [], length, sum_by, IfErr, IfOk, OnOk, All};
ghost use Rattle.cut_pool.specs.Pools.{IsShoreNumber};
ghost use Rattle.deadhead_paths.specs.Prices.{ArePrices};
ghost use Rattle.branch_rules.specs.Bonds.{GroupWeight};
ghost use Rattle.branch_rules.specs.Limits.{IsFineGroup, IsFineWeight, IsPriceNumber, IsPriceSet};
ghost use Rattle.branch_rules.specs.Prices.{Prices, crossing_prices, crossing_weight, deadhead_price, price_in, signed_sum, weight_at};
ghost use Rattle.branch_rules.specs.Refusals.{NoneTooHeavy, RefusesHeavy};
ghost use Rattle.branch_rules.specs.Signs.{IsBelowNothing};

use crate::{Weight, WeightedGroup};
use carp_base::{Edge, Fail, Instance, Memory};
use cut_pool::ShorePool;
use std::alloc::Global;
use std::marker::Model;

/// Why a price set does not fit: the deadhead price of an edge is negative. The weights of the shores that the edge
/// crosses are more than the denominator times its cost.
#[derive(Clone, Copy, Debug, PartialEq, Eq)]
pub struct TooHeavy {
    /// The least such edge, from 1.
    pub edge: u32,
    /// Its deadhead price, below 0, in parts of the denominator.
    pub price: i128,
}

/// A price for each required edge, weights on shores, and weights on the bonds of groups (Bode and Irnich 2012). All
/// are whole parts of one denominator.
///
/// All are within 10^15 either way, on at most 600 services, 2,000 shores, and 2,000 groups of 60,000 edges together.
/// The denominator is 1 to 1,000,000. Contracts see them as they are.
#[derive(Drop)]
pub struct PriceSet {
    unit: u64,
    services: Vec<i64>,
    weights: Vec<Weight>,
    groups: Vec<WeightedGroup>,
}

impl Model for PriceSet {
    ghost use Rattle.branch_rules.specs.Prices.{Prices};
    ghost use Rattle.branch_rules.specs.Limits.{IsPriceSet};

    ghost Value = { Prices };

    ghost view = { λ s. record { unit = s.unit; services = s.services.items; weights = s.weights.items; groups = s.groups.items } };

    ghost invariant = { λ s. IsPriceSet (record { unit = s.unit; services = s.services.items; weights = s.weights.items; groups = s.groups.items }) };
}

impl PriceSet {
    /// The set of these prices, by the numbers of the required edges, and of these weights, which are not 0 and on
    /// shores of rising numbers, with no weights on groups. It takes time and memory in proportion to the numbers. The
    /// only error is want of memory.
    pub fn new(
        alloc: Global,
        unit: u64,
        services: &[i64],
        weights: &[Weight],
    ) -> Result<PriceSet, Memory>
        requires { IsPriceSet (record { unit = unit; services = services.now; weights = weights.now; groups = [] }) }
        ensures { IfOk result (λ set. set ≡ record { unit = unit; services = services.now; weights = weights.now; groups = [] }) }
    {
        Ok(PriceSet {
            unit,
            services: Vec::from_slice(alloc, services)?,
            weights: Vec::from_slice(alloc, weights)?,
            groups: Vec::new(alloc),
        })
    }

    /// The same prices and weights on shores, with these weights on the bonds of groups in place of those that it had.
    pub fn with_groups(self, groups: Vec<WeightedGroup>) -> PriceSet
        requires few { length groups.items ≤ 2000 }
        requires few_edges { sum_by (λ (w : GroupWeight). length w.edges) groups.items ≤ 60000 }
        requires fine { All IsFineGroup groups.items }
        ensures { result ≡ record { unit = self.unit; services = self.services; weights = self.weights; groups = groups.items } }
    {
        PriceSet {
            unit: self.unit,
            services: self.services,
            weights: self.weights,
            groups,
        }
    }

    /// The denominator, 1 to 1,000,000.
    pub fn unit(&self) -> u64
        ensures value { result ≡ self.now.unit }
        ensures fine { IsPriceSet self.now }
    {
        self.unit
    }

    /// The price of serving the edge of a number from 1.
    pub fn service(&self, e: u32) -> i64
        requires from_one { 1 ≤ e }
        requires in_range { e ≤ length self.now.services }
        ensures { result ≡ price_in self.now e }
    {
        self.services[e as usize - 1]
    }

    /// The number of prices of services, 0 to 600.
    pub fn services(&self) -> usize
        ensures value { result ≡ length self.now.services }
        ensures fine { IsPriceSet self.now }
    {
        self.services.len()
    }

    /// The number of weights, 0 to 2,000.
    pub fn weights(&self) -> usize
        ensures value { result ≡ length self.now.weights }
        ensures fine { IsPriceSet self.now }
    {
        self.weights.len()
    }

    /// The weight at a place from 0.
    pub fn weight(&self, i: usize) -> Weight
        requires { i < length self.now.weights }
        ensures { result ≡ weight_at self.now i }
    {
        self.weights[i]
    }

    /// The price of crossing each edge without service, in the order of the edges, in parts of the denominator. It is
    /// the denominator times the cost of the edge, less the weights of the shores that the edge crosses.
    ///
    /// It refuses the set with [`TooHeavy`] if such a price is negative, and only then. `Fail::Memory` says only that
    /// there was not enough memory. With m edges and k weights it takes time in proportion to m * k.
    pub fn edge_prices(
        &self,
        alloc: Global,
        inst: &Instance,
        pool: &ShorePool,
    ) -> Result<Vec<u64>, Fail<TooHeavy>>
        requires { All (λ w. IsShoreNumber pool.now w.shore) self.now.weights }
        ensures value { IfOk result (λ prices. prices.items ≡ crossing_prices inst.now pool.now self.now) }
        ensures fit { IfOk result (λ prices. ArePrices inst.now prices.items) }
        ensures accepted { OnOk result (NoneTooHeavy inst.now pool.now self.now) }
        ensures refused { IfErr result (RefusesHeavy inst.now pool.now self.now) }
    {
        let edges = inst.edges();
        let mut prices = Vec::with_capacity(alloc, edges.len())?;
        for edge in edges {
            match self.edge_price(pool, edge) {
                Ok(price) => prices.push(price)?,
                Err(price) => {
                    let edge = prices.len() as u32 + 1;
                    return Err(Fail::Refused(TooHeavy { edge, price }));
                }
            }
        }
        Ok(prices)
    }

    // The prices of services.
    pub(crate) fn prices(&self) -> &[i64]
        ensures value { result.now ≡ self.now.services }
        ensures fine { IsPriceSet self.now }
    {
        &self.services
    }

    /// The weights in order.
    pub fn shore_weights(&self) -> &[Weight]
        ensures value { result.now ≡ self.now.weights }
        ensures fine { IsPriceSet self.now }
    {
        &self.weights
    }

    /// The weights on the bonds of groups in order, at most 2,000.
    pub fn groups(&self) -> &[WeightedGroup]
        ensures value { result.now ≡ self.now.groups }
        ensures fine { IsPriceSet self.now }
    {
        &self.groups
    }

    /// The weights on the bonds of groups, as a list of its own. It takes time and memory in proportion to the edges of
    /// all groups. The only error is want of memory.
    pub fn copy_groups(&self, alloc: Global) -> Result<Vec<WeightedGroup>, Memory>
        ensures { IfOk result (λ groups. groups.items ≡ self.now.groups) }
    {
        let mut groups = Vec::with_capacity(alloc, self.groups.len())?;
        for i in 0..self.groups.len() {
            groups.push(self.groups[i].copy(alloc)?)?;
        }
        Ok(groups)
    }

    /// A set of other prices and of other weights on shores, with the same denominator and the same weights on groups.
    /// It takes time and memory in proportion to the numbers and to the edges of all groups. The only error is want of
    /// memory.
    pub fn rebuilt(
        &self,
        alloc: Global,
        services: &[i64],
        weights: &[Weight],
    ) -> Result<PriceSet, Memory>
        requires { IsPriceSet (record { unit = self.now.unit; services = services.now; weights = weights.now; groups = self.now.groups }) }
        ensures { IfOk result (λ set. set ≡ record { unit = self.now.unit; services = services.now; weights = weights.now; groups = self.now.groups }) }
    {
        Ok(PriceSet {
            unit: self.unit,
            services: Vec::from_slice(alloc, services)?,
            weights: Vec::from_slice(alloc, weights)?,
            groups: self.copy_groups(alloc)?,
        })
    }

    /// The same set, in time and memory as [`rebuilt`](PriceSet::rebuilt) takes. The only error is want of memory.
    pub fn copy(&self, alloc: Global) -> Result<PriceSet, Memory>
        ensures { IfOk result (λ set. set ≡ self.now) }
    {
        self.rebuilt(alloc, &self.services, &self.weights)
    }

    // The price of crossing an edge without service. A negative price is the error.
    fn edge_price(&self, pool: &ShorePool, edge: &Edge) -> Result<u64, i128>
        requires shores { All (λ w. IsShoreNumber pool.now w.shore) self.now.weights }
        requires cost { edge.now.cost ≤ 1000000 }
        ensures value { IfOk result (λ price. pos price ≡ deadhead_price pool.now self.now edge.now) }
        ensures small { IfOk result (λ price. price ≤ 4000000000000000000) }
        ensures negative { IfErr result (IsBelowNothing (deadhead_price pool.now self.now edge.now)) }
    {
        let full = self.unit as u128 * edge.cost as u128;
        unsigned(full as i128 - weights_across(&self.weights, pool, edge))
    }
}

// A number without its sign. A negative number is the error.
fn unsigned(number: i128) -> Result<u64, i128>
    requires low { neg_ℤ (pos 4000000000000000000) ≤ℤ number }
    requires high { number ≤ℤ pos 4000000000000000000 }
    ensures value { IfOk result (λ size. pos size ≡ number) }
    ensures negative { IfErr result (IsBelowNothing number) }
{
    if number < 0 {
        Err(number)
    } else {
        Ok(number as u64)
    }
}

// The weights of the shores that an edge crosses.
fn weights_across(weights: &[Weight], pool: &ShorePool, edge: &Edge) -> i128
    requires few { length weights.now ≤ 2000 }
    requires fine { All IsFineWeight weights.now }
    requires shores { All (λ w. IsShoreNumber pool.now w.shore) weights.now }
    ensures value { result ≡ signed_sum (crossing_weight pool.now edge.now) weights.now }
    ensures low { neg_ℤ (pos 2000000000000000000) ≤ℤ result }
    ensures high { result ≤ℤ pos 2000000000000000000 }
{
    let mut sum: i128 = 0;
    for weight in weights {
        sum += weight_across(weight, pool, edge);
    }
    sum
}

// What a weight takes off the price of an edge.
fn weight_across(weight: &Weight, pool: &ShorePool, edge: &Edge) -> i128
    requires number { IsShoreNumber pool.now weight.now.shore }
    requires within { IsPriceNumber weight.now.weight }
    ensures value { result ≡ crossing_weight pool.now edge.now weight.now }
    ensures within { IsPriceNumber result }
{
    if pool.shore(weight.shore).crosses(edge) {
        i128::from(weight.weight)
    } else {
        0
    }
}
