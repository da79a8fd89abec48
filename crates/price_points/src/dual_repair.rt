// Weights that no street is overloaded by, and the deadhead prices that they leave.
ghost use Rattle.std.specs.Prelude.{◌≡◌, ◌≤◌, All, IfOk, length};
ghost use Rattle.price_points.specs.Limits.{most_price};
ghost use Rattle.deadhead_paths.specs.Prices.{ArePrices};
ghost use Rattle.route_pricing.specs.Pricing.{IsServicePrice};

use crate::constraints::Constraint;
use crate::numbers::{UNIT, clamped, number_at};
use crate::points::positive_weight;
use crate::ranks::{Ranked, sort_by_share};
use carp_base::{Edge, Instance, Memory};
use cut_pool::Shore;
use std::alloc::Global;

// No deadhead price is greater.
const MOST_PRICE: u64 = 4_000_000_000_000_000_000;

/// What is done if the weights of shores over one street are more than it may carry.
#[derive(Clone, Copy, PartialEq, Eq)]
pub enum Easing {
    /// All of them are cut in proportion.
    InProportion,
    /// Those with the greatest share of the value are kept, and the others cut.
    ByRank,
}

/// Weights, and the deadhead prices that they leave.
#[derive(Drop)]
pub(crate) struct Eased {
    pub(crate) weights: Vec<i64>,
    pub(crate) deadheads: Vec<u64>,
}

/// The weights, those of shores cut so far that no deadhead price is negative. Weights below 0 become 0. With E edges
/// and k weights it takes `E * k + k * log k` steps.
pub(crate) fn ease(
    alloc: Global,
    inst: &Instance,
    constraints: &[Constraint],
    weights: &[i64],
    easing: Easing,
) -> Result<Eased, Memory>
    ensures weights { IfOk result (λ eased. All IsServicePrice eased.weights.items) }
    ensures deadheads { IfOk result (λ eased. ArePrices inst.now eased.deadheads.items) }
{
    let edges = inst.edges();
    let ranks = ranks_of(alloc, constraints, weights)?;
    let mut lighter = positive_weights(alloc, weights)?;
    let mut deadheads = full_prices(alloc, inst)?;
    charge_all(edges, constraints, &lighter, &mut deadheads);
    if easing == Easing::InProportion {
        let loads = loads_of(alloc, edges, constraints, &lighter)?;
        cut_all(edges, constraints, &deadheads, &loads, &mut lighter);
    }
    ease_all(edges, constraints, &ranks, &mut lighter, &mut deadheads);
    Ok(Eased {
        weights: lighter,
        deadheads,
    })
}

// The places of the constraints, by falling shares.
fn ranks_of(
    alloc: Global,
    constraints: &[Constraint],
    weights: &[i64],
) -> Result<Vec<Ranked>, Memory> {
    let mut ranks = Vec::with_capacity(alloc, constraints.len())?;
    for place in 0..constraints.len() {
        let weight = number_at(weights, place);
        ranks.push(Ranked::new(weight, constraints[place].right_side(), place))?;
    }
    sort_by_share(&mut ranks);
    Ok(ranks)
}

fn positive_weights(alloc: Global, weights: &[i64]) -> Result<Vec<i64>, Memory>
    ensures { IfOk result (λ positive. All IsServicePrice positive.items) }
{
    let mut positive = Vec::with_capacity(alloc, weights.len())?;
    for weight in weights {
        positive.push(positive_weight(*weight))?;
    }
    Ok(positive)
}

// The deadhead prices without weights.
fn full_prices(alloc: Global, inst: &Instance) -> Result<Vec<u64>, Memory>
    ensures one_each { IfOk result (λ prices. length prices.items ≡ length inst.now.edges) }
    ensures small { IfOk result (λ prices. All (λ n. n ≤ most_price) prices.items) }
{
    let edges = inst.edges();
    let mut prices = Vec::with_capacity(alloc, edges.len())?;
    for edge in edges {
        prices.push(full_price(edge))?;
    }
    Ok(prices)
}

fn full_price(edge: &Edge) -> u64
    ensures { result ≤ most_price }
{
    edge.cost.saturating_mul(UNIT).min(MOST_PRICE)
}

// Adds the weights of shores over which there are to be few deadheads to the prices.
fn charge_all(edges: &[Edge], constraints: &[Constraint], weights: &[i64], prices: &mut [u64])
    requires { All (λ n. n ≤ most_price) prices.old }
    ensures { All (λ n. n ≤ most_price) prices.new }
{
    for place in 0..constraints.len() {
        if let Some(shore) = constraints[place].spares_over() {
            let weight = number_at(weights, place).max(0) as u64;
            put_on(edges, shore, prices, weight);
        }
    }
}

// Puts a weight on the prices over a shore.
fn put_on(edges: &[Edge], shore: &Shore, prices: &mut [u64], weight: u64)
    requires { All (λ n. n ≤ most_price) prices.old }
    ensures { All (λ n. n ≤ most_price) prices.new }
{
    for place in 0..edges.len().min(prices.len()) {
        if shore.crosses(&edges[place]) {
            prices[place] = prices[place].saturating_add(weight).min(MOST_PRICE);
        }
    }
}

// What the weights of shores over which there are to be deadheads sum to over each street.
fn loads_of(
    alloc: Global,
    edges: &[Edge],
    constraints: &[Constraint],
    weights: &[i64],
) -> Result<Vec<u64>, Memory> {
    let mut loads = Vec::with_capacity(alloc, edges.len())?;
    for edge in edges {
        loads.push(load_of(edge, constraints, weights))?;
    }
    Ok(loads)
}

fn load_of(edge: &Edge, constraints: &[Constraint], weights: &[i64]) -> u64 {
    let mut load: u64 = 0;
    for place in 0..constraints.len() {
        if constraints[place].of_edge(edge) > 0 {
            let weight = number_at(weights, place).max(0) as u64;
            load = load.saturating_add(weight);
        }
    }
    load
}

// Cuts each weight to as much as every street over its shore bears if all are cut in proportion.
fn cut_all(
    edges: &[Edge],
    constraints: &[Constraint],
    prices: &[u64],
    loads: &[u64],
    weights: &mut [i64],
)
    requires { All IsServicePrice weights.old }
    ensures { All IsServicePrice weights.new }
{
    for place in 0..constraints.len().min(weights.len()) {
        if let Some(shore) = constraints[place].asks_over() {
            weights[place] = least_share(edges, shore, prices, loads, weights[place]);
        }
    }
}

// The least share of a weight over the streets of a shore.
fn least_share(edges: &[Edge], shore: &Shore, prices: &[u64], loads: &[u64], weight: i64) -> i64
    requires { IsServicePrice weight }
    ensures { IsServicePrice result }
{
    let mut least = i128::from(weight);
    for place in 0..edges.len().min(prices.len()).min(loads.len()) {
        if shore.crosses(&edges[place]) {
            least = least.min(share(prices[place], loads[place], weight));
        }
    }
    clamped(least)
}

// As much of a weight as a street of this price bears if what weighs on it is cut in proportion.
fn share(price: u64, load: u64, weight: i64) -> i128 {
    let weight = i128::from(weight);
    if load <= price {
        weight
    } else {
        weight.saturating_mul(i128::from(price)) / i128::from(load)
    }
}

// Cuts the weights in this order, each to what the ones before it leave.
fn ease_all(
    edges: &[Edge],
    constraints: &[Constraint],
    ranks: &[Ranked],
    weights: &mut [i64],
    prices: &mut [u64],
)
    requires weights { All IsServicePrice weights.old }
    requires prices { All (λ n. n ≤ most_price) prices.old }
    ensures weights { All IsServicePrice weights.new }
    ensures prices { All (λ n. n ≤ most_price) prices.new }
{
    for rank in ranks {
        ease_at(edges, constraints, rank.place, weights, prices);
    }
}

// Cuts the weight at a place, if it is of a shore, and takes it off the prices.
fn ease_at(
    edges: &[Edge],
    constraints: &[Constraint],
    place: usize,
    weights: &mut [i64],
    prices: &mut [u64],
)
    requires weights { All IsServicePrice weights.old }
    requires prices { All (λ n. n ≤ most_price) prices.old }
    ensures weights { All IsServicePrice weights.new }
    ensures prices { All (λ n. n ≤ most_price) prices.new }
{
    if place < constraints.len() && place < weights.len() {
        if let Some(shore) = constraints[place].asks_over() {
            let weight = least_price(edges, shore, prices, weights[place]);
            weights[place] = weight;
            take_off(edges, shore, prices, weight.max(0) as u64);
        }
    }
}

// The weight, or the least price over the shore if that is less.
fn least_price(edges: &[Edge], shore: &Shore, prices: &[u64], weight: i64) -> i64
    requires { IsServicePrice weight }
    ensures { IsServicePrice result }
{
    let mut least = i128::from(weight);
    for place in 0..edges.len().min(prices.len()) {
        if shore.crosses(&edges[place]) {
            least = least.min(i128::from(prices[place]));
        }
    }
    clamped(least)
}

// Takes a weight off the prices over a shore.
fn take_off(edges: &[Edge], shore: &Shore, prices: &mut [u64], weight: u64)
    requires { All (λ n. n ≤ most_price) prices.old }
    ensures { All (λ n. n ≤ most_price) prices.new }
{
    for place in 0..edges.len().min(prices.len()) {
        if shore.crosses(&edges[place]) {
            prices[place] = prices[place].saturating_sub(weight);
        }
    }
}
