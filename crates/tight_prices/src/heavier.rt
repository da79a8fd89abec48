// The weights of a set with one of them greater.
ghost use Rattle.std.specs.Prelude.{◌≡◌, ℕ, ◌≤◌, ◌++◌, ◌+ℤ◌, [], pos, All, IfOk, OnOk, length, map};
ghost use Rattle.std.specs.List.Sorted.{IsStrictlyIncreasing};
ghost use Rattle.branch_rules.specs.Limits.{IsFineWeight, IsPriceNumber};
ghost use Rattle.tight_prices.specs.Places.{IsPlaceOf, IsRestOf};
ghost use Rattle.tight_prices.specs.Tight.{add_weight, put_weight, weight_on};

use branch_rules::{PriceSet, Weight};
use carp_base::Memory;
use std::alloc::Global;

/// The weights of a set.
pub(crate) fn weights_of(alloc: Global, set: &PriceSet) -> Result<Vec<Weight>, Memory>
    ensures { IfOk result (λ weights. weights.items ≡ set.now.weights) }
{
    let count = set.weights();
    let mut weights = Vec::with_capacity(alloc, count)?;
    for i in 0..count {
        weights.push(set.weight(i))?;
    }
    Ok(weights)
}

/// The weight on a shore, or 0 if there is none.
pub(crate) fn weight_in(set: &PriceSet, shore: u32) -> i64
    ensures value { result ≡ weight_on set.now.weights shore }
    ensures within { IsPriceNumber result }
{
    for i in 0..set.weights() {
        let weight = set.weight(i);
        if weight.shore == shore {
            return weight.weight;
        }
    }
    0
}

/// Weights with another one on a shore. A weight of 0 does not stand.
pub(crate) fn heavier(
    alloc: Global,
    all: &[Weight],
    shore: u32,
    weight: i64,
) -> Result<Vec<Weight>, Memory>
    requires fine { All IsFineWeight all.now }
    requires rising { IsStrictlyIncreasing (map (λ w. w.shore) all.now) }
    ensures { (more : ℕ) → weight ≡ (weight_on all.now shore +ℤ pos more) → IfOk result (λ weights. weights.items ≡ add_weight shore more all.now) }
{
    let place = place_of(all, shore);
    let rest = rest_of(all, shore, place);
    let mut weights = Vec::from_slice(alloc, &all[..place])?;
    put(&mut weights, shore, weight)?;
    weights.extend_from_slice(&all[rest..])?;
    Ok(weights)
}

// Where the weights on shores not below this one begin.
fn place_of(all: &[Weight], shore: u32) -> usize
    ensures { IsPlaceOf all.now shore result }
{
    for place in 0..all.len() {
        if shore <= all[place].shore {
            return place;
        }
    }
    all.len()
}

// Where the weights on shores above this one begin.
fn rest_of(all: &[Weight], shore: u32, place: usize) -> usize
    requires { IsPlaceOf all.now shore place }
    ensures rest { IsRestOf all.now shore place result }
    ensures within { result ≤ length all.now }
{
    if place == all.len() {
        return place;
    }
    if all[place].shore == shore {
        place + 1
    } else {
        place
    }
}

// Adds a weight, unless it is 0.
fn put(weights: &mut Vec<Weight>, shore: u32, weight: i64) -> Result<(), Memory>
    ensures { OnOk result (weights.new.items ≡ weights.old.items ++ put_weight shore weight []) }
{
    if weight == 0 {
        return Ok(());
    }
    weights.push(Weight { shore, weight })?;
    Ok(())
}
