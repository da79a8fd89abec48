// The best share of a branch.
ghost use Rattle.std.specs.Prelude.{◌≡◌, ◌+◌, ◌*◌, ◌<◌, ◌≤◌, All, IfOk, length};
ghost use Rattle.packing_trees.specs.Bundles.{IsChoice};
ghost use Rattle.fleet_pack.specs.States.{IsShare};

use carp_base::{Instance, Memory};
use packing_trees::{Bundles, PackChoice, bundles_of, share_value};
use std::alloc::Global;

/// The least weight that counts in a leaf's value, and that value: so many groups every packing that meets the leaf's
/// branch takes at least.
#[derive(Clone, Copy)]
pub(crate) struct Share {
    pub(crate) s: u64,
    pub(crate) value: u64,
}

// The weights of the bundles, the least first.
fn sorted_weights(alloc: Global, bundles: &Bundles) -> Result<Vec<u64>, Memory> {
    let mut weights = Vec::new(alloc);
    for weight in &bundles.weights {
        if *weight > 0 {
            weights.push(*weight)?;
        }
    }
    weights.sort_unstable();
    Ok(weights)
}

// The sums of the first weights: of none, of one, and so on.
fn sums_of(alloc: Global, weights: &[u64]) -> Result<Vec<u64>, Memory>
    ensures { IfOk result (λ sums. length sums.items ≡ length weights.now + 1) }
{
    let mut sums = Vec::new(alloc);
    let mut sum: u64 = 0;
    sums.push(sum)?;
    for weight in weights {
        sum = sum.saturating_add(*weight);
        sums.push(sum)?;
    }
    Ok(sums)
}

// The place, at most `end`, up to which the weights are at most a limit.
fn end_at(weights: &[u64], end: usize, limit: u64) -> usize
    requires { end ≤ length weights.now }
    ensures { result ≤ end }
{
    let mut end = end;
    while end > 0 && weights[end - 1] > limit {
        end -= 1;
    }
    end
}

// The value of a share: those from `alone` on stand alone, those from `half` on are large, and those from `least` on are middle ones.
fn value_at(sums: &[u64], least: usize, half: usize, alone: usize, capacity: u64) -> u64
    requires least { least < length sums.now }
    requires half { half < length sums.now }
    requires alone { alone < length sums.now }
    requires some { 1 ≤ capacity }
{
    let large = alone.saturating_sub(half) as u64;
    let room = large
        .saturating_mul(capacity)
        .saturating_sub(sums[alone].saturating_sub(sums[half]));
    let middle = sums[half].saturating_sub(sums[least]);
    let more = middle.saturating_sub(room).div_ceil(capacity);
    (sums.len() as u64 - 1)
        .saturating_sub(half as u64)
        .saturating_add(more)
}

// The share whose value is greatest, of 0 and the weights of at most half the capacity, in one pass over the sorted weights: as the
// share grows, fewer weights are below what it leaves, and fewer count.
fn best_size(weights: &[u64], sums: &[u64], capacity: u64) -> u64
    requires sums { length sums.now ≡ length weights.now + 1 }
    requires some { 1 ≤ capacity }
{
    let half = end_at(weights, weights.len(), capacity / 2);
    let mut alone = weights.len();
    let mut most = value_at(sums, 0, half, alone, capacity);
    let mut best = 0;
    for least in 0..half {
        let s = weights[least];
        alone = end_at(weights, alone, capacity.saturating_sub(s));
        let value = value_at(sums, least, half, alone, capacity);
        if value > most {
            most = value;
            best = s;
        }
    }
    best
}

// A share of at most half the capacity: this one, or 0.
fn lawful(s: u64, capacity: u64) -> u64
    ensures { 2 * result ≤ capacity }
{
    if s <= capacity / 2 { s } else { 0 }
}

// The share whose value is greatest for these bundles. It takes the time of sorting the bundles by their weights.
fn best_share(alloc: Global, inst: &Instance, bundles: &Bundles) -> Result<u64, Memory>
    ensures { IfOk result (λ s. 2 * s ≤ inst.now.capacity) }
{
    let capacity = inst.capacity();
    let weights = sorted_weights(alloc, bundles)?;
    let sums = sums_of(alloc, &weights)?;
    Ok(lawful(best_size(&weights, &sums, capacity), capacity))
}

/// The best share of a branch with its value (Martello and Toth 1990, section 8.3).
pub(crate) fn share_of(
    alloc: Global,
    inst: &Instance,
    branch: &[PackChoice],
) -> Result<Share, Memory>
    requires { All (IsChoice inst.now) branch.now }
    ensures { IfOk result (IsShare inst.now branch.now) }
{
    let bundles = bundles_of(alloc, inst, branch)?;
    let s = best_share(alloc, inst, &bundles)?;
    let value = share_value(inst, &bundles, s);
    Ok(Share { s, value })
}
