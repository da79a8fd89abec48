// Bundles as a packing.
ghost use Rattle.std.specs.Prelude.{◌≡◌, ℕ, ◌+◌, ◌<◌, ◌≤◌, All, IfOk, length, slice_index};
ghost use Rattle.packing_trees.specs.Bundles.{AreBundles, IsChoice, bundle_count};
ghost use Rattle.fleet_pack.specs.Groups.{IsGrouping};
ghost use Rattle.fleet_pack.specs.States.{IsLight};
ghost use Rattle.fleet_pack.specs.Ranks.{rank};

use crate::grouping::Grouping;
use carp_base::{Instance, Memory};
use packing_trees::PackChoice;
use std::alloc::Global;

// For each number, how many bundles have a number from 1 to it.
fn ranks_of(alloc: Global, labels: &[u32]) -> Result<Vec<u32>, Memory>
    requires some { 1 ≤ length labels.now }
    requires few { length labels.now ≤ 601 }
    ensures long { IfOk result (λ ranks. length ranks.items ≡ length labels.now) }
    ensures ranks { IfOk result (λ ranks. (k : ℕ) → k < length ranks.items → slice_index ranks.items k ≡ rank labels.now k) }
{
    let mut ranks = Vec::new(alloc);
    let mut count = 0;
    ranks.push(count)?;
    for e in 1..labels.len() {
        count += u32::from(labels[e] as usize == e);
        ranks.push(count)?;
    }
    Ok(ranks)
}

// The rank of each edge's bundle, in the order of the edges.
fn groups_of(alloc: Global, labels: &[u32], ranks: &[u32]) -> Result<Vec<u32>, Memory>
    requires long { length ranks.now ≡ length labels.now }
    requires some { 1 ≤ length labels.now }
    requires within { (e : ℕ) → 1 ≤ e → e < length labels.now → slice_index labels.now e < length labels.now }
    ensures long { IfOk result (λ groups. length groups.items + 1 ≡ length labels.now) }
    ensures groups { IfOk result (λ groups. (k : ℕ) → k < length groups.items → slice_index groups.items k ≡ slice_index ranks.now (slice_index labels.now (k + 1))) }
{
    let mut groups = Vec::new(alloc);
    for e in 1..labels.len() {
        groups.push(ranks[labels[e] as usize])?;
    }
    Ok(groups)
}

/// The packing whose groups are the bundles of a branch, if each fits into a group.
pub(crate) fn grouping_of(
    alloc: Global,
    inst: &Instance,
    branch: &[PackChoice],
    labels: &[u32],
    weights: &[u64],
) -> Result<Grouping, Memory>
    requires bundles { AreBundles inst.now branch.now labels.now weights.now }
    requires choices { All (IsChoice inst.now) branch.now }
    requires light { IsLight inst.now branch.now }
    ensures grouping { IfOk result (IsGrouping inst.now) }
    ensures count { IfOk result (λ found. found.count ≡ bundle_count inst.now branch.now) }
{
    let required = inst.required() as usize;
    let ranks = ranks_of(alloc, labels)?;
    let groups = groups_of(alloc, labels, &ranks)?;
    Ok(Grouping {
        groups,
        count: ranks[required],
    })
}
