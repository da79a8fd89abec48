// The bundles that the choices of a branch make.
ghost use Rattle.std.specs.Prelude.{◌≡◌, ℕ, ◌+◌, ◌<◌, ◌++◌, ◌∷◌, [], List, All, IfOk, length, min, max, slice_index};
ghost use Rattle.packing_trees.specs.Bundles.{AreBundles, HasBundles, IsChoice, bundle_count, share_value};
ghost use Rattle.packing_trees.specs.Tables.{AreLabels, AreMerged, IsBelow, weight_to};
ghost use Rattle.packing_trees.specs.declared.node.PackChoice.{PackChoice};

use crate::PackChoice;
use crate::shares::{count_bundles, shares_of};
use carp_base::{Instance, Memory};
use std::alloc::Global;

/// The bundles of the required edges: the edges that together choices join, directly or by way of others, are one bundle,
/// and an edge without such a choice is one by itself. The number of a bundle is the least number of its edges.
#[derive(Drop)]
pub struct Bundles {
    /// At the place of each required edge's number, the number of its bundle. Place 0 is of no edge.
    pub labels: Vec<u32>,
    /// At the place of each bundle's number, the demand of its edges, at most 18,000,000. At the number of each other
    /// required edge, and at place 0, it is 0.
    pub weights: Vec<u64>,
}

/// The bundles of a branch, whose choices are on pairs of required edges.
///
/// With m required edges and d choices it takes time in proportion to m * (d + 1), and memory in proportion to m.
pub fn bundles_of(alloc: Global, inst: &Instance, branch: &[PackChoice]) -> Result<Bundles, Memory>
    requires { All (IsChoice inst.now) branch.now }
    ensures bundles { IfOk result (λ found. AreBundles inst.now branch.now found.labels.items found.weights.items) }
    ensures some { IfOk result (λ found. HasBundles inst.now found.labels.items found.weights.items) }
{
    let labels = labels_of(alloc, inst, branch)?;
    let weights = weights_of(alloc, inst, &labels)?;
    Ok(Bundles { labels, weights })
}

// At the place of each edge's number, the number of its bundle.
fn labels_of(alloc: Global, inst: &Instance, branch: &[PackChoice]) -> Result<Vec<u32>, Memory>
    requires { All (IsChoice inst.now) branch.now }
    ensures long { IfOk result (λ labels. length labels.items ≡ inst.now.required + 1) }
    ensures own { IfOk result (λ labels. AreLabels branch.now labels.items) }
{
    let mut labels = first_labels(alloc, inst)?;
    join_all(&mut labels, branch);
    Ok(labels)
}

// Each edge is a bundle by itself.
fn first_labels(alloc: Global, inst: &Instance) -> Result<Vec<u32>, Memory>
    ensures long { IfOk result (λ labels. length labels.items ≡ inst.now.required + 1) }
    ensures own { IfOk result (λ labels. AreLabels [] labels.items) }
{
    let mut labels = Vec::new(alloc);
    for edge in 0..inst.required() + 1 {
        labels.push(edge)?;
    }
    Ok(labels)
}

// One label is given up for another.
fn relabel(labels: &mut [u32], to: u32, from: u32)
    ensures { AreMerged to from labels.old labels.new }
{
    for i in 0..labels.len() {
        if labels[i] == from {
            labels[i] = to;
        }
    }
}

// Joins the bundles of two edges.
fn join(labels: &mut [u32], a: u32, b: u32)
    requires a_in { a < length labels.old }
    requires b_in { b < length labels.old }
    ensures { AreMerged (min (slice_index labels.old a) (slice_index labels.old b)) (max (slice_index labels.old a) (slice_index labels.old b)) labels.old labels.new }
{
    let (one, other) = (labels[a as usize], labels[b as usize]);
    relabel(labels, one.min(other), one.max(other));
}

// Takes one choice in.
fn follow(labels: &mut [u32], choice: &PackChoice)
    requires { IsBelow (length labels.old) choice.now }
    ensures { (branch : List PackChoice) → AreLabels branch labels.old → AreLabels (branch ++ choice.now ∷ []) labels.new }
{
    match *choice {
        PackChoice::Together { a, b } => join(labels, a, b),
        PackChoice::Apart { .. } => {}
    }
}

// Takes all choices in.
fn join_all(labels: &mut [u32], branch: &[PackChoice])
    requires below { All (IsBelow (length labels.old)) branch.now }
    requires own { AreLabels [] labels.old }
    ensures { AreLabels branch.now labels.new }
{
    for choice in branch {
        follow(labels, choice);
    }
}

// The weight of each bundle, at the place of its number.
fn weights_of(alloc: Global, inst: &Instance, labels: &[u32]) -> Result<Vec<u64>, Memory>
    requires long { length labels.now ≡ inst.now.required + 1 }
    requires within { (e : ℕ) → e < length labels.now → slice_index labels.now e < length labels.now }
    ensures long { IfOk result (λ weights. length weights.items ≡ inst.now.required + 1) }
    ensures each { IfOk result (λ weights. (l : ℕ) → l < length weights.items → slice_index weights.items l ≡ weight_to inst.now labels.now inst.now.required l) }
{
    let mut weights = vec![in alloc; 0; labels.len()]?;
    add_up(&mut weights, inst, labels);
    Ok(weights)
}

// Adds the demand of each edge to the weight of its bundle.
fn add_up(weights: &mut [u64], inst: &Instance, labels: &[u32])
    requires long { length labels.now ≡ inst.now.required + 1 }
    requires room { length weights.old ≡ length labels.now }
    requires none { (k : ℕ) → k < length weights.old → slice_index weights.old k ≡ 0 }
    requires within { (e : ℕ) → e < length labels.now → slice_index labels.now e < length labels.now }
    ensures { (l : ℕ) → l < length weights.new → slice_index weights.new l ≡ weight_to inst.now labels.now inst.now.required l }
{
    for edge in 1..inst.required() + 1 {
        let label = labels[edge as usize];
        weights[label as usize] += inst.edge(edge).demand;
    }
}

/// The value of a share of size `s` under the branch whose bundles these are (Martello and Toth 1990, section 8.3). If
/// `s` is at most half the capacity, every packing that meets the branch takes at least so many groups. That is
/// [`trees_bound_packings`](crate::trees_bound_packings), for a tree of only this leaf. It takes time in proportion to
/// the required edges.
pub fn share_value(inst: &Instance, bundles: &Bundles, s: u64) -> u64
    requires { HasBundles inst.now bundles.now.labels.items bundles.now.weights.items }
    ensures { (branch : List PackChoice) → AreBundles inst.now branch bundles.now.labels.items bundles.now.weights.items → result ≡ share_value inst.now branch s }
{
    let capacity = inst.capacity();
    shares_of(capacity, s, &bundles.labels, &bundles.weights).value(capacity)
}

/// How many bundles there are, at most 600. It takes time in proportion to the required edges.
pub fn bundle_count(inst: &Instance, bundles: &Bundles) -> u32
    requires { HasBundles inst.now bundles.now.labels.items bundles.now.weights.items }
    ensures { (branch : List PackChoice) → AreBundles inst.now branch bundles.now.labels.items bundles.now.weights.items → result ≡ bundle_count inst.now branch }
{
    inst.validity();
    count_bundles(&bundles.labels)
}
