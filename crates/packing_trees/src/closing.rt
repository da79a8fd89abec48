// Whether two bundles can lie in one group.
ghost use Rattle.std.specs.Prelude.{◌≡◌, ℕ, ◌<◌, ◌≤◌, ◌↔◌, ◌⊎◌, All, IfOk, IsTrue, length, slice_index};
ghost use Rattle.packing_trees.specs.Bundles.{AreAllClosed, AreBundles, IsChoice, IsClosedPair, IsPair};
ghost use Rattle.packing_trees.specs.Tables.{AreRefused, IsBelow, IsSmallTable, Marks, PartsLabels, RowIsClosed, RowIsHeavy, RowIsMarked, RowsAreClosed, SomePartsLabels};

use crate::{Bundles, PackChoice};
use carp_base::{Instance, Memory};
use std::alloc::Global;

/// Whether a pair of required edges, the lesser one first, is closed under the branch whose bundles these are: the edges
/// lie in one bundle, or in two that an apart choice parts or that together are above the capacity.
///
/// It takes no memory, and time in proportion to the choices.
pub fn is_closed(inst: &Instance, bundles: &Bundles, branch: &[PackChoice], a: u32, b: u32) -> bool
    requires bundles { AreBundles inst.now branch.now bundles.now.labels.items bundles.now.weights.items }
    requires choices { All (IsChoice inst.now) branch.now }
    requires pair { IsPair inst.now a b }
    ensures { IsTrue result ↔ IsClosedPair inst.now branch.now a b }
{
    let capacity = inst.capacity();
    let (one, other) = (bundles.labels[a as usize], bundles.labels[b as usize]);
    one == other
        || are_refused(
            capacity,
            &bundles.labels,
            &bundles.weights,
            branch,
            one,
            other,
        )
}

// Whether two bundles cannot lie in one group.
fn are_refused(
    capacity: u64,
    labels: &[u32],
    weights: &[u64],
    branch: &[PackChoice],
    one: u32,
    other: u32,
) -> bool
    requires table { IsSmallTable labels.now weights.now }
    requires below { All (IsBelow (length labels.now)) branch.now }
    requires from_one { 1 ≤ one }
    requires one_in { one < length labels.now }
    requires from_two { 1 ≤ other }
    requires other_in { other < length labels.now }
    ensures { IsTrue result ↔ AreRefused capacity labels.now weights.now branch.now one other }
{
    weights[one as usize] + weights[other as usize] > capacity
        || are_parted(labels, branch, one, other)
}

// Whether an apart choice stands between two bundles.
fn are_parted(labels: &[u32], branch: &[PackChoice], one: u32, other: u32) -> bool
    requires { All (IsBelow (length labels.now)) branch.now }
    ensures { IsTrue result ↔ SomePartsLabels labels.now branch.now one other }
{
    for choice in branch {
        if parts(labels, choice, one, other) {
            return true;
        }
    }
    false
}

// Whether a choice sets two bundles apart.
fn parts(labels: &[u32], choice: &PackChoice, one: u32, other: u32) -> bool
    requires { IsBelow (length labels.now) choice.now }
    ensures { IsTrue result ↔ PartsLabels labels.now choice.now one other }
{
    match *choice {
        PackChoice::Together { .. } => false,
        PackChoice::Apart { a, b } => {
            are_they(labels[a as usize], labels[b as usize], one, other)
        }
    }
}

// Whether two numbers are these two, in either order.
fn are_they(x: u32, y: u32, one: u32, other: u32) -> bool
    ensures { IsTrue result ↔ (((x ≡ one) × (y ≡ other)) ⊎ ((x ≡ other) × (y ≡ one))) }
{
    (x == one && y == other) || (x == other && y == one)
}

/// Whether each pair of required edges is closed under the branch whose bundles these are, so that no two bundles can
/// lie in one group.
///
/// With m required edges, n bundles and d choices it takes time in proportion to m + n * (m + d), and memory in
/// proportion to m. It looks at the choices only for bundles that are not too heavy beside each one of a greater
/// number.
pub fn all_closed(
    alloc: Global,
    inst: &Instance,
    bundles: &Bundles,
    branch: &[PackChoice],
) -> Result<bool, Memory>
    requires bundles { AreBundles inst.now branch.now bundles.now.labels.items bundles.now.weights.items }
    requires choices { All (IsChoice inst.now) branch.now }
    ensures { IfOk result (λ closed. IsTrue closed ↔ AreAllClosed inst.now branch.now) }
{
    let capacity = inst.capacity();
    let mut marks = vec![in alloc; 0u32; bundles.labels.len()]?;
    Ok(rows_closed(
        capacity,
        &bundles.labels,
        &bundles.weights,
        branch,
        &mut marks,
    ))
}

// Whether no two bundles can lie in one group.
fn rows_closed(
    capacity: u64,
    labels: &[u32],
    weights: &[u64],
    branch: &[PackChoice],
    marks: &mut [u32],
) -> bool
    requires table { IsSmallTable labels.now weights.now }
    requires within { (e : ℕ) → 1 ≤ e → e < length labels.now → slice_index labels.now e < length labels.now }
    requires below { All (IsBelow (length labels.now)) branch.now }
    requires room { length marks.old ≡ length labels.now }
    requires clear { (k : ℕ) → k < length labels.now → slice_index marks.old k ≡ 0 }
    ensures { IsTrue result ↔ RowsAreClosed capacity labels.now weights.now branch.now }
{
    for edge in 1..labels.len() as u32 {
        if labels[edge as usize] == edge
            && !row_closed(capacity, labels, weights, branch, marks, edge)
        {
            return false;
        }
    }
    true
}

// Whether a bundle can lie in one group with none of a greater number.
fn row_closed(
    capacity: u64,
    labels: &[u32],
    weights: &[u64],
    branch: &[PackChoice],
    marks: &mut [u32],
    one: u32,
) -> bool
    requires table { IsSmallTable labels.now weights.now }
    requires within { (e : ℕ) → 1 ≤ e → e < length labels.now → slice_index labels.now e < length labels.now }
    requires below { All (IsBelow (length labels.now)) branch.now }
    requires room { length marks.old ≡ length labels.now }
    requires from_one { 1 ≤ one }
    requires one_in { one < length labels.now }
    requires clear { (k : ℕ) → k < length labels.now → slice_index marks.old k < one }
    ensures closed { IsTrue result ↔ RowIsClosed capacity labels.now weights.now branch.now one }
    ensures clear { (k : ℕ) → k < length labels.now → slice_index marks.new k ≤ one }
{
    if row_heavy(capacity, labels, weights, one) {
        return true;
    }
    mark_parted(marks, labels, branch, one);
    row_marked(capacity, labels, weights, marks, one)
}

// Whether a bundle is too heavy beside each of a greater number.
fn row_heavy(capacity: u64, labels: &[u32], weights: &[u64], one: u32) -> bool
    requires table { IsSmallTable labels.now weights.now }
    requires from_one { 1 ≤ one }
    requires one_in { one < length labels.now }
    ensures { IsTrue result ↔ RowIsHeavy capacity labels.now weights.now one }
{
    for other in one as usize + 1..labels.len() {
        if labels[other] as usize == other && weights[one as usize] + weights[other] <= capacity {
            return false;
        }
    }
    true
}

// Whether a bundle is too heavy beside each of a greater number that has not its mark.
fn row_marked(capacity: u64, labels: &[u32], weights: &[u64], marks: &[u32], one: u32) -> bool
    requires table { IsSmallTable labels.now weights.now }
    requires room { length marks.now ≡ length labels.now }
    requires from_one { 1 ≤ one }
    requires one_in { one < length labels.now }
    ensures { IsTrue result ↔ RowIsMarked capacity labels.now weights.now marks.now one }
{
    for other in one as usize + 1..labels.len() {
        if labels[other] as usize == other
            && weights[one as usize] + weights[other] <= capacity
            && marks[other] != one
        {
            return false;
        }
    }
    true
}

// Gives the bundles that apart choices part from one its mark.
fn mark_parted(marks: &mut [u32], labels: &[u32], branch: &[PackChoice], one: u32)
    requires room { length marks.old ≡ length labels.now }
    requires within { (e : ℕ) → 1 ≤ e → e < length labels.now → slice_index labels.now e < length labels.now }
    requires below { All (IsBelow (length labels.now)) branch.now }
    requires clear { (k : ℕ) → k < length labels.now → slice_index marks.old k < one }
    ensures marked { (k : ℕ) → k < length labels.now → (slice_index marks.new k ≡ one) ↔ SomePartsLabels labels.now branch.now one k }
    ensures clear { (k : ℕ) → k < length labels.now → slice_index marks.new k ≤ one }
{
    for choice in branch {
        mark(marks, labels, choice, one);
    }
}

// Gives the bundle that one choice parts from one its mark.
fn mark(marks: &mut [u32], labels: &[u32], choice: &PackChoice, one: u32)
    requires room { length marks.old ≡ length labels.now }
    requires within { (e : ℕ) → 1 ≤ e → e < length labels.now → slice_index labels.now e < length labels.now }
    requires below { IsBelow (length labels.now) choice.now }
    requires clear { (k : ℕ) → k < length labels.now → slice_index marks.old k ≤ one }
    ensures marked { Marks labels.now choice.now one marks.old marks.new }
    ensures clear { (k : ℕ) → k < length labels.now → slice_index marks.new k ≤ one }
{
    match *choice {
        PackChoice::Together { .. } => {}
        PackChoice::Apart { a, b } => mark_other(
            marks,
            labels[a as usize],
            labels[b as usize],
            one,
        ),
    }
}

// Where one of two labels is this one, gives the other its mark.
fn mark_other(marks: &mut [u32], x: u32, y: u32, one: u32)
    requires x_in { x < length marks.old }
    requires y_in { y < length marks.old }
    requires clear { (k : ℕ) → k < length marks.old → slice_index marks.old k ≤ one }
    ensures marked { (k : ℕ) → k < length marks.old → (slice_index marks.new k ≡ one) ↔ ((slice_index marks.old k ≡ one) ⊎ (((x ≡ one) × (y ≡ k)) ⊎ ((x ≡ k) × (y ≡ one)))) }
    ensures clear { (k : ℕ) → k < length marks.old → slice_index marks.new k ≤ one }
{
    if x == one {
        marks[y as usize] = one;
    } else if y == one {
        marks[x as usize] = one;
    }
}
