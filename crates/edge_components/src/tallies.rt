// What the edges at the border of each component add up to.
ghost use Rattle.std.specs.Prelude.{◌≡◌, ℕ, ◌+◌, ◌^◌, ◌<◌, ◌≤◌, ◌==◌, ◌||◌, not, ◌↔◌, length, slice_index, All, IfOk, IsTrue, if◌then◌else◌};
ghost use Rattle.cut_pool.specs.Shores.{required_crossings, touched};
ghost use Rattle.edge_components.specs.Parts.{AreParts, parts_over};
ghost use Rattle.edge_components.specs.Labels.{AreInRange, has_label};

use carp_base::{Instance, Memory};
use std::alloc::Global;

// Adds an amount at two places, where they differ.
fn add_across(tallies: &mut [u64], a: u32, b: u32, amount: u64)
    requires a { a < length tallies.old }
    requires b { b < length tallies.old }
    requires small { (k : ℕ) → slice_index tallies.old k + amount < 2 ^ 64 }
    ensures { (k : ℕ) → slice_index tallies.new k ≡ slice_index tallies.old k + (if (if a == k then not (b == k) else b == k) then amount else 0) }
{
    if a != b {
        tallies[a as usize] += amount;
        tallies[b as usize] += amount;
    }
}

// Adds an amount at two places, once where they are the same.
fn add_at_ends(tallies: &mut [u64], a: u32, b: u32, amount: u64)
    requires a { a < length tallies.old }
    requires b { b < length tallies.old }
    requires small { (k : ℕ) → slice_index tallies.old k + amount < 2 ^ 64 }
    ensures { (k : ℕ) → slice_index tallies.new k ≡ slice_index tallies.old k + (if (a == k) || (b == k) then amount else 0) }
{
    tallies[a as usize] += amount;
    if a != b {
        tallies[b as usize] += amount;
    }
}

// Counts the required edges between labels that differ.
fn count_crossings(inst: &Instance, labels: &[u32], tallies: &mut [u64])
    requires labels { AreInRange inst.now labels.now }
    requires long { length tallies.old ≡ inst.now.vertices + 1 }
    requires zero { (r : ℕ) → slice_index tallies.old r ≡ 0 }
    ensures counts { (r : ℕ) → slice_index tallies.new r ≡ required_crossings inst.now (has_label labels.now r) }
    ensures few { (r : ℕ) → slice_index tallies.new r ≤ 600 }
{
    for e in 1..inst.required() + 1 {
        let edge = inst.edge(e);
        add_across(tallies, labels[edge.u as usize], labels[edge.v as usize], 1);
    }
}

// Adds up the demand of the required edges at each label.
fn sum_demand(inst: &Instance, labels: &[u32], tallies: &mut [u64])
    requires labels { AreInRange inst.now labels.now }
    requires long { length tallies.old ≡ inst.now.vertices + 1 }
    requires zero { (r : ℕ) → slice_index tallies.old r ≡ 0 }
    ensures sums { (r : ℕ) → slice_index tallies.new r ≡ touched inst.now (has_label labels.now r) }
    ensures small { (r : ℕ) → slice_index tallies.new r ≤ 18000000 }
{
    for e in 1..inst.required() + 1 {
        let edge = inst.edge(e);
        add_at_ends(
            tallies,
            labels[edge.u as usize],
            labels[edge.v as usize],
            edge.demand,
        );
    }
}

// Adds up the parts on the edges between labels that differ.
fn sum_parts(inst: &Instance, labels: &[u32], x: &[u64], tallies: &mut [u64])
    requires labels { AreInRange inst.now labels.now }
    requires parts { AreParts inst.now x.now }
    requires long { length tallies.old ≡ inst.now.vertices + 1 }
    requires zero { (r : ℕ) → slice_index tallies.old r ≡ 0 }
    ensures sums { (r : ℕ) → slice_index tallies.new r ≡ parts_over inst.now x.now (has_label labels.now r) }
    ensures small { (r : ℕ) → slice_index tallies.new r ≤ 4000000000000000 }
{
    for i in 0..inst.edge_count() {
        let edge = inst.edge(i + 1);
        add_across(
            tallies,
            labels[edge.u as usize],
            labels[edge.v as usize],
            x[i as usize],
        );
    }
}

/// For each label the number of required edges with exactly one end at a vertex of this label, at most 600.
///
/// The number of label r stands at place r. No vertex has label 0. The only error is want of memory. It takes time and
/// memory in proportion to the vertices and required edges.
pub fn crossings_by_label(
    alloc: Global,
    inst: &Instance,
    labels: &[u32],
) -> Result<Vec<u64>, Memory>
    requires { AreInRange inst.now labels.now }
    ensures long { IfOk result (λ counts. length counts.items ≡ inst.now.vertices + 1) }
    ensures counts { IfOk result (λ counts. (r : ℕ) → slice_index counts.items r ≡ required_crossings inst.now (has_label labels.now r)) }
    ensures few { IfOk result (λ counts. (r : ℕ) → slice_index counts.items r ≤ 600) }
{
    let mut counts = vec![in alloc; 0; inst.vertices() as usize + 1]?;
    count_crossings(inst, labels, &mut counts);
    Ok(counts)
}

/// For each label the demand of the required edges with at least one end at a vertex of this label, at most 18,000,000.
/// An edge with both ends at such vertices counts once.
///
/// The sum of label r stands at place r. The only error is want of memory. It takes time and memory in proportion to
/// the vertices and required edges.
pub fn demand_by_label(alloc: Global, inst: &Instance, labels: &[u32]) -> Result<Vec<u64>, Memory>
    requires { AreInRange inst.now labels.now }
    ensures long { IfOk result (λ sums. length sums.items ≡ inst.now.vertices + 1) }
    ensures sums { IfOk result (λ sums. (r : ℕ) → slice_index sums.items r ≡ touched inst.now (has_label labels.now r)) }
    ensures small { IfOk result (λ sums. (r : ℕ) → slice_index sums.items r ≤ 18000000) }
{
    let mut sums = vec![in alloc; 0; inst.vertices() as usize + 1]?;
    sum_demand(inst, labels, &mut sums);
    Ok(sums)
}

/// For each label the parts on the edges with exactly one end at a vertex of this label, at most 4 * 10^15. An edge
/// between two vertices of one label counts nowhere. Parallel edges each count.
///
/// The sum of label r stands at place r. The only error is want of memory. It takes time and memory in proportion to
/// the vertices and edges.
pub fn parts_by_label(
    alloc: Global,
    inst: &Instance,
    labels: &[u32],
    x: &[u64],
) -> Result<Vec<u64>, Memory>
    requires labels { AreInRange inst.now labels.now }
    requires parts { AreParts inst.now x.now }
    ensures long { IfOk result (λ sums. length sums.items ≡ inst.now.vertices + 1) }
    ensures sums { IfOk result (λ sums. (r : ℕ) → slice_index sums.items r ≡ parts_over inst.now x.now (has_label labels.now r)) }
    ensures small { IfOk result (λ sums. (r : ℕ) → slice_index sums.items r ≤ 4000000000000000) }
{
    let mut sums = vec![in alloc; 0; inst.vertices() as usize + 1]?;
    sum_parts(inst, labels, x, &mut sums);
    Ok(sums)
}

/// Whether `x` has one number of parts for each edge, none above 10^12. It takes time in proportion to the edges.
pub fn are_parts(inst: &Instance, x: &[u64]) -> bool
    ensures { IsTrue result ↔ AreParts inst.now x.now }
{
    x.len() == inst.edge_count() as usize && are_small(x)
}

fn are_small(x: &[u64]) -> bool
    ensures { IsTrue result ↔ All (λ n. n ≤ 1000000000000) x.now }
{
    x.iter().all(|parts| *parts <= 1_000_000_000_000)
}
