// Tables of surcharges.
ghost use Rattle.std.specs.Prelude.{◌≡◌, ℕ, ◌*◌, ◌≤◌, pos, ◌*ℤ◌, [], length, All, IfOk};
ghost use Rattle.std.specs.List.Sorted.{IsStrictlyIncreasing};
ghost use Rattle.branch_rules.specs.Bonds.{IsSurchargeTable, bond, entry, surcharge};
ghost use Rattle.branch_rules.specs.Limits.{IsPriceNumber, IsSurcharge};
ghost use Rattle.branch_rules.specs.Tables.{ArePlaced, IsAdded, group_amount, pair_amount, row_amount};

use crate::WeightedGroup;
use carp_base::Memory;
use std::alloc::Global;

/// The surcharge of each pair of so many required edges, a row for each edge. Each is within 2 * 10^18 either way.
/// Without groups the table is empty. The only error is want of memory.
///
/// For m edges it takes time in proportion to `m * m` and, for each group, to the square of its number of edges, and
/// memory in proportion to `m * m`. Without groups it takes neither.
pub fn surcharge_table(
    alloc: Global,
    required: u32,
    groups: &[WeightedGroup],
) -> Result<Vec<i64>, Memory>
    requires required { required ≤ 600 }
    requires groups { length groups.now ≤ 2000 }
    ensures table { IfOk result (λ table. IsSurchargeTable required groups.now table.items) }
    ensures within { IfOk result (λ table. All IsSurcharge table.items) }
    ensures empty { IfOk result (λ table. groups.now ≡ [] → table.items ≡ []) }
{
    if groups.is_empty() {
        return Ok(Vec::new(alloc));
    }
    let m = required as usize;
    let mut table = vec![in alloc; 0; m * m]?;
    add_groups(&mut table, required, groups);
    Ok(table)
}

// Adds the weight of each group to the numbers of its pairs.
fn add_groups(table: &mut [i64], required: u32, groups: &[WeightedGroup])
    requires few { required ≤ 600 }
    requires groups { length groups.now ≤ 2000 }
    requires long { length table.old ≡ required * required }
    requires none { All (λ z. z ≡ pos 0) table.old }
    ensures long { length table.new ≡ required * required }
    ensures same { (e f : ℕ) → ArePlaced required e f → entry required table.new e f ≡ surcharge groups.now e f }
    ensures within { All IsSurcharge table.new }
{
    for group in groups {
        add_group(table, required, group);
    }
}

// Adds the weight of a group to the number of each pair of its edges.
fn add_group(table: &mut [i64], required: u32, group: &WeightedGroup)
    requires few { required ≤ 600 }
    requires long { length table.old ≡ required * required }
    requires within { (e f : ℕ) → ArePlaced required e f → IsSurcharge (entry required table.old e f) }
    ensures added { IsAdded required table.old table.new (λ e f. group.now.weight *ℤ pos (bond group.now.edges e f)) }
    ensures weight { IsPriceNumber group.now.weight }
{
    add_members(table, required, group.edges(), group.weight());
}

// Adds a weight to the number of each pair of these edges.
fn add_members(table: &mut [i64], required: u32, edges: &[u32], weight: i64)
    requires few { required ≤ 600 }
    requires long { length table.old ≡ required * required }
    requires within { (e f : ℕ) → ArePlaced required e f → IsSurcharge (entry required table.old e f) }
    requires rising { IsStrictlyIncreasing edges.now }
    requires weight { IsPriceNumber weight }
    ensures { IsAdded required table.old table.new (group_amount weight edges.now edges.now) }
{
    for e in edges {
        add_row(table, required, *e, edges, weight);
    }
}

// Adds a weight to the number of each pair of one edge with these edges.
fn add_row(table: &mut [i64], required: u32, e: u32, edges: &[u32], weight: i64)
    requires few { required ≤ 600 }
    requires long { length table.old ≡ required * required }
    requires within { (f : ℕ) → ArePlaced required e f → IsSurcharge (entry required table.old e f) }
    requires rising { IsStrictlyIncreasing edges.now }
    requires weight { IsPriceNumber weight }
    ensures { IsAdded required table.old table.new (row_amount weight edges.now e) }
{
    for f in edges {
        add_pair(table, required, e, *f, weight);
    }
}

// Adds a weight to the number of one pair, if both are required edges.
fn add_pair(table: &mut [i64], required: u32, e: u32, f: u32, weight: i64)
    requires few { required ≤ 600 }
    requires long { length table.old ≡ required * required }
    requires within { ArePlaced required e f → IsSurcharge (entry required table.old e f) }
    requires weight { IsPriceNumber weight }
    ensures { IsAdded required table.old table.new (pair_amount weight e f) }
{
    if 1 <= e && e <= required && 1 <= f && f <= required {
        let place = (e as usize - 1) * required as usize + (f as usize - 1);
        table[place] += weight;
    }
}
