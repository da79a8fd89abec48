// The sides of the levels of one set, from the depths of all vertices.
ghost use Rattle.std.specs.Prelude.{◌≡◌, ◌≢◌, ℕ, ◌+◌, ◌-◌, ◌<◌, ◌≤◌, ◌++◌, ◌∷◌, [], length, max, slice_index, IfOk, OnOk, if◌then◌else◌};
ghost use Rattle.matching_duals.specs.Joins.{all_halves};
ghost use Rattle.matching_duals.specs.Levels.{Adds, AreEnds, AreJoined, AreSides, IsGap, on_side, side_list};

use crate::merging::add_shore;
use carp_base::{Instance, Memory};
use cut_pool::{Shore, Weighted};
use edge_components::vertices_are_listed;
use std::alloc::Global;

// Whether a vertex lies on the side without the depot of the vertices whose depth is at most a number.
fn is_on_side(depths: &[u64], level: u64, depot: usize, v: usize) -> bool
    requires depot { depot < length depths.now }
    requires vertex { v < length depths.now }
    ensures { result ≡ on_side depths.now level depot v }
{
    if depths[depot] <= level {
        level < depths[v]
    } else {
        depths[v] <= level
    }
}

// Adds a vertex to a side where it lies there.
fn add_where(side: &mut Vec<u32>, v: u32, there: bool) -> Result<(), Memory>
    ensures { OnOk result (side.new.items ≡ side.old.items ++ (if there then v ∷ [] else [])) }
{
    if there {
        side.push(v)?;
    }
    Ok(())
}

// The side of a level without the depot, rising.
fn list_side(alloc: Global, inst: &Instance, depths: &[u64], level: u64) -> Result<Vec<u32>, Memory>
    requires { length depths.now ≡ inst.now.vertices + 1 }
    ensures { IfOk result (λ side. side.items ≡ side_list inst.now depths.now level) }
{
    let depot = inst.depot() as usize;
    let mut side = Vec::new(alloc);
    for v in 1..inst.vertices() + 1 {
        add_where(&mut side, v, is_on_side(depths, level, depot, v as usize))?;
    }
    Ok(side)
}

// Adds the sides of the levels from one depth below the next, which are equal.
fn add_run(
    alloc: Global,
    inst: &Instance,
    depths: &[u64],
    level: u64,
    end: u64,
    shores: &mut Vec<Weighted>,
) -> Result<(), Memory>
    requires long { length depths.now ≡ inst.now.vertices + 1 }
    requires less { level < end }
    requires gap { IsGap inst.now depths.now level end }
    requires some { side_list inst.now depths.now level ≢ [] }
    requires joined { AreJoined shores.old.items }
    requires small { all_halves shores.old.items + (end - level) ≤ 4000000000000000 }
    ensures { OnOk result (Adds inst.now depths.now level end shores.old.items shores.new.items) }
{
    vertices_are_listed();
    inst.validity();
    let side = list_side(alloc, inst, depths, level)?;
    let shore = Shore::from_list(alloc, &side)?;
    add_shore(shores, shore, end - level)
}

// Adds the sides of the levels from a number below a depth, which may be no more than it.
fn add_levels_to(
    alloc: Global,
    inst: &Instance,
    depths: &[u64],
    level: u64,
    end: u64,
    shores: &mut Vec<Weighted>,
) -> Result<u64, Memory>
    requires long { length depths.now ≡ inst.now.vertices + 1 }
    requires gap { level < end → IsGap inst.now depths.now level end }
    requires some { level < end → side_list inst.now depths.now level ≢ [] }
    requires joined { AreJoined shores.old.items }
    requires small { all_halves shores.old.items + (end - level) ≤ 4000000000000000 }
    ensures next { IfOk result (λ next. next ≡ max level end) }
    ensures added { OnOk result (Adds inst.now depths.now level (max level end) shores.old.items shores.new.items) }
{
    if level < end {
        add_run(alloc, inst, depths, level, end, shores)?;
        Ok(end)
    } else {
        Ok(level)
    }
}

// The depths in order, with the weight behind them.
fn ends_of(alloc: Global, depths: &[u64], weight: u64) -> Result<Vec<u64>, Memory>
    requires { (k : ℕ) → slice_index depths.now k ≤ weight }
    ensures { IfOk result (λ ends. AreEnds depths.now weight ends.items) }
{
    let mut ends = Vec::from_slice(alloc, depths)?;
    ends.push(weight)?;
    ends.sort_unstable();
    Ok(ends)
}

// Adds the sides of all levels below a weight, where the depths are given in order.
fn add_ends(
    alloc: Global,
    inst: &Instance,
    depths: &[u64],
    weight: u64,
    ends: &[u64],
    shores: &mut Vec<Weighted>,
) -> Result<(), Memory>
    requires long { length depths.now ≡ inst.now.vertices + 1 }
    requires ends { AreEnds depths.now weight ends.now }
    requires sides { AreSides inst.now depths.now weight }
    requires joined { AreJoined shores.old.items }
    requires small { all_halves shores.old.items + weight ≤ 4000000000000000 }
    ensures { OnOk result (Adds inst.now depths.now 0 weight shores.old.items shores.new.items) }
{
    inst.validity();
    let mut level = 0;
    for end in ends {
        level = add_levels_to(alloc, inst, depths, level, *end, shores)?;
    }
    Ok(())
}

// Adds the sides of all levels below a weight, each with one half.
pub(crate) fn add_levels(
    alloc: Global,
    inst: &Instance,
    depths: &[u64],
    weight: u64,
    shores: &mut Vec<Weighted>,
) -> Result<(), Memory>
    requires long { length depths.now ≡ inst.now.vertices + 1 }
    requires most { (k : ℕ) → slice_index depths.now k ≤ weight }
    requires sides { AreSides inst.now depths.now weight }
    requires joined { AreJoined shores.old.items }
    requires small { all_halves shores.old.items + weight ≤ 4000000000000000 }
    ensures { OnOk result (Adds inst.now depths.now 0 weight shores.old.items shores.new.items) }
{
    let ends = ends_of(alloc, depths, weight)?;
    add_ends(alloc, inst, depths, weight, &ends, shores)
}
