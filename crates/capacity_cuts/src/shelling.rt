// The shores of the vertices beyond each distance from the depot.
ghost use Rattle.std.specs.Prelude.{◌≡◌, ◌<◌, ◌≤◌, ◌-◌, ◌++◌, ◌∷◌, [], nat_lt, IfOk, OnOk, if◌then◌else◌};
ghost use Rattle.carp_base.specs.Problem.{IsValid};
ghost use Rattle.deadhead_paths.specs.Prices.{costs_of};
ghost use Rattle.edge_components.specs.Listing.{vertices_where};
ghost use Rattle.capacity_cuts.specs.Levels.{AreShells, IsShell};
ghost use Rattle.capacity_cuts.specs.Lengths.{AreEnds, AreLengths, GoesOn, IsGap, is_past};

use crate::lengths::lengths_of;
use carp_base::{Instance, Memory};
use cut_pool::{Shore, Weighted};
use deadhead_paths::Distances;
use edge_components::vertices_are_listed;
use std::alloc::Global;

// Adds a vertex whose length is above a level.
fn add_past(vertices: &mut Vec<u32>, v: u32, length: u64, level: u64) -> Result<(), Memory>
    ensures { OnOk result (vertices.new.items ≡ vertices.old.items ++ (if nat_lt level length then v ∷ [] else [])) }
{
    if level < length {
        vertices.push(v)?;
    }
    Ok(())
}

// The vertices whose length is above a level, rising.
fn list_past(
    alloc: Global,
    inst: &Instance,
    lengths: &[u64],
    level: u64,
) -> Result<Vec<u32>, Memory>
    requires { AreLengths inst.now lengths.now }
    ensures { IfOk result (λ vertices. vertices.items ≡ vertices_where (is_past lengths.now level) inst.now.vertices) }
{
    let mut vertices = Vec::with_capacity(alloc, inst.vertices() as usize)?;
    for v in 1..inst.vertices() + 1 {
        add_past(&mut vertices, v, lengths[v as usize], level)?;
    }
    Ok(vertices)
}

// The shell between a level and the next length.
fn shell_between(
    alloc: Global,
    inst: &Instance,
    lengths: &[u64],
    level: u64,
    end: u64,
) -> Result<Weighted, Memory>
    requires valid { IsValid inst.now }
    requires lengths { AreLengths inst.now lengths.now }
    requires small { end ≤ 1000000000 }
    requires gap { IsGap inst.now lengths.now level end }
    ensures { IfOk result (λ shell. IsShell inst.now level (end - level) shell) }
{
    vertices_are_listed();
    let vertices = list_past(alloc, inst, lengths, level)?;
    Ok(Weighted {
        shore: Shore::from_list(alloc, &vertices)?,
        weight: (end - level) as i64,
    })
}

// The shells up to a level, and no vertex has a length between it and the next.
fn add_shell(
    alloc: Global,
    inst: &Instance,
    lengths: &[u64],
    level: u64,
    end: u64,
    shells: &mut Vec<Weighted>,
) -> Result<u64, Memory>
    requires valid { IsValid inst.now }
    requires lengths { AreLengths inst.now lengths.now }
    requires small { end ≤ 1000000000 }
    requires gap { level < end → IsGap inst.now lengths.now level end }
    ensures { IfOk result (λ next. GoesOn inst.now level end next shells.old.items shells.new.items) }
{
    if level < end {
        shells.push(shell_between(alloc, inst, lengths, level, end)?)?;
        Ok(end)
    } else {
        Ok(level)
    }
}

// The shells of all levels, where the lengths are given in order too.
fn list_shells(
    alloc: Global,
    inst: &Instance,
    lengths: &[u64],
    ends: &[u64],
) -> Result<Vec<Weighted>, Memory>
    requires valid { IsValid inst.now }
    requires lengths { AreLengths inst.now lengths.now }
    requires ends { AreEnds lengths.now ends.now }
    ensures { IfOk result (λ shells. AreShells inst.now shells.items) }
{
    let mut shells = Vec::new(alloc);
    let mut level = 0;
    for end in ends {
        level = add_shell(alloc, inst, lengths, level, *end, &mut shells)?;
    }
    Ok(shells)
}

// A list of numbers in order.
fn in_order(alloc: Global, lengths: &[u64]) -> Result<Vec<u64>, Memory>
    ensures { IfOk result (λ ends. AreEnds lengths.now ends.items) }
{
    let mut ends = Vec::from_slice(alloc, lengths)?;
    ends.sort_unstable();
    Ok(ends)
}

/// The level sets of the Shell bound with their numbers of levels, nearest first. The level set of each whole t from 0
/// on holds the vertices that the depot reaches at a distance by cost above t. Vertices that it does not reach stand in
/// none.
///
/// Each set stands once, with the number of levels at which it is the level set, and beyond them no vertex is left. The
/// weights pack within the costs of the edges, and the needs times the weights add up to the needs of all level sets
/// (see [`crate::shells_are_duals`]). It asks for distances by cost. The only error is want of memory. It takes one
/// sort of the distances, and time and memory in proportion to the vertices times the number of sets.
pub fn shells(alloc: Global, inst: &Instance, dist: &Distances) -> Result<Vec<Weighted>, Memory>
    requires problem { dist.now.problem ≡ inst.now }
    requires costs { dist.now.prices ≡ costs_of inst.now }
    ensures { IfOk result (λ shells. AreShells inst.now shells.items) }
{
    inst.validity();
    let lengths = lengths_of(alloc, inst, dist)?;
    let ends = in_order(alloc, &lengths)?;
    list_shells(alloc, inst, &lengths, &ends)
}
