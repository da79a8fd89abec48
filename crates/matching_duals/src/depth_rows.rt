// How deep each vertex lies in a set.
ghost use Rattle.std.specs.Prelude.{◌≡◌, ℕ, ◌+◌, ◌<◌, ◌≤◌, length, slice_index, IfOk};
ghost use Rattle.std.specs.List.{All};
ghost use Rattle.carp_base.specs.Problem.{IsVertex};
ghost use Rattle.matching_duals.specs.Paths.{far, AreReaches};
ghost use Rattle.matching_duals.specs.Sets.{AreDepths, depth_by};

use carp_base::{Instance, Memory};
use std::alloc::Global;

// The depth of a vertex for the set of these members: the least over them of twice the distance less the weights of
// the smaller sets that hold the member, and at most the set's own weight.
fn depth_of(table: &[u64], start: usize, enclosing: &[u64], weight: u64, members: &[u32]) -> u64
    requires rows { All (λ v. start + v < length table.now) members.now }
    requires enclosing { All (λ v. v < length enclosing.now) members.now }
    requires small { (k : ℕ) → slice_index table.now k ≤ far }
    ensures { result ≡ depth_by table.now start enclosing.now weight members.now }
{
    let mut least = weight;
    for i in 0..members.len() {
        let v = members[i] as usize;
        let depth = (2 * table[start + v]).saturating_sub(enclosing[v]);
        least = least.min(depth);
    }
    least
}

// The depth of each vertex, with 0 at place 0.
pub(crate) fn depths_of(
    alloc: Global,
    inst: &Instance,
    table: &[u64],
    enclosing: &[u64],
    weight: u64,
    members: &[u32],
) -> Result<Vec<u64>, Memory>
    requires table { AreReaches inst.now table.now }
    requires enclosing { length enclosing.now ≡ inst.now.vertices + 1 }
    requires members { All (IsVertex inst.now) members.now }
    ensures { IfOk result (λ depths. AreDepths inst.now table.now enclosing.now members.now weight depths.items) }
{
    let width = inst.vertices() as usize + 1;
    let mut depths = Vec::with_capacity(alloc, width)?;
    depths.push(0)?;
    for x in 1..width {
        depths.push(depth_of(table, x * width, enclosing, weight, members))?;
    }
    Ok(depths)
}
