// Few groups, and how many it takes at least.
ghost use Rattle.std.specs.Prelude.{◌≤◌, IfOk};
ghost use Rattle.fleet_pack.specs.Packed.{IsPacked};

use crate::ending::finish;
use crate::filling::improved;
use crate::first_fit::first_fit;
use crate::laws::lean_trees_are_small;
use crate::search::Search;
use carp_base::{Instance, Memory};
use packing_trees::{Packing, trees_bound_packings};
use std::alloc::Global;

/// A packing of the required edges, and a tree that proves how many groups every packing takes at least.
///
/// The packing has no more groups than first fit by falling demand takes (Johnson 1973). The tree is grown depth first,
/// by pairs that lie in one group or in two (Ryan and Foster 1981). The bounds at the leaves are those of Martello and
/// Toth 1990, section 8.3. If the best share of a leaf shows fewer groups than the best packing has, the leaf is split
/// at its heaviest open pair, the child in which the pair is together first. If no pair is open, its bundles are a
/// packing.
///
/// The search ends when each leaf has a value of at least the count, or when the turns are as many as allowed, 1 to
/// 1,048,576. The turns are the inner nodes and the leaves of at least that value. No clause says which share stands at
/// a leaf, or which open pair is split.
///
/// With m required edges a turn takes time in proportion to m * m, to m for each choice above the leaf at hand, and to
/// these choices for each pair that only a choice closes, and memory for a node. It gives [`Memory`] if there is not
/// enough memory.
pub fn pack(alloc: Global, inst: &Instance, turns: u64) -> Result<Packing, Memory>
    requires some { 1 ≤ turns }
    requires few { turns ≤ 1048576 }
    ensures { IfOk result (IsPacked inst.now turns) }
{
    inst.validity();
    trees_bound_packings();
    lean_trees_are_small();
    let best = improved(alloc, inst, first_fit(alloc, inst)?)?;
    let mut search = Search::begin(alloc, inst, best)?;
    search.run(alloc, inst, turns)?;
    finish(search)
}
