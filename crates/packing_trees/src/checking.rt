// The check of a packing with its tree.
ghost use Rattle.std.specs.Prelude.{◌^◌, ◌<◌, IfOk, length};
ghost use Rattle.packing_trees.specs.Claims.{claim_of};
ghost use Rattle.packing_trees.specs.Layers.{PackSays, claimed};
ghost use Rattle.packing_trees.specs.Reasons.{IsPackAnswer, ProvesBound};

use crate::grouping::groups_reason;
use crate::laws::trees_bound_packings;
use crate::shape::shape_reason;
use crate::walking::nodes_reason;
use crate::{PackAnswer, PackNode, PackReason, Packing};
use carp_base::{Instance, Memory};
use std::alloc::Global;

/// Whether the groups are a packing of the required edges with that count, and the tree proves the bound, or the first
/// reason why not. The order of the reasons is:
///
/// - how many groups there are, their numbers, that none is empty, and their loads;
/// - whether the nodes are one whole tree, and whether their pairs are of required edges;
/// - node by node in preorder, whether a pair is not closed yet, whether a leaf may stand there, and last its value.
///
/// The turns are not read. It asks for fewer than 2^32 groups and nodes. The only error is want of memory.
///
/// With m required edges and n nodes, none of them below more than d pairs, it takes time at most in proportion to
/// n * m * (m + d), and memory in proportion to m + d.
pub fn check_pack(alloc: Global, inst: &Instance, p: &Packing) -> Result<PackAnswer, Memory>
    requires few_groups { length p.now.groups.items < 2 ^ 32 }
    requires few_nodes { length p.now.tree.items < 2 ^ 32 }
    ensures answer { IfOk result (IsPackAnswer inst.now (claim_of p.now)) }
    ensures bound { IfOk result (ProvesBound inst.now (claim_of p.now)) }
{
    inst.validity();
    trees_bound_packings();
    match first_reason(alloc, inst, p.bound, &p.groups, p.count, &p.tree)? {
        Some(reason) => Ok(PackAnswer::Rejected(reason)),
        None => Ok(PackAnswer::Accepted),
    }
}

// The first reason why a packing and its tree are not what they claim to be, if they are not.
fn first_reason(
    alloc: Global,
    inst: &Instance,
    bound: u32,
    groups: &[u32],
    count: u32,
    nodes: &[PackNode],
) -> Result<Option<PackReason>, Memory>
    requires few_groups { length groups.now < 2 ^ 32 }
    requires few_nodes { length nodes.now < 2 ^ 32 }
    ensures { IfOk result (PackSays inst.now (claimed groups.now count bound nodes.now)) }
{
    let reason = groups_reason(alloc, inst, groups, count)?;
    if reason.is_some() {
        return Ok(reason);
    }
    let reason = shape_reason(inst, nodes);
    if reason.is_some() {
        return Ok(reason);
    }
    nodes_reason(alloc, inst, bound, nodes)
}
