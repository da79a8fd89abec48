// What a branch is.
ghost use Rattle.std.specs.Prelude.{IfOk};
ghost use Rattle.branch_rules.specs.Limits.{AreShoresIn};
ghost use Rattle.decision_chains.specs.Pairs.{ArePairsIn};
ghost use Rattle.branch_tree.specs.Leaves.{IsOfKind};

use branch_rules::Branch;
use carp_base::{Instance, Memory};
use cut_pool::ShorePool;
use std::alloc::Global;

// Void, fixed, or neither.
#[derive(Clone, Copy, Debug, PartialEq, Eq)]
pub(crate) enum Kind {
    Void,
    Fixed,
    Open,
}

// What a branch is.
pub(crate) fn kind_of(
    alloc: Global,
    inst: &Instance,
    pool: &ShorePool,
    branch: &Branch,
) -> Result<Kind, Memory>
    requires pairs { ArePairsIn inst.now branch.now }
    requires shores { AreShoresIn inst.now pool.now branch.now }
    ensures { IfOk result (IsOfKind inst.now pool.now branch.now) }
{
    let void = branch.void(alloc, inst, pool)?;
    if void {
        return Ok(Kind::Void);
    }
    let fixed = branch.fixed(alloc, inst, pool)?;
    if fixed {
        return Ok(Kind::Fixed);
    }
    Ok(Kind::Open)
}
