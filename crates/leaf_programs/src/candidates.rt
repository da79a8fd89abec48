// Splits of a leaf that look worth a trial.
ghost use Rattle.std.specs.Prelude.{All};
ghost use Rattle.cut_pool.specs.Pools.{IsGrown};
ghost use Rattle.cut_pool.specs.Shores.{Belongs};
ghost use Rattle.decision_chains.specs.Pairs.{ArePairsIn};

use crate::cuts::{Judge, add_cuts};
use crate::pairs::{add_pairs, pairs_of};
use crate::poor::Poor;
use branch_rules::{Branch, Node};
use carp_base::{Instance, Memory};
use column_generation::Generation;
use cut_pool::ShorePool;
use std::alloc::Global;

/// Splits that look worth a trial by the solution of a program: cuts first, and those that lie nearest the middle. The
/// shores of the cuts are placed in the pool.
pub(crate) fn candidates(
    alloc: Global,
    inst: &Instance,
    pool: &mut ShorePool,
    branch: &Branch,
    generation: &Generation,
    poor: &Poor,
) -> Result<Vec<Node>, Memory>
    requires pairs { ArePairsIn inst.now branch.now }
    requires belong { All (Belongs inst.now) pool.old }
    ensures grown { IsGrown pool.old pool.new }
    ensures belong { All (Belongs inst.now) pool.new }
{
    let solution = generation.solution(alloc, inst)?;
    let judge = Judge {
        inst,
        pool: &*pool,
        branch,
        deadheads: &solution.deadheads,
        poor,
    };
    let cuts = judge.cuts(alloc, generation)?;
    let mut nodes = Vec::new(alloc);
    add_cuts(inst, pool, cuts, &mut nodes)?;
    let allowed = branch.allowed(alloc, inst)?;
    let pairs = pairs_of(alloc, inst, branch, &allowed, &solution.flow, poor)?;
    add_pairs(&pairs, &mut nodes)?;
    Ok(nodes)
}
