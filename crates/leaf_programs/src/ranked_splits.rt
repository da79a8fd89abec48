// Splits in the order of what both children come to after a few steps.
ghost use Rattle.std.specs.Prelude.{All};
ghost use Rattle.cut_pool.specs.Pools.{IsGrown};
ghost use Rattle.cut_pool.specs.Shores.{Belongs};
ghost use Rattle.branch_rules.specs.Limits.{AreShoresIn};
ghost use Rattle.decision_chains.specs.Pairs.{ArePairsIn};

use crate::candidates::candidates;
use crate::poor::Poor;
use crate::trials::{Scored, is_poor, score};
use branch_rules::{Branch, Node};
use carp_base::{Instance, Memory};
use column_generation::Generation;
use cut_pool::ShorePool;
use std::alloc::Global;

/// Splits by what both children come to after a few steps, the best ones first.
pub(crate) fn ranked_splits(
    alloc: Global,
    inst: &Instance,
    pool: &mut ShorePool,
    branch: &Branch,
    generation: &mut Generation,
    poor: &mut Poor,
) -> Result<Vec<Scored>, Memory>
    requires pairs { ArePairsIn inst.now branch.now }
    requires shores { AreShoresIn inst.now pool.old branch.now }
    requires belong { All (Belongs inst.now) pool.old }
    ensures grown { IsGrown pool.old pool.new }
    ensures shores { AreShoresIn inst.now pool.new branch.now }
    ensures belong { All (Belongs inst.now) pool.new }
{
    let nodes = nodes_for(alloc, inst, pool, branch, generation, poor)?;
    rank_all(alloc, inst, pool, branch, generation, &nodes, poor)
}

// Splits that look worth a trial.
#[tactic(auto, using(crate::proofs::Grown::still_in))]
fn nodes_for(
    alloc: Global,
    inst: &Instance,
    pool: &mut ShorePool,
    branch: &Branch,
    generation: &Generation,
    poor: &Poor,
) -> Result<Vec<Node>, Memory>
    requires pairs { ArePairsIn inst.now branch.now }
    requires shores { AreShoresIn inst.now pool.old branch.now }
    requires belong { All (Belongs inst.now) pool.old }
    ensures grown { IsGrown pool.old pool.new }
    ensures shores { AreShoresIn inst.now pool.new branch.now }
    ensures belong { All (Belongs inst.now) pool.new }
{
    candidates(alloc, inst, pool, branch, generation, poor)
}

// Splits by what both children come to after a few steps, the best ones first. Those that gain nothing are noted.
fn rank_all(
    alloc: Global,
    inst: &Instance,
    pool: &ShorePool,
    branch: &Branch,
    generation: &mut Generation,
    nodes: &[Node],
    poor: &mut Poor,
) -> Result<Vec<Scored>, Memory>
    requires pairs { ArePairsIn inst.now branch.now }
    requires shores { AreShoresIn inst.now pool.now branch.now }
{
    let base = generation.value();
    let mut ranked = Vec::with_capacity(alloc, nodes.len())?;
    for node in nodes {
        let scored = score(alloc, inst, pool, branch, *node, generation)?;
        if is_poor(base, &scored) {
            poor.add(alloc, inst, pool, node)?;
        }
        add_ranked(scored, &mut ranked)?;
    }
    Ok(ranked)
}

// Adds a split behind those of no lower score.
fn add_ranked(scored: Scored, ranked: &mut Vec<Scored>) -> Result<(), Memory> {
    let place = ranked
        .iter()
        .filter(|other| other.score >= scored.score)
        .count();
    ranked.insert(place, scored)?;
    Ok(())
}
