// The edges of a chain in order.
ghost use Rattle.std.specs.Prelude.{◌≡◌, IfOk, false, length};
ghost use Rattle.decision_chains.specs.ChainWalks.{AreClosed, IsOrdered, IsWalked, is_marked};
ghost use Rattle.decision_chains.specs.ChainTables.{IsChainTable};
ghost use Rattle.decision_chains.specs.Exclusions.{AreJoined, IsChainEnd};
ghost use Rattle.carp_base.specs.Problem.{IsRequired};

use crate::{Chains, yes_pairs_join};
use carp_base::Memory;
use std::alloc::Global;

// The edges of the chain of an edge that is not marked yet, from one end to the other. They are marked.
pub(crate) fn order(
    alloc: Global,
    chains: &Chains<'_>,
    marks: &mut [bool],
    edge: u32,
) -> Result<Vec<u32>, Memory>
    requires table { IsChainTable chains.now }
    requires untangled { chains.now.tangled ≡ false }
    requires edge { IsRequired chains.now.inst.now edge }
    requires long { length marks.old ≡ chains.now.inst.now.required }
    requires free { is_marked marks.old edge ≡ false }
    requires closed { AreClosed chains.now.decisions.now marks.old }
    ensures { IfOk result (λ edges. IsOrdered chains.now edge marks.old edges.items marks.new) }
{
    yes_pairs_join();
    let end = far_end(alloc, chains, edge)?;
    walk(alloc, chains, marks, end)
}

// An end of the chain of an edge.
fn far_end(alloc: Global, chains: &Chains<'_>, edge: u32) -> Result<u32, Memory>
    requires table { IsChainTable chains.now }
    requires untangled { chains.now.tangled ≡ false }
    requires edge { IsRequired chains.now.inst.now edge }
    ensures required { IfOk result (IsRequired chains.now.inst.now) }
    ensures end { IfOk result (IsChainEnd chains.now.decisions.now) }
    ensures joined { IfOk result (AreJoined chains.now.decisions.now edge) }
{
    let mut marks = vec![in alloc; false; chains.inst.required() as usize]?;
    let edges = walk(alloc, chains, &mut marks, edge)?;
    Ok(edges[edges.len() - 1])
}

// The edges of a chain from one of them to an end, one after another along yes pairs. They are marked.
fn walk(
    alloc: Global,
    chains: &Chains<'_>,
    marks: &mut [bool],
    start: u32,
) -> Result<Vec<u32>, Memory>
    requires table { IsChainTable chains.now }
    requires untangled { chains.now.tangled ≡ false }
    requires start { IsRequired chains.now.inst.now start }
    requires long { length marks.old ≡ chains.now.inst.now.required }
    requires free { is_marked marks.old start ≡ false }
    requires closed { AreClosed chains.now.decisions.now marks.old }
    ensures { IfOk result (λ edges. IsWalked chains.now start marks.old edges.items marks.new) }
{
    yes_pairs_join();
    let mut edges = Vec::new(alloc);
    let (mut before, mut at) = (0, start);
    loop {
        edges.push(at)?;
        marks[at as usize - 1] = true;
        let Some(next) = chains.next(at, before) else {
            return Ok(edges);
        };
        before = at;
        at = next;
    }
}
