// What a search found.
ghost use Rattle.std.specs.Prelude.{◌≡◌, ◌<◌, ◌++◌, ◌^◌, IfOk, OnOk, length, reverse};
ghost use Rattle.carp_base.specs.Problem.{Problem};
ghost use Rattle.fleet_pack.specs.States.{IsFinished, IsLeastValue, IsSearch, share_nodes};

use crate::search::{Search, closed_leaves};
use crate::share::Share;
use carp_base::Memory;
use packing_trees::{PackNode, Packing};

// The least value of these leaves, or the count where it is no greater.
fn least_value(shares: &[Share], count: u32) -> u32
    ensures { IsLeastValue count shares.now result }
{
    let mut least: u64 = u64::from(count);
    for share in shares {
        least = least.min(share.value);
    }
    least as u32
}

// Puts leaves behind the nodes, the last one first.
fn put_shares(nodes: &mut Vec<PackNode>, shares: &mut Vec<Share>) -> Result<(), Memory>
    ensures { OnOk result (nodes.new.items ≡ nodes.old.items ++ share_nodes (reverse shares.old.items)) }
{
    while let Some(share) = shares.pop() {
        nodes.push(PackNode::Share { s: share.s })?;
    }
    Ok(())
}

/// The best packing of a search, with the tree of which the leaves that are not done are leaves as they stand.
pub(crate) fn finish(search: Search) -> Result<Packing, Memory>
    requires { length search.nodes.items < 2 ^ 32 }
    ensures { (p : Problem) → IsSearch p search → IfOk result (IsFinished p search) }
{
    let Search {
        mut nodes,
        mut shares,
        best,
        ..
    } = search;
    let bound = least_value(&shares, best.count);
    let turns = (nodes.len() + closed_leaves(&shares, best.count)) as u64;
    put_shares(&mut nodes, &mut shares)?;
    Ok(Packing {
        groups: best.groups,
        count: best.count,
        bound,
        tree: nodes,
        turns,
    })
}
