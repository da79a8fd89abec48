// The nodes of a tree, each with the greatest bound that it shows.
ghost use Rattle.std.specs.Prelude.{◌≡◌, ◌+◌, ◌<◌, IfOk, OnOk, length, map};
ghost use Rattle.std.specs.List.{All};
ghost use Rattle.deadhead_paths.specs.Prices.{costs_of};
ghost use Rattle.branch_rules.specs.Limits.{IsNodeIn};
ghost use Rattle.grown_trees.specs.Places.{IsFineNode};
ghost use Rattle.tree_transfer.specs.Bounding.{IsGiven, support_in};
ghost use Rattle.tree_transfer.specs.Noting.{AreAllNoted, NotesAt};
ghost use Rattle.tree_transfer.specs.Shown.{AreNotedNodes, AreTreeNodes, HasShores, WouldShowSome};

use crate::bounding::{Given, shown_by};
use branch_rules::{Path, PriceSet, Tree};
use carp_base::{Instance, Memory};
use cut_pool::ShorePool;
use deadhead_paths::Distances;
use grown_trees::GrowingNode;
use std::alloc::Global;

/// The nodes of a tree in preorder, each with the greatest bound that it shows by itself, as trees have them that grow
/// at their leaves (`grown_trees`). What a leaf shows is as in [`greatest_bound`](crate::greatest_bound), and so are
/// the tree and the distances.
///
/// The only error is want of memory. It takes time as `greatest_bound` does, and memory for so many nodes.
pub fn note_nodes(
    alloc: Global,
    inst: &Instance,
    pool: &ShorePool,
    sets: &[PriceSet],
    dist: &Distances,
    tree: &Tree,
) -> Result<Vec<GrowingNode>, Memory>
    requires problem { dist.now.problem ≡ inst.now }
    requires prices { dist.now.prices ≡ costs_of inst.now }
    requires nodes { AreTreeNodes inst.now pool.now tree.now.nodes }
    requires shows { WouldShowSome (record { problem = inst.now; pool = pool.now; sets = sets.now }) tree.now.nodes }
    requires shores { HasShores (record { problem = inst.now; pool = pool.now; sets = sets.now }) }
    ensures noted { IfOk result (λ entries. AreNotedNodes (record { problem = inst.now; pool = pool.now; sets = sets.now }) tree.now.nodes entries.items) }
    ensures nodes { IfOk result (λ entries. map (λ entry. entry.node) entries.items ≡ tree.now.nodes) }
{
    let given = Given {
        inst,
        pool,
        sets,
        dist,
    };
    note_all(alloc, &given, tree)
}

// The nodes of a tree, each with the greatest bound that it shows.
fn note_all(alloc: Global, given: &Given<'_>, tree: &Tree) -> Result<Vec<GrowingNode>, Memory>
    requires given { IsGiven given.now }
    requires inside { All (IsNodeIn given.now.inst.now given.now.pool.now) tree.now.nodes }
    requires fine { All IsFineNode tree.now.nodes }
    requires shows { WouldShowSome (support_in given.now) tree.now.nodes }
    ensures { IfOk result (λ entries. AreAllNoted (support_in given.now) tree.now.nodes entries.items) }
{
    let mut path = Path::new(alloc);
    let mut entries = Vec::with_capacity(alloc, tree.len())?;
    for place in 0..tree.len() {
        note_node(alloc, given, tree, place, &mut path, &mut entries)?;
    }
    Ok(entries)
}

// The node at a place, with the greatest bound that it shows. The path goes past the node.
fn note_node(
    alloc: Global,
    given: &Given<'_>,
    tree: &Tree,
    place: usize,
    path: &mut Path,
    entries: &mut Vec<GrowingNode>,
) -> Result<(), Memory>
    requires given { IsGiven given.now }
    requires inside { All (IsNodeIn given.now.inst.now given.now.pool.now) tree.now.nodes }
    requires fine { All IsFineNode tree.now.nodes }
    requires place { place < length tree.now.nodes }
    requires at { NotesAt (support_in given.now) tree.now.nodes place path.old entries.old.items }
    ensures { OnOk result (NotesAt (support_in given.now) tree.now.nodes (place + 1) path.new entries.new.items) }
{
    let node = tree.node(place);
    let shows = shown_by(alloc, given, path.branch(), &node)?;
    path.pass(&node)?;
    entries.push(GrowingNode { node, shows })?;
    Ok(())
}
