// The price sets that a tree names.
ghost use Rattle.std.specs.Prelude.{◌≡◌, ◌+◌, ◌≤◌, All, EachIndex, IfOk, OnErr, length, map, replicate, slice_index, false};
ghost use Rattle.grown_trees.specs.Growth.{IsSpelledNode};
ghost use Rattle.tree_transfer.specs.Named.{AreNamedSets, renumbered, renumbered_entry};
ghost use Rattle.tree_transfer.specs.NamedLaws.{NamedSetsSuffice};
ghost use Rattle.tree_transfer.specs.Naming.{AreMarked, AreNumbers, marked_by, marked_sets, number_in};

use branch_rules::{Node, PriceSet};
use carp_base::Memory;
use grown_trees::GrowingNode;
use std::alloc::Global;

/// The price sets that a price leaf among the nodes names, in their order. No other set stays. Each price leaf names
/// the set that it named, by its new number.
///
/// The only error is want of memory, and then the nodes are as they were. It takes time and memory in proportion to the
/// number of sets, and time in proportion to that of the nodes.
pub fn keep_named_sets(
    alloc: Global,
    sets: Vec<PriceSet>,
    nodes: &mut [GrowingNode],
) -> Result<Vec<PriceSet>, Memory>
    requires { All (λ entry. IsSpelledNode (length sets.items) entry.node) nodes.old }
    ensures named { IfOk result (λ kept. AreNamedSets sets.items kept.items nodes.old nodes.new) }
    ensures no_more { IfOk result (λ kept. length kept.items ≤ length sets.items) }
    ensures err { OnErr result (nodes.new ≡ nodes.old) }
{
    let marks = marks_of(alloc, sets.len(), nodes)?;
    let numbers = numbers_of(alloc, &marks)?;
    let kept = marked(alloc, sets, marks)?;
    renumber(nodes, &numbers);
    Ok(kept)
}

// A mark for each set that a price leaf names.
fn marks_of(alloc: Global, sets: usize, nodes: &[GrowingNode]) -> Result<Vec<bool>, Memory>
    requires { All (λ entry. IsSpelledNode sets entry.node) nodes.now }
    ensures { IfOk result (λ marks. AreMarked nodes.now sets marks.items) }
{
    let mut marks = vec![in alloc; false; sets]?;
    mark_all(&mut marks, nodes);
    Ok(marks)
}

// Marks the sets that nodes name, where none is marked before.
fn mark_all(marks: &mut [bool], nodes: &[GrowingNode])
    requires spelled { All (λ entry. IsSpelledNode (length marks.old) entry.node) nodes.now }
    requires none { marks.old ≡ replicate (length marks.old) false }
    ensures { AreMarked nodes.now (length marks.old) marks.new }
{
    for entry in nodes {
        mark(marks, &entry.node);
    }
}

// Marks the set that a node names.
fn mark(marks: &mut [bool], node: &Node)
    requires { IsSpelledNode (length marks.old) node.now }
    ensures { marks.new ≡ marked_by node.now marks.old }
{
    if let Node::Price { set } = *node {
        marks[set as usize - 1] = true;
    }
}

// For each mark how many are true up to it.
fn numbers_of(alloc: Global, marks: &[bool]) -> Result<Vec<usize>, Memory>
    ensures { IfOk result (λ numbers. AreNumbers marks.now numbers.items) }
{
    let mut numbers = Vec::with_capacity(alloc, marks.len())?;
    let mut number = 0;
    for is_named in marks {
        number += usize::from(*is_named);
        numbers.push(number)?;
    }
    Ok(numbers)
}

// The sets that are marked.
fn marked(alloc: Global, sets: Vec<PriceSet>, marks: Vec<bool>) -> Result<Vec<PriceSet>, Memory>
    ensures { IfOk result (λ kept. kept.items ≡ marked_sets marks.items sets.items) }
{
    let kept = sets
        .into_iter()
        .zip(marks)
        .filter(|pair| pair.1)
        .map(|pair| pair.0)
        .collect(alloc)?;
    Ok(kept)
}

// Gives the set of each price leaf its new number.
fn renumber(nodes: &mut [GrowingNode], numbers: &[usize])
    requires spelled { All (λ entry. IsSpelledNode (length numbers.now) entry.node) nodes.old }
    requires no_greater { EachIndex numbers.now (λ place. slice_index numbers.now place ≤ place + 1) }
    ensures { nodes.new ≡ map (renumbered_entry (number_in numbers.now)) nodes.old }
{
    for entry in nodes.iter_mut() {
        entry.node = renumbered_node(entry.node, numbers);
    }
}

// A node, whose set has its new number.
fn renumbered_node(node: Node, numbers: &[usize]) -> Node
    requires spelled { IsSpelledNode (length numbers.now) node }
    requires no_greater { EachIndex numbers.now (λ place. slice_index numbers.now place ≤ place + 1) }
    ensures { result ≡ renumbered (number_in numbers.now) node }
{
    match node {
        Node::Price { set } => Node::Price {
            set: numbers[set as usize - 1] as u32,
        },
        other => other,
    }
}

/// The price sets that a noted tree names are all that it needs: with their new numbers in its price leaves, it shows
/// each bound that it showed, and has the turns that it had.
pub fn named_sets_suffice()
    ensures { NamedSetsSuffice }
{}
