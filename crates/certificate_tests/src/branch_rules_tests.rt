// Answers of weights on groups, of lists of nodes and of ways through them, for the cases of `data/branch_rules`.
ghost use Rattle.std.specs.Prelude.{◌≤◌, IfOk, OnOk, length};
ghost use Rattle.branch_rules.specs.Paths.{IsFineSplit, IsPath};

use branch_rules::{Node, Path, Tree, WeightedGroup, bond_room, surcharge_of};
use samples::{instance_of, listed, numbers32, yes_or_no};
use std::alloc::Global;
use std::test::Fail;

pub fn answer(alloc: Global, over: &str, call: &str, input: &str) -> Result<String, Fail> {
    match call {
        "room" => room(alloc, over, input),
        "surcharge" => surcharge(alloc, input),
        "whole" => whole(alloc, input),
        "left" => left(alloc, input),
        _ => Err("no such call")?,
    }
}

// The most bonds of a group.
fn room(alloc: Global, over: &str, input: &str) -> Result<String, Fail> {
    let inst = instance_of(alloc, over)?;
    let edges = numbers32(alloc, input)?;
    if edges.len() > 600 {
        Err("at most 600 edges")?
    }
    let room = bond_room(&inst, &edges);
    Ok(listed(alloc, &[room])?)
}

// A weight of 5 on three edges, one of 7 on two of these and a fourth, and one of -4 on a pair.
fn three_groups(alloc: Global) -> Result<Vec<WeightedGroup>, Fail>
    ensures { IfOk result (λ groups. length groups.items ≤ 2000) }
{
    let mut groups = Vec::with_capacity(alloc, 3)?;
    groups.push(WeightedGroup::new(alloc, &[1, 2, 3], 5)?)?;
    groups.push(WeightedGroup::new(alloc, &[2, 3, 4], 7)?)?;
    groups.push(WeightedGroup::new(alloc, &[1, 2], -4)?)?;
    Ok(groups)
}

// What these weights come to if one edge follows another.
fn surcharge(alloc: Global, input: &str) -> Result<String, Fail> {
    let groups = three_groups(alloc)?;
    let edges = numbers32(alloc, input)?;
    match edges.as_slice() {
        [e, f] => Ok(listed(alloc, &[surcharge_of(&groups, *e, *f)])?),
        _ => Err("two edges")?,
    }
}

// The node of a text.
fn node_of(alloc: Global, text: &str) -> Result<Node, Fail>
    ensures { IfOk result IsFineSplit }
{
    let (kind, rest) = text.split_once(' ').unwrap_or((text, ""));
    let numbers = numbers32(alloc, rest)?;
    match (kind, numbers.as_slice()) {
        ("pair", [a, b]) => Ok(Node::Pair { a: *a, b: *b }),
        ("price", [set]) => Ok(Node::Price { set: *set }),
        ("void", []) => Ok(Node::Void),
        _ => Err("no such node")?,
    }
}

// Goes past a node, where one is still to come.
fn pass(path: &mut Path, node: &Node) -> Result<(), Fail>
    requires path { IsPath path.old }
    requires fine { IsFineSplit node.now }
    ensures { OnOk result (IsPath path.new) }
{
    if path.is_whole() {
        return Err("no node is to come")?;
    }
    path.pass(node)?;
    Ok(())
}

// Whether the nodes are those of a whole tree.
fn whole(alloc: Global, input: &str) -> Result<String, Fail> {
    let mut path = Path::new(alloc);
    for part in input.split(',') {
        let node = node_of(alloc, part.trim())?;
        pass(&mut path, &node)?;
    }
    Ok(yes_or_no(alloc, path.is_whole())?)
}

// For how many nodes a list has room, and for how many once it has one.
fn left(alloc: Global, input: &str) -> Result<String, Fail> {
    let room = input.parse::<usize>()?;
    let mut tree = Tree::new(alloc, room)?;
    if room == 0 {
        Err("room for a node")?
    }
    let before = tree.room_left();
    tree.put_node(Node::Void);
    Ok(listed(alloc, &[before, tree.room_left()])?)
}
