// The nodes of a tree.
ghost use Rattle.std.specs.Prelude.{◌≡◌, ◌+◌, ◌<◌, ◌≤◌, ◌++◌, ◌∷◌, [], length, IfOk, vec_capacity};
ghost use Rattle.branch_rules.specs.Trees.{NodeList, node_at};

use crate::Node;
use carp_base::Memory;
use std::alloc::Global;
use std::marker::Model;

/// The nodes of a tree in preorder: each before its children, and all below the first child before the second child.
/// Any list of nodes can be kept, so a tree may be put down node by node.
///
/// Contracts see the list, and the number of nodes for which there is memory.
#[derive(Drop)]
pub struct Tree {
    nodes: Vec<Node>,
    room: usize,
    ghost taken: { room ≤ vec_capacity nodes },
}

impl Model for Tree {
    ghost use Rattle.std.specs.Prelude.{◌≤◌, length};
    ghost use Rattle.branch_rules.specs.Trees.{NodeList};

    ghost Value = { NodeList };

    ghost view = { λ t. record { nodes = t.nodes.items; room = t.room } };

    ghost invariant = { λ t. length t.nodes.items ≤ t.room };
}

impl Tree {
    /// The list of no nodes, with memory for so many. The only error is want of memory.
    pub fn new(alloc: Global, room: usize) -> Result<Tree, Memory>
        ensures { IfOk result (λ tree. tree ≡ record { nodes = []; room = room }) }
    {
        Ok(Tree {
            nodes: Vec::with_capacity(alloc, room)?,
            room,
        })
    }

    /// The number of nodes.
    pub fn len(&self) -> usize
        ensures { result ≡ length self.now.nodes }
    {
        self.nodes.len()
    }

    /// The node at a place from 0.
    pub fn node(&self, i: usize) -> Node
        requires { i < length self.now.nodes }
        ensures { result ≡ node_at self.now.nodes i }
    {
        self.nodes[i]
    }

    /// Puts a node last. It takes no memory.
    pub fn put_node(&mut self, n: Node)
        requires { length self.old.nodes < self.old.room }
        ensures { self.new ≡ record { nodes = self.old.nodes ++ n ∷ []; room = self.old.room } }
    {
        self.nodes.push(n).unwrap();
    }

    /// The number of nodes for which there is still memory.
    pub fn room_left(&self) -> usize
        ensures { length self.now.nodes + result ≡ self.now.room }
    {
        self.room - self.nodes.len()
    }
}
