// Groups that were found.
ghost use Rattle.std.specs.Prelude.{◌≡◌, nat_eq};
ghost use Rattle.std.specs.Cmp.Lexicographic.{pointwise};
ghost use Rattle.std.specs.Cmp.Rules.{comparing};
ghost use Rattle.std.proofs.Common.{rules};

use std::marker::Model;

/// A group of required edges. Contracts see their rising numbers.
#[derive(Drop)]
pub struct Group {
    edges: Vec<u32>,
}

impl Model for Group {
    ghost use Rattle.std.specs.Prelude.{List, ℕ};

    ghost Value = { List ℕ };

    ghost view = { λ g. g.edges.items };
}

impl PartialEq for Group {
    ghost eq = { pointwise nat_eq };

    ghost laws = { Prim.search (comparing, rules) };

    fn eq(&self, other: &Group) -> bool {
        self.edges == other.edges
    }
}

impl Eq for Group {
    ghost laws = { Prim.search (comparing, rules) };
}

impl Group {
    // The group of these edges.
    pub(crate) fn new(edges: Vec<u32>) -> Group
        ensures { result ≡ edges.items }
    {
        Group { edges }
    }

    /// The numbers of the edges, rising.
    pub fn edges(&self) -> &[u32]
        ensures { result.now ≡ self.now }
    {
        &self.edges
    }
}
