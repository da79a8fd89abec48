// Which required edges may be neighbours.
ghost use Rattle.std.specs.Prelude.{◌≡◌, ◌<◌, IfOk, length};
ghost use Rattle.carp_base.specs.Allowed.{IsOf, IsRelation, AllowsAll, TakesOut, allows};
ghost use Rattle.carp_base.specs.Drafts.{entry_place};

use crate::{Instance, Memory};
use std::alloc::Global;
use std::marker::Model;

/// A symmetric relation on the required edges of an instance: which two of them may be served one directly after the
/// other. No edge is allowed with itself. It is a flat table, and each look and each change takes constant time.
#[derive(Drop)]
pub struct Allowed {
    size: usize,
    table: Vec<bool>,
}

impl Model for Allowed {
    ghost use Rattle.carp_base.specs.Allowed.{Relation, IsRelation};

    ghost Value = { Relation };

    ghost view = { λ r. record { size = r.size; table = r.table.items } };

    ghost invariant = { λ r. IsRelation (record { size = r.size; table = r.table.items }) };
}

impl Allowed {
    /// Each pair of different required edges is allowed. It takes time and memory in proportion to the square of the
    /// required edges.
    pub fn all(alloc: Global, inst: &Instance) -> Result<Allowed, Memory>
        ensures { IfOk result (AllowsAll inst.now.required) }
    {
        let size = inst.required() as usize;
        let mut table = vec![in alloc; true; size * size]?;
        for edge in 0..size {
            table[edge * size + edge] = false;
        }
        Ok(Allowed { size, table })
    }

    /// Whether two required edges may be neighbours.
    pub fn may(&self, a: u32, b: u32) -> bool
        requires a_is_edge { IsOf self.now a }
        requires b_is_edge { IsOf self.now b }
        ensures value { result ≡ allows self.now a b }
        ensures relation { IsRelation self.now }
    {
        self.table[self.place(a, b)]
    }

    /// Takes one pair out, in both orders. A pair that is out already stays out.
    pub fn exclude(&mut self, a: u32, b: u32)
        requires a_is_edge { IsOf self.old a }
        requires b_is_edge { IsOf self.old b }
        ensures { TakesOut self.old self.new a b }
    {
        let there = self.place(a, b);
        let back = self.place(b, a);
        self.table[there] = false;
        self.table[back] = false;
    }

    fn place(&self, a: u32, b: u32) -> usize
        requires a_is_edge { IsOf self.now a }
        requires b_is_edge { IsOf self.now b }
        ensures value { result ≡ entry_place self.now.size a b }
        ensures in_table { result < length self.now.table }
    {
        (a as usize - 1) * self.size + (b as usize - 1)
    }
}
