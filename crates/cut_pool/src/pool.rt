// Shores in the order of discovery.
ghost use Rattle.std.specs.Prelude.{◌≡◌, ◌+◌, ◌<◌, ◌≤◌, ◌++◌, ◌∷◌, [], length, IfErr, IfOk, IsErr, IsOkAnd, MatchOption, OnErr, OnOk};
ghost use Rattle.cut_pool.specs.Pools.{AreDifferent, Holds, IsHeldAs, IsShoreNumber, RefusesShore, shore_at};

use crate::Shore;
use carp_base::{Fail, Memory};
use indexmap::IndexSet;
use std::alloc::Global;
use std::marker::Model;

/// How many shores a pool holds at most.
pub const MOST_SHORES: usize = 2000;

/// The pool holds 2,000 shores already.
#[derive(Clone, Copy, Debug, PartialEq, Eq)]
pub struct PoolFull;

/// At most 2,000 shores, all different, numbered from 1 in the order of discovery. Contracts see the list of their lists.
#[derive(Drop)]
pub struct ShorePool {
    shores: IndexSet<Shore>,
}

impl Model for ShorePool {
    ghost use Rattle.std.specs.Prelude.{List, ℕ, ◌≤◌, length};

    ghost Value = { List (List ℕ) };

    ghost view = { λ p. p.shores.keys };

    ghost invariant = { λ p. length p.shores.keys ≤ 2000 };
}

impl ShorePool {
    /// The pool of no shores.
    pub fn new(alloc: Global) -> ShorePool
        ensures { result ≡ [] }
    {
        ShorePool {
            shores: IndexSet::new(alloc),
        }
    }

    /// The number of the equal shore that is there. If there is none, the shore is placed last and gets the next
    /// number.
    ///
    /// A shore that is there is always found, and the pool stays as it is. `PoolFull` comes exactly if 2,000 shores are
    /// held and none is equal. A refused shore is dropped, and the pool stays as it was. It takes expected time in
    /// proportion to the number of the shore's vertices.
    pub fn add(&mut self, s: Shore) -> Result<u32, Fail<PoolFull>>
        ensures held { Holds self.old s → IsOkAnd result (IsHeldAs self.old s) × (self.new ≡ self.old) }
        ensures placed { ¬ (Holds self.old s) → IfOk result (λ number. (number ≡ length self.old + 1) × (self.new ≡ self.old ++ s ∷ [])) }
        ensures full { ¬ (Holds self.old s) → length self.old ≡ 2000 → IsErr result }
        ensures refused { IfErr result (RefusesShore self.old s) }
        ensures err { OnErr result (self.new ≡ self.old) }
    {
        if let Some(number) = self.number_of(&s) {
            return Ok(number);
        }
        if self.shores.len() == MOST_SHORES {
            return Err(Fail::Refused(PoolFull));
        }
        self.place(s)?;
        Ok(self.len())
    }

    /// The number of shores, 0 to 2,000. It takes constant time.
    pub fn len(&self) -> u32
        ensures value { result ≡ length self.now }
        ensures few { length self.now ≤ 2000 }
        ensures different { AreDifferent self.now }
    {
        self.shores.len() as u32
    }

    /// The shore of a number, from 1 to the number of shores. It takes constant time.
    pub fn shore(&self, i: u32) -> &Shore
        requires { IsShoreNumber self.now i }
        ensures { result.now ≡ shore_at self.now i }
    {
        &self.shores[i as usize - 1]
    }

    // The number of the equal shore.
    fn number_of(&self, s: &Shore) -> Option<u32>
        ensures { MatchOption result (¬ (Holds self.now s.now)) (IsHeldAs self.now s.now) }
    {
        let place = self.shores.get_index_of(s)?;
        Some(place as u32 + 1)
    }

    // Places a new shore last.
    fn place(&mut self, s: Shore) -> Result<(), Memory>
        requires new { ¬ (Holds self.old s) }
        requires room { length self.old < 2000 }
        ensures ok { OnOk result (self.new ≡ self.old ++ s ∷ []) }
        ensures err { OnErr result (self.new ≡ self.old) }
    {
        self.shores.insert(s)?;
        Ok(())
    }
}
