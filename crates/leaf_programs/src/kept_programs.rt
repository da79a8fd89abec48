// Programs that are kept for the leaves that name a price set.
ghost use Rattle.std.specs.Prelude.{◌<◌, IfSome, length};

use branch_rules::Decision;
use carp_base::Memory;
use column_generation::Kept;
use std::alloc::Global;

// A program for the leaves that name a set.
#[derive(Drop)]
struct KeptProgram {
    // The number of the set.
    set: u32,
    // The last decision of the leaf, or `None` for each leaf that names the set.
    last: Option<Decision>,
    kept: Kept,
}

/// Programs by the number of the price set that leaves name.
#[derive(Drop)]
pub(crate) struct KeptPrograms {
    entries: Vec<KeptProgram>,
}

impl KeptPrograms {
    /// No programs.
    pub(crate) fn new(alloc: Global) -> KeptPrograms {
        KeptPrograms {
            entries: Vec::new(alloc),
        }
    }

    /// Keeps a program for the leaves that name a set: for the leaf of this last decision, or for each of them.
    pub(crate) fn put(
        &mut self,
        set: u32,
        last: Option<Decision>,
        kept: Kept,
    ) -> Result<(), Memory> {
        self.entries.push(KeptProgram { set, last, kept })?;
        Ok(())
    }

    /// The program for a leaf: that of the leaf's own last decision, or else that of each leaf that names the set.
    pub(crate) fn find(&self, set: u32, last: Option<Decision>) -> Option<&Kept> {
        match self.at(set, last) {
            Some(kept) => Some(kept),
            None => self.at(set, None),
        }
    }

    /// The program that was put there last.
    pub(crate) fn last(&self) -> Option<&Kept> {
        match self.entries.len() {
            0 => None,
            count => Some(&self.entries[count - 1].kept),
        }
    }

    /// Forgets the program of a leaf's own last decision. The program that was put there last stays, for leaves that
    /// have none.
    pub(crate) fn forget(&mut self, set: u32, last: Option<Decision>) {
        if last.is_none() {
            return;
        }
        if let Some(place) = self.place(set, last) {
            if place + 1 < self.entries.len() {
                self.entries.remove(place);
            }
        }
    }

    fn at(&self, set: u32, last: Option<Decision>) -> Option<&Kept> {
        let place = self.place(set, last)?;
        Some(&self.entries[place].kept)
    }

    fn place(&self, set: u32, last: Option<Decision>) -> Option<usize>
        ensures { IfSome result (λ place. place < length self.now.entries.items) }
    {
        self.entries
            .iter()
            .position(|entry| entry.set == set && entry.last == last)
    }
}
