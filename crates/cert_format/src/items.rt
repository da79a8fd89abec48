// Items of a line, as they come.
ghost use Rattle.std.specs.Prelude.{◌≡◌, ◌+◌, ◌&&◌, ◌++◌, ◌∷◌, [], nat_lt, true, false, OnOk, if◌then◌else◌};

use carp_base::Memory;
use std::alloc::Global;

/// The items of a line that states how many they are. The first ones are kept, no more than stated, while all numbers
/// are in range.
#[derive(Drop)]
pub(crate) struct Items<T: Drop> {
    pub(crate) stated: u64,
    pub(crate) found: u64,
    pub(crate) more: bool,
    pub(crate) in_range: bool,
    pub(crate) kept: Vec<T>,
}

impl<T: Drop> Items<T> {
    /// No items, and none is stated.
    pub(crate) fn new(alloc: Global) -> Items<T>
        ensures stated { result.stated ≡ 0 }
        ensures found { result.found ≡ 0 }
        ensures more { result.more ≡ false }
        ensures in_range { result.in_range ≡ true }
        ensures kept { result.kept.items ≡ [] }
    {
        Items {
            stated: 0,
            found: 0,
            more: false,
            in_range: true,
            kept: Vec::new(alloc),
        }
    }

    /// Begins the items of a line that states so many. `in_range` says whether the numbers before them are in their
    /// ranges.
    pub(crate) fn begin(&mut self, stated: u64, in_range: bool)
        ensures stated { self.new.stated ≡ stated }
        ensures found { self.new.found ≡ 0 }
        ensures more { self.new.more ≡ false }
        ensures in_range { self.new.in_range ≡ in_range }
        ensures kept { self.new.kept.items ≡ [] }
    {
        self.stated = stated;
        self.found = 0;
        self.more = false;
        self.in_range = in_range;
        self.kept.clear();
    }

    /// Adds an item. `fits` says whether its numbers are in their ranges.
    pub(crate) fn add(&mut self, item: T, fits: bool) -> Result<(), Memory>
        ensures stated { OnOk result (self.new.stated ≡ self.old.stated) }
        ensures found { OnOk result (self.new.found ≡ (if nat_lt self.old.found self.old.stated then self.old.found + 1 else self.old.found)) }
        ensures more { OnOk result (self.new.more ≡ (if nat_lt self.old.found self.old.stated then self.old.more else true)) }
        ensures in_range { OnOk result (self.new.in_range ≡ (self.old.in_range && fits)) }
        ensures kept { OnOk result (self.new.kept.items ≡ (if (self.old.in_range && fits) && nat_lt self.old.found self.old.stated then self.old.kept.items ++ item ∷ [] else self.old.kept.items)) }
    {
        self.in_range = self.in_range && fits;
        if self.found < self.stated {
            self.found += 1;
            if self.in_range {
                self.kept.push(item)?;
            }
        } else {
            self.more = true;
        }
        Ok(())
    }
}
