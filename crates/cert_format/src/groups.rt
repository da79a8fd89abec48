// The groups of a price set, word by word.
ghost use Rattle.std.specs.Prelude.{◌≡◌, ◌≢◌, ◌↔◌, ◌≤◌, ◌&&◌, ℕ, ◌+◌, pos, ◌<ℤ◌, ◌∷◌, ◌++◌, [], List, Bool, IsTrue, IfOk, OnOk, length, nat_le, true, false, sum_by};
ghost use Rattle.std.specs.List.{All};
ghost use Rattle.std.specs.List.Sorted.{IsStrictlyIncreasing};
ghost use Rattle.branch_rules.specs.Bonds.{GroupWeight};
ghost use Rattle.branch_rules.specs.Limits.{IsFineGroup, IsPriceNumber};
ghost use Rattle.cert_lines.specs.Words.{HoldsWord};
ghost use Rattle.cert_lines.specs.Lines.{Remainder, nothing};
ghost use Rattle.cert_format.specs.Numbers.{is_within};
ghost use Rattle.cert_format.specs.Groups.{AreSetGroups, HoldsGroups, Takes};
ghost use Rattle.cert_format.specs.declared.groups.Awaited.TheVariants as awaits;

use crate::line::{is_in, is_price};
use branch_rules::WeightedGroup;
use carp_base::Memory;
use cert_lines::Word;
use std::alloc::Global;

// The most edges that the groups of a price set have together.
const MOST_EDGES: u64 = 60_000;

// A greater number is read as this one.
const LIMIT: u64 = 1_000_000_000_000_000_000;

// A greater edge is read as this one.
const GREATEST: u64 = 1_000_000;

/// What stands next on a line of groups.
#[derive(Clone, Copy, Debug, PartialEq, Eq)]
pub(crate) enum Awaited {
    /// The weight of a group.
    Weight,
    /// The size of a group of this weight.
    Size { weight: i64 },
    /// An edge of a group of this weight. `left` is how many are still to come, this one included. If the number is not
    /// exact, more may come.
    Edge { weight: i64, left: u64, exact: bool },
}

/// The groups of a line. They are kept while all numbers are in range and all complete groups are in order.
#[derive(Drop)]
pub(crate) struct Groups {
    pub(crate) alloc: Global,
    pub(crate) awaited: Awaited,
    pub(crate) in_range: bool,
    /// Whether the complete groups are in order.
    pub(crate) in_order: bool,
    /// How many edges may still be stated.
    pub(crate) room: u64,
    /// The edges of the group that is not complete.
    pub(crate) edges: Vec<u32>,
    pub(crate) kept: Vec<WeightedGroup>,
}

impl Groups {
    /// No groups.
    pub(crate) fn new(alloc: Global) -> Groups
        ensures { HoldsGroups result true [] nothing }
    {
        Groups {
            alloc,
            awaited: Awaited::Weight,
            in_range: true,
            in_order: true,
            room: MOST_EDGES,
            edges: Vec::new(alloc),
            kept: Vec::new(alloc),
        }
    }

    /// Begins the groups of a line. `in_range` says whether the number before them is in its range.
    pub(crate) fn begin(&mut self, in_range: bool)
        ensures { HoldsGroups self.new in_range [] nothing }
    {
        self.awaited = Awaited::Weight;
        self.in_range = in_range;
        self.in_order = true;
        self.room = MOST_EDGES;
        self.edges.clear();
        self.kept.clear();
    }

    /// Takes one more word, if it may stand there. The answer is whether it may.
    ///
    /// It also answers `Memory` if a group states 10^18 edges or more, and as many have come.
    pub(crate) fn take(&mut self, word: &Word) -> Result<bool, Memory>
        ensures { (head : Bool) (groups : List GroupWeight) (rest : Remainder) (text : List ℕ) → HoldsGroups self.old head groups rest → HoldsWord word.now text
            → IfOk result (λ fits. Takes fits self.new head groups rest text) }
    {
        match self.awaited {
            Awaited::Weight => Ok(self.take_weight(word)),
            Awaited::Size { weight } => Ok(self.take_size(weight, word)),
            Awaited::Edge {
                weight,
                left,
                exact,
            } => self.take_edge(weight, left, exact, word),
        }
    }

    // Takes the weight of a group.
    fn take_weight(&mut self, word: &Word) -> bool
        ensures { (head : Bool) (groups : List GroupWeight) (rest : Remainder) (text : List ℕ) → HoldsGroups self.old head groups rest → HoldsWord word.now text
            → self.old.awaited ≡ awaits.Weight → Takes result self.new head groups rest text }
    {
        let Some(weight) = word.whole() else {
            return false;
        };
        let fits = is_price(weight);
        self.in_range = self.in_range && fits;
        self.awaited = Awaited::Size { weight };
        true
    }

    // Takes the size of a group of this weight.
    fn take_size(&mut self, weight: i64, word: &Word) -> bool
        ensures { (head : Bool) (groups : List GroupWeight) (rest : Remainder) (text : List ℕ) → HoldsGroups self.old head groups rest → HoldsWord word.now text
            → self.old.awaited ≡ awaits.Size weight → Takes result self.new head groups rest text }
    {
        let Some(size) = word.natural() else {
            return false;
        };
        let fits = fits_in(self.room, size);
        self.in_range = self.in_range && fits;
        self.room = self.room.saturating_sub(size);
        self.edges.clear();
        self.awaited = edges_of(weight, size);
        true
    }

    // Takes an edge of a group of this weight.
    fn take_edge(
        &mut self,
        weight: i64,
        left: u64,
        exact: bool,
        word: &Word,
    ) -> Result<bool, Memory>
        ensures { (head : Bool) (groups : List GroupWeight) (rest : Remainder) (text : List ℕ) → HoldsGroups self.old head groups rest → HoldsWord word.now text
            → self.old.awaited ≡ awaits.Edge weight left exact → IfOk result (λ fits. Takes fits self.new head groups rest text) }
    {
        let Some(edge) = word.natural() else {
            return Ok(false);
        };
        let within = is_in(1, 600, edge);
        self.in_range = self.in_range && within;
        self.push_edge(edge.min(GREATEST) as u32)?;
        if left > 1 {
            self.awaited = Awaited::Edge {
                weight,
                left: left - 1,
                exact,
            };
            return Ok(true);
        }
        if !exact {
            return Err(Memory);
        }
        self.awaited = Awaited::Weight;
        self.keep(weight)?;
        Ok(true)
    }

    // Keeps an edge, if all numbers are in range.
    fn push_edge(&mut self, edge: u32) -> Result<(), Memory>
        ensures edges { OnOk result (self.old.in_range ≡ true → self.new.edges.items ≡ self.old.edges.items ++ edge ∷ []) }
        ensures in_range { self.new.in_range ≡ self.old.in_range }
        ensures in_order { self.new.in_order ≡ self.old.in_order }
        ensures room { self.new.room ≡ self.old.room }
        ensures kept { self.new.kept ≡ self.old.kept }
    {
        if self.in_range {
            self.edges.push(edge)?;
        }
        Ok(())
    }

    // Keeps the group of the edges that were taken, if all numbers are in range and all groups in order.
    fn keep(&mut self, weight: i64) -> Result<(), Memory>
        ensures awaited { self.new.awaited ≡ self.old.awaited }
        ensures in_range { self.new.in_range ≡ self.old.in_range }
        ensures room { self.new.room ≡ self.old.room }
        ensures in_order { OnOk result (self.old.in_range ≡ true → (IsTrue self.new.in_order ↔ (IsTrue self.old.in_order
            × IsFineGroup (record { edges = self.old.edges.items; weight = weight })))) }
        ensures kept { OnOk result (self.old.in_range ≡ true → self.new.in_order ≡ true
            → self.new.kept.items ≡ self.old.kept.items ++ record { edges = self.old.edges.items; weight = weight } ∷ []) }
    {
        if !self.in_range {
            return Ok(());
        }
        if !is_group(&self.edges, weight) {
            self.in_order = false;
            return Ok(());
        }
        if self.in_order {
            let group = WeightedGroup::new(self.alloc, &self.edges, weight)?;
            self.kept.push(group)?;
        }
        Ok(())
    }
}

// Whether a size is in its range, and no more than there is room for.
fn fits_in(room: u64, size: u64) -> bool
    ensures { result ≡ (is_within 2 600 size && nat_le size room) }
{
    is_in(2, 600, size) && size <= room
}

// What stands behind the size of a group of this weight.
fn edges_of(weight: i64, size: u64) -> Awaited
    ensures none { size ≡ 0 → result ≡ awaits.Weight }
    ensures exact { 1 ≤ size → size + 1 ≤ 1000000000000000000 → result ≡ awaits.Edge weight size true }
    ensures more { 1000000000000000000 ≤ size → result ≡ awaits.Edge weight size false }
{
    if size == 0 {
        return Awaited::Weight;
    }
    Awaited::Edge {
        weight,
        left: size,
        exact: size < LIMIT,
    }
}

// Whether a price set may have a weight on a group of these edges.
fn is_group(edges: &[u32], weight: i64) -> bool
    ensures { IsTrue result ↔ IsFineGroup (record { edges = edges.now; weight = weight }) }
{
    if edges.len() < 2 || edges.len() > 600 {
        return false;
    }
    if !edges_rise(edges) {
        return false;
    }
    if !is_fine_weight(weight) {
        return false;
    }
    is_pair(edges, weight)
}

// Whether a weight is in its range, and not 0.
fn is_fine_weight(weight: i64) -> bool
    ensures { IsTrue result ↔ ((weight ≢ pos 0) × IsPriceNumber weight) }
{
    weight != 0 && is_price(weight)
}

// Whether there are two edges, if the weight is negative.
fn is_pair(edges: &[u32], weight: i64) -> bool
    ensures { IsTrue result ↔ (weight <ℤ pos 0 → length edges.now ≡ 2) }
{
    0 <= weight || edges.len() == 2
}

// Whether the numbers of the edges rise.
fn edges_rise(edges: &[u32]) -> bool
    ensures { IsTrue result ↔ IsStrictlyIncreasing edges.now }
{
    for i in 1..edges.len() {
        if edges[i - 1] >= edges[i] {
            return false;
        }
    }
    true
}

/// Whether a price set may have these groups, by their number and their sizes.
pub(crate) fn are_set_groups(groups: &[WeightedGroup]) -> bool
    ensures { IsTrue result ↔ AreSetGroups groups.now }
{
    groups.len() <= 2000 && count_edges(groups) <= MOST_EDGES
}

// How many edges the groups have together.
fn count_edges(groups: &[WeightedGroup]) -> u64
    requires { length groups.now ≤ 2000 }
    ensures count { result ≡ sum_by (λ (w : GroupWeight). length w.edges) groups.now }
    ensures fine { All IsFineGroup groups.now }
{
    let mut count: u64 = 0;
    for group in groups {
        count += group.edges().len() as u64;
    }
    count
}
