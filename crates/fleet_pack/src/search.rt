// The search for a tree, depth first.
ghost use Rattle.std.specs.Prelude.{◌≡◌, ◌+◌, ◌<◌, ◌≤◌, ◌++◌, ◌∷◌, [], All, IfOk, OnOk, false, true, length};
ghost use Rattle.carp_base.specs.Problem.{Problem};
ghost use Rattle.packing_trees.specs.Bundles.{AreAllClosed, AreBundles, HasBundles, IsClosedPair, IsPair, bundle_count};
ghost use Rattle.packing_trees.specs.declared.node.PackChoice.TheVariants.{Together};
ghost use Rattle.fleet_pack.specs.Groups.{IsGrouping};
ghost use Rattle.fleet_pack.specs.States.{HasEnded, HasLeaf, IsAtHand, IsBack, IsDone, IsOuter, IsSearch, closed_count};

use crate::grouping::Grouping;
use crate::numbering::grouping_of;
use crate::pairs::heaviest_open;
use crate::share::{Share, share_of};
use carp_base::{Instance, Memory};
use packing_trees::{Bundles, PackChoice, PackNode, bundle_count, bundles_of};
use std::alloc::Global;

/// The nodes that are done, in preorder. The choices of the leaf at hand. The shares of the leaves that are not done,
/// that of the leaf at hand last. The best packing. A leaf that waits is the one in which a pair is apart that the leaf
/// at hand puts together.
#[derive(Drop)]
pub(crate) struct Search {
    pub(crate) nodes: Vec<PackNode>,
    pub(crate) path: Vec<PackChoice>,
    pub(crate) shares: Vec<Share>,
    pub(crate) best: Grouping,
}

// Goes back to the nearest branch in which a pair is apart, where one waits.
fn turn_back(path: &mut Vec<PackChoice>) -> Result<(), Memory>
    ensures { OnOk result (IsBack path.old.items path.new.items) }
{
    while let Some(choice) = path.pop() {
        if let PackChoice::Together { a, b } = choice {
            path.push(PackChoice::Apart { a, b })?;
            return Ok(());
        }
    }
    Ok(())
}

// Goes to the branch in which a pair is put together too.
fn put_together(path: &mut Vec<PackChoice>, a: u32, b: u32) -> Result<(), Memory>
    ensures { OnOk result (path.new.items ≡ path.old.items ++ Together a b ∷ []) }
{
    path.push(PackChoice::Together { a, b })?;
    Ok(())
}

/// How many leaves have at least this value.
pub(crate) fn closed_leaves(shares: &[Share], count: u32) -> usize
    ensures closed { result ≡ closed_count count shares.now }
    ensures most { result ≤ length shares.now }
    ensures all { result ≡ length shares.now → All (λ share. count ≤ share.value) shares.now }
{
    let mut closed = 0;
    for share in shares {
        closed += usize::from(share.value >= u64::from(count));
    }
    closed
}

impl Search {
    /// Only the root.
    pub(crate) fn begin(alloc: Global, inst: &Instance, best: Grouping) -> Result<Search, Memory>
        requires { IsGrouping inst.now best }
        ensures search { IfOk result (IsSearch inst.now) }
        ensures none { IfOk result (λ search. search.nodes.items ≡ []) }
        ensures best { IfOk result (λ search. search.best ≡ best) }
    {
        inst.validity();
        let share = share_of(alloc, inst, &[])?;
        let mut shares = Vec::new(alloc);
        shares.push(share)?;
        Ok(Search {
            nodes: Vec::new(alloc),
            path: Vec::new(alloc),
            shares,
            best,
        })
    }

    // Whether each leaf has a value of at least the count, or the turns are at least so many.
    fn is_over(&self, turns: u64) -> bool
        ensures ended { result ≡ true → HasEnded turns self.now }
        ensures some { result ≡ false → 0 < length self.now.shares.items }
        ensures few { result ≡ false → length self.now.nodes.items < turns }
    {
        let closed = closed_leaves(&self.shares, self.best.count);
        closed == self.shares.len() || turns <= (self.nodes.len() + closed) as u64
    }

    // The leaf at hand is done as this node.
    fn close(&mut self, node: PackNode) -> Result<(), Memory>
        requires { IsOuter node }
        ensures search { OnOk result ((p : Problem) → HasLeaf p self.old → IsDone p self.old.best.count self.old.path.items node → IsSearch p self.new) }
        ensures one_more { OnOk result (length self.new.nodes.items ≡ length self.old.nodes.items + 1) }
        ensures fewer { OnOk result (self.new.best.count ≤ self.old.best.count) }
    {
        self.nodes.push(node)?;
        turn_back(&mut self.path)?;
        Ok(())
    }

    // The leaf at hand is split at a pair.
    fn split(
        &mut self,
        alloc: Global,
        inst: &Instance,
        share: Share,
        a: u32,
        b: u32,
    ) -> Result<(), Memory>
        requires at_hand { IsAtHand inst.now self.old share }
        requires pair { IsPair inst.now a b }
        requires stays { ¬ (IsClosedPair inst.now self.old.path.items a b) }
        ensures search { OnOk result (IsSearch inst.now self.new) }
        ensures one_more { OnOk result (length self.new.nodes.items ≡ length self.old.nodes.items + 1) }
        ensures fewer { OnOk result (self.new.best.count ≤ self.old.best.count) }
    {
        self.nodes.push(PackNode::Pair { a, b })?;
        put_together(&mut self.path, a, b)?;
        let together = share_of(alloc, inst, &self.path)?;
        self.shares.push(share)?;
        self.shares.push(together)?;
        Ok(())
    }

    // The bundles of the leaf at hand become the best packing, where they are fewer than its groups.
    fn take_bundles(
        &mut self,
        alloc: Global,
        inst: &Instance,
        bundles: &Bundles,
    ) -> Result<(), Memory>
        requires at_hand { HasLeaf inst.now self.old }
        requires bundles { AreBundles inst.now self.old.path.items bundles.now.labels.items bundles.now.weights.items }
        requires some { HasBundles inst.now bundles.now.labels.items bundles.now.weights.items }
        ensures at_hand { OnOk result (HasLeaf inst.now self.new) }
        ensures path { self.new.path ≡ self.old.path }
        ensures nodes { self.new.nodes ≡ self.old.nodes }
        ensures fewer { OnOk result (self.new.best.count ≤ self.old.best.count) }
        ensures most { OnOk result (self.new.best.count ≤ bundle_count inst.now self.old.path.items) }
    {
        if bundle_count(inst, bundles) < self.best.count {
            self.best = grouping_of(alloc, inst, &self.path, &bundles.labels, &bundles.weights)?;
        }
        Ok(())
    }

    // The leaf at hand, in which each pair is closed, is done.
    fn settle(&mut self, alloc: Global, inst: &Instance, bundles: &Bundles) -> Result<(), Memory>
        requires at_hand { HasLeaf inst.now self.old }
        requires bundles { AreBundles inst.now self.old.path.items bundles.now.labels.items bundles.now.weights.items }
        requires some { HasBundles inst.now bundles.now.labels.items bundles.now.weights.items }
        requires closed { AreAllClosed inst.now self.old.path.items }
        ensures search { OnOk result (IsSearch inst.now self.new) }
        ensures one_more { OnOk result (length self.new.nodes.items ≡ length self.old.nodes.items + 1) }
        ensures fewer { OnOk result (self.new.best.count ≤ self.old.best.count) }
    {
        self.take_bundles(alloc, inst, bundles)?;
        self.close(PackNode::Apart)
    }

    // The leaf at hand, whose value is below the count, is settled or split.
    fn go_on(&mut self, alloc: Global, inst: &Instance, share: Share) -> Result<(), Memory>
        requires at_hand { IsAtHand inst.now self.old share }
        ensures search { OnOk result (IsSearch inst.now self.new) }
        ensures one_more { OnOk result (length self.new.nodes.items ≡ length self.old.nodes.items + 1) }
        ensures fewer { OnOk result (self.new.best.count ≤ self.old.best.count) }
    {
        let bundles = bundles_of(alloc, inst, &self.path)?;
        match heaviest_open(inst, &bundles, &self.path) {
            Some(open) => self.split(alloc, inst, share, open.a, open.b),
            None => self.settle(alloc, inst, &bundles),
        }
    }

    // One turn: the first leaf in preorder is done, or split.
    fn step(&mut self, alloc: Global, inst: &Instance) -> Result<(), Memory>
        requires search { IsSearch inst.now self.old }
        requires some { 0 < length self.old.shares.items }
        ensures search { OnOk result (IsSearch inst.now self.new) }
        ensures one_more { OnOk result (length self.new.nodes.items ≡ length self.old.nodes.items + 1) }
        ensures fewer { OnOk result (self.new.best.count ≤ self.old.best.count) }
    {
        let Some(share) = self.shares.pop() else {
            unreachable!()
        };
        if share.value >= u64::from(self.best.count) {
            return self.close(PackNode::Share { s: share.s });
        }
        self.go_on(alloc, inst, share)
    }

    /// Takes turns until each leaf has a value of at least the count, or the turns are at least so many.
    pub(crate) fn run(&mut self, alloc: Global, inst: &Instance, turns: u64) -> Result<(), Memory>
        requires search { IsSearch inst.now self.old }
        requires none { self.old.nodes.items ≡ [] }
        ensures search { OnOk result (IsSearch inst.now self.new) }
        ensures ended { OnOk result (HasEnded turns self.new) }
        ensures few { OnOk result (length self.new.nodes.items ≤ turns) }
        ensures fewer { OnOk result (self.new.best.count ≤ self.old.best.count) }
    {
        while !self.is_over(turns) {
            self.step(alloc, inst)?;
        }
        Ok(())
    }
}
