// Programs for the leaves of a tree.
ghost use Rattle.std.specs.Prelude.{◌≡◌, All, IfOk, IfSome, length};
ghost use Rattle.cut_pool.specs.Pools.{IsGrown};
ghost use Rattle.cut_pool.specs.Shores.{Belongs};
ghost use Rattle.branch_rules.specs.Limits.{AreShoresIn, IsShoreOf};
ghost use Rattle.decision_chains.specs.Pairs.{ArePairsIn};
ghost use Rattle.route_pricing.specs.Tables.{IsRoom};
ghost use Rattle.price_points.specs.Problems.{IsPricingProblem};
ghost use Rattle.column_generation.specs.Points.{IsGeneration};
ghost use Rattle.leaf_adviser.specs.Leaves.{IsLeaf};
ghost use Rattle.leaf_adviser.specs.Offers.{IsOffer};

use crate::decisions::last_of;
use crate::kept_programs::KeptPrograms;
use crate::poor::Poor;
use crate::ranked_splits::ranked_splits;
use crate::rivals::try_rivals;
use crate::trials::{Scored, Tried};
use branch_rules::{Branch, Node, PriceSet};
use carp_base::{Instance, Memory, Task};
use column_generation::{Generation, Kept, adopted, begin, enough_for, is_small, taken_up};
use cut_pool::ShorePool;
use leaf_adviser::{Aim, Leaf};
use price_points::PricingProblem;
use route_pricing::Table;
use std::alloc::Global;
use std::mem;

// A search of fewer turns may take as much work as one of so many.
const FEW_TURNS: u64 = 64;

// So many entries of programs and steps of fills a turn may take, summed over all turns, but for what the last one takes.
const WORK_OF_TURN: u64 = 234_375_000;

/// Programs for the leaves of a tree, over one store of rows and columns. As an adviser it offers a price set for a leaf,
/// a split of the leaf, and tours of plans that solutions showed.
///
/// **Prices.** A leaf goes on from the program that was kept under the number of the set that it names. If there is none, it
/// goes on from the one that was kept last for another leaf. If none is kept at all, it begins anew with the best set so
/// far: so at the first leaf, and in a tree that is gone on from after leaves that were closed and not split. A bound of
/// the aim's cost is enough. The set has prices in parts of 1/1,000,000. Weights may be below 0 on shores with an upper
/// number and on pairs that are to be served together. Shores with a weight are placed in the pool behind those that it
/// held. If there is no room for one, since the pool holds 2,000, it loses its weight.
///
/// It offers none if no edge is required, or if it finds no point above the value of the best set so far. It does so at
/// once for more than 120 required edges, for more than 400 edges, and for m required edges and a capacity Q if
/// `4 * Q * m * m` is above 10^8. A leaf takes some 100 fills of the table at most, and one that begins anew some 1,000.
/// The program touches some 1.5 * 10^9 entries at a leaf at most, and 4 * 10^9 at one that begins anew. All leaves and
/// splits since then take 1.5 * 10^10 entries and steps of fills in a search of up to 64 turns, and in one of more turns
/// as much more in proportion; then it offers none at once. No clock decides.
///
/// **Splits.** Cuts on shores whose deadheads in the solution of the program lie between two numbers that a plan can have,
/// and pairs whose share lies near three fifths, are tried on copies of the program by a few steps of the dual method. The
/// best one and the best of the other kind are tried with a few fills (strong branching: Applegate, Bixby, Chvatal and
/// Cook 1995). The one with the greatest product of the gains is offered, and programs are kept for both children. Shores
/// of cuts that look worth a trial are placed in the pool behind those that it held. It takes up to 32 fills of the table,
/// and the time of up to 1,200 steps of the dual method.
///
/// **Tours.** A solution shows a plan if its tours of an activity above a half serve each required edge once. The cheapest
/// plan that was shown since it was asked before is offered. It need not meet the decisions of a leaf.
#[derive(Drop)]
pub struct LeafPrograms {
    generation: Option<Generation>,
    kept: KeptPrograms,
    poor: Poor,
    // So many entries and steps all leaves together may take.
    most_work: u64,
}

// A leaf by its decisions, where it begins if there is no program to go on from, and when it ends.
#[derive(Clone, Copy)]
struct Start<'a> {
    branch: &'a Branch,
    // The set that the leaf names, and its number.
    set: &'a PriceSet,
    number: u32,
    // The value that is enough.
    enough: i128,
}

impl LeafPrograms {
    /// No programs, for a search of up to 64 turns.
    pub fn new(alloc: Global) -> LeafPrograms {
        LeafPrograms::for_turns(alloc, FEW_TURNS)
    }

    // No programs, for a search of so many turns.
    pub(crate) fn for_turns(alloc: Global, turns: u64) -> LeafPrograms {
        LeafPrograms {
            generation: None,
            kept: KeptPrograms::new(alloc),
            poor: Poor::new(alloc),
            most_work: WORK_OF_TURN.saturating_mul(turns.max(FEW_TURNS)),
        }
    }

    // A price set for a leaf of a branch that names the set `start` of the aim's number, or `None`. A bound of the aim's
    // cost is enough.
    pub(crate) fn raise(
        &mut self,
        alloc: Global,
        leaf: &Leaf<'_>,
        table: &mut Table,
        pool: &mut ShorePool,
        start: &PriceSet,
        aim: Aim,
    ) -> Result<Option<PriceSet>, Memory>
        requires leaf { IsLeaf leaf.now }
        requires room { IsRoom leaf.now.inst.now table.old }
        requires belong { All (Belongs leaf.now.inst.now) pool.old }
        requires shores { All (λ w. IsShoreOf leaf.now.inst.now pool.old w.shore) start.now.weights }
        requires one_each { length start.now.services ≡ leaf.now.inst.now.required }
        ensures offer { IfOk result (λ set. IfSome set (IsOffer leaf.now.inst.now pool.new)) }
        ensures grown { IsGrown pool.old pool.new }
        ensures belong { All (Belongs leaf.now.inst.now) pool.new }
        ensures room { IsRoom leaf.now.inst.now table.new }
    {
        if !is_small(leaf.inst) || self.is_spent() {
            return Ok(None);
        }
        let from = Start {
            branch: leaf.branch,
            set: start,
            number: aim.number,
            enough: enough_for(leaf.inst, aim.cost),
        };
        match self.generation_at(alloc, leaf, table, pool, &from)? {
            Some(generation) => self.put_back(alloc, leaf, pool, start, generation),
            None => Ok(None),
        }
    }

    // Proposes the best point of a generation, and keeps the generation.
    fn put_back(
        &mut self,
        alloc: Global,
        leaf: &Leaf<'_>,
        pool: &mut ShorePool,
        start: &PriceSet,
        generation: Generation,
    ) -> Result<Option<PriceSet>, Memory>
        requires belong { All (Belongs leaf.now.inst.now) pool.old }
        requires shores { All (λ w. IsShoreOf leaf.now.inst.now pool.old w.shore) start.now.weights }
        requires generation { IsGeneration leaf.now.inst.now generation }
        ensures offer { IfOk result (λ set. IfSome set (IsOffer leaf.now.inst.now pool.new)) }
        ensures grown { IsGrown pool.old pool.new }
        ensures belong { All (Belongs leaf.now.inst.now) pool.new }
    {
        let found = generation.proposal(alloc, leaf.inst, pool, leaf.branch, start)?;
        self.generation = Some(generation);
        Ok(found)
    }

    // The generation for a leaf, gone on.
    fn generation_at(
        &mut self,
        alloc: Global,
        leaf: &Leaf<'_>,
        table: &mut Table,
        pool: &ShorePool,
        from: &Start<'_>,
    ) -> Result<Option<Generation>, Memory>
        requires leaf { IsLeaf leaf.now }
        requires room { IsRoom leaf.now.inst.now table.old }
        requires shores { All (λ w. IsShoreOf leaf.now.inst.now pool.now w.shore) from.now.set.now.weights }
        requires one_each { length from.now.set.now.services ≡ leaf.now.inst.now.required }
        ensures generation { IfOk result (λ found. IfSome found (IsGeneration leaf.now.inst.now)) }
        ensures room { IsRoom leaf.now.inst.now table.new }
    {
        let allowed = leaf.branch.allowed(alloc, leaf.inst)?;
        let problem = PricingProblem {
            inst: leaf.inst,
            net: leaf.net,
            allowed: &allowed,
        };
        self.finished_generation(alloc, &problem, table, pool, from)
    }

    // The same for a problem.
    fn finished_generation(
        &mut self,
        alloc: Global,
        problem: &PricingProblem<'_>,
        table: &mut Table,
        pool: &ShorePool,
        from: &Start<'_>,
    ) -> Result<Option<Generation>, Memory>
        requires problem { IsPricingProblem problem.now }
        requires room { IsRoom problem.now.inst.now table.old }
        requires shores { All (λ w. IsShoreOf problem.now.inst.now pool.now w.shore) from.now.set.now.weights }
        requires one_each { length from.now.set.now.services ≡ problem.now.inst.now.required }
        ensures generation { IfOk result (λ found. IfSome found (IsGeneration problem.now.inst.now)) }
        ensures room { IsRoom problem.now.inst.now table.new }
    {
        let begun = self.generation_for(alloc, problem, table, pool, from)?;
        let Some(mut generation) = begun else {
            return Ok(None);
        };
        generation.go_on(alloc, problem, table)?;
        Ok(Some(generation))
    }

    // Whether the leaves took all that they may take.
    fn is_spent(&self) -> bool {
        match &self.generation {
            Some(generation) => self.most_work < generation.spent(),
            None => false,
        }
    }

    // The generation for a leaf, ready to go on.
    fn generation_for(
        &mut self,
        alloc: Global,
        problem: &PricingProblem<'_>,
        table: &mut Table,
        pool: &ShorePool,
        from: &Start<'_>,
    ) -> Result<Option<Generation>, Memory>
        requires problem { IsPricingProblem problem.now }
        requires room { IsRoom problem.now.inst.now table.old }
        requires shores { All (λ w. IsShoreOf problem.now.inst.now pool.now w.shore) from.now.set.now.weights }
        requires one_each { length from.now.set.now.services ≡ problem.now.inst.now.required }
        ensures generation { IfOk result (λ found. IfSome found (IsGeneration problem.now.inst.now)) }
        ensures room { IsRoom problem.now.inst.now table.new }
    {
        let held = mem::replace(&mut self.generation, None);
        let Some(generation) = held else {
            self.kept = KeptPrograms::new(alloc);
            let Start { branch, enough, .. } = *from;
            return begin(alloc, problem, table, pool, branch, from.set, enough);
        };
        self.next_generation(alloc, problem, table, pool, from, generation)
    }

    // The same from the generation of another leaf.
    fn next_generation(
        &mut self,
        alloc: Global,
        problem: &PricingProblem<'_>,
        table: &mut Table,
        pool: &ShorePool,
        from: &Start<'_>,
        generation: Generation,
    ) -> Result<Option<Generation>, Memory>
        requires problem { IsPricingProblem problem.now }
        requires room { IsRoom problem.now.inst.now table.old }
        requires shores { All (λ w. IsShoreOf problem.now.inst.now pool.now w.shore) from.now.set.now.weights }
        requires one_each { length from.now.set.now.services ≡ problem.now.inst.now.required }
        ensures generation { IfOk result (λ found. IfSome found (IsGeneration problem.now.inst.now)) }
        ensures room { IsRoom problem.now.inst.now table.new }
    {
        let Start { branch, enough, .. } = *from;
        let last = last_of(branch);
        if let Some(kept) = self.kept.find(from.number, last) {
            let found = taken_up(alloc, problem, pool, branch, kept, enough, generation)?;
            self.kept.forget(from.number, last);
            return Ok(found);
        }
        if let Some(kept) = self.kept.last() {
            return adopted(
                alloc, problem, table, pool, branch, kept, enough, generation,
            );
        }
        begin(alloc, problem, table, pool, branch, from.set, enough)
    }

    // A split of the leaf for which a set was proposed last. Programs are kept for the leaves that name the set of a
    // number.
    pub(crate) fn best_split(
        &mut self,
        alloc: Global,
        leaf: &Leaf<'_>,
        table: &mut Table,
        pool: &mut ShorePool,
        number: u32,
    ) -> Result<Option<Node>, Memory>
        requires leaf { IsLeaf leaf.now }
        requires room { IsRoom leaf.now.inst.now table.old }
        requires shores { AreShoresIn leaf.now.inst.now pool.old leaf.now.branch.now }
        requires belong { All (Belongs leaf.now.inst.now) pool.old }
        ensures grown { IsGrown pool.old pool.new }
        ensures belong { All (Belongs leaf.now.inst.now) pool.new }
        ensures room { IsRoom leaf.now.inst.now table.new }
    {
        if self.is_spent() {
            return Ok(None);
        }
        let taken = mem::replace(&mut self.generation, None);
        let Some(mut held) = taken else {
            return Ok(None);
        };
        held.trim_for_trials(alloc, leaf.inst)?;
        let ranked = self.rank(alloc, leaf.inst, pool, leaf.branch, &mut held)?;
        let kept = held.kept(alloc, leaf.inst)?;
        let tried = try_rivals(alloc, leaf, table, pool, &kept, &ranked, &mut held)?;
        self.generation = Some(held);
        match tried {
            Some(tried) => self.keep_children(number, tried),
            None => self.keep_whole(number, kept, &ranked),
        }
    }

    // The tours of the cheapest plan that a solution showed since this was asked before.
    pub(crate) fn whole_tours(&mut self) -> Option<Vec<Vec<Task>>> {
        self.generation.as_mut()?.take_whole()
    }

    // Splits by what both children come to after a few steps, the best ones first. If each gained nothing before, all
    // are tried again.
    fn rank(
        &mut self,
        alloc: Global,
        inst: &Instance,
        pool: &mut ShorePool,
        branch: &Branch,
        generation: &mut Generation,
    ) -> Result<Vec<Scored>, Memory>
        requires pairs { ArePairsIn inst.now branch.now }
        requires shores { AreShoresIn inst.now pool.old branch.now }
        requires belong { All (Belongs inst.now) pool.old }
        ensures grown { IsGrown pool.old pool.new }
        ensures shores { AreShoresIn inst.now pool.new branch.now }
        ensures belong { All (Belongs inst.now) pool.new }
    {
        let ranked = ranked_splits(alloc, inst, pool, branch, generation, &mut self.poor)?;
        if !ranked.is_empty() {
            return Ok(ranked);
        }
        self.poor = Poor::new(alloc);
        ranked_splits(alloc, inst, pool, branch, generation, &mut self.poor)
    }

    // Keeps the program of the leaf for both children, and answers the first split, if there is one.
    fn keep_whole(
        &mut self,
        number: u32,
        kept: Kept,
        ranked: &[Scored],
    ) -> Result<Option<Node>, Memory> {
        self.kept.put(number, None, kept)?;
        Ok(ranked.first().map(|scored| scored.node))
    }

    // Keeps the programs of both children.
    fn keep_children(&mut self, number: u32, tried: Tried) -> Result<Option<Node>, Memory> {
        let Tried {
            node,
            first: one,
            second: other,
            ..
        } = tried;
        self.kept.put(number, Some(node.first_decision()), one)?;
        self.kept.put(number, Some(node.second_decision()), other)?;
        Ok(Some(node))
    }
}
