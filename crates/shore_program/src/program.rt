// The program over shores.
ghost use Rattle.std.specs.Prelude.{◌≡◌, [], All, IfOk, OnErr};
ghost use Rattle.cut_pool.specs.Shores.{Belongs};
ghost use Rattle.shore_program.specs.Programs.{AreDeadheads, IsOffered, IsTrimmed, IsWeighted, ListsNoMore, Packs};

use crate::adding::add_cut;
use crate::cuts::{Cut, is_held};
use crate::packing::{lay_out, packed};
use crate::reading::deadheads_of;
use crate::tableau::{COLUMNS, Tableau};
use crate::trimming::trim;
use carp_base::{Instance, Memory};
use cut_pool::{Shore, Weighted};
use std::alloc::Global;
use std::marker::Model;

/// The linear program over some shores of an instance. Contracts see the instance and the list of shores.
///
/// It maximises what is demanded over each shore times its weight. No weight is below 0, and over each edge the weights
/// of the shores that it crosses sum to at most its cost. The tableau has a row for each edge and a column for each
/// shore, at most 1,200, so it takes 9,600 bytes for each edge.
#[derive(Drop)]
pub struct Program {
    inst: Instance,
    cuts: Vec<Cut>,
    tableau: Tableau,
}

impl Model for Program {
    ghost use Rattle.shore_program.specs.Programs.{ShoreProgram};
    ghost use Rattle.shore_program.specs.Tableaus.{KeepsProgram, shores_of};

    ghost Value = { ShoreProgram };

    ghost view = { λ p. record { problem = p.inst; shores = shores_of p.cuts.items } };

    ghost invariant = { λ p. KeepsProgram p.inst p.cuts.items p.tableau };
}

impl Program {
    /// The program of an instance, with no shore.
    pub fn new(alloc: Global, inst: &Instance) -> Result<Program, Memory>
        ensures { IfOk result (λ program. program ≡ record { problem = inst.now; shores = [] }) }
    {
        Ok(Program {
            tableau: Tableau::new(alloc, inst.edges())?,
            inst: inst.copy(alloc)?,
            cuts: Vec::with_capacity(alloc, COLUMNS)?,
        })
    }

    /// Adds the column of a shore, over which so many deadheads are demanded, and answers whether it did. It does not
    /// if that number is 0, if the shore has a column, or if 1,200 shores have one. The corner stays, and the weight is
    /// 0.
    ///
    /// It takes time in proportion to the number of edges times the number of edges that cross the shore.
    pub fn add(&mut self, alloc: Global, shore: Shore, least: u64) -> Result<bool, Memory>
        requires { Belongs self.old.problem shore }
        ensures ok { IfOk result (λ added. IsOffered self.old shore least added self.new) }
        ensures err { OnErr result (self.new ≡ self.old) }
    {
        if least == 0 || self.cuts.len() == COLUMNS || is_held(&self.cuts, &shore) {
            return Ok(false);
        }
        let edges = self.inst.edges();
        add_cut(
            alloc,
            edges,
            &mut self.cuts,
            &mut self.tableau,
            shore,
            least,
        )?;
        Ok(true)
    }

    /// Goes on from corner to corner by the simplex method, at most so many times. The time of a step grows at most as the
    /// number of edges times the number of shores.
    pub fn solve(&mut self, alloc: Global, pivots: u32) -> Result<(), Memory>
        ensures { self.new ≡ self.old }
    {
        let mut terms = Vec::new(alloc);
        self.tableau.solve(&mut terms, pivots)
    }

    /// If more than 800 shores have weight 0 and a column of their own, keeps 400 of them and lets those go that gain
    /// the least. No shore comes, and none is held more often than before.
    pub fn drop_idle(&mut self)
        ensures { IsTrimmed self.old self.new }
    {
        trim(&mut self.tableau, &mut self.cuts);
    }

    /// The value at this corner, except for rounding, in parts of 1/1,000,000 of the unit of cost. No clause speaks of
    /// it.
    pub fn value(&self) -> u64 {
        self.tableau.value.max(0) as u64
    }

    /// How many entries of the tableau were touched so far. No clause speaks of it.
    pub fn work(&self) -> u64 {
        self.tableau.work
    }

    /// The deadheads over each edge that this corner stands for, in parts of 2^20, in the order of the edges.
    pub fn deadheads(&self, alloc: Global) -> Result<Vec<u64>, Memory>
        ensures { IfOk result (λ parts. AreDeadheads self.now.problem parts.items) }
    {
        deadheads_of(alloc, self.inst.edges().len(), &self.tableau.columns)
    }

    /// The shores with weights above 0, in parts of 1/1,000,000 of the unit of cost, each at most as often as it is held.
    ///
    /// The weights of this corner are cut down until they pack, and raised by what is left. It takes time in proportion to
    /// the number of shores times that of edges.
    pub fn weights(&self, alloc: Global) -> Result<Vec<Weighted>, Memory>
        ensures weighted { IfOk result (λ shores. All (IsWeighted self.now) shores.items) }
        ensures packs { IfOk result (λ shores. Packs self.now.problem shores.items) }
        ensures once { IfOk result (λ shores. ListsNoMore self.now.shores shores.items) }
    {
        let weights = packed(alloc, self.inst.edges(), &self.cuts, &self.tableau)?;
        lay_out(alloc, &self.inst, &self.cuts, &weights)
    }
}
