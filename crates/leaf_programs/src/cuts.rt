// Cuts that look worth a trial.
ghost use Rattle.std.specs.Prelude.{◌<◌, All, IfSome};
ghost use Rattle.cut_pool.specs.Pools.{IsGrown};
ghost use Rattle.cut_pool.specs.Shores.{Belongs};
ghost use Rattle.branch_rules.specs.Limits.{IsShoreOf};

use crate::poor::{Cut, PART, Poor};
use branch_rules::{Branch, Decision, MOST_K, Node, is_shore_of};
use carp_base::{Instance, Memory};
use column_generation::Generation;
use cut_pool::{Shore, ShorePool, need, required_crossings};
use price_points::number_in;
use std::alloc::Global;

// So many cuts are tried at most.
const TRIED: usize = 12;

// So many decisions on shores stand on a path at most.
const MOST_CUTS: usize = 4;

/// What cuts are judged by.
#[derive(Clone, Copy)]
pub(crate) struct Judge<'a> {
    pub(crate) inst: &'a Instance,
    pub(crate) pool: &'a ShorePool,
    pub(crate) branch: &'a Branch,
    /// How often the solution crosses each edge without service, in parts.
    pub(crate) deadheads: &'a [u64],
    pub(crate) poor: &'a Poor,
}

impl Judge<'_> {
    /// The best cuts on shores of the pool, of the program, of one vertex and of the ends of an edge. There are none if
    /// many stand on the path already.
    pub(crate) fn cuts(&self, alloc: Global, generation: &Generation) -> Result<Vec<Cut>, Memory> {
        let mut cuts = Vec::new(alloc);
        if cuts_among(self.branch.decisions()) >= MOST_CUTS {
            return Ok(cuts);
        }
        self.add_pool_cuts(alloc, &mut cuts)?;
        self.add_program_cuts(alloc, generation, &mut cuts)?;
        self.add_vertex_cuts(alloc, &mut cuts)?;
        self.add_edge_cuts(alloc, &mut cuts)?;
        Ok(cuts)
    }

    fn add_pool_cuts(&self, alloc: Global, cuts: &mut Vec<Cut>) -> Result<(), Memory> {
        for number in 1..self.pool.len() + 1 {
            self.add_cut(alloc, self.pool.shore(number), cuts)?;
        }
        Ok(())
    }

    fn add_program_cuts(
        &self,
        alloc: Global,
        generation: &Generation,
        cuts: &mut Vec<Cut>,
    ) -> Result<(), Memory> {
        for row in 0..generation.row_count() {
            if let Some(shore) = generation.shore_of_row(row) {
                self.add_cut(alloc, shore, cuts)?;
            }
        }
        Ok(())
    }

    fn add_vertex_cuts(&self, alloc: Global, cuts: &mut Vec<Cut>) -> Result<(), Memory> {
        for vertex in 1..self.inst.vertices() + 1 {
            self.add_cut(alloc, &shore_of(alloc, vertex, vertex)?, cuts)?;
        }
        Ok(())
    }

    fn add_edge_cuts(&self, alloc: Global, cuts: &mut Vec<Cut>) -> Result<(), Memory> {
        for edge in self.inst.edges() {
            self.add_cut(alloc, &shore_of(alloc, edge.u, edge.v)?, cuts)?;
        }
        Ok(())
    }

    // Adds the cut on a shore of the instance among the best ones.
    fn add_cut(&self, alloc: Global, shore: &Shore, cuts: &mut Vec<Cut>) -> Result<(), Memory> {
        if !shore.belongs(self.inst) {
            return Ok(());
        }
        let Some((k, off)) = self.middle(shore) else {
            return Ok(());
        };
        if cuts.iter().any(|cut| cut.shore == *shore) || self.poor.has_cut(shore, k) {
            return Ok(());
        }
        let place = cuts.iter().filter(|cut| cut.off <= off).count();
        if place < TRIED {
            let shore = shore.copy(alloc)?;
            cuts.insert(place, Cut { shore, k, off })?;
            cuts.truncate(TRIED);
        }
        Ok(())
    }

    // The number to cut at, and how far the deadheads are from the middle, if they lie well between two numbers that a
    // plan can have.
    fn middle(&self, shore: &Shore) -> Option<(u64, u64)>
        requires { Belongs self.now.inst.now shore.now }
    {
        let (lower, upper) = self.numbers(shore);
        let above = self
            .deadheads_over(shore)
            .checked_sub(lower.saturating_mul(PART))?;
        let part = above % (2 * PART);
        if part < PART / 5 || part > 2 * PART - PART / 5 {
            return None;
        }
        let k = lower.saturating_add(2 * (above / (2 * PART)));
        if MOST_K < k || upper.is_some_and(|upper| upper <= k) {
            return None;
        }
        Some((k, part.abs_diff(PART)))
    }

    // How many deadheads there are over a shore, in parts.
    fn deadheads_over(&self, shore: &Shore) -> u64 {
        let mut sum: u64 = 0;
        for (edge, parts) in self.inst.edges().iter().zip(self.deadheads) {
            if shore.crosses(edge) {
                sum = sum.saturating_add(*parts);
            }
        }
        sum
    }

    // The lower and the upper number of a shore.
    fn numbers(&self, shore: &Shore) -> (u64, Option<u64>)
        requires { Belongs self.now.inst.now shore.now }
    {
        match self.decided_number(shore) {
            Some(number) => (
                self.branch.lower(self.inst, self.pool, number),
                self.branch.upper(number),
            ),
            None => {
                let least = need(self.inst, shore);
                let odd = (least % 2 + required_crossings(self.inst, shore) % 2) % 2;
                (least + odd, None)
            }
        }
    }

    // The number of a shore, if there is a decision on it.
    fn decided_number(&self, shore: &Shore) -> Option<u32>
        ensures { IfSome result (IsShoreOf self.now.inst.now self.now.pool.now) }
    {
        for decision in self.branch.decisions() {
            if let Some(number) = number_on(decision) {
                if is_shore_of(self.inst, self.pool, number) && *self.pool.shore(number) == *shore {
                    return Some(number);
                }
            }
        }
        None
    }
}

// The shore of one or two vertices.
fn shore_of(alloc: Global, u: u32, v: u32) -> Result<Shore, Memory> {
    if u < v {
        shore_of_two(alloc, u, v)
    } else if v < u {
        shore_of_two(alloc, v, u)
    } else {
        Shore::from_list(alloc, &[u])
    }
}

fn shore_of_two(alloc: Global, first: u32, second: u32) -> Result<Shore, Memory>
    requires { first < second }
{
    Shore::from_list(alloc, &[first, second])
}

// The number of decisions on shores.
fn cuts_among(decisions: &[Decision]) -> usize {
    decisions
        .iter()
        .filter(|decision| number_on(decision).is_some())
        .count()
}

// The number of the shore of a decision.
fn number_on(decision: &Decision) -> Option<u32> {
    match *decision {
        Decision::Low { shore, .. } => Some(shore),
        Decision::High { shore, .. } => Some(shore),
        _ => None,
    }
}

/// Adds the cuts, with their shores placed in the pool.
pub(crate) fn add_cuts(
    inst: &Instance,
    pool: &mut ShorePool,
    cuts: Vec<Cut>,
    nodes: &mut Vec<Node>,
) -> Result<(), Memory>
    requires { All (Belongs inst.now) pool.old }
    ensures grown { IsGrown pool.old pool.new }
    ensures belong { All (Belongs inst.now) pool.new }
{
    for cut in cuts {
        place_cut(inst, pool, cut, nodes)?;
    }
    Ok(())
}

// Adds a cut, with its shore placed in the pool.
fn place_cut(
    inst: &Instance,
    pool: &mut ShorePool,
    cut: Cut,
    nodes: &mut Vec<Node>,
) -> Result<(), Memory>
    requires { All (Belongs inst.now) pool.old }
    ensures grown { IsGrown pool.old pool.new }
    ensures belong { All (Belongs inst.now) pool.new }
{
    let Cut { shore, k, .. } = cut;
    if !shore.belongs(inst) {
        return Ok(());
    }
    if let Some(shore) = number_in(inst, pool, shore)? {
        nodes.push(Node::Cut { shore, k })?;
    }
    Ok(())
}
