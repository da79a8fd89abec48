// Splits that gained nothing when they were tried.

use branch_rules::{Node, is_shore_of};
use carp_base::{Instance, Memory};
use cut_pool::{Shore, ShorePool};
use std::alloc::Global;

/// One deadhead, or one service behind another, in the parts of a solution.
pub(crate) const PART: u64 = 1 << 20;

// So many splits that gained nothing are remembered at most.
const MOST_POOR: usize = 500;

/// A cut that looks worth a trial: its deadheads lie between two numbers that a plan can have.
#[derive(Drop)]
pub(crate) struct Cut {
    pub(crate) shore: Shore,
    pub(crate) k: u64,
    /// How far they are from the middle, in parts.
    pub(crate) off: u64,
}

/// A pair that looks worth a trial.
#[derive(Clone, Copy)]
pub(crate) struct Pair {
    pub(crate) a: u32,
    pub(crate) b: u32,
    /// How far its share is from three fifths, in parts.
    pub(crate) off: u64,
}

/// Splits that gained nothing when they were tried.
#[derive(Drop)]
pub(crate) struct Poor {
    cuts: Vec<Cut>,
    pairs: Vec<Pair>,
}

impl Poor {
    /// None.
    pub(crate) fn new(alloc: Global) -> Poor {
        Poor {
            cuts: Vec::new(alloc),
            pairs: Vec::new(alloc),
        }
    }

    /// Adds a split. If there are many, it begins anew.
    pub(crate) fn add(
        &mut self,
        alloc: Global,
        inst: &Instance,
        pool: &ShorePool,
        node: &Node,
    ) -> Result<(), Memory> {
        if self.cuts.len() >= MOST_POOR || self.pairs.len() >= MOST_POOR {
            *self = Poor::new(alloc);
        }
        match *node {
            Node::Cut { shore, k } => {
                if is_shore_of(inst, pool, shore) {
                    let shore = pool.shore(shore).copy(alloc)?;
                    self.cuts.push(Cut { shore, k, off: 0 })?;
                }
            }
            Node::Pair { a, b } => self.pairs.push(Pair { a, b, off: 0 })?,
            _ => {}
        }
        Ok(())
    }

    /// Whether it has the cut on a shore at a number.
    pub(crate) fn has_cut(&self, shore: &Shore, k: u64) -> bool {
        self.cuts
            .iter()
            .any(|cut| cut.k == k && cut.shore == *shore)
    }

    /// Whether it has a pair.
    pub(crate) fn has_pair(&self, a: u32, b: u32) -> bool {
        self.pairs.iter().any(|pair| pair.a == a && pair.b == b)
    }
}
