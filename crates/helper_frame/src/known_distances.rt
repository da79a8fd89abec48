// Distances that are kept for the next call.
ghost use Rattle.std.specs.Prelude.{◌≡◌, IfOk, IsTrue};
ghost use Rattle.deadhead_paths.specs.Prices.{costs_of};

use carp_base::{Instance, Memory};
use deadhead_paths::Distances;
use std::alloc::Global;
use task_tours::cost_distances;

// An instance, and its distances by cost.
#[derive(Drop)]
struct Known {
    inst: Instance,
    dist: Distances,
    ghost problem: { dist.problem ≡ inst },
    ghost prices: { dist.prices ≡ costs_of inst },
}

// The numbers of an instance beside its edges: the vertices, the depot, the capacity and the required edges.
fn numbers(inst: &Instance) -> (u32, u32, u64, u32)
    ensures { result ≡ (inst.now.vertices, inst.now.depot, inst.now.capacity, inst.now.required) }
{
    (
        inst.vertices(),
        inst.depot(),
        inst.capacity(),
        inst.required(),
    )
}

// Whether two instances have the same numbers and the same edges.
pub(crate) fn is_same(first: &Instance, second: &Instance) -> bool
    ensures same { IsTrue result → first.now ≡ second.now }
    ensures other { first.now ≡ second.now → IsTrue result }
{
    numbers(first) == numbers(second) && first.edges() == second.edges()
}

impl Known {
    // An instance with its distances by cost.
    fn of(alloc: Global, inst: &Instance) -> Result<Known, Memory>
        ensures { IfOk result (λ known. known.inst ≡ inst.now) }
    {
        Ok(Known {
            inst: inst.copy(alloc)?,
            dist: cost_distances(alloc, inst)?,
        })
    }
}

/// Keeps the distances by cost of the instance that was asked for last, for the next call.
///
/// With n vertices and m edges it keeps 20 bytes for each of n (n + 1) pairs of vertices and 72 for each edge: 20 MB at
/// 1,000 vertices.
#[derive(Drop)]
pub struct KnownDistances {
    known: Option<Known>,
}

impl KnownDistances {
    /// Before any instance was asked for. It keeps nothing yet.
    pub fn new() -> KnownDistances {
        KnownDistances { known: None }
    }

    /// The distances by cost of an instance.
    ///
    /// If the instance is the one that was asked for last, it takes time in proportion to m, with n vertices and m
    /// edges. If not, the distances are made anew, in time in proportion to n (n + m) log n. The only error is want of
    /// memory, and then it keeps nothing.
    pub fn distances(&mut self, alloc: Global, inst: &Instance) -> Result<&Distances, Memory>
        ensures problem { IfOk result (λ dist. dist.now.problem ≡ inst.now) }
        ensures prices { IfOk result (λ dist. dist.now.prices ≡ costs_of inst.now) }
    {
        if !self
            .known
            .as_ref()
            .is_some_and(|known| is_same(&known.inst, inst))
        {
            self.known = None;
            self.known = Some(Known::of(alloc, inst)?);
        }
        match &self.known {
            Some(known) => Ok(&known.dist),
            None => unreachable!(),
        }
    }
}
