// A table of the least prices between all pairs of vertices.
ghost use Rattle.std.specs.Prelude.{◌≡◌, ◌+◌, ◌-◌, ◌*◌, ◌^◌, ◌<◌, ◌≤◌, length, IfOk, IfSome, OnOk, MatchOption};
ghost use Rattle.carp_base.specs.Problem.{IsVertex};
ghost use Rattle.deadhead_paths.specs.Prices.{AddsPath, IsLeastPrice, IsLeastPath, NoneLead, edge_price};

use crate::search::{PRICE_UNIT, UNREACHED};
use carp_base::{Instance, Memory};
use plan_model::{Step, Walk};
use road_network::far_end;
use std::alloc::Global;
use std::marker::Model;

/// The least prices of deadheads between all pairs of vertices of an instance, and steps that have them.
///
/// Contracts see the instance, of which it keeps a copy, and the price of each edge. From no vertex does an edge and
/// the least price at its other end come to less than the least price there.
#[derive(Drop)]
pub struct Distances {
    pub(crate) inst: Instance,
    pub(crate) prices: Vec<u64>,
    pub(crate) labels: Vec<u128>,
    pub(crate) nexts: Vec<u32>,
}

impl Model for Distances {
    ghost use Rattle.deadhead_paths.specs.Prices.{Priced};
    ghost use Rattle.deadhead_paths.specs.Table.{IsTable};

    ghost Value = { Priced };

    ghost view = { λ d. record { problem = d.inst; prices = d.prices.items } };

    ghost invariant = { λ d. IsTable (record { problem = d.inst; prices = d.prices.items }) d.labels.items d.nexts.items };
}

impl Distances {
    // The place of a vertex in the row of another.
    fn place(&self, from: u32, to: u32) -> usize
        requires from { IsVertex self.now.problem from }
        requires to { IsVertex self.now.problem to }
        ensures { result ≡ (to - 1) * (self.now.problem.vertices + 1) + from }
    {
        (to as usize - 1) * (self.inst.vertices() as usize + 1) + from as usize
    }

    /// The least price of a list of steps from one vertex to another, at most 4 * 10^21. It is `None` if no steps lead
    /// there.
    pub fn get(&self, from: u32, to: u32) -> Option<u128>
        requires from { IsVertex self.now.problem from }
        requires to { IsVertex self.now.problem to }
        ensures value { MatchOption result (NoneLead self.now.problem from to) (λ price. IsLeastPrice self.now.problem (edge_price self.now) from to price) }
        ensures small { IfSome result (λ price. price ≤ 4000000000000000000000) }
    {
        let label = self.labels[self.place(from, to)];
        if label == UNREACHED {
            None
        } else {
            Some(label / PRICE_UNIT)
        }
    }

    /// Adds steps of the least price from one vertex to another, if some lead there, to a walk of fewer than
    /// 2^32 - 1000 steps. Of such steps they are the fewest.
    ///
    /// It takes time in proportion to the steps that it adds.
    pub fn follow(&self, walk: &mut Walk, from: u32, to: u32) -> Result<(), Memory>
        requires from { IsVertex self.now.problem from }
        requires to { IsVertex self.now.problem to }
        requires linked { ¬ (NoneLead self.now.problem from to) }
        requires room { length walk.old + 1000 < 2 ^ 32 }
        ensures { OnOk result (AddsPath self.now from to walk.old walk.new) }
    {
        let mut at = from;
        while at != to {
            let next = self.nexts[self.place(at, to)];
            let edge = self.inst.edge(next);
            walk.push(Step {
                edge: next,
                forward: edge.u == at,
                served: false,
            })?;
            at = far_end(&edge, at);
        }
        Ok(())
    }

    /// Steps of the least price from one vertex to another, and of such steps the fewest, which are fewer than the
    /// instance has vertices. It is `None` if no steps lead there.
    pub fn path(&self, alloc: Global, from: u32, to: u32) -> Result<Option<Walk>, Memory>
        requires from { IsVertex self.now.problem from }
        requires to { IsVertex self.now.problem to }
        ensures { IfOk result (λ found. MatchOption found (NoneLead self.now.problem from to) (λ walk. IsLeastPath self.now.problem (edge_price self.now) from to walk)) }
    {
        if self.get(from, to).is_none() {
            return Ok(None);
        }
        let mut walk = Walk::new(alloc);
        self.follow(&mut walk, from, to)?;
        Ok(Some(walk))
    }
}
