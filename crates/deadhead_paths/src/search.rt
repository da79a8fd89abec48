// A search for the least labels towards one vertex (Dijkstra 1959, with a binary heap).
ghost use Rattle.std.specs.Prelude.{◌≡◌, ℕ, ◌<◌, ◌≤◌, List, length, slice_index, IfOk, OnOk};
ghost use Rattle.std.specs.BinaryHeap.{heap_items};
ghost use Rattle.carp_base.specs.Problem.{IsValid, IsVertex};
ghost use Rattle.deadhead_paths.specs.Table.{IsTowards, unreached};
ghost use Rattle.deadhead_paths.specs.Search.{IsLabelling, Lowered, Unchanged, weight};

use carp_base::{Instance, Memory};
use road_network::{Network, far_end};
use std::alloc::Global;
use std::cmp::Reverse;
use std::collections::BinaryHeap;

// The label of a vertex from which no steps lead to the target.
pub(crate) const UNREACHED: u128 = u128::MAX;

// A label is this number times the price of its steps, and one for each step: least labels are least prices, and among
// steps of one price the fewest. An instance has fewer vertices than this.
pub(crate) const PRICE_UNIT: u128 = 1024;

// Labels towards one vertex, the edges on which to go there, and the vertices whose edges are to be gone through. Each
// list has a place for each vertex, and one for 0, which is not used.
#[derive(Drop)]
pub(crate) struct Search {
    target: u32,
    pub(crate) labels: Vec<u128>,
    pub(crate) nexts: Vec<u32>,
    queue: BinaryHeap<(Reverse<u128>, u32)>,
}

impl Search {
    // Lowers the label at a vertex, where the new one is less, and queues the vertex with it.
    fn improve(&mut self, v: u32, label: u128, next: u32) -> Result<(), Memory>
        requires labels { v < length self.old.labels.items }
        requires nexts { v < length self.old.nexts.items }
        ensures target { self.new.target ≡ self.old.target }
        ensures fits { slice_index self.old.labels.items v ≤ unreached }
        ensures less { OnOk result (label < slice_index self.old.labels.items v →
            Lowered v label next self.old.labels.items self.old.nexts.items (heap_items self.old.queue)
            self.new.labels.items self.new.nexts.items (heap_items self.new.queue)) }
        ensures not_less { OnOk result (slice_index self.old.labels.items v ≤ label →
            Unchanged self.old.labels.items self.old.nexts.items (heap_items self.old.queue)
            self.new.labels.items self.new.nexts.items (heap_items self.new.queue)) }
    {
        if label < self.labels[v as usize] {
            self.labels[v as usize] = label;
            self.nexts[v as usize] = next;
            self.queue.push((Reverse(label), v))?;
        }
        Ok(())
    }

    // Goes through the edges at a vertex, and lowers the labels at their other ends.
    fn settle(
        &mut self,
        inst: &Instance,
        net: &Network,
        prices: &[u64],
        v: u32,
    ) -> Result<(), Memory>
        requires valid { IsValid inst.now }
        requires net { net.now ≡ inst.now }
        requires prices { length prices.now ≡ length inst.now.edges }
        requires vertex { IsVertex inst.now v }
        requires search { IsLabelling inst.now prices.now self.old.target self.old.labels.items self.old.nexts.items (heap_items self.old.queue) v }
        ensures target { self.new.target ≡ self.old.target }
        ensures search { OnOk result (IsLabelling inst.now prices.now self.new.target self.new.labels.items self.new.nexts.items (heap_items self.new.queue) 0) }
        ensures lighter { OnOk result (weight self.new.labels.items (heap_items self.new.queue) ≤ weight self.old.labels.items (heap_items self.old.queue)) }
    {
        let label = self.labels[v as usize];
        for i in 0..net.degree(v) {
            let e = net.edge_at(v, i);
            let rise = PRICE_UNIT * u128::from(prices[e as usize - 1]) + 1;
            self.improve(far_end(&inst.edge(e), v), label.saturating_add(rise), e)?;
        }
        Ok(())
    }

    // The search towards a vertex at its start, where the vertex alone has a label.
    fn begin(alloc: Global, inst: &Instance, target: u32) -> Result<Search, Memory>
        requires { IsVertex inst.now target }
        ensures target { IfOk result (λ search. search.target ≡ target) }
        ensures begun { IfOk result (λ search. (prices : List ℕ) → IsLabelling inst.now prices search.target search.labels.items search.nexts.items (heap_items search.queue) 0) }
    {
        let places = inst.vertices() as usize + 1;
        let mut labels = vec![in alloc; UNREACHED; places]?;
        labels[target as usize] = 0;
        let nexts = vec![in alloc; 0u32; places]?;
        let mut queue = BinaryHeap::new(alloc);
        queue.push((Reverse(0), target))?;
        Ok(Search {
            target,
            labels,
            nexts,
            queue,
        })
    }

    // The least labels towards a vertex.
    pub(crate) fn towards(
        alloc: Global,
        inst: &Instance,
        net: &Network,
        prices: &[u64],
        target: u32,
    ) -> Result<Search, Memory>
        requires valid { IsValid inst.now }
        requires net { net.now ≡ inst.now }
        requires prices { length prices.now ≡ length inst.now.edges }
        requires vertex { IsVertex inst.now target }
        ensures { IfOk result (λ search. IsTowards inst.now prices.now target search.labels.items search.nexts.items) }
    {
        let mut search = Search::begin(alloc, inst, target)?;
        while let Some((Reverse(label), v)) = search.queue.pop() {
            if label == search.labels[v as usize] {
                search.settle(inst, net, prices, v)?;
            }
        }
        Ok(search)
    }
}
