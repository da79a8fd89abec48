// The memory in which orders are cut.
ghost use Rattle.std.specs.Prelude.{◌≡◌, ◌+◌, ◌<◌, ◌≤◌, length, slice_index, IfOk};
ghost use Rattle.deadhead_paths.specs.Prices.{costs_of};
ghost use Rattle.task_tours.specs.Tours.{AreServedOnce};
ghost use Rattle.giant_split.specs.Cuts.{IsCutOrder};
ghost use Rattle.giant_split.specs.Cutters.{IsCutterOf};

use crate::cutting::cut_legs;
use crate::legs::{Leg, measure};
use carp_base::{Instance, Memory, Task};
use deadhead_paths::Distances;
use std::alloc::Global;
use task_tours::{served_once_are_as_many, tours_are_linked};

// Cuts an order in these tables.
fn cut_tasks(
    inst: &Instance,
    dist: &Distances,
    order: &[Task],
    legs: &mut [Leg],
    costs: &mut [u64],
    lasts: &mut [usize],
)
    requires problem { dist.now.problem ≡ inst.now }
    requires prices { dist.now.prices ≡ costs_of inst.now }
    requires order { AreServedOnce inst.now order.now }
    requires legs { length legs.old ≡ length order.now }
    requires costs { length costs.old ≡ length order.now + 1 }
    requires lasts { length lasts.old ≡ length order.now }
    ensures { IsCutOrder inst.now order.now costs.new lasts.new }
{
    tours_are_linked();
    served_once_are_as_many();
    let capacity = inst.capacity();
    measure(inst, dist, order, legs);
    cut_legs(legs, capacity, costs, lasts);
}

// Tables for orders of one length, and the cutting of the latest order.
#[derive(Drop)]
pub(crate) struct Cutter {
    legs: Vec<Leg>,
    costs: Vec<u64>,
    lasts: Vec<usize>,
}

impl Cutter {
    pub(crate) fn new(alloc: Global, count: usize) -> Result<Cutter, Memory>
        requires { count ≤ 600 }
        ensures { IfOk result (IsCutterOf count) }
    {
        Ok(Cutter {
            legs: vec![in alloc; Leg::NONE; count]?,
            costs: vec![in alloc; 0; count + 1]?,
            lasts: vec![in alloc; 0; count]?,
        })
    }

    // The least deadhead of the tours into which an order can be cut. It takes no memory.
    pub(crate) fn cut(&mut self, inst: &Instance, dist: &Distances, order: &[Task]) -> u64
        requires problem { dist.now.problem ≡ inst.now }
        requires prices { dist.now.prices ≡ costs_of inst.now }
        requires order { AreServedOnce inst.now order.now }
        requires room { IsCutterOf (length order.now) self.old }
        ensures room { IsCutterOf (length order.now) self.new }
        ensures cut { IsCutOrder inst.now order.now self.new.costs.items self.new.lasts.items }
        ensures cost { result ≡ slice_index self.new.costs.items 0 }
    {
        cut_tasks(
            inst,
            dist,
            order,
            &mut self.legs,
            &mut self.costs,
            &mut self.lasts,
        );
        self.costs[0]
    }

    // The place after the tour that starts at a place, in an order of so many tasks.
    pub(crate) fn end(&self, from: usize, count: usize) -> usize
        requires from { from < length self.now.lasts.items }
        requires later { from ≤ slice_index self.now.lasts.items from }
        requires within { slice_index self.now.lasts.items from < count }
        ensures value { result ≡ slice_index self.now.lasts.items from + 1 }
        ensures later { from < result }
        ensures within { result ≤ count }
    {
        self.lasts[from] + 1
    }
}
