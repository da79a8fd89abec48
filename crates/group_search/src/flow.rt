// The flow between services.
ghost use Rattle.std.specs.Prelude.{◌≡◌, ℕ, ◌+◌, ◌*◌, ◌<◌, ◌≤◌, length, min, IfOk};
ghost use Rattle.group_search.specs.Flows.{IsAdded, IsRaised, between, most_services, most_flow};

use carp_base::{Instance, Memory};
use std::alloc::Global;
use std::marker::Model;

// No flow from one service to another is greater.
const MOST_FLOW: u64 = 4_294_967_295;

/// How much of one service directly follows another in a fractional solution, in parts of 2^20: for each pair of
/// required edges the sum of the multipliers of the tours in which the two follow each other, in either order. The
/// depot stands before the first service of a tour and behind the last one, as number 0.
///
/// Each flow is at most 2^32 - 1 parts. Contracts see the table of all flows.
#[derive(Drop)]
pub struct Flow {
    services: u32,
    amounts: Vec<u32>,
}

impl Model for Flow {
    ghost use Rattle.group_search.specs.Flows.{FlowTable, IsTable};

    ghost Value = { FlowTable };

    ghost view = { λ f. record { services = f.services; amounts = f.amounts.items } };

    ghost invariant = { λ f. IsTable (record { services = f.services; amounts = f.amounts.items }) };
}

impl Flow {
    /// No flow between the required edges of an instance. For m of them it takes time and memory in proportion to
    /// m * m. The only error is want of memory.
    pub fn new(alloc: Global, inst: &Instance) -> Result<Flow, Memory>
        ensures services { IfOk result (λ flow. flow.services ≡ inst.now.required) }
        ensures none { IfOk result (λ flow. (e f : ℕ) → between flow e f ≡ 0) }
    {
        let services = inst.required();
        let width = services as usize + 1;
        Ok(Flow {
            services,
            amounts: vec![in alloc; 0; width * width]?,
        })
    }

    /// The number of services, 0 to 600. They are the required edges from 1 to this number.
    pub fn services(&self) -> u32
        ensures value { result ≡ self.now.services }
        ensures few { result ≤ most_services }
    {
        self.services
    }

    /// The flow between two services, 0 to 2^32 - 1 parts. Each is the number of a required edge, or 0 for the depot.
    /// It takes constant time.
    pub fn between(&self, e: u32, f: u32) -> u64
        requires e { e ≤ self.now.services }
        requires f { f ≤ self.now.services }
        ensures value { result ≡ between self.now e f }
        ensures small { result ≤ most_flow }
    {
        u64::from(self.amounts[self.place(e, f)])
    }

    /// Adds so many parts to the flow between two services, in both orders. Each is the number of a required edge, or 0
    /// for the depot. A flow stays at 2^32 - 1 parts if the sum is greater. It takes constant time.
    pub fn add(&mut self, e: u32, f: u32, amount: u64)
        requires e { e ≤ self.old.services }
        requires f { f ≤ self.old.services }
        ensures { IsAdded e f amount self.old self.new }
    {
        self.raise(e, f, amount);
        if e != f {
            self.raise(f, e, amount);
        }
    }

    // Adds so many parts to the flow in one order.
    fn raise(&mut self, e: u32, f: u32, amount: u64)
        requires e { e ≤ self.old.services }
        requires f { f ≤ self.old.services }
        ensures { IsRaised e f amount self.old self.new }
    {
        let place = self.place(e, f);
        self.amounts[place] = sum_of(self.amounts[place], amount);
    }

    // The place of the flow from one service to another.
    fn place(&self, e: u32, f: u32) -> usize
        requires e { e ≤ self.now.services }
        requires f { f ≤ self.now.services }
        ensures value { result ≡ e * (self.now.services + 1) + f }
        ensures below { result < length self.now.amounts }
    {
        e as usize * (self.services as usize + 1) + f as usize
    }
}

// A flow and so many parts more, as far as a flow can go.
fn sum_of(flow: u32, amount: u64) -> u32
    ensures { result ≡ min (flow + amount) most_flow }
{
    let sum = u64::from(flow).saturating_add(amount);
    sum.min(MOST_FLOW) as u32
}
