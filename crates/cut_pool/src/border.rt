// What the required edges at the border of a shore ask for.
ghost use Rattle.std.specs.Prelude.{◌≡◌, ◌≤◌, if◌then◌else◌};
ghost use Rattle.plan_model.specs.Plans.{crosses};
ghost use Rattle.cut_pool.specs.Shores.{Belongs, demand_inside, is_in, need, required_crossings, touched};

use crate::Shore;
use carp_base::{Edge, Instance};

// What the required edges at a border add up to.
#[derive(Clone, Copy)]
struct Border {
    crossings: u64,
    demand: u64,
}

/// The number of required edges with exactly one end in the set, at most 600.
///
/// It takes no memory, and time in proportion to the number of required edges.
pub fn required_crossings(inst: &Instance, s: &Shore) -> u64
    requires { Belongs inst.now s.now }
    ensures value { result ≡ required_crossings inst.now (is_in s.now) }
    ensures small { result ≤ 600 }
{
    border_of(inst, s).crossings
}

/// The demand of the required edges with at least one end in the set, at most 18,000,000.
///
/// It takes no memory, and time in proportion to the number of required edges.
pub fn touched(inst: &Instance, s: &Shore) -> u64
    requires { Belongs inst.now s.now }
    ensures value { result ≡ touched inst.now (is_in s.now) }
    ensures small { result ≤ 18000000 }
{
    border_of(inst, s).demand
}

/// The least number of deadheads over the set that parity and the number of vehicles ask for (Belenguer and Benavent
/// 1998), at most 36,000,000: every lawful plan has at least as many, by the law [`crate::need_is_met`].
///
/// It takes no memory, and time in proportion to the number of required edges.
pub fn need(inst: &Instance, s: &Shore) -> u64
    requires { Belongs inst.now s.now }
    ensures value { result ≡ need inst.now (is_in s.now) }
    ensures small { result ≤ 36000000 }
{
    let border = border_of(inst, s);
    let vehicles = border.demand.div_ceil(inst.capacity());
    let parity = border.crossings % 2;
    parity.max((2 * vehicles).saturating_sub(border.crossings))
}

fn border_of(inst: &Instance, s: &Shore) -> Border
    ensures crossings { result.crossings ≡ required_crossings inst.now (is_in s.now) }
    ensures demand { result.demand ≡ touched inst.now (is_in s.now) }
    ensures few { result.crossings ≤ 600 }
    ensures small { result.demand ≤ 18000000 }
{
    let mut crossings = 0;
    let mut demand = 0;
    for e in 1..inst.required() + 1 {
        let one = border_at(s, &inst.edge(e));
        crossings += one.crossings;
        demand += one.demand;
    }
    Border { crossings, demand }
}

// What one required edge adds.
fn border_at(s: &Shore, edge: &Edge) -> Border
    ensures crossings { result.crossings ≡ (if crosses (is_in s.now) edge.now then 1 else 0) }
    ensures demand { result.demand ≡ demand_inside (is_in s.now) edge.now }
    ensures part { result.demand ≤ edge.now.demand }
{
    let (u, v) = (s.has(edge.u), s.has(edge.v));
    Border {
        crossings: u64::from(u != v),
        demand: if u || v { edge.demand } else { 0 },
    }
}
