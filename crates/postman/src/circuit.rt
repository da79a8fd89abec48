// A circuit over required edges and deadheads (Hierholzer 1873).
ghost use Rattle.std.specs.Prelude.{◌≡◌, ℕ, [], IfOk, OnOk, ◌≤◌};
ghost use Rattle.edge_components.specs.Parts.{parts_of};
ghost use Rattle.matching_duals.specs.Joins.{MakesEven};
ghost use Rattle.postman.specs.Rounds.{AreJoined};
ghost use Rattle.postman.specs.Trails.{IsCheapRound, IsLaid, IsStart};

use crate::joined::add_services;
use crate::trail::advance;
use carp_base::{Instance, Memory};
use plan_model::{Step, Walk};
use road_network::Network;
use std::alloc::Global;

// A closed walk from the depot over the crossings that are left.
fn close(
    inst: &Instance,
    net: &Network,
    left: &mut [u64],
    next: &mut [u32],
    stack: &mut Vec<Step>,
    walk: &mut Walk,
) -> Result<(), Memory>
    requires net { net.now ≡ inst.now }
    requires start { IsStart inst.now left.old next.old }
    requires no_stack { stack.old.items ≡ [] }
    requires no_walk { walk.old ≡ [] }
    ensures { OnOk result (IsLaid inst.now left.old left.new walk.new) }
{
    let mut hand = Some(inst.depot());
    while let Some(v) = hand {
        hand = advance(inst, net, v, left, next, stack, walk)?;
    }
    Ok(())
}

// A closed walk from the depot over the required edges and some of the deadheads. What is left of them stays behind. Without
// required edges it has no steps, also where deadheads cost nothing.
pub(crate) fn lay_circuit(
    alloc: Global,
    inst: &Instance,
    net: &Network,
    deadheads: &mut [u64],
) -> Result<Walk, Memory>
    requires net { net.now ≡ inst.now }
    requires joined { AreJoined inst.now }
    requires makes_even { MakesEven inst.now deadheads.old }
    requires once { (e : ℕ) → parts_of deadheads.old e ≤ 1 }
    ensures { IfOk result (λ walk. IsCheapRound inst.now deadheads.old walk) }
{
    if inst.required() == 0 {
        return Ok(Walk::new(alloc));
    }
    add_services(inst, deadheads);
    let mut next = vec![in alloc; 0; inst.vertices() as usize + 1]?;
    let mut stack = Vec::new(alloc);
    let mut walk = Walk::new(alloc);
    close(inst, net, deadheads, &mut next, &mut stack, &mut walk)?;
    Ok(walk)
}
