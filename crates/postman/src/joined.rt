// Whether the required edges hang together with the depot.
ghost use Rattle.std.specs.Prelude.{◌≡◌, ℕ, ◌+◌, ◌≤◌, length, slice_index, IfOk, MatchOption};
ghost use Rattle.carp_base.specs.Problem.{IsEdgeNumber};
ghost use Rattle.edge_components.specs.Labels.{AreInRange};
ghost use Rattle.edge_components.specs.Parts.{parts_of};
ghost use Rattle.postman.specs.Rounds.{AreJoined, IsFirstApart};
ghost use Rattle.postman.specs.Trails.{HasLabel, IsFirstOther, one_service};

use carp_base::{Instance, Memory};
use edge_components::label_components;
use road_network::Network;
use std::alloc::Global;

// Adds one to the count of each required edge.
pub(crate) fn add_services(inst: &Instance, counts: &mut [u64])
    requires long { length counts.old ≡ length inst.now.edges }
    requires bits { (k : ℕ) → slice_index counts.old k ≤ 1 }
    ensures { (e : ℕ) → IsEdgeNumber inst.now e → parts_of counts.new e ≡ parts_of counts.old e + one_service inst.now e }
{
    for i in 0..inst.required() {
        counts[i as usize] += 1;
    }
}

// The least required edge whose first end has another label than the depot.
fn first_other(inst: &Instance, labels: &[u32]) -> Option<u32>
    requires { AreInRange inst.now labels.now }
    ensures { MatchOption result ((e : ℕ) → HasLabel inst.now labels.now e) (IsFirstOther inst.now labels.now) }
{
    let depot = inst.depot();
    for e in 1..inst.required() + 1 {
        if labels[inst.edge(e).u as usize] != labels[depot as usize] {
            return Some(e);
        }
    }
    None
}

// The least required edge that required edges do not join to the depot. It takes time and memory in proportion to the
// vertices and edges.
pub(crate) fn find_apart(
    alloc: Global,
    inst: &Instance,
    net: &Network,
) -> Result<Option<u32>, Memory>
    requires net { net.now ≡ inst.now }
    ensures { IfOk result (λ found. MatchOption found (AreJoined inst.now) (IsFirstApart inst.now)) }
{
    let mut services = vec![in alloc; 0; inst.edge_count() as usize]?;
    add_services(inst, &mut services);
    let labels = label_components(alloc, inst, net, &services, 1)?;
    Ok(first_other(inst, &labels))
}
