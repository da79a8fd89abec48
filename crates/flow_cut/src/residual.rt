// Residual arcs: the two ways across an arc.
ghost use Rattle.std.specs.Prelude.{◌≡◌, ◌<◌, ◌≤◌, length};
ghost use Rattle.std.specs.List.{All};
ghost use Rattle.flow_cut.specs.Flows.{HasFineRoom, IsWithinRooms};
ghost use Rattle.flow_cut.specs.Residual.{residual_tail, residual_head, left_on, IsPushed};

use crate::Arc;

/// One of the two ways across an arc: forward, which adds to its flow, or backward, which takes from it.
#[derive(Clone, Copy, Debug, PartialEq, Eq)]
pub(crate) struct ResidualArc {
    /// The place of the arc, from 0.
    pub arc: u32,
    /// Whether it leads as the arc does.
    pub forward: bool,
}

/// The node where a residual arc begins.
pub(crate) fn tail(arcs: &[Arc], r: ResidualArc) -> u32
    requires { r.arc < length arcs.now }
    ensures { result ≡ residual_tail arcs.now r }
{
    let arc = arcs[r.arc as usize];
    if r.forward { arc.from } else { arc.to }
}

/// The node where a residual arc ends.
pub(crate) fn head(arcs: &[Arc], r: ResidualArc) -> u32
    requires { r.arc < length arcs.now }
    ensures { result ≡ residual_head arcs.now r }
{
    let arc = arcs[r.arc as usize];
    if r.forward { arc.to } else { arc.from }
}

/// How much more can cross a residual arc.
pub(crate) fn left(arcs: &[Arc], flows: &[u64], r: ResidualArc) -> u64
    requires in_arcs { r.arc < length arcs.now }
    requires rooms { IsWithinRooms arcs.now flows.now }
    ensures { result ≡ left_on arcs.now flows.now r }
{
    let i = r.arc as usize;
    if r.forward {
        arcs[i].room - flows[i]
    } else {
        flows[i]
    }
}

/// Sends an amount across a residual arc.
pub(crate) fn push(arcs: &[Arc], flows: &mut [u64], r: ResidualArc, amount: u64)
    requires in_arcs { r.arc < length arcs.now }
    requires rooms { IsWithinRooms arcs.now flows.old }
    requires fine { All HasFineRoom arcs.now }
    requires fits { amount ≤ left_on arcs.now flows.old r }
    ensures { IsPushed arcs.now r amount flows.old flows.new }
{
    let i = r.arc as usize;
    if r.forward {
        flows[i] += amount;
    } else {
        flows[i] -= amount;
    }
}
