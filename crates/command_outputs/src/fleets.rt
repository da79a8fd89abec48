// Finds few vehicles that carry all demands.
ghost use Rattle.std.specs.Prelude.{◌≡◌, ◌⊎◌, ◌≤◌, ◌++◌, IfOk, OnOk};
ghost use Rattle.std.specs.List.{flat_map};
ghost use Rattle.carp_base.specs.Packings.{IsPacking};
ghost use Rattle.plan_model.specs.Plans.{IsLawful};
ghost use Rattle.task_tours.specs.Tours.{PlanGoesByLeastPaths};
ghost use Rattle.group_plans.specs.Groups.{ServesGroups};
ghost use Rattle.command_outputs.specs.Fleets.{IsFleetFound, counts_text, fleet_text, node_line, nodes_text};
ghost use Rattle.command_outputs.specs.Outputs.{output_in};

use crate::delivery::Delivery;
use crate::solving::ending;
use carp_base::{Instance, Memory};
use command_inputs::Status;
use fleet_pack::pack;
use group_plans::{plan_of_groups, plans_are_packings};
use packing_trees::{PackNode, Packing};
use plan_model::Plan;
use plan_print::{push_gap, push_line, push_tours, push_words};
use std::alloc::Global;
use task_tours::cost_distances;

/// The vehicles that are found in so many turns, with a plan for them, and a tree that proves how many it takes at
/// least.
pub(crate) fn count_fleet<'a>(
    alloc: Global,
    inst: &Instance,
    turns: u64,
) -> Result<Delivery<'a>, Memory>
    requires some_turns { 1 ≤ turns }
    requires turns_in_range { turns ≤ 1048576 }
    ensures { IfOk result (λ d. ((d.status ≡ Status.Proven) ⊎ (d.status ≡ Status.Gap)) × IsFleetFound inst.now turns d.status (output_in d)) }
{
    plans_are_packings();
    inst.validity();
    let found = pack(alloc, inst, turns)?;
    let plan = plan_of(alloc, inst, &found)?;
    let text = spell_fleet(alloc, inst, &plan, &found)?;
    let status = ending(u64::from(found.bound), u64::from(found.count));
    Ok(Delivery {
        kept: Vec::new(alloc),
        text,
        status,
    })
}

// A tour for each group.
fn plan_of(alloc: Global, inst: &Instance, found: &Packing) -> Result<Plan, Memory>
    requires { IsPacking inst.now found.now.groups.items found.now.count }
    ensures lawful { IfOk result (λ plan. IsLawful inst.now plan) }
    ensures serves { IfOk result (λ plan. ServesGroups inst.now found.now.groups.items found.now.count plan) }
    ensures paths { IfOk result (λ plan. PlanGoesByLeastPaths inst.now plan) }
{
    let dist = cost_distances(alloc, inst)?;
    plan_of_groups(alloc, inst, &dist, &found.groups, found.count)
}

#[tactic(auto, unfolding(crate::specs::Fleets::fleet_text))]
fn spell_fleet(
    alloc: Global,
    inst: &Instance,
    plan: &Plan,
    found: &Packing,
) -> Result<Vec<u8>, Memory>
    requires lawful { IsLawful inst.now plan.now }
    requires bounded { found.now.bound ≤ found.now.count }
    ensures { IfOk result (λ text. text.items ≡ fleet_text inst.now plan.now found.now) }
{
    let mut text = Vec::new(alloc);
    push_counts(&mut text, found.count, found.bound, found.turns)?;
    push_tours(&mut text, inst, plan)?;
    push_nodes(&mut text, &found.tree)?;
    Ok(text)
}

#[tactic(auto, unfolding(crate::specs::Fleets::counts_text))]
fn push_counts(text: &mut Vec<u8>, count: u32, bound: u32, turns: u64) -> Result<(), Memory>
    requires { bound ≤ count }
    ensures { OnOk result (text.new.items ≡ text.old.items ++ counts_text count bound turns) }
{
    push_line(text, b"fleet ", u128::from(count))?;
    push_line(text, b"bound ", u128::from(bound))?;
    push_line(text, b"turns ", u128::from(turns))?;
    push_gap(text, u128::from(count), u128::from(bound))
}

#[tactic(auto, unfolding(crate::specs::Fleets::nodes_text))]
fn push_nodes(text: &mut Vec<u8>, nodes: &[PackNode]) -> Result<(), Memory>
    ensures { OnOk result (text.new.items ≡ text.old.items ++ nodes_text nodes.now) }
{
    push_line(text, b"nodes ", nodes.len() as u128)?;
    push_node_lines(text, nodes)
}

fn push_node_lines(text: &mut Vec<u8>, nodes: &[PackNode]) -> Result<(), Memory>
    ensures { OnOk result (text.new.items ≡ text.old.items ++ flat_map node_line nodes.now) }
{
    for i in 0..nodes.len() {
        push_node(text, nodes[i])?;
    }
    Ok(())
}

#[tactic(auto, unfolding(crate::specs::Fleets::node_line))]
fn push_node(text: &mut Vec<u8>, node: PackNode) -> Result<(), Memory>
    ensures { OnOk result (text.new.items ≡ text.old.items ++ node_line node) }
{
    match node {
        PackNode::Pair { a, b } => {
            push_words(text, b"pair ", a)?;
            push_line(text, b" ", u128::from(b))
        }
        PackNode::Share { s } => push_line(text, b"share ", u128::from(s)),
        PackNode::Apart => {
            text.extend_from_slice(b"apart\n")?;
            Ok(())
        }
    }
}
