// The street sheet.
ghost use Rattle.std.specs.Prelude.{◌≡◌, ◌+◌, ◌++◌, IfOk, OnOk};
ghost use Rattle.carp_base.specs.Problem.{IsEdgeNumber};
ghost use Rattle.plan_model.specs.Plans.{IsLawful, IsOnEdges, step_load, plan_cost};
ghost use Rattle.plan_print.specs.Sheet.{crossing_words, step_end, step_line, step_lines, head_line, tour_steps, tours_steps, total_line, sheet_text};

use crate::{push_line, push_number, push_words};
use carp_base::{Instance, Memory};
use plan_model::{Plan, Step, Walk, cost_of, load_of};
use std::alloc::Global;

#[tactic(auto, unfolding(crate::specs::Sheet::crossing_words))]
fn push_crossing_words(text: &mut Vec<u8>, inst: &Instance, step: Step) -> Result<(), Memory>
    requires { IsEdgeNumber inst.now step.edge }
    ensures { OnOk result (text.new.items ≡ text.old.items ++ crossing_words inst.now step) }
{
    let edge = inst.edge(step.edge);
    push_number(text, edge.tail(step.forward))?;
    push_words(text, b" ", edge.head(step.forward))?;
    push_words(
        text,
        b" cost ",
        if step.served { edge.service } else { edge.cost },
    )
}

#[tactic(auto, unfolding(crate::specs::Sheet::step_end))]
fn push_step_end(text: &mut Vec<u8>, step: Step, load: u128) -> Result<(), Memory>
    ensures { OnOk result (text.new.items ≡ text.old.items ++ step_end step load) }
{
    if step.served {
        push_line(text, b" load ", load)
    } else {
        text.push(b'\n')?;
        Ok(())
    }
}

#[tactic(auto, unfolding(crate::specs::Sheet::step_line))]
fn push_step_line(
    text: &mut Vec<u8>,
    inst: &Instance,
    number: usize,
    load: u128,
    step: Step,
) -> Result<(), Memory>
    requires { IsEdgeNumber inst.now step.edge }
    ensures { OnOk result (text.new.items ≡ text.old.items ++ step_line inst.now number load step) }
{
    push_number(text, number)?;
    text.extend_from_slice(if step.served { b" serve " } else { b" drive " })?;
    push_crossing_words(text, inst, step)?;
    push_step_end(text, step, load)
}

// The demand that a step serves.
fn demand_of(inst: &Instance, step: Step) -> u64
    requires { IsEdgeNumber inst.now step.edge }
    ensures { result ≡ step_load inst.now step }
{
    if step.served {
        inst.edge(step.edge).demand
    } else {
        0
    }
}

fn push_step_lines(text: &mut Vec<u8>, inst: &Instance, walk: &Walk) -> Result<(), Memory>
    requires { IsOnEdges inst.now walk.now }
    ensures { OnOk result (text.new.items ≡ text.old.items ++ step_lines inst.now 1 0 walk.now) }
{
    let mut load: u128 = 0;
    for i in 0..walk.len() {
        let step = walk.step(i);
        load += u128::from(demand_of(inst, step));
        push_step_line(text, inst, i + 1, load, step)?;
    }
    Ok(())
}

#[tactic(auto, unfolding(crate::specs::Sheet::head_line))]
fn push_head_line(
    text: &mut Vec<u8>,
    inst: &Instance,
    number: usize,
    walk: &Walk,
) -> Result<(), Memory>
    requires { IsOnEdges inst.now walk.now }
    ensures { OnOk result (text.new.items ≡ text.old.items ++ head_line inst.now number walk.now) }
{
    push_words(text, b"tour ", number)?;
    push_words(text, b" load ", load_of(inst, walk))?;
    push_line(text, b" cost ", cost_of(inst, walk))
}

fn push_tour_steps(
    text: &mut Vec<u8>,
    inst: &Instance,
    number: usize,
    walk: &Walk,
) -> Result<(), Memory>
    requires { IsOnEdges inst.now walk.now }
    ensures { OnOk result (text.new.items ≡ text.old.items ++ tour_steps inst.now number walk.now) }
{
    push_head_line(text, inst, number, walk)?;
    push_step_lines(text, inst, walk)
}

fn push_tours_steps(text: &mut Vec<u8>, inst: &Instance, plan: &Plan) -> Result<(), Memory>
    requires { IsLawful inst.now plan.now }
    ensures { OnOk result (text.new.items ≡ text.old.items ++ tours_steps inst.now 1 plan.now) }
{
    for i in 0..plan.len() {
        push_tour_steps(text, inst, i + 1, plan.walk(i))?;
    }
    Ok(())
}

// What all tours cost.
fn total_cost(inst: &Instance, plan: &Plan) -> u128
    requires { IsLawful inst.now plan.now }
    ensures { result ≡ plan_cost inst.now plan.now }
{
    inst.validity();
    let mut sum: u128 = 0;
    for i in 0..plan.len() {
        sum += cost_of(inst, plan.walk(i));
    }
    sum
}

#[tactic(auto, unfolding(crate::specs::Sheet::total_line))]
fn push_total_line(text: &mut Vec<u8>, inst: &Instance, plan: &Plan) -> Result<(), Memory>
    requires { IsLawful inst.now plan.now }
    ensures { OnOk result (text.new.items ≡ text.old.items ++ total_line inst.now plan.now) }
{
    push_words(text, b"total tours ", plan.len())?;
    push_line(text, b" cost ", total_cost(inst, plan))?;
    Ok(())
}

/// The street sheet of a plan: of each tour its load, its cost and its steps, and at the end the number of tours and
/// what they cost. A step's line says whether it serves its street or drives along it, from where to where, and what
/// that costs. If it serves, the line also has the load after it.
///
/// Its error says only that there was not enough memory. It takes time in proportion to the text.
pub fn sheet(alloc: Global, inst: &Instance, plan: &Plan) -> Result<Vec<u8>, Memory>
    requires { IsLawful inst.now plan.now }
    ensures { IfOk result (λ text. text.items ≡ sheet_text inst.now plan.now) }
{
    let mut text = Vec::new(alloc);
    push_tours_steps(&mut text, inst, plan)?;
    push_total_line(&mut text, inst, plan)?;
    Ok(text)
}
