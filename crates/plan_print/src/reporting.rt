// The report, and the parts of it that other answers have.
ghost use Rattle.std.specs.Prelude.{◌≡◌, ◌+◌, ◌≤◌, ◌++◌, IfOk, OnOk};
ghost use Rattle.std.specs.List.{flat_map};
ghost use Rattle.carp_base.specs.Problem.{IsEdgeNumber};
ghost use Rattle.plan_model.specs.Plans.{IsLawful, IsOnEdges};
ghost use Rattle.cert_format.specs.Certs.{certificate_in};
ghost use Rattle.plan_print.specs.Report.{report_text, instance_line, result_lines, gap_line, tour_lines, tours_text, tour_line, route_text, crossing_text};

use crate::{push_line, push_number, push_words};
use carp_base::{Instance, Memory};
use cert_format::Cert;
use plan_model::{Plan, Step, Walk, cost_of, load_of};
use std::alloc::Global;

fn push_crossing(text: &mut Vec<u8>, inst: &Instance, step: Step) -> Result<(), Memory>
    requires { IsEdgeNumber inst.now step.edge }
    ensures { OnOk result (text.new.items ≡ text.old.items ++ crossing_text inst.now step) }
{
    text.push(if step.served { b'=' } else { b'-' })?;
    push_number(text, inst.edge(step.edge).head(step.forward))
}

fn push_crossings(text: &mut Vec<u8>, inst: &Instance, walk: &Walk) -> Result<(), Memory>
    requires { IsOnEdges inst.now walk.now }
    ensures { OnOk result (text.new.items ≡ text.old.items ++ flat_map (crossing_text inst.now) walk.now) }
{
    for i in 0..walk.len() {
        push_crossing(text, inst, walk.step(i))?;
    }
    Ok(())
}

/// Adds the route of a walk: the depot, and then for each step the vertex that it reaches. Before the vertex stands `=`
/// if the step serves, and `-` if it does not. The steps are on edges of the instance.
///
/// Its error says only that there was not enough memory. It does not say what the text then holds. It takes time in
/// proportion to what it adds.
#[tactic(auto, unfolding(crate::specs::Report::route_text))]
pub fn push_route(text: &mut Vec<u8>, inst: &Instance, walk: &Walk) -> Result<(), Memory>
    requires { IsOnEdges inst.now walk.now }
    ensures { OnOk result (text.new.items ≡ text.old.items ++ route_text inst.now walk.now) }
{
    push_number(text, inst.depot())?;
    push_crossings(text, inst, walk)?;
    Ok(())
}

fn push_tour_line(
    text: &mut Vec<u8>,
    inst: &Instance,
    number: usize,
    walk: &Walk,
) -> Result<(), Memory>
    requires { IsOnEdges inst.now walk.now }
    ensures { OnOk result (text.new.items ≡ text.old.items ++ tour_line inst.now number walk.now) }
{
    push_words(text, b"tour ", number)?;
    push_words(text, b" load ", load_of(inst, walk))?;
    push_words(text, b" cost ", cost_of(inst, walk))?;
    text.extend_from_slice(b" route ")?;
    push_route(text, inst, walk)?;
    text.push(b'\n')?;
    Ok(())
}

fn push_tour_lines(text: &mut Vec<u8>, inst: &Instance, plan: &Plan) -> Result<(), Memory>
    requires { IsLawful inst.now plan.now }
    ensures { OnOk result (text.new.items ≡ text.old.items ++ tour_lines inst.now 1 plan.now) }
{
    for i in 0..plan.len() {
        push_tour_line(text, inst, i + 1, plan.walk(i))?;
    }
    Ok(())
}

fn push_instance_line(text: &mut Vec<u8>, inst: &Instance) -> Result<(), Memory>
    ensures { OnOk result (text.new.items ≡ text.old.items ++ instance_line inst.now) }
{
    push_words(text, b"instance vertices ", inst.vertices())?;
    push_words(text, b" edges ", inst.edge_count())?;
    push_words(text, b" required ", inst.required())?;
    push_words(text, b" capacity ", inst.capacity())?;
    push_line(text, b" demand ", u128::from(inst.total_demand()))?;
    Ok(())
}

/// Adds the line that says whether a bound, at most a cost, is the cost: `proven`, or `open gap` and how far it lies
/// below.
///
/// Its error says only that there was not enough memory. It does not say what the text then holds. It takes time in
/// proportion to what it adds.
#[tactic(auto, unfolding(crate::specs::Report::gap_line))]
pub fn push_gap(text: &mut Vec<u8>, cost: u128, bound: u128) -> Result<(), Memory>
    requires { bound ≤ cost }
    ensures { OnOk result (text.new.items ≡ text.old.items ++ gap_line cost bound) }
{
    if bound == cost {
        text.extend_from_slice(b"proven\n")?;
        Ok(())
    } else {
        push_line(text, b"open gap ", cost - bound)
    }
}

#[tactic(auto, unfolding(crate::specs::Report::result_lines))]
fn push_result_lines(text: &mut Vec<u8>, cert: &Cert, turns: u64) -> Result<(), Memory>
    requires { cert.now.bound ≤ cert.now.cost }
    ensures { OnOk result (text.new.items ≡ text.old.items ++ result_lines (certificate_in cert.now) turns) }
{
    push_line(text, b"cost ", u128::from(cert.cost))?;
    push_line(text, b"bound ", u128::from(cert.bound))?;
    push_line(text, b"turns ", u128::from(turns))?;
    push_gap(text, u128::from(cert.cost), u128::from(cert.bound))
}

/// Adds the number of the tours of a lawful plan, and a line for each: its load, its cost and its route.
///
/// Its error says only that there was not enough memory. It does not say what the text then holds. It takes time in
/// proportion to what it adds.
#[tactic(auto, unfolding(crate::specs::Report::tours_text))]
pub fn push_tours(text: &mut Vec<u8>, inst: &Instance, plan: &Plan) -> Result<(), Memory>
    requires { IsLawful inst.now plan.now }
    ensures { OnOk result (text.new.items ≡ text.old.items ++ tours_text inst.now plan.now) }
{
    push_line(text, b"tours ", plan.len() as u128)?;
    push_tour_lines(text, inst, plan)
}

/// The report of an instance, a certificate and a number of turns. It has the size of the instance, the cost and the
/// bound that the certificate states, the turns as they are given, and whether the bound is the cost. Then come the
/// tours, each with its load, its cost and the vertices that it reaches.
///
/// Its error says only that there was not enough memory. It takes time in proportion to the text.
pub fn report(alloc: Global, inst: &Instance, cert: &Cert, turns: u64) -> Result<Vec<u8>, Memory>
    requires lawful { IsLawful inst.now cert.now.plan }
    requires bounded { cert.now.bound ≤ cert.now.cost }
    ensures { IfOk result (λ text. text.items ≡ report_text inst.now (certificate_in cert.now) turns) }
{
    let mut text = Vec::new(alloc);
    push_instance_line(&mut text, inst)?;
    push_result_lines(&mut text, cert, turns)?;
    push_tours(&mut text, inst, &cert.plan)?;
    Ok(text)
}
