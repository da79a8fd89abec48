// Pairs that look worth a trial.
ghost use Rattle.std.specs.Prelude.{◌≡◌};
ghost use Rattle.carp_base.specs.Problem.{IsRequired};

use crate::poor::{PART, Pair, Poor};
use branch_rules::{Branch, Decision, Node};
use carp_base::{Allowed, Instance, Memory};
use column_generation::may_be_near;
use group_search::Flow;
use std::alloc::Global;

// So many pairs are tried at most.
const TRIED: usize = 12;

/// The pairs with the best shares.
pub(crate) fn pairs_of(
    alloc: Global,
    inst: &Instance,
    branch: &Branch,
    allowed: &Allowed,
    flow: &Flow,
    poor: &Poor,
) -> Result<Vec<Pair>, Memory>
    requires allowed { allowed.now.size ≡ inst.now.required }
    requires services { flow.now.services ≡ inst.now.required }
{
    let mut pairs = Vec::new(alloc);
    for a in 1..inst.required() + 1 {
        add_pairs_of(inst, branch, allowed, flow, a, poor, &mut pairs)?;
    }
    Ok(pairs)
}

// Adds the pairs of an edge and a later one.
fn add_pairs_of(
    inst: &Instance,
    branch: &Branch,
    allowed: &Allowed,
    flow: &Flow,
    a: u32,
    poor: &Poor,
    pairs: &mut Vec<Pair>,
) -> Result<(), Memory>
    requires allowed { allowed.now.size ≡ inst.now.required }
    requires services { flow.now.services ≡ inst.now.required }
    requires a { IsRequired inst.now a }
{
    let end = inst.required() + 1;
    for b in a + 1..end {
        let share = flow.between(a, b);
        if share >= PART / 50 && is_open(inst, branch, allowed, a, b) && !poor.has_pair(a, b) {
            add_pair(
                Pair {
                    a,
                    b,
                    off: off(share),
                },
                pairs,
            )?;
        }
    }
    Ok(())
}

// Whether a pair is neither excluded nor to be served together.
fn is_open(inst: &Instance, branch: &Branch, allowed: &Allowed, a: u32, b: u32) -> bool
    requires { allowed.now.size ≡ inst.now.required }
{
    may_be_near(inst, allowed, a, b) && !branch.decisions().iter().any(|d| joins(d, a, b))
}

// Whether a decision says yes to a pair.
fn joins(decision: &Decision, a: u32, b: u32) -> bool {
    match *decision {
        Decision::Yes { a: c, b: d } => (c == a && d == b) || (c == b && d == a),
        _ => false,
    }
}

// How far a share is from three fifths. That of a pair that is always served together is far.
fn off(share: u64) -> u64 {
    let apart = share.abs_diff(PART * 6 / 10);
    if share > PART * 98 / 100 && share < PART * 102 / 100 {
        apart.saturating_add(10 * PART)
    } else {
        apart
    }
}

// Adds a pair among the best ones.
fn add_pair(pair: Pair, pairs: &mut Vec<Pair>) -> Result<(), Memory> {
    let place = pairs.iter().filter(|other| other.off <= pair.off).count();
    if place < TRIED {
        pairs.insert(place, pair)?;
        pairs.truncate(TRIED);
    }
    Ok(())
}

/// Adds the pairs. A pair that is always served together comes only if there is nothing else.
pub(crate) fn add_pairs(pairs: &[Pair], nodes: &mut Vec<Node>) -> Result<(), Memory> {
    for pair in pairs {
        if pair.off <= 9 * PART || nodes.is_empty() {
            nodes.push(Node::Pair {
                a: pair.a,
                b: pair.b,
            })?;
        }
    }
    Ok(())
}
