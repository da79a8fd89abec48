//! What tests of many crates share: cases that are lines of a file, instances, walks, plans and shores as text, and numbers that a seed
//! determines.
#![tactic(auto)]

mod cases;
mod plan_texts;
mod shore_texts;

use carp_base::{Instance, RawEdge};
pub use cases::{
    listed, number, numbers, numbers32, part, push_listed, signed_numbers, try_cases, yes_or_no,
};
pub use plan_texts::{plan_of, plan_text, step_of, walk_of, walk_text};
pub use shore_texts::{shore_of, shores, vertices, weighted};
use std::alloc::{AllocError, Global};
use std::test::Fail;

/// An edge whose service costs as much as a crossing.
pub fn street(u: u64, v: u64, cost: u64, demand: u64) -> RawEdge {
    RawEdge {
        u,
        v,
        cost,
        demand,
        service: cost,
    }
}

// The numbers of a text.
fn numbers_in(alloc: Global, text: &str) -> Result<Vec<u64>, AllocError> {
    let mut numbers = Vec::new(alloc);
    for word in text.split_ascii_whitespace() {
        numbers.push(word.parse().unwrap_or(0))?;
    }
    Ok(numbers)
}

// The edges of a text, with commas between: each has its ends, its cost, its demand if it has one, and what it costs to serve if that is not its cost.
fn streets_in(alloc: Global, text: &str) -> Result<Vec<RawEdge>, AllocError> {
    let mut streets = Vec::new(alloc);
    for part in text.split(',') {
        if let [u, v, cost, rest @ ..] = numbers_in(alloc, part)?.as_slice() {
            let mut edge = street(*u, *v, *cost, rest.first().copied().unwrap_or(0));
            edge.service = rest.get(1).copied().unwrap_or(*cost);
            streets.push(edge)?;
        }
    }
    Ok(streets)
}

/// The instance of a text, which has its vertices, its depot and its capacity; behind a bar its required edges; and behind another bar the
/// others. So `4 1 5 | 2 3 1 2, 3 4 1 2, 4 2 1 2 | 1 2 10` are three streets of cost 1 and demand 2 round a corner, to which a way of cost 10
/// leads. A fifth number of an edge is what it costs to serve.
pub fn instance_of(alloc: Global, text: &str) -> Result<Instance, Fail> {
    let (head, edges) = text.split_once('|').unwrap_or((text, ""));
    let (required, others) = edges.split_once('|').unwrap_or((edges, ""));
    let (required, others) = (streets_in(alloc, required)?, streets_in(alloc, others)?);
    let required = &required[..required.len().min(1000)];
    let others = &others[..others.len().min(1000)];
    match numbers_in(alloc, head)?.as_slice() {
        [vertices, depot, capacity] => {
            Ok(Instance::build(alloc, *vertices, *depot, *capacity, required, others)?)
        }
        _ => Err("three numbers come first")?,
    }
}

/// The next number of a generator (Knuth's MMIX: a linear congruence, of which the upper bits are taken), below a bound.
pub fn draw(state: &mut u64, bound: u64) -> u64 {
    *state = state
        .wrapping_mul(6_364_136_223_846_793_005)
        .wrapping_add(1_442_695_040_888_963_407);
    (*state >> 33) % bound.max(1)
}
