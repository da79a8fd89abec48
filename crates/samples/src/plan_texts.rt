//! Walks and plans as text: `+1 -2, >1 +3 <1` are two walks of two and three steps.
//!
//! A step is a sign and the number of its edge: `+` serves it forward, `-` serves it backward, `>` crosses it forward and `<` backward. A walk
//! without a step is `idle`, and a plan without a walk `none`.
use crate::cases::push_listed;
use plan_model::{Plan, Step, Walk};
use std::alloc::{AllocError, Global};
use std::test::Fail;

const MOST: usize = 1000;

/// The step of a word.
pub fn step_of(word: &str) -> Result<Step, Fail> {
    if let Some(edge) = word.strip_prefix('+') {
        return Ok(step(edge.parse::<u32>()?, true, true));
    }
    if let Some(edge) = word.strip_prefix('-') {
        return Ok(step(edge.parse::<u32>()?, false, true));
    }
    if let Some(edge) = word.strip_prefix('>') {
        return Ok(step(edge.parse::<u32>()?, true, false));
    }
    if let Some(edge) = word.strip_prefix('<') {
        return Ok(step(edge.parse::<u32>()?, false, false));
    }
    Err("a step begins with one of + - > <")?
}

fn step(edge: u32, forward: bool, served: bool) -> Step {
    Step {
        edge,
        forward,
        served,
    }
}

/// The walk of a text.
pub fn walk_of(alloc: Global, text: &str) -> Result<Walk, Fail> {
    let mut walk = Walk::new(alloc);
    if text.trim() == "idle" {
        return Ok(walk);
    }
    for word in text.split_ascii_whitespace() {
        if walk.len() >= MOST {
            Err("a walk has at most 1,000 steps")?
        }
        walk.push(step_of(word)?)?;
    }
    Ok(walk)
}

/// The plan of a text.
pub fn plan_of(alloc: Global, text: &str) -> Result<Plan, Fail> {
    let mut plan = Plan::new(alloc);
    if text.trim() == "none" {
        return Ok(plan);
    }
    for walk in text.split(',') {
        if plan.len() >= MOST {
            Err("a plan has at most 1,000 walks")?
        }
        let walk = walk_of(alloc, walk)?;
        plan.push(walk)?;
    }
    Ok(plan)
}

fn sign_of(step: Step) -> &'static str {
    match (step.served, step.forward) {
        (true, true) => "+",
        (true, false) => "-",
        (false, true) => ">",
        (false, false) => "<",
    }
}

/// A walk as text.
pub fn walk_text(alloc: Global, walk: &Walk) -> Result<String, AllocError> {
    let mut text = String::new(alloc);
    for i in 0..walk.len() {
        let step = walk.step(i);
        let (sign, edge) = (sign_of(step), step.edge);
        push_listed(&mut text, " ", &format_args!("{sign}{edge}"))?;
    }
    if text.is_empty() {
        text.push_str("idle")?;
    }
    Ok(text)
}

/// A plan as text.
pub fn plan_text(alloc: Global, plan: &Plan) -> Result<String, AllocError> {
    let mut text = String::new(alloc);
    for i in 0..plan.len() {
        let walk = walk_text(alloc, plan.walk(i))?;
        push_listed(&mut text, ", ", &walk)?;
    }
    if text.is_empty() {
        text.push_str("none")?;
    }
    Ok(text)
}
