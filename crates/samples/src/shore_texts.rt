//! Shores as text: their vertices, with commas between shores.
ghost use Rattle.std.specs.Prelude.{IsTrue};
ghost use Rattle.cut_pool.specs.Shores.{IsShore};

use crate::cases::{numbers32, push_listed};
use cut_pool::{Shore, Weighted};
use std::alloc::{AllocError, Global};
use std::test::Fail;

/// The shore of a text.
pub fn shore_of(alloc: Global, text: &str) -> Result<Shore, Fail> {
    let vertices = numbers32(alloc, text)?;
    if !is_shore(&vertices) {
        Err("the vertices of a shore rise")?
    }
    Ok(Shore::from_list(alloc, &vertices)?)
}

// Whether vertices are some, in rising order.
fn is_shore(vertices: &[u32]) -> bool
    ensures { IsTrue result → IsShore vertices.now }
{
    if vertices.is_empty() {
        return false;
    }
    for i in 1..vertices.len() {
        if vertices[i - 1] >= vertices[i] {
            return false;
        }
    }
    true
}

/// The vertices of a shore.
pub fn vertices(alloc: Global, shore: &Shore) -> Result<String, AllocError> {
    let mut text = String::new(alloc);
    for i in 0..shore.len() {
        push_listed(&mut text, " ", &shore.vertex(i))?;
    }
    Ok(text)
}

/// The vertices of shores, or `none`.
pub fn shores(alloc: Global, shores: &[Shore]) -> Result<String, AllocError> {
    let mut text = String::new(alloc);
    for shore in shores {
        let vertices = vertices(alloc, shore)?;
        push_listed(&mut text, ", ", &vertices)?;
    }
    some(text)
}

/// The weights and vertices of shores, or `none`.
pub fn weighted(alloc: Global, shores: &[Weighted]) -> Result<String, AllocError> {
    let mut text = String::new(alloc);
    for one in shores {
        let vertices = vertices(alloc, &one.shore)?;
        let weight = one.weight;
        push_listed(&mut text, ", ", &format_args!("{weight} on {vertices}"))?;
    }
    some(text)
}

// The text, or `none` in place of an empty one.
fn some(mut text: String) -> Result<String, AllocError> {
    if text.is_empty() {
        text.push_str("none")?;
    }
    Ok(text)
}
