// What a corner of the program says: deadheads, and weights.
ghost use Rattle.std.specs.Prelude.{◌≡◌, ◌^◌, ◌≤◌, All, IfOk, length};

use crate::rooms::MOST;
use crate::tableau::{Column, Row, UNIT, Variable};
use carp_base::Memory;
use std::alloc::Global;

// The most deadheads over an edge, in parts of 2^20.
const MOST_PARTS: u64 = 1 << 30;

// Weights are mostly multiples of this part of `UNIT`.
const FRACTION: u64 = 60;

// A weight that is so near to such a multiple is taken as it.
const NEAR: u64 = 10;

/// Which of the two values of a row is read.
#[derive(Clone, Copy)]
pub(crate) enum Reading {
    /// The one by costs with a small loss.
    Lossy,
    /// The one by the true costs.
    True,
}

// The deadheads that a gain stands for: the slack of an edge loses what a unit of its cost brings.
fn parts_of(gain: i64) -> u64
    ensures { result ≤ 2 ^ 30 }
{
    if gain >= 0 {
        return 0;
    }
    (gain.unsigned_abs() >> 20).min(MOST_PARTS)
}

// Notes the deadheads over the edge whose slack has the column.
fn note_parts(parts: &mut [u64], column: &Column)
    requires { All (λ n. n ≤ 2 ^ 30) parts.old }
    ensures { All (λ n. n ≤ 2 ^ 30) parts.new }
{
    if let Variable::Slack(edge) = column.variable {
        let edge = edge as usize;
        if edge < parts.len() {
            parts[edge] = parts_of(column.gain);
        }
    }
}

// Notes the deadheads over the edges whose slacks have a column.
fn note_all_parts(parts: &mut [u64], columns: &[Column])
    requires { All (λ n. n ≤ 2 ^ 30) parts.old }
    ensures { All (λ n. n ≤ 2 ^ 30) parts.new }
{
    for column in columns {
        note_parts(parts, column);
    }
}

/// The deadheads over each edge, in parts of 2^20: the multipliers of the costs.
pub(crate) fn deadheads_of(
    alloc: Global,
    edges: usize,
    columns: &[Column],
) -> Result<Vec<u64>, Memory>
    ensures long { IfOk result (λ parts. length parts.items ≡ edges) }
    ensures small { IfOk result (λ parts. All (λ n. n ≤ 2 ^ 30) parts.items) }
{
    let mut parts = vec![in alloc; 0; edges]?;
    note_all_parts(&mut parts, columns);
    Ok(parts)
}

// A weight, or the multiple of a fraction of the unit that is next to it.
fn rounded(weight: u64) -> u64 {
    let weight = weight.min(MOST);
    let multiple = (weight * FRACTION + UNIT / 2) / UNIT;
    if (weight * FRACTION).abs_diff(multiple * UNIT) < NEAR * FRACTION {
        multiple * UNIT / FRACTION
    } else {
        weight
    }
}

// The weight that a row stands for.
fn weight_of(row: &Row, reading: Reading) -> u64 {
    match reading {
        Reading::Lossy => row.level.max(0) as u64,
        Reading::True => rounded(row.true_level.max(0) as u64),
    }
}

// Notes the weights that have a row.
fn note_weights(weights: &mut [u64], rows: &[Row], reading: Reading) {
    for row in rows {
        if let Variable::Weight(shore) = row.variable {
            let shore = shore as usize;
            if shore < weights.len() {
                weights[shore] = weight_of(row, reading);
            }
        }
    }
}

/// The weights of so many shores, in parts of `UNIT`.
pub(crate) fn weights_of(
    alloc: Global,
    shores: usize,
    rows: &[Row],
    reading: Reading,
) -> Result<Vec<u64>, Memory>
    ensures { IfOk result (λ weights. length weights.items ≡ shores) }
{
    let mut weights = vec![in alloc; 0; shores]?;
    note_weights(&mut weights, rows, reading);
    Ok(weights)
}
