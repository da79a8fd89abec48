// Rows and columns that go out of use.

use crate::master::Master;
use crate::multipliers::multiplier_at;
use carp_base::{Instance, Memory};
use linear_program::Program;
use price_points::{Point, number_at};
use std::alloc::Global;

// So many searches a row stays in use at least.
const LEAST_STAY: u32 = 3;

/// Takes rows out of use that have had no weight since three searches, now or in the best point.
pub(crate) fn drop_slack_rows(
    inst: &Instance,
    master: &Master,
    best: &Point,
    now: u32,
    program: &mut Program,
) {
    let rows = program.rows().len();
    for back in 0..rows {
        let place = rows - 1 - back;
        if is_slack(inst, master, best, now, program, place) {
            program.drop_row(place);
        }
    }
}

// Whether the row at a place of the program is to go.
fn is_slack(
    inst: &Instance,
    master: &Master,
    best: &Point,
    now: u32,
    program: &Program,
    place: usize,
) -> bool {
    let Some(row) = program.rows().get(place) else {
        return false;
    };
    let number = row.number();
    let services = inst.required() as usize;
    if number < services || multiplier_at(program, number) != 0 {
        return false;
    }
    let at = number - services;
    match master.since.get(at) {
        Some(since) => {
            since.saturating_add(LEAST_STAY) <= now && number_at(&best.weights, at) == 0
        }
        None => false,
    }
}

/// If a program has many columns in use, takes those of the greatest reduced cost out of use. Deadheads stay.
pub(crate) fn trim_columns(
    alloc: Global,
    inst: &Instance,
    master: &Master,
    program: &mut Program,
) -> Result<(), Memory> {
    let keep = program.rows().len().saturating_mul(2).saturating_add(200);
    if program.columns().len() < keep.saturating_mul(2) {
        return Ok(());
    }
    let deadheads = inst.edge_count() as usize;
    program.forget_columns(alloc, &master.store, keep, deadheads)
}
