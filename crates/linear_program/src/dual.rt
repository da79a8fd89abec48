// The dual method: from multipliers that fit to activities that fit.
ghost use Rattle.std.specs.Prelude.{◌<◌, length};
ghost use Rattle.linear_program.specs.Bases.{IsBasis};

use crate::basis::{Basis, more_work};
use crate::costs::reduced_cost;
use crate::direction::write_direction;
use crate::dual_entering::{dual_entering, entries_in_use};
use crate::dual_leaving::{Leaving, dual_leaving};
use crate::fixed::{Amount, LEAST_PIVOT};
use crate::pivoting::Exchange;
use crate::program::Caps;
use crate::rebuilding::{is_due, rebuild};
use crate::selection::{Selection, Variable};
use crate::store::Store;
use crate::workspace::Workspace;

// Two numbers agree if they differ by less than one part in 2^8.
const FEW_BITS: u32 = 8;

// How a step went.
#[derive(Clone, Copy)]
enum Outcome {
    // All activities fit.
    Ended,
    // No variable can enter, by an inverse that is new.
    Stuck,
    // It was taken.
    Taken,
}

// A reduced cost as the multipliers take it. With a slack, one below 0 counts as 0: if not, the others would fall
// further and further below 0.
fn shifted(reduced: Amount, slack: i64) -> Amount {
    if slack > 0 && reduced.value() < 0 {
        Amount::ZERO
    } else {
        reduced
    }
}

// Whether the entry of a pivot is the same by its line and by its direction, except for a little. Without a slack
// nothing is asked.
fn agree(size: i64, entry: i64, slack: i64) -> bool {
    slack == 0 || size.abs_diff(entry) <= entry.unsigned_abs() >> FEW_BITS
}

// The variable that enters for a place that leaves, if its entry there is great enough. Its direction is written.
fn partner(
    store: &Store,
    selection: &Selection,
    basis: &Basis,
    space: &mut Workspace,
    leaving: &Leaving,
    slack: i64,
) -> Option<Variable>
    requires basis { IsBasis (length selection.now.rows.items) basis.now }
    requires leaving { leaving.now.place < length selection.now.rows.items }
{
    let entrant = dual_entering(store, selection, basis, leaving, slack, &mut space.line)?;
    let variable = entrant.variable;
    write_direction(
        store,
        selection,
        &basis.inverse,
        variable,
        &mut space.sums,
        &mut space.direction,
    );
    let size = space.direction[leaving.place].value().abs();
    if size >= LEAST_PIVOT && agree(size, entrant.entry, slack) {
        Some(variable)
    } else {
        None
    }
}

// The step with a place that leaves.
fn advance(
    store: &Store,
    selection: &Selection,
    basis: &mut Basis,
    space: &mut Workspace,
    leaving: &Leaving,
    slack: i64,
    entries: usize,
) -> Outcome
    requires basis { IsBasis (length selection.now.rows.items) basis.old }
    requires leaving { leaving.now.place < length selection.now.rows.items }
    ensures { IsBasis (length selection.now.rows.items) basis.new }
{
    basis.work = more_work(basis.work, entries);
    match partner(store, selection, basis, space, leaving, slack) {
        Some(variable) => {
            let exchange = Exchange {
                place: leaving.place,
                variable,
                reduced: shifted(
                    reduced_cost(store, selection, &basis.multipliers, variable),
                    slack,
                ),
            };
            basis.pivot(
                &selection.rows,
                &space.direction,
                &mut space.terms,
                &exchange,
            );
            Outcome::Taken
        }
        None if basis.age == 0 => Outcome::Stuck,
        None => {
            rebuild(store, selection, basis, space);
            Outcome::Taken
        }
    }
}

// One step.
fn step(
    store: &Store,
    selection: &Selection,
    basis: &mut Basis,
    space: &mut Workspace,
    slack: i64,
    entries: usize,
) -> Outcome
    requires { IsBasis (length selection.now.rows.items) basis.old }
    ensures { IsBasis (length selection.now.rows.items) basis.new }
{
    if is_due(basis, selection.rows.len()) {
        rebuild(store, selection, basis, space);
    }
    match dual_leaving(selection, basis) {
        Some(leaving) => advance(store, selection, basis, space, &leaving, slack, entries),
        None => Outcome::Ended,
    }
}

/// Steps of the dual method, within caps. It answers whether all activities fit.
pub(crate) fn run_dual(
    store: &Store,
    selection: &Selection,
    basis: &mut Basis,
    space: &mut Workspace,
    slack: i64,
    caps: &Caps,
) -> bool
    requires { IsBasis (length selection.now.rows.items) basis.old }
    ensures { IsBasis (length selection.now.rows.items) basis.new }
{
    let entries = entries_in_use(store, selection);
    for _ in 0..caps.dual {
        if basis.work > caps.work {
            return false;
        }
        match step(store, selection, basis, space, slack, entries) {
            Outcome::Taken => {}
            Outcome::Ended => return true,
            Outcome::Stuck => return false,
        }
    }
    false
}
