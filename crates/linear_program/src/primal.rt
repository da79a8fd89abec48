// The primal method: from activities that fit to ones of least cost.
ghost use Rattle.std.specs.Prelude.{length};
ghost use Rattle.linear_program.specs.Bases.{IsBasis};

use crate::basis::Basis;
use crate::costs::cost;
use crate::entering::entering;
use crate::fixed::Amount;
use crate::leaving::leaving;
use crate::pivoting::Exchange;
use crate::program::Caps;
use crate::rebuilding::{is_due, renew};
use crate::refreshing::{price, refresh_multipliers, write_costs};
use crate::selection::{Selection, Variable};
use crate::shortlist::Candidate;
use crate::store::Store;
use crate::workspace::Workspace;

// Two reduced costs that differ by so much and half of the lower one differ by drift.
const DRIFT: i64 = 65_536;

// An inverse that drifts is built anew after so many pivots.
const LEAST_AGE: u32 = 100;

// What the steps know of each other.
#[derive(Clone, Copy)]
struct Pace {
    // Whether the multipliers were taken anew, and no variable entered since.
    fresh: bool,
    // Whether the multipliers may be taken anew if a reduced cost drifts.
    stale: bool,
}

// Whether a reduced cost by the inverse is not below 0 by more than the tolerance, or is far from that by the
// multipliers.
fn drifts(reduced: Amount, exact: Amount, tolerance: Amount) -> bool {
    let most = DRIFT - reduced.value() / 2;
    let apart = exact.value() - reduced.value();
    exact.value() >= -tolerance.value() || apart > most || apart < -most
}

// The reduced cost of the variable whose direction is written, by the inverse.
fn exact_reduced_cost(
    store: &Store,
    selection: &Selection,
    basis: &Basis,
    space: &mut Workspace,
    variable: Variable,
) -> Amount
    requires { IsBasis (length selection.now.rows.items) basis.now }
{
    let count = selection.rows.len();
    write_costs(
        store,
        selection,
        &basis.variables[..count],
        &mut space.costs,
    );
    let given = price(&space.costs, &space.direction[..count]);
    cost(store, selection, variable).less(given)
}

// What is done about a variable whose reduced cost drifts. It answers whether the step ends with that.
fn mend(
    store: &Store,
    selection: &Selection,
    basis: &mut Basis,
    space: &mut Workspace,
    pace: &mut Pace,
    variable: Variable,
    too_high: bool,
) -> bool
    requires { IsBasis (length selection.now.rows.items) basis.old }
    ensures { IsBasis (length selection.now.rows.items) basis.new }
{
    if basis.age >= LEAST_AGE {
        renew(store, selection, basis, space);
        true
    } else if pace.stale {
        refresh_multipliers(store, selection, basis, &mut space.costs);
        pace.stale = false;
        true
    } else if too_high {
        space.resting.add(variable);
        true
    } else {
        false
    }
}

// A variable enters, or rests if no activity falls.
fn enter(
    selection: &Selection,
    basis: &mut Basis,
    space: &mut Workspace,
    variable: Variable,
    reduced: Amount,
)
    requires { IsBasis (length selection.now.rows.items) basis.old }
    ensures { IsBasis (length selection.now.rows.items) basis.new }
{
    let rows = &selection.rows;
    let count = rows.len();
    let direction = &space.direction[..count];
    match leaving(&basis.activities[..count], direction) {
        None => space.resting.add(variable),
        Some(place) => {
            if basis.activities[place].value() < 0 {
                basis.activities[place] = Amount::ZERO;
            }
            let exchange = Exchange {
                place,
                variable,
                reduced,
            };
            basis.pivot(rows, direction, &mut space.terms, &exchange);
        }
    }
}

// The step with a variable that is to enter.
fn advance(
    store: &Store,
    selection: &Selection,
    basis: &mut Basis,
    space: &mut Workspace,
    pace: &mut Pace,
    tolerance: Amount,
    candidate: Candidate,
)
    requires { IsBasis (length selection.now.rows.items) basis.old }
    ensures { IsBasis (length selection.now.rows.items) basis.new }
{
    let variable = candidate.variable;
    let exact = exact_reduced_cost(store, selection, basis, space, variable);
    let too_high = exact.value() >= -tolerance.value();
    let mended = drifts(candidate.reduced, exact, tolerance)
        && mend(store, selection, basis, space, pace, variable, too_high);
    if !mended {
        pace.stale = true;
        enter(selection, basis, space, variable, exact);
    }
}

// Builds the inverse anew if it is old.
fn renew_if_due(
    store: &Store,
    selection: &Selection,
    basis: &mut Basis,
    space: &mut Workspace,
    pace: &mut Pace,
)
    requires { IsBasis (length selection.now.rows.items) basis.old }
    ensures { IsBasis (length selection.now.rows.items) basis.new }
{
    if is_due(basis, selection.rows.len()) {
        renew(store, selection, basis, space);
        pace.fresh = true;
        space.resting.clear();
    }
}

// One step. It answers whether no variable may enter by multipliers that are fresh.
fn step(
    store: &Store,
    selection: &Selection,
    basis: &mut Basis,
    space: &mut Workspace,
    pace: &mut Pace,
    tolerance: Amount,
) -> bool
    requires { IsBasis (length selection.now.rows.items) basis.old }
    ensures { IsBasis (length selection.now.rows.items) basis.new }
{
    renew_if_due(store, selection, basis, space, pace);
    match entering(store, selection, basis, space, tolerance) {
        Some(candidate) => {
            pace.fresh = false;
            advance(store, selection, basis, space, pace, tolerance, candidate);
            false
        }
        None if pace.fresh => true,
        None => {
            refresh_multipliers(store, selection, basis, &mut space.costs);
            pace.fresh = true;
            false
        }
    }
}

/// Steps of the primal method, within caps. It answers whether no reduced cost is below 0 by more than the tolerance,
/// as far as the inverse can tell.
pub(crate) fn run_primal(
    store: &Store,
    selection: &Selection,
    basis: &mut Basis,
    space: &mut Workspace,
    tolerance: Amount,
    caps: &Caps,
) -> bool
    requires { IsBasis (length selection.now.rows.items) basis.old }
    ensures { IsBasis (length selection.now.rows.items) basis.new }
{
    space.resting.clear();
    space.list.clear();
    let mut pace = Pace {
        fresh: false,
        stale: true,
    };
    for _ in 0..caps.primal {
        if basis.work > caps.work {
            return false;
        }
        if step(store, selection, basis, space, &mut pace, tolerance) {
            return true;
        }
    }
    false
}
