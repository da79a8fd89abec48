// A program solved: the dual method if rows are new, and then the primal method.
ghost use Rattle.std.specs.Prelude.{◌≡◌, ◌*◌, ◌<◌, ◌≤◌, length};
ghost use Rattle.linear_program.specs.Limits.{program_row_limit};
ghost use Rattle.linear_program.specs.Bases.{IsBasis};
ghost use Rattle.linear_program.specs.Selections.{in_use};

use crate::basis::Basis;
use crate::checking::is_off;
use crate::dual::run_dual;
use crate::fixed::{Amount, Fraction};
use crate::primal::run_primal;
use crate::program::Caps;
use crate::rebuilding::{release, renew, start_cold};
use crate::refreshing::refresh_multipliers;
use crate::selection::{MOST_ROWS, Selection, Variable};
use crate::store::Store;
use crate::workspace::Workspace;
use carp_base::Memory;
use std::alloc::Global;

// Turns the signs of the entries at a place.
fn turn_place(inverse: &mut [Fraction], rows: usize, place: usize)
    requires place { place < program_row_limit }
    requires long { rows * program_row_limit ≤ length inverse.old }
{
    for row in 0..rows {
        let at = row * MOST_ROWS + place;
        inverse[at] = inverse[at].negative();
    }
}

// If the surplus of a row is basic and below 0, its penalty takes its place, above 0.
fn relax_place(basis: &mut Basis, rows: usize, place: usize)
    requires basis { IsBasis rows basis.old }
    requires place { place < rows }
    ensures { IsBasis rows basis.new }
{
    let activity = basis.activities[place];
    if activity.value() >= 0 {
        return;
    }
    if let Variable::Surplus(row) = basis.variables[place] {
        basis.variables[place] = Variable::Penalty(row);
        basis.activities[place] = activity.negative();
        turn_place(&mut basis.inverse, rows, place);
    }
}

// Each surplus below 0 gives way to the penalty of its row.
fn relax_all(basis: &mut Basis, rows: usize)
    requires { IsBasis rows basis.old }
    ensures { IsBasis rows basis.new }
{
    for place in 0..rows {
        relax_place(basis, rows, place);
    }
}

// Makes the activities fit: rows that get too little pay their penalty. If that is not enough, it begins with units.
fn relax(store: &Store, selection: &Selection, basis: &mut Basis, space: &mut Workspace)
    requires { IsBasis (length selection.now.rows.items) basis.old }
    ensures { IsBasis (length selection.now.rows.items) basis.new }
{
    let rows = selection.rows.len();
    relax_all(basis, rows);
    refresh_multipliers(store, selection, basis, &mut space.costs);
    if !basis.fits(rows) {
        start_cold(store, selection, basis, space);
    }
}

// The basis as it was, with the counts of what was done since.
fn back_to(kept: Basis, basis: &mut Basis, rows: usize)
    requires { IsBasis rows kept }
    ensures { IsBasis rows basis.new }
{
    let (pivots, work) = (basis.pivots, basis.work);
    *basis = kept;
    basis.pivots = pivots;
    basis.work = work;
}

// Makes the activities fit by the dual method, from multipliers that no charge changes. If it does not end, all is as
// before, and relaxed.
fn make_fit(
    alloc: Global,
    store: &Store,
    selection: &mut Selection,
    basis: &mut Basis,
    space: &mut Workspace,
    slack: i64,
    caps: &Caps,
) -> Result<(), Memory>
    requires { IsBasis (length selection.old.rows.items) basis.old }
    ensures basis { IsBasis (length selection.new.rows.items) basis.new }
    ensures selection { in_use selection.new ≡ in_use selection.old }
{
    let kept = basis.copy(alloc, selection.rows.len())?;
    selection.charged = false;
    refresh_multipliers(store, selection, basis, &mut space.costs);
    let fits = run_dual(store, selection, basis, space, slack, caps);
    selection.charged = true;
    if fits {
        refresh_multipliers(store, selection, basis, &mut space.costs);
    } else {
        back_to(kept, basis, selection.rows.len());
        relax(store, selection, basis, space);
    }
    Ok(())
}

/// Takes steps of the dual method within caps, from multipliers that no charge changes.
pub(crate) fn estimate(
    alloc: Global,
    store: &Store,
    selection: &mut Selection,
    basis: &mut Basis,
    slack: i64,
    caps: &Caps,
) -> Result<(), Memory>
    requires { IsBasis (length selection.old.rows.items) basis.old }
    ensures basis { IsBasis (length selection.new.rows.items) basis.new }
    ensures selection { in_use selection.new ≡ in_use selection.old }
{
    let mut space = Workspace::new(alloc)?;
    selection.charged = false;
    refresh_multipliers(store, selection, basis, &mut space.costs);
    run_dual(store, selection, basis, &mut space, slack, caps);
    selection.charged = true;
    Ok(())
}

/// Solves the program. It answers whether the primal method ended before its cap.
pub(crate) fn solve(
    alloc: Global,
    store: &Store,
    selection: &mut Selection,
    basis: &mut Basis,
    tolerance: Amount,
    slack: i64,
    after_new_rows: bool,
    caps: &Caps,
) -> Result<bool, Memory>
    requires { IsBasis (length selection.old.rows.items) basis.old }
    ensures basis { IsBasis (length selection.new.rows.items) basis.new }
    ensures selection { in_use selection.new ≡ in_use selection.old }
{
    let mut space = Workspace::new(alloc)?;
    if after_new_rows {
        make_fit(alloc, store, selection, basis, &mut space, slack, caps)?;
    } else {
        relax(store, selection, basis, &mut space);
    }
    let ended = run_primal(store, selection, basis, &mut space, tolerance, caps);
    if is_off(store, selection, basis, &mut space) {
        renew(store, selection, basis, &mut space);
        return Ok(run_primal(store, selection, basis, &mut space, tolerance, caps));
    }
    Ok(ended)
}

// Writes variables over others.
fn overwrite(variables: &[Variable], places: &mut [Variable]) {
    for (place, variable) in places.iter_mut().zip(variables) {
        *place = *variable;
    }
}

// Writes a basis over so many places.
fn write_basis(variables: &[Variable], places: &mut [Variable], rows: usize)
    requires { rows ≤ length places.old }
{
    overwrite(variables, &mut places[..rows]);
}

/// Begins anew from a basis.
pub(crate) fn start_from(
    alloc: Global,
    store: &Store,
    selection: &Selection,
    basis: &mut Basis,
    variables: &[Variable],
) -> Result<(), Memory>
    requires { IsBasis (length selection.now.rows.items) basis.old }
    ensures { IsBasis (length selection.now.rows.items) basis.new }
{
    let mut space = Workspace::new(alloc)?;
    let rows = selection.rows.len();
    release(&basis.variables[..rows], &mut basis.basic);
    write_basis(variables, &mut basis.variables, rows);
    renew(store, selection, basis, &mut space);
    Ok(())
}
