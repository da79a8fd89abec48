// The inverse anew from the basis, and the basis that always fits.
ghost use Rattle.std.specs.Prelude.{◌≡◌, ◌*◌, ◌<◌, ◌≤◌, IfSome, length};
ghost use Rattle.linear_program.specs.Limits.{program_row_limit, store_column_limit};
ghost use Rattle.linear_program.specs.Bases.{IsBasis};

use crate::basis::{Basis, more_work};
use crate::direction::write_direction;
use crate::fixed::{Amount, Fraction, LEAST_PIVOT};
use crate::ids::{ColumnId, RowId};
use crate::pivoting::Exchange;
use crate::refreshing::{refresh_activities, refresh_multipliers};
use crate::selection::{MOST_ROWS, Selection, Variable};
use crate::store::Store;
use crate::workspace::{Rank, Workspace};

// After so many pivots, or two for each row, the inverse is built anew.
const LEAST_AGE: usize = 500;

// The unit of a row in a basis of units: its penalty, or in a cold one its surplus if that fits.
fn unit_of(store: &Store, row: RowId, cold: bool) -> Variable {
    if cold && store.noisy_right_side(row).value() <= 0 {
        Variable::Surplus(row)
    } else {
        Variable::Penalty(row)
    }
}

// Writes a unit for each row.
fn write_units(store: &Store, rows: &[RowId], cold: bool, units: &mut [Variable]) {
    for (unit, row) in units.iter_mut().zip(rows) {
        *unit = unit_of(store, *row, cold);
    }
}

// Writes the units of a basis at the places of their rows, and marks these places.
fn keep_units(
    selection: &Selection,
    variables: &[Variable],
    units: &mut [Variable],
    placed: &mut [bool],
)
    requires units { length units.old ≡ program_row_limit }
    requires placed { length placed.old ≡ program_row_limit }
{
    for variable in variables {
        let place = match *variable {
            Variable::Column(_) => None,
            Variable::Surplus(row) | Variable::Penalty(row) => selection.place_of(row),
        };
        if let Some(place) = place {
            units[place] = *variable;
            placed[place] = true;
        }
    }
}

// Lists the columns of a basis, and answers how many there are.
fn list_columns(store: &Store, variables: &[Variable], ranks: &mut [Rank]) -> usize
    ensures { result ≤ length ranks.old }
{
    let mut count = 0;
    for variable in variables {
        if let Variable::Column(column) = *variable {
            if count < ranks.len() {
                ranks[count] = Rank {
                    length: store.entries(column).len(),
                    column,
                };
                count += 1;
            }
        }
    }
    count
}

// Sorts so many: fewest entries first, and of as many the first column.
fn sort(ranks: &mut [Rank], count: usize)
    requires { count ≤ length ranks.old }
{
    ranks[..count].sort_unstable_by_key(|rank| (rank.length, rank.column.number()));
}

/// Marks the columns of a basis as not basic.
pub(crate) fn release(variables: &[Variable], basic: &mut [bool])
    requires { length basic.old ≡ store_column_limit }
{
    for variable in variables {
        if let Variable::Column(column) = *variable {
            basic[column.number()] = false;
        }
    }
}

// Writes the inverse of a basis of units.
fn write_inverse(units: &[Variable], inverse: &mut [Fraction])
    requires units { length units.now ≤ program_row_limit }
    requires inverse { length units.now * program_row_limit ≤ length inverse.old }
{
    inverse[..units.len() * MOST_ROWS].fill(Fraction::ZERO);
    for place in 0..units.len() {
        inverse[place * MOST_ROWS + place] = match units[place] {
            Variable::Surplus(_) => Fraction::ONE.negative(),
            _ => Fraction::ONE,
        };
    }
}

// Writes units at the first places of a basis.
fn write_front(variables: &mut [Variable], units: &[Variable])
    requires { length units.now ≤ length variables.old }
{
    variables[..units.len()].copy_from_slice(units);
}

// Makes the units the basis.
fn set_units(basis: &mut Basis, units: &[Variable])
    requires { IsBasis (length units.now) basis.old }
    ensures { IsBasis (length units.now) basis.new }
{
    let count = units.len();
    release(&basis.variables[..count], &mut basis.basic);
    write_front(&mut basis.variables, units);
    write_inverse(units, &mut basis.inverse);
    basis.work = more_work(basis.work, count * count);
}

// The place that has no variable yet where the direction is greatest without its sign, if it is great enough.
fn greatest_place(direction: &[Fraction], placed: &[bool]) -> Option<usize>
    requires { length direction.now ≤ length placed.now }
    ensures { IfSome result (λ place. place < length direction.now) }
{
    let mut best = None;
    let mut most = LEAST_PIVOT.unsigned_abs() - 1;
    for place in 0..direction.len() {
        let size = direction[place].value().unsigned_abs();
        if size > most && !placed[place] {
            most = size;
            best = Some(place);
        }
    }
    best
}

// Puts a column in the basis where it is greatest. If it is too small everywhere, a unit stays there.
fn place_column(
    store: &Store,
    selection: &Selection,
    basis: &mut Basis,
    space: &mut Workspace,
    column: ColumnId,
)
    requires { IsBasis (length selection.now.rows.items) basis.old }
    ensures { IsBasis (length selection.now.rows.items) basis.new }
{
    let variable = Variable::Column(column);
    let rows = &selection.rows;
    write_direction(
        store,
        selection,
        &basis.inverse,
        variable,
        &mut space.sums,
        &mut space.direction,
    );
    let Some(place) = greatest_place(&space.direction[..rows.len()], &space.placed) else {
        return;
    };
    space.placed[place] = true;
    let exchange = Exchange {
        place,
        variable,
        reduced: Amount::ZERO,
    };
    basis.pivot(rows, &space.direction, &mut space.terms, &exchange);
}

// Puts the listed columns in the basis.
fn place_columns(
    store: &Store,
    selection: &Selection,
    basis: &mut Basis,
    space: &mut Workspace,
    count: usize,
)
    requires basis { IsBasis (length selection.now.rows.items) basis.old }
    requires count { count ≤ program_row_limit }
    ensures { IsBasis (length selection.now.rows.items) basis.new }
{
    for place in 0..count {
        let column = space.ranks[place].column;
        place_column(store, selection, basis, space, column);
    }
}

// Makes a basis of units, and answers how many columns it had.
fn begin(
    store: &Store,
    selection: &Selection,
    basis: &mut Basis,
    space: &mut Workspace,
    cold: bool,
) -> usize
    requires { IsBasis (length selection.now.rows.items) basis.old }
    ensures basis { IsBasis (length selection.now.rows.items) basis.new }
    ensures count { result ≤ program_row_limit }
{
    let count = selection.rows.len();
    space.placed.fill(false);
    write_units(store, &selection.rows, cold, &mut space.units);
    let variables = &basis.variables[..count];
    let columns = list_columns(store, variables, &mut space.ranks);
    if !cold {
        keep_units(selection, variables, &mut space.units, &mut space.placed);
    }
    set_units(basis, &space.units[..count]);
    columns
}

// Takes activities and multipliers anew.
fn finish(store: &Store, selection: &Selection, basis: &mut Basis, costs: &mut [Amount])
    requires basis { IsBasis (length selection.now.rows.items) basis.old }
    requires costs { length costs.old ≡ program_row_limit }
    ensures { IsBasis (length selection.now.rows.items) basis.new }
{
    refresh_activities(store, &selection.rows, basis);
    refresh_multipliers(store, selection, basis, costs);
    basis.age = 0;
}

/// Builds the inverse anew from the basis: first the units, then each column, fewest entries first, at the place where
/// it is greatest. It takes time in proportion to the cube of the rows in use.
pub(crate) fn rebuild(
    store: &Store,
    selection: &Selection,
    basis: &mut Basis,
    space: &mut Workspace,
)
    requires { IsBasis (length selection.now.rows.items) basis.old }
    ensures { IsBasis (length selection.now.rows.items) basis.new }
{
    let pivots = basis.pivots;
    let count = begin(store, selection, basis, space, false);
    sort(&mut space.ranks, count);
    place_columns(store, selection, basis, space, count);
    basis.pivots = pivots;
    finish(store, selection, basis, &mut space.costs);
}

/// Begins with a basis of units, which always fits.
pub(crate) fn start_cold(
    store: &Store,
    selection: &Selection,
    basis: &mut Basis,
    space: &mut Workspace,
)
    requires { IsBasis (length selection.now.rows.items) basis.old }
    ensures { IsBasis (length selection.now.rows.items) basis.new }
{
    begin(store, selection, basis, space, true);
    finish(store, selection, basis, &mut space.costs);
}

/// Builds the inverse anew, and begins with units if the activities then do not fit.
pub(crate) fn renew(store: &Store, selection: &Selection, basis: &mut Basis, space: &mut Workspace)
    requires { IsBasis (length selection.now.rows.items) basis.old }
    ensures { IsBasis (length selection.now.rows.items) basis.new }
{
    rebuild(store, selection, basis, space);
    if !basis.fits(selection.rows.len()) {
        start_cold(store, selection, basis, space);
    }
}

/// Whether the inverse is old enough to be built anew.
pub(crate) fn is_due(basis: &Basis, rows: usize) -> bool
    requires { rows ≤ program_row_limit }
{
    basis.age as usize >= LEAST_AGE.max(2 * rows)
}
