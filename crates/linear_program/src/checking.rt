// Whether a basis still gives what its rows demand.
ghost use Rattle.std.specs.Prelude.{◌≡◌, length};
ghost use Rattle.linear_program.specs.Limits.{store_row_limit};
ghost use Rattle.linear_program.specs.Bases.{IsBasis};

use crate::basis::Basis;
use crate::costs::term;
use crate::fixed::{Amount, ONE};
use crate::ids::RowId;
use crate::selection::{Selection, Variable};
use crate::store::{Entry, Store};
use crate::workspace::Workspace;

// What a row may get above or below its right side, 2^-10.
const ROOM: u64 = (ONE >> 10) as u64;

// The right side of each row in use, by row of the store.
fn write_sides(store: &Store, rows: &[RowId], sides: &mut [Amount])
    requires { length sides.old ≡ store_row_limit }
    ensures { length sides.new ≡ store_row_limit }
{
    for row in rows {
        sides[row.number()] = store.noisy_right_side(*row);
    }
}

// Takes from each row what a column gives it.
fn take_column(entries: &[Entry], activity: Amount, sides: &mut [Amount])
    requires { length sides.old ≡ store_row_limit }
    ensures { length sides.new ≡ store_row_limit }
{
    for entry in entries {
        let row = entry.row().number();
        let given = Amount::clamped(term(activity.value(), entry.wide()));
        sides[row] = sides[row].less(given);
    }
}

// Takes from each row what a variable gives it.
fn take(store: &Store, variable: Variable, activity: Amount, sides: &mut [Amount])
    requires { length sides.old ≡ store_row_limit }
    ensures { length sides.new ≡ store_row_limit }
{
    match variable {
        Variable::Column(column) => take_column(store.entries(column), activity, sides),
        Variable::Surplus(row) => sides[row.number()] = sides[row.number()].plus(activity),
        Variable::Penalty(row) => sides[row.number()] = sides[row.number()].less(activity),
    }
}

// Takes from each row what the basis gives it.
fn take_all(store: &Store, variables: &[Variable], activities: &[Amount], sides: &mut [Amount])
    requires { length sides.old ≡ store_row_limit }
    ensures { length sides.new ≡ store_row_limit }
{
    for (variable, activity) in variables.iter().zip(activities) {
        take(store, *variable, *activity, sides);
    }
}

// Whether some row in use is left with more than a little.
fn is_some_left(rows: &[RowId], sides: &[Amount]) -> bool
    requires { length sides.now ≡ store_row_limit }
{
    rows.iter()
        .any(|row| sides[row.number()].value().unsigned_abs() > ROOM)
}

/// Whether the activities give some row 2^-10 more or less than its right side. It takes time in proportion to the
/// entries of the basis.
pub(crate) fn is_off(
    store: &Store,
    selection: &Selection,
    basis: &Basis,
    space: &mut Workspace,
) -> bool
    requires { IsBasis (length selection.now.rows.items) basis.now }
{
    let rows = &selection.rows;
    write_sides(store, rows, &mut space.line);
    let count = rows.len();
    take_all(
        store,
        &basis.variables[..count],
        &basis.activities[..count],
        &mut space.line,
    );
    is_some_left(rows, &space.line)
}
