// What variables cost, and by how much that is above what the multipliers give for them.
ghost use Rattle.std.specs.Prelude.{◌≡◌, ◌≤◌, ◌^◌, ◌≤ℤ◌, length, pos, neg_ℤ};
ghost use Rattle.std.specs.Int.RustNames.{unsigned_abs};
ghost use Rattle.linear_program.specs.Limits.{store_row_limit};

use crate::fixed::Amount;
use crate::ids::{ColumnId, ROWS};
use crate::selection::{Selection, Variable};
use crate::store::{Entry, Store};

/// A multiplier or an activity times a coefficient.
pub(crate) fn term(value: i64, coefficient: i64) -> i128
    requires value { unsigned_abs value ≤ 2 ^ 61 }
    requires coefficient { unsigned_abs coefficient ≤ 2 ^ 15 }
    ensures high { result ≤ℤ pos (2 ^ 76) }
    ensures low { neg_ℤ (pos (2 ^ 76)) ≤ℤ result }
{
    i128::from(value) * i128::from(coefficient)
}

/// The sum of the coefficients times the values of their rows.
pub(crate) fn weighted_sum(values: &[Amount], entries: &[Entry]) -> i128
    requires { length values.now ≡ store_row_limit }
    ensures high { result ≤ℤ pos (2 ^ 88) }
    ensures low { neg_ℤ (pos (2 ^ 88)) ≤ℤ result }
{
    let count = entries.len().min(ROWS);
    let mut sum: i128 = 0;
    for entry in &entries[..count] {
        sum += term(values[entry.row().number()].value(), entry.wide());
    }
    sum
}

// The cost of a column here.
fn column_cost(store: &Store, selection: &Selection, column: ColumnId) -> Amount {
    let cost = store
        .column(column)
        .map_or(Amount::ZERO, |column| column.cost);
    if selection.charged && selection.forbidden[column.number()] {
        cost.plus(store.forbidden_cost())
    } else {
        cost
    }
}

/// The cost of a variable.
pub(crate) fn cost(store: &Store, selection: &Selection, variable: Variable) -> Amount {
    match variable {
        Variable::Column(column) => column_cost(store, selection, column),
        Variable::Surplus(row) => selection.bounds[row.number()].least.negative(),
        Variable::Penalty(row) => selection.bounds[row.number()].most,
    }
}

/// The reduced cost of a column: its cost less what the multipliers give for it. It takes time in proportion to its
/// entries.
pub(crate) fn column_reduced_cost(
    store: &Store,
    selection: &Selection,
    multipliers: &[Amount],
    column: ColumnId,
) -> Amount
    requires { length multipliers.now ≡ store_row_limit }
{
    let cost = i128::from(column_cost(store, selection, column).value());
    Amount::clamped(cost - weighted_sum(multipliers, store.entries(column)))
}

/// The reduced cost of a variable.
pub(crate) fn reduced_cost(
    store: &Store,
    selection: &Selection,
    multipliers: &[Amount],
    variable: Variable,
) -> Amount
    requires { length multipliers.now ≡ store_row_limit }
{
    match variable {
        Variable::Column(column) => column_reduced_cost(store, selection, multipliers, column),
        Variable::Surplus(row) => {
            multipliers[row.number()].less(selection.bounds[row.number()].least)
        }
        Variable::Penalty(row) => {
            selection.bounds[row.number()]
                .most
                .less(multipliers[row.number()])
        }
    }
}
