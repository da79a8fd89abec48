// Multipliers and activities from the inverse.
ghost use Rattle.std.specs.Prelude.{◌≡◌, ◌*◌, ◌≤◌, ◌^◌, ◌≤ℤ◌, length, pos, neg_ℤ};
ghost use Rattle.linear_program.specs.Limits.{program_row_limit, store_row_limit};
ghost use Rattle.linear_program.specs.Bases.{IsBasis};

use crate::basis::{Basis, more_work};
use crate::costs::cost;
use crate::fixed::{Amount, Fraction, product};
use crate::ids::RowId;
use crate::selection::{MOST_ROWS, Selection, Variable};
use crate::store::Store;

// These fraction bits are left out of each product, so that sums of products fit.
const LEFT_OUT: u32 = 16;

// The fraction bits that are left.
const LEFT: u32 = 24;

// Half of the last place of what is left.
const HALF: i128 = 1 << 23;

// A cost times an entry of the inverse.
fn share(cost: Amount, entry: Fraction) -> i128
    ensures high { result ≤ℤ pos (2 ^ 111) }
    ensures low { neg_ℤ (pos (2 ^ 111)) ≤ℤ result }
{
    product(cost.value(), entry.value()) >> LEFT_OUT
}

/// The sum of the costs times the entries.
pub(crate) fn price(costs: &[Amount], entries: &[Fraction]) -> Amount
    requires few { length entries.now ≤ program_row_limit }
    requires long { length entries.now ≤ length costs.now }
{
    let mut sum: i128 = 0;
    for place in 0..entries.len() {
        sum += share(costs[place], entries[place]);
    }
    Amount::clamped((sum + HALF) >> LEFT)
}

/// Writes the costs of a basis.
pub(crate) fn write_costs(
    store: &Store,
    selection: &Selection,
    variables: &[Variable],
    costs: &mut [Amount],
) {
    for (place, variable) in costs.iter_mut().zip(variables) {
        *place = cost(store, selection, *variable);
    }
}

// Writes the multiplier of each row in use.
fn write_multipliers(
    rows: &[RowId],
    inverse: &[Fraction],
    costs: &[Amount],
    multipliers: &mut [Amount],
)
    requires rows { length rows.now ≤ program_row_limit }
    requires inverse { length rows.now * program_row_limit ≤ length inverse.now }
    requires costs { length costs.now ≡ program_row_limit }
    requires multipliers { length multipliers.old ≡ store_row_limit }
{
    let count = rows.len();
    for place in 0..count {
        let line = &inverse[place * MOST_ROWS..place * MOST_ROWS + count];
        multipliers[rows[place].number()] = price(costs, line);
    }
}

/// Takes the multipliers anew from the inverse. It takes time in proportion to the square of the rows in use.
pub(crate) fn refresh_multipliers(
    store: &Store,
    selection: &Selection,
    basis: &mut Basis,
    costs: &mut [Amount],
)
    requires basis { IsBasis (length selection.now.rows.items) basis.old }
    requires costs { length costs.old ≡ program_row_limit }
    ensures { IsBasis (length selection.now.rows.items) basis.new }
{
    let rows = &selection.rows;
    write_costs(store, selection, &basis.variables[..rows.len()], costs);
    write_multipliers(rows, &basis.inverse, costs, &mut basis.multipliers);
    basis.work = more_work(basis.work, rows.len() * rows.len());
}

// Adds a right side times a line of the inverse.
fn add_side(activities: &mut [Amount], line: &[Fraction], side: Amount) {
    for (activity, entry) in activities.iter_mut().zip(line) {
        *activity = activity.plus_product(side.value(), entry.value());
    }
}

// Adds the right sides of all rows times their lines.
fn add_sides(store: &Store, rows: &[RowId], inverse: &[Fraction], activities: &mut [Amount])
    requires rows { length rows.now ≤ program_row_limit }
    requires inverse { length rows.now * program_row_limit ≤ length inverse.now }
{
    for place in 0..rows.len() {
        let line = &inverse[place * MOST_ROWS..place * MOST_ROWS + rows.len()];
        add_side(activities, line, store.noisy_right_side(rows[place]));
    }
}

/// Takes the activities anew from the inverse. It takes time in proportion to the square of the rows in use.
pub(crate) fn refresh_activities(store: &Store, rows: &[RowId], basis: &mut Basis)
    requires { IsBasis (length rows.now) basis.old }
    ensures { IsBasis (length rows.now) basis.new }
{
    basis.activities.fill(Amount::ZERO);
    add_sides(store, rows, &basis.inverse, &mut basis.activities);
    basis.work = more_work(basis.work, rows.len() * rows.len());
}
