// Rows that come into the inverse and go from it.
ghost use Rattle.std.specs.Prelude.{◌≡◌, ◌+◌, ◌*◌, ◌<◌, ◌≤◌, IfSome, OnOk, OnErr, length, true};
ghost use Rattle.linear_program.specs.Limits.{program_row_limit};
ghost use Rattle.linear_program.specs.Bases.{IsBasis};
ghost use Rattle.linear_program.specs.Programs.{IsRowOffered, IsRowTaken};
ghost use Rattle.linear_program.specs.Selections.{in_use};

use crate::basis::{Basis, more_work};
use crate::fixed::{Amount, Fraction, ONE};
use crate::ids::RowId;
use crate::selection::{MOST_ROWS, Selection, Variable};
use crate::store::{Entry, Store};
use carp_base::Memory;
use std::alloc::Global;

// The coefficient of a row among entries, or 0.
fn coefficient_in(entries: &[Entry], row: RowId) -> i64 {
    for entry in entries {
        if entry.row() == row {
            return i64::from(entry.coefficient());
        }
    }
    0
}

// The coefficient of a row in a variable other than its units.
fn coefficient_of(store: &Store, variable: Variable, row: RowId) -> i64 {
    match variable {
        Variable::Column(column) => coefficient_in(store.entries(column), row),
        _ => 0,
    }
}

// The coefficients of a row in a basis, in fixed point.
fn coefficients_of(
    alloc: Global,
    store: &Store,
    variables: &[Variable],
    row: RowId,
) -> Result<Vec<i64>, Memory> {
    let mut coefficients = Vec::with_capacity(alloc, variables.len())?;
    for variable in variables {
        coefficients.push(coefficient_of(store, *variable, row).saturating_mul(ONE))?;
    }
    Ok(coefficients)
}

// The sum of coefficients times entries.
fn entry_of(line: &[Fraction], coefficients: &[i64]) -> Fraction {
    let mut sum: i64 = 0;
    for (entry, coefficient) in line.iter().zip(coefficients) {
        sum = Amount::of(sum)
            .plus_product(entry.value(), *coefficient)
            .value();
    }
    Fraction::entry(sum)
}

// The sum of coefficients times activities.
fn sum_of(activities: &[Amount], coefficients: &[i64]) -> Amount {
    let mut sum: i64 = 0;
    for (activity, coefficient) in activities.iter().zip(coefficients) {
        sum = Amount::of(sum)
            .plus_product(activity.value(), *coefficient)
            .value();
    }
    Amount::of(sum)
}

// Writes a place more in each line.
fn write_place(inverse: &mut [Fraction], rows: usize, coefficients: &[i64])
    requires few { rows < program_row_limit }
    requires long { rows * program_row_limit ≤ length inverse.old }
{
    for row in 0..rows {
        let line = &mut inverse[row * MOST_ROWS..(row + 1) * MOST_ROWS];
        line[rows] = entry_of(&line[..rows], coefficients);
    }
}

// Writes the line of a new row, whose surplus is at the place of the same number.
fn write_last(inverse: &mut [Fraction], row: usize)
    requires few { row < program_row_limit }
    requires long { (row + 1) * program_row_limit ≤ length inverse.old }
{
    let line = &mut inverse[row * MOST_ROWS..(row + 1) * MOST_ROWS];
    line.fill(Fraction::ZERO);
    line[row] = Fraction::ONE.negative();
}

impl Basis {
    // Makes room for one more line.
    fn reserve(&mut self, rows: usize) -> Result<(), Memory>
        requires basis { IsBasis rows self.old }
        requires few { rows < program_row_limit }
        ensures basis { IsBasis rows self.new }
        ensures room { OnOk result (IsBasis (rows + 1) self.new) }
    {
        let lines = rows + 1;
        if self.inverse.len() < lines * MOST_ROWS {
            self.inverse.resize(lines * MOST_ROWS, Fraction::ZERO)?;
        }
        Ok(())
    }

    // Adds a row behind the others, with its surplus as the basic variable.
    fn extend(&mut self, rows: usize, row: RowId, coefficients: &[i64], side: Amount)
        requires basis { IsBasis (rows + 1) self.old }
        ensures { IsBasis (rows + 1) self.new }
    {
        write_place(&mut self.inverse, rows, coefficients);
        write_last(&mut self.inverse, rows);
        let sum = sum_of(&self.activities[..rows], coefficients);
        self.variables[rows] = Variable::Surplus(row);
        self.activities[rows] = sum.less(side);
        self.multipliers[row.number()] = Amount::ZERO;
        self.work = more_work(self.work, rows * rows);
    }
}

/// Puts a row in use. Its surplus is basic, and below 0 if the activities do not give what the row demands.
pub(crate) fn use_row(
    alloc: Global,
    store: &Store,
    selection: &mut Selection,
    basis: &mut Basis,
    row: RowId,
) -> Result<(), Memory>
    requires basis { IsBasis (length selection.old.rows.items) basis.old }
    requires few { length selection.old.rows.items < program_row_limit }
    ensures basis { IsBasis (length selection.new.rows.items) basis.new }
    ensures ok { OnOk result (IsRowOffered row true (in_use selection.old) (in_use selection.new)) }
    ensures err { OnErr result (in_use selection.new ≡ in_use selection.old) }
{
    let count = selection.rows.len();
    let coefficients = coefficients_of(alloc, store, &basis.variables[..count], row)?;
    basis.reserve(count)?;
    selection.use_row(store, row)?;
    basis.extend(count, row, &coefficients, store.noisy_right_side(row));
    Ok(())
}

// The basis place of a unit of a row.
fn unit_place(variables: &[Variable], row: RowId) -> Option<usize>
    ensures { IfSome result (λ place. place < length variables.now) }
{
    for place in 0..variables.len() {
        if variables[place] == Variable::Surplus(row)
            || variables[place] == Variable::Penalty(row)
        {
            return Some(place);
        }
    }
    None
}

// Moves the lines behind a row one line up.
fn remove_line(inverse: &mut [Fraction], rows: usize, row: usize)
    requires row { row < rows }
    requires long { rows * program_row_limit ≤ length inverse.old }
{
    for place in row * MOST_ROWS..(rows - 1) * MOST_ROWS {
        inverse[place] = inverse[place + MOST_ROWS];
    }
}

// Moves the entries behind a place one place up.
fn remove_place(inverse: &mut [Fraction], rows: usize, place: usize)
    requires place { place < program_row_limit }
    requires long { rows * program_row_limit ≤ length inverse.old }
{
    for row in 0..rows {
        let line = &mut inverse[row * MOST_ROWS..(row + 1) * MOST_ROWS];
        move_up(line, place);
    }
}

// Moves what is behind a place one place up.
fn move_up<T: Copy>(list: &mut [T], place: usize)
    requires { place < length list.old }
{
    for at in place..list.len() - 1 {
        list[at] = list[at + 1];
    }
}

/// Takes the row at a place out of use if one of its units is basic, and answers whether it did.
pub(crate) fn drop_row(selection: &mut Selection, basis: &mut Basis, place: usize) -> bool
    requires basis { IsBasis (length selection.old.rows.items) basis.old }
    requires place { place < length selection.old.rows.items }
    ensures basis { IsBasis (length selection.new.rows.items) basis.new }
    ensures dropped { IsRowTaken place result (in_use selection.old) (in_use selection.new) }
{
    let count = selection.rows.len();
    let row = selection.rows[place];
    let Some(unit) = unit_place(&basis.variables[..count], row) else {
        return false;
    };
    remove_line(&mut basis.inverse, count, place);
    remove_place(&mut basis.inverse, count - 1, unit);
    move_up(&mut basis.variables, unit);
    move_up(&mut basis.activities, unit);
    basis.multipliers[row.number()] = Amount::ZERO;
    selection.drop_row(place);
    true
}
