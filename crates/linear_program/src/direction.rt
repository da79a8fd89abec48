// A column through the inverse: by how much the activity at each basis place falls for each unit of it.
ghost use Rattle.std.specs.Prelude.{◌≡◌, ◌*◌, ◌<◌, ◌≤◌, IfSome, length};
ghost use Rattle.linear_program.specs.Limits.{program_row_limit};

use crate::fixed::Fraction;
use crate::selection::{MOST_ROWS, Selection, Variable};
use crate::store::{Entry, Store};

// Coefficients that sum to at most this, without their signs, times entries of the inverse fit in 64 bits.
const LIGHT: u32 = 100;

// Adds a multiple of a line of the inverse. The caller knows that no sum passes 64 bits.
fn add_light(sums: &mut [i64], line: &[Fraction], coefficient: i64) {
    match coefficient {
        1 => {
            for (sum, entry) in sums.iter_mut().zip(line) {
                *sum = sum.wrapping_add(entry.value());
            }
        }
        -1 => {
            for (sum, entry) in sums.iter_mut().zip(line) {
                *sum = sum.wrapping_sub(entry.value());
            }
        }
        _ => {
            for (sum, entry) in sums.iter_mut().zip(line) {
                *sum = sum.wrapping_add(coefficient.wrapping_mul(entry.value()));
            }
        }
    }
}

// Adds a multiple of a line of the inverse. Sums that pass 64 bits are held at their border.
fn add_heavy(sums: &mut [i64], line: &[Fraction], coefficient: i64) {
    for (sum, entry) in sums.iter_mut().zip(line) {
        *sum = sum.saturating_add(coefficient.saturating_mul(entry.value()));
    }
}

// Adds the lines of all rows in use that a column has entries in.
fn add_lines(
    selection: &Selection,
    inverse: &[Fraction],
    entries: &[Entry],
    light: bool,
    sums: &mut [i64],
)
    requires { length selection.now.rows.items * program_row_limit ≤ length inverse.now }
{
    let rows = selection.rows.len();
    for entry in entries {
        if let Some(place) = selection.place_of(entry.row()) {
            let line = &inverse[place * MOST_ROWS..place * MOST_ROWS + rows];
            if light {
                add_light(sums, line, entry.wide());
            } else {
                add_heavy(sums, line, entry.wide());
            }
        }
    }
}

// Writes the sums as entries.
fn write_sums(sums: &[i64], direction: &mut [Fraction]) {
    for (entry, sum) in direction.iter_mut().zip(sums) {
        *entry = Fraction::entry(*sum);
    }
}

// Writes the line of a row, or its negative.
fn write_line(line: &[Fraction], negative: bool, direction: &mut [Fraction]) {
    for (entry, number) in direction.iter_mut().zip(line) {
        *entry = if negative { number.negative() } else { *number };
    }
}

// Writes the direction of a unit of a row.
fn write_unit(
    selection: &Selection,
    inverse: &[Fraction],
    place: Option<usize>,
    negative: bool,
    direction: &mut [Fraction],
)
    requires long { length selection.now.rows.items * program_row_limit ≤ length inverse.now }
    requires place { IfSome place (λ place. place < length selection.now.rows.items) }
{
    if let Some(place) = place {
        let rows = selection.rows.len();
        let line = &inverse[place * MOST_ROWS..place * MOST_ROWS + rows];
        write_line(line, negative, direction);
    }
}

/// Writes a variable through the inverse. It takes time in proportion to the rows in use times the entries of the
/// variable.
pub(crate) fn write_direction(
    store: &Store,
    selection: &Selection,
    inverse: &[Fraction],
    variable: Variable,
    sums: &mut [i64],
    direction: &mut [Fraction],
)
    requires inverse { length selection.now.rows.items * program_row_limit ≤ length inverse.now }
    requires sums { length sums.old ≡ program_row_limit }
{
    match variable {
        Variable::Surplus(row) => {
            write_unit(selection, inverse, selection.place_of(row), true, direction);
        }
        Variable::Penalty(row) => {
            write_unit(
                selection,
                inverse,
                selection.place_of(row),
                false,
                direction,
            );
        }
        Variable::Column(column) => {
            let light = store
                .column(column)
                .map_or(true, |column| column.weight <= LIGHT);
            let sums = &mut sums[..selection.rows.len()];
            sums.fill(0);
            add_lines(selection, inverse, store.entries(column), light, sums);
            write_sums(sums, direction);
        }
    }
}
