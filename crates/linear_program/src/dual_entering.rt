// Which variable enters the basis in the dual method.
ghost use Rattle.std.specs.Prelude.{◌≡◌, ◌*◌, ◌<◌, ◌≤◌, length};
ghost use Rattle.linear_program.specs.Limits.{program_row_limit, store_row_limit};
ghost use Rattle.linear_program.specs.Bases.{IsBasis};

use crate::basis::Basis;
use crate::costs::{column_reduced_cost, reduced_cost, weighted_sum};
use crate::dual_leaving::Leaving;
use crate::fixed::{Amount, Fraction, LEAST_PIVOT, product};
use crate::ids::{ColumnId, RowId};
use crate::selection::{MOST_ROWS, Selection, Variable};
use crate::store::Store;

// A reduced cost, or 0 if it is below 0, divided by the entry of a variable in the line that leaves, above 0.
#[derive(Clone, Copy)]
struct Ratio {
    variable: Variable,
    reduced: i64,
    entry: i64,
}

// The ratio that is taken so far. It is no higher than the bound, which is the least ratio with a slack added to each
// reduced cost: among ratios that differ by no more than that, a great entry is better (Harris 1973).
#[derive(Clone, Copy)]
struct Choice {
    best: Option<Ratio>,
    // The bound, as a number and a divisor above 0.
    number: i64,
    divisor: i64,
    slack: i64,
}

impl Choice {
    fn new(slack: i64) -> Choice {
        Choice {
            best: None,
            number: 0,
            divisor: 1,
            slack,
        }
    }

    // Whether a ratio is no higher than the bound.
    fn takes(&self, ratio: &Ratio) -> bool {
        product(ratio.reduced, self.divisor) <= product(self.number, ratio.entry)
    }

    // Takes another ratio into account.
    fn look(&mut self, next: Ratio) {
        let number = next.reduced.saturating_add(self.slack);
        let Some(best) = self.best else {
            self.best = Some(next);
            self.number = number;
            self.divisor = next.entry;
            return;
        };
        if product(number, self.divisor) < product(self.number, next.entry) {
            self.number = number;
            self.divisor = next.entry;
        }
        let is_better = next.entry > best.entry || !self.takes(&best);
        if is_better && self.takes(&next) {
            self.best = Some(next);
        }
    }
}

// Writes the entries of a basis place by row of the store, with the sign by which the activity is to change.
fn write_line(rows: &[RowId], inverse: &[Fraction], leaving: &Leaving, line: &mut [Amount])
    requires rows { length rows.now ≤ program_row_limit }
    requires inverse { length rows.now * program_row_limit ≤ length inverse.now }
    requires leaving { leaving.now.place < length rows.now }
    requires line { length line.old ≡ store_row_limit }
{
    for place in 0..rows.len() {
        let entry = inverse[place * MOST_ROWS + leaving.place].value();
        line[rows[place].number()] = Amount::of(if leaving.falls { entry } else { -entry });
    }
}

// Looks at a unit, if its entry is great enough.
fn look_at_unit(
    store: &Store,
    selection: &Selection,
    multipliers: &[Amount],
    variable: Variable,
    entry: i64,
    choice: &mut Choice,
)
    requires { length multipliers.now ≡ store_row_limit }
{
    if entry < LEAST_PIVOT {
        return;
    }
    let reduced = reduced_cost(store, selection, multipliers, variable)
        .value()
        .max(0);
    choice.look(Ratio {
        variable,
        reduced,
        entry,
    });
}

// Looks at the units of all rows except the one that leaves.
fn look_at_units(
    store: &Store,
    selection: &Selection,
    multipliers: &[Amount],
    line: &[Amount],
    leaving: Variable,
    choice: &mut Choice,
)
    requires multipliers { length multipliers.now ≡ store_row_limit }
    requires line { length line.now ≡ store_row_limit }
{
    for row in &selection.rows {
        let entry = line[row.number()].value();
        let unit = if entry < 0 {
            Variable::Surplus(*row)
        } else {
            Variable::Penalty(*row)
        };
        if unit != leaving {
            look_at_unit(store, selection, multipliers, unit, entry.abs(), choice);
        }
    }
}

// Looks at the columns in use that may enter.
fn look_at_columns(
    store: &Store,
    selection: &Selection,
    basis: &Basis,
    line: &[Amount],
    choice: &mut Choice,
)
    requires basis { IsBasis (length selection.now.rows.items) basis.now }
    requires line { length line.now ≡ store_row_limit }
{
    for column in &selection.columns {
        let number = column.number();
        if !basis.basic[number] && !selection.forbidden[number] {
            let entry = Amount::clamped(weighted_sum(line, store.entries(*column))).value();
            if entry >= LEAST_PIVOT {
                choice.look(ratio_of(store, selection, basis, *column, entry));
            }
        }
    }
}

// The ratio of a column with an entry that is great enough.
fn ratio_of(
    store: &Store,
    selection: &Selection,
    basis: &Basis,
    column: ColumnId,
    entry: i64,
) -> Ratio
    requires { IsBasis (length selection.now.rows.items) basis.now }
{
    let reduced = column_reduced_cost(store, selection, &basis.multipliers, column);
    Ratio {
        variable: Variable::Column(column),
        reduced: reduced.value().max(0),
        entry,
    }
}

/// A variable that enters in the dual method.
#[derive(Clone, Copy)]
pub(crate) struct Entrant {
    pub variable: Variable,
    /// Its entry at the place that leaves, by the line, without its sign.
    pub entry: i64,
}

/// The variable that enters if a place leaves, by the least ratio except for a slack of the reduced costs, or `None` if
/// no entry is great enough.
pub(crate) fn dual_entering(
    store: &Store,
    selection: &Selection,
    basis: &Basis,
    leaving: &Leaving,
    slack: i64,
    line: &mut [Amount],
) -> Option<Entrant>
    requires basis { IsBasis (length selection.now.rows.items) basis.now }
    requires leaving { leaving.now.place < length selection.now.rows.items }
    requires line { length line.old ≡ store_row_limit }
{
    write_line(&selection.rows, &basis.inverse, leaving, line);
    let basic = basis.variables[leaving.place];
    let mut choice = Choice::new(slack);
    look_at_units(
        store,
        selection,
        &basis.multipliers,
        line,
        basic,
        &mut choice,
    );
    look_at_columns(store, selection, basis, line, &mut choice);
    choice.best.map(|ratio| Entrant {
        variable: ratio.variable,
        entry: ratio.entry,
    })
}

/// How many entries the columns in use have.
pub(crate) fn entries_in_use(store: &Store, selection: &Selection) -> usize {
    let mut entries: usize = 0;
    for column in &selection.columns {
        entries = entries.saturating_add(store.entries(*column).len());
    }
    entries
}
