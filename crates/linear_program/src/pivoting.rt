// The step from one basis to the next (Dantzig and Orchard-Hays 1954).
ghost use Rattle.std.specs.Prelude.{◌≡◌, ◌*◌, ◌<◌, ◌≤◌, ◌^◌, length};
ghost use Rattle.std.specs.Int.RustNames.{unsigned_abs};
ghost use Rattle.linear_program.specs.Limits.{program_row_limit, store_row_limit};
ghost use Rattle.linear_program.specs.Bases.{IsBasis};

use crate::basis::{Basis, more_work};
use crate::fixed::{Amount, Fraction, quotient};
use crate::ids::RowId;
use crate::selection::{MOST_ROWS, Variable};
use crate::workspace::Term;

/// What enters, and where.
#[derive(Clone, Copy)]
pub(crate) struct Exchange {
    pub place: usize,
    pub variable: Variable,
    /// The reduced cost of the variable, or 0 if the multipliers are to stay.
    pub reduced: Amount,
}

// Lists the entries of a direction that are not 0, except for the one of the pivot, and answers how many there are.
fn list_terms(direction: &[Fraction], pivot: usize, terms: &mut [Term]) -> usize
    requires few { length direction.now ≤ program_row_limit }
    requires terms { length terms.old ≡ program_row_limit }
    ensures { result ≤ length direction.now }
{
    let mut count = 0;
    for place in 0..direction.len() {
        if place != pivot && direction[place].value() != 0 {
            terms[count] = Term::new(place, direction[place]);
            count += 1;
        }
    }
    count
}

// Lowers the activities by a multiple of the direction.
fn lower_activities(activities: &mut [Amount], terms: &[Term], step: Amount)
    requires { length activities.old ≡ program_row_limit }
{
    for term in terms {
        let activity = activities[term.place];
        activities[term.place] = activity.less_product(term.factor.value(), step.value());
    }
}

// Takes a near multiple of the terms from a line.
fn reduce_near(line: &mut [Fraction], multiple: Fraction, terms: &[Term])
    requires line { length line.old ≡ program_row_limit }
    requires near { unsigned_abs multiple.value ≤ 2 ^ 47 }
{
    for term in terms {
        line[term.place] = line[term.place].less_near(multiple, term.factor);
    }
}

// Takes any multiple of the terms from a line.
fn reduce_far(line: &mut [Fraction], multiple: Fraction, terms: &[Term])
    requires { length line.old ≡ program_row_limit }
{
    for term in terms {
        line[term.place] = line[term.place].less_product(multiple, term.factor);
    }
}

// The step for one line of the inverse. It answers the new entry at the pivot.
fn reduce_line(line: &mut [Fraction], place: usize, pivot: Fraction, terms: &[Term]) -> Fraction
    requires line { length line.old ≡ program_row_limit }
    requires place { place < program_row_limit }
{
    if line[place].value() == 0 {
        return Fraction::ZERO;
    }
    let multiple = Fraction::entry(quotient(line[place].value(), pivot.value()).value());
    line[place] = multiple;
    if multiple.value() == 0 {
        return multiple;
    }
    if multiple.is_near() {
        reduce_near(line, multiple, terms);
    } else {
        reduce_far(line, multiple, terms);
    }
    multiple
}

// The step for the inverse and the multipliers. It answers how many entries were touched.
fn reduce_lines(
    rows: &[RowId],
    inverse: &mut [Fraction],
    multipliers: &mut [Amount],
    exchange: &Exchange,
    pivot: Fraction,
    terms: &[Term],
) -> u64
    requires rows { length rows.now ≤ program_row_limit }
    requires inverse { length rows.now * program_row_limit ≤ length inverse.old }
    requires multipliers { length multipliers.old ≡ store_row_limit }
    requires place { exchange.now.place < program_row_limit }
{
    let mut touched: u64 = 0;
    for place in 0..rows.len() {
        let line = &mut inverse[place * MOST_ROWS..(place + 1) * MOST_ROWS];
        let multiple = reduce_line(line, exchange.place, pivot, terms);
        if multiple.value() != 0 {
            let row = rows[place].number();
            multipliers[row] = multipliers[row].plus_product(
                exchange.reduced.value(),
                multiple.value(),
            );
            touched = touched.saturating_add(terms.len() as u64);
        }
    }
    touched
}

impl Basis {
    // Notes which variable is in the basis at a place.
    fn exchange(&mut self, rows: usize, place: usize, variable: Variable)
        requires basis { IsBasis rows self.old }
        requires place { place < program_row_limit }
        ensures { IsBasis rows self.new }
    {
        if let Variable::Column(column) = self.variables[place] {
            self.basic[column.number()] = false;
        }
        if let Variable::Column(column) = variable {
            self.basic[column.number()] = true;
        }
        self.variables[place] = variable;
    }

    /// A variable enters the basis at a place, by its direction. It touches the entries of the inverse at the places
    /// where the direction is not 0.
    pub(crate) fn pivot(
        &mut self,
        rows: &[RowId],
        direction: &[Fraction],
        terms: &mut [Term],
        exchange: &Exchange,
    )
        requires basis { IsBasis (length rows.now) self.old }
        requires direction { length rows.now ≤ length direction.now }
        requires terms { length terms.old ≡ program_row_limit }
        requires place { exchange.now.place < length rows.now }
        ensures { IsBasis (length rows.now) self.new }
    {
        let count = rows.len();
        let pivot = direction[exchange.place];
        let step = quotient(self.activities[exchange.place].value(), pivot.value());
        let listed = list_terms(&direction[..count], exchange.place, terms);
        let terms = &terms[..listed];
        lower_activities(&mut self.activities, terms, step);
        self.activities[exchange.place] = step;
        let touched = reduce_lines(
            rows,
            &mut self.inverse,
            &mut self.multipliers,
            exchange,
            pivot,
            terms,
        );
        self.exchange(count, exchange.place, exchange.variable);
        self.work = self.work.saturating_add(touched);
        self.work = more_work(self.work, count);
        self.pivots = self.pivots.saturating_add(1);
        self.age = self.age.saturating_add(1);
    }
}
