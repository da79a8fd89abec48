// The step from one corner of the program to the next (Dantzig 1951).
ghost use Rattle.std.specs.Prelude.{◌≡◌, ℕ, ◌*◌, ◌<◌, ◌≤◌, All, length, pos, OnOk, ◌≤ℤ◌};
ghost use Rattle.shore_program.specs.Tableaus.{IsRatio, IsTableau};

use crate::fixed::{ONE, entry, less_product, plus_product, quotient};
use crate::ratio::{Ratio, least_ratio};
use crate::tableau::{COLUMNS, Column, Row, Tableau, entering};
use carp_base::Memory;
use std::mem;

/// An entry of the row that leaves, divided by the pivot, which is not 0.
#[derive(Clone, Copy)]
pub(crate) struct Term {
    column: usize,
    factor: i64,
}

// What the other rows and the columns are changed by: the column that enters, 1 divided by the pivot, and the levels of the
// row that leaves, divided by the pivot.
#[derive(Clone, Copy)]
struct Step {
    column: usize,
    inverse: i64,
    level: i64,
    true_level: i64,
}

// Lists a term where it is not 0.
fn list_term(terms: &mut Vec<Term>, column: usize, factor: i64) -> Result<(), Memory>
    ensures { (end : ℕ) → column < end → All (λ t. t.column < end) terms.old.items → OnOk result (All (λ t. t.column < end) terms.new.items) }
{
    if factor != 0 {
        terms.push(Term { column, factor })?;
    }
    Ok(())
}

// Divides the entries of the row that leaves by the pivot, and lists those that are not 0, but for the pivot's own.
fn scale_line(
    line: &mut [i64],
    columns: usize,
    column: usize,
    pivot: i64,
    terms: &mut Vec<Term>,
) -> Result<(), Memory>
    requires columns { columns ≤ length line.old }
    requires column { column < columns }
    requires pivot { pos 1 ≤ℤ pivot }
    ensures { OnOk result (All (λ t. t.column < columns) terms.new.items) }
{
    terms.clear();
    for place in 0..columns {
        if line[place] != 0 && place != column {
            let factor = entry(quotient(line[place], pivot));
            line[place] = factor;
            list_term(terms, place, factor)?;
        }
    }
    line[column] = quotient(ONE, pivot);
    Ok(())
}

// Takes a multiple of the row that leaves from the entries of another row.
fn reduce_line(line: &mut [i64], multiple: i64, terms: &[Term])
    requires { All (λ t. t.column < length line.old) terms.now }
{
    for term in terms {
        let left = less_product(line[term.column], multiple, term.factor);
        line[term.column] = entry(left);
    }
}

// Takes a multiple of the row that leaves from another row, and answers how many entries were touched.
fn reduce_row(line: &mut [i64], row: &mut Row, step: &Step, terms: &[Term]) -> u64
    requires terms { All (λ t. t.column < length line.old) terms.now }
    requires column { step.now.column < length line.old }
{
    let multiple = line[step.column];
    if multiple == 0 {
        return 1;
    }
    reduce_line(line, multiple, terms);
    line[step.column] = entry(less_product(0, multiple, step.inverse));
    row.level = less_product(row.level, multiple, step.level);
    row.true_level = less_product(row.true_level, multiple, step.true_level);
    terms.len() as u64
}

// Takes multiples of the row that leaves from all other rows, and answers how many entries were touched.
fn reduce_rows(
    entries: &mut [i64],
    rows: &mut [Row],
    leaving: usize,
    step: &Step,
    terms: &[Term],
) -> u64
    requires entries { length entries.old ≡ length rows.old * 1200 }
    requires terms { All (λ t. t.column < 1200) terms.now }
    requires column { step.now.column < 1200 }
{
    let mut touched: u64 = 0;
    for place in 0..rows.len() {
        if place != leaving {
            let line = &mut entries[place * COLUMNS..(place + 1) * COLUMNS];
            let more = reduce_row(line, &mut rows[place], step, terms);
            touched = touched.saturating_add(more);
        }
    }
    touched
}

// Takes a multiple of the row that leaves from the gains.
fn reduce_gains(columns: &mut [Column], step: &Step, terms: &[Term])
    requires terms { All (λ t. t.column < length columns.old) terms.now }
    requires column { step.now.column < length columns.old }
{
    let gain = columns[step.column].gain;
    for term in terms {
        let column = &mut columns[term.column];
        column.gain = less_product(column.gain, gain, term.factor);
    }
    columns[step.column].gain = less_product(0, gain, step.inverse);
}

// Divides the levels of the row that leaves by the pivot, and gives what the other rows are changed by.
fn scale_levels(row: &mut Row, column: usize, pivot: i64) -> Step
    requires { pos 1 ≤ℤ pivot }
    ensures { result.column ≡ column }
{
    row.level = quotient(row.level, pivot);
    row.true_level = quotient(row.true_level, pivot);
    Step {
        column,
        inverse: quotient(ONE, pivot),
        level: row.level,
        true_level: row.true_level,
    }
}

impl Tableau {
    // The variable of a column becomes basic in place of that of a row. It touches the entries that are not 0 of the rows
    // that have one in this column.
    fn pivot(&mut self, terms: &mut Vec<Term>, ratio: &Ratio, column: usize) -> Result<(), Memory>
        requires tableau { IsTableau (length self.old.rows.items) self.old }
        requires ratio { IsRatio (length self.old.rows.items) ratio.now }
        requires column { column < length self.old.columns.items }
        ensures tableau { IsTableau (length self.old.rows.items) self.new }
        ensures columns { length self.new.columns.items ≡ length self.old.columns.items }
    {
        let leaving = ratio.row;
        let line = &mut self.entries[leaving * COLUMNS..(leaving + 1) * COLUMNS];
        scale_line(line, self.columns.len(), column, ratio.pivot, terms)?;
        let step = scale_levels(&mut self.rows[leaving], column, ratio.pivot);
        let gain = self.columns[column].gain;
        self.value = plus_product(self.value, gain, step.level);
        let touched = reduce_rows(&mut self.entries, &mut self.rows, leaving, &step, terms);
        self.work = self.work.saturating_add(touched);
        reduce_gains(&mut self.columns, &step, terms);
        mem::swap(
            &mut self.rows[leaving].variable,
            &mut self.columns[column].variable,
        );
        Ok(())
    }

    // One step with a column of gain. A column that no row bounds gains by drift alone, and its gain is taken as 0.
    fn advance(&mut self, terms: &mut Vec<Term>, column: usize) -> Result<(), Memory>
        requires tableau { IsTableau (length self.old.rows.items) self.old }
        requires column { column < length self.old.columns.items }
        ensures tableau { IsTableau (length self.old.rows.items) self.new }
        ensures columns { length self.new.columns.items ≡ length self.old.columns.items }
    {
        let looked = (self.rows.len() + self.columns.len()) as u64;
        self.work = self.work.saturating_add(looked);
        match least_ratio(&self.entries, &self.rows, column) {
            Some(ratio) => self.pivot(terms, &ratio, column),
            None => {
                self.columns[column].gain = 0;
                Ok(())
            }
        }
    }

    /// At most so many steps of the simplex method, each with the column of greatest gain.
    pub(crate) fn solve(&mut self, terms: &mut Vec<Term>, steps: u32) -> Result<(), Memory>
        requires tableau { IsTableau (length self.old.rows.items) self.old }
        ensures tableau { IsTableau (length self.old.rows.items) self.new }
        ensures columns { length self.new.columns.items ≡ length self.old.columns.items }
    {
        for _ in 0..steps {
            let Some(column) = entering(&self.columns) else {
                break;
            };
            self.advance(terms, column)?;
        }
        Ok(())
    }
}
