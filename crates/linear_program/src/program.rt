// A linear program over rows and columns of a store.
ghost use Rattle.std.specs.Prelude.{◌≡◌, ◌<◌, ◌≤◌, ◌^◌, ◌↔◌, [], ℕ, IfOk, IfSome, OnErr, IsTrue, length, slice_index_or, true, slice_set, is_some};
ghost use Rattle.std.specs.Int.RustNames.{unsigned_abs};
ghost use Rattle.linear_program.specs.Limits.{store_row_limit};
ghost use Rattle.linear_program.specs.Programs.{HasNoMoreColumns, IsColumnOffered, IsRowOffered, IsRowTaken};
ghost use Rattle.linear_program.specs.declared.selection.Bounds.{Bounds};

use crate::basis::Basis;
use crate::costs::column_reduced_cost;
use crate::fixed::{Amount, product};
use crate::ids::{ColumnId, RowId};
use crate::rows::{drop_row, use_row};
use crate::selection::{Bounds, MOST_ROWS, Selection, Variable};
use crate::solving::{solve, start_from};
use crate::store::Store;
use crate::{solving, trimming};
use carp_base::Memory;
use std::alloc::Global;
use std::marker::Model;

// By how much a reduced cost has to be below 0 at first.
const TOLERANCE: i64 = 16;

// The greatest tolerance.
const MOST_TOLERANCE: u64 = 1 << 60;

/// At most how many steps each method takes, and how many entries a program touches.
#[derive(Clone, Copy)]
pub struct Caps {
    /// Steps of the dual method.
    pub dual: u32,
    /// Steps of the primal method.
    pub primal: u32,
    /// Entries that the program touches, counted as in `work`. No step begins beyond this, so that the last one may
    /// pass it.
    pub work: u64,
}

impl Caps {
    /// Caps that grow with the number of rows in use: 8 steps a row and 100 of the dual method, and 10 a row and 500 of
    /// the primal one. Entries have no cap.
    pub fn by_rows(rows: usize) -> Caps
        ensures { result.work ≡ u64.MAX }
    {
        let rows = rows.min(MOST_ROWS) as u32;
        Caps {
            dual: 8 * rows + 100,
            primal: 10 * rows + 500,
            work: u64::MAX,
        }
    }

    /// The same caps of steps, with this cap of entries.
    pub fn within(self, work: u64) -> Caps
        ensures dual { result.dual ≡ self.dual }
        ensures primal { result.primal ≡ self.primal }
        ensures work { result.work ≡ work }
    {
        Caps {
            dual: self.dual,
            primal: self.primal,
            work,
        }
    }
}

/// A variable of the basis.
#[derive(Clone, Copy)]
pub struct Basic {
    /// The variable.
    pub variable: Variable,
    /// Its activity, in parts of 2^40.
    pub activity: i64,
}

/// The range of a multiplier, in units of cost.
#[derive(Clone, Copy)]
pub struct Range {
    /// The least multiplier.
    pub least: i64,
    /// The greatest multiplier.
    pub most: i64,
}

/// A linear program over some rows and columns of a store. Contracts see what is in use.
///
/// It minimises what the columns in use cost times their activities. No activity is below 0. In each row in use the
/// coefficients times the activities sum to the right side, or to more at the least multiplier of the row, or to less
/// at the greatest one. So some activities always fit, and no multiplier leaves its range by more than rounding.
///
/// All numbers are in fixed point. Each call tells how much is proved of it: ranges and what stays, and nothing of how
/// good a basis is. It takes 5,600 bytes for each row in use, and some 250,000 bytes for itself.
#[derive(Drop)]
pub struct Program {
    selection: Selection,
    basis: Basis,
    tolerance: Amount,
    slack: i64,
}

impl Model for Program {
    ghost use Rattle.std.specs.Prelude.{length};
    ghost use Rattle.linear_program.specs.Bases.{IsBasis};
    ghost use Rattle.linear_program.specs.Programs.{InUse};

    ghost Value = { InUse };

    ghost view = { λ p. record { rows = p.selection.rows.items; columns = p.selection.columns.items; bounds = p.selection.bounds.items; forbidden = p.selection.forbidden.items } };

    ghost invariant = { λ p. IsBasis (length p.selection.rows.items) p.basis };
}

impl Program {
    /// The program of no row and no column.
    pub fn new(alloc: Global) -> Result<Program, Memory>
        ensures rows { IfOk result (λ program. program.rows ≡ []) }
        ensures columns { IfOk result (λ program. program.columns ≡ []) }
    {
        Ok(Program {
            selection: Selection::new(alloc)?,
            basis: Basis::new(alloc)?,
            tolerance: Amount::of(TOLERANCE),
            slack: 0,
        })
    }

    /// A copy with the same basis.
    pub fn copy(&self, alloc: Global) -> Result<Program, Memory>
        ensures { IfOk result (λ copy. copy ≡ self.now) }
    {
        let basis = self.basis.copy(alloc, self.selection.rows.len())?;
        Ok(Program {
            selection: self.selection.copy(alloc)?,
            basis,
            tolerance: self.tolerance,
            slack: self.slack,
        })
    }

    /// The rows in use, by place.
    pub fn rows(&self) -> &[RowId]
        ensures { result.now ≡ self.now.rows }
    {
        &self.selection.rows
    }

    /// The columns in use.
    pub fn columns(&self) -> &[ColumnId]
        ensures { result.now ≡ self.now.columns }
    {
        &self.selection.columns
    }

    /// Puts a row of the store in use, with the bounds that the store has for it, and answers whether it did. It does
    /// not if the row is in use, or if 700 are. The surplus of the row becomes basic: its activity is below 0 if the
    /// activities do not give what the row demands. It takes time in proportion to the square of the rows in use.
    pub fn use_row(&mut self, alloc: Global, store: &Store, row: RowId) -> Result<bool, Memory>
        ensures ok { IfOk result (λ used. IsRowOffered row used self.old self.new) }
        ensures err { OnErr result (self.new ≡ self.old) }
    {
        let full = self.selection.rows.len() >= MOST_ROWS;
        if full || self.selection.place_of(row).is_some() {
            return Ok(false);
        }
        use_row(alloc, store, &mut self.selection, &mut self.basis, row)?;
        Ok(true)
    }

    /// Takes the row at a place out of use if one of its units is basic, and answers whether it did. Rows behind it
    /// move up. It takes time in proportion to the square of the rows in use.
    pub fn drop_row(&mut self, place: usize) -> bool
        ensures { IsRowTaken place result self.old self.new }
    {
        if place >= self.selection.rows.len() {
            return false;
        }
        drop_row(&mut self.selection, &mut self.basis, place)
    }

    /// Puts a column in use, and answers whether it did. It does not if the column is in use.
    pub fn use_column(&mut self, column: ColumnId) -> Result<bool, Memory>
        ensures ok { IfOk result (λ used. IsColumnOffered column used self.old self.new) }
        ensures err { OnErr result (self.new ≡ self.old) }
    {
        if self.selection.used[column.number()] {
            return Ok(false);
        }
        self.selection.columns.push(column)?;
        self.selection.used[column.number()] = true;
        Ok(true)
    }

    /// Keeps so many columns in use, those of least reduced cost. Basic ones stay always, and so do those numbered
    /// below `fixed`. It takes time in proportion to the entries of the columns in use.
    pub fn forget_columns(
        &mut self,
        alloc: Global,
        store: &Store,
        keep: usize,
        fixed: usize,
    ) -> Result<(), Memory>
        ensures { HasNoMoreColumns self.old self.new }
    {
        trimming::forget_columns(alloc, store, &mut self.selection, &self.basis, keep, fixed)
    }

    /// Sets the range of the multiplier of a row, in units of cost, each at most 2^61 from 0.
    pub fn set_bounds(&mut self, row: RowId, least: i64, most: i64)
        ensures rows { self.new.rows ≡ self.old.rows }
        ensures columns { self.new.columns ≡ self.old.columns }
        ensures forbidden { self.new.forbidden ≡ self.old.forbidden }
        ensures others { (k : ℕ) (d : Bounds) → ¬ (k ≡ row.number) → slice_index_or self.new.bounds k d ≡ slice_index_or self.old.bounds k d }
    {
        self.selection.bounds[row.number()] = Bounds {
            least: Amount::of(least),
            most: Amount::of(most),
        };
    }

    /// The range of the multiplier of a row: that of the store if the row came in use, unless it was set since. It is
    /// 0 at both ends for a row that never did.
    pub fn range(&self, row: RowId) -> Range
        ensures least { (d : Bounds) → result.least ≡ (slice_index_or self.now.bounds row.number d).least.value }
        ensures most { (d : Bounds) → result.most ≡ (slice_index_or self.now.bounds row.number d).most.value }
        ensures small { (unsigned_abs result.least ≤ 2 ^ 61) × (unsigned_abs result.most ≤ 2 ^ 61) }
    {
        let bounds = &self.selection.bounds[row.number()];
        Range {
            least: bounds.least.value(),
            most: bounds.most.value(),
        }
    }

    /// Forbids a column here. It does not enter the basis any more, and the basis gives it up.
    pub fn forbid(&mut self, column: ColumnId)
        ensures rows { self.new.rows ≡ self.old.rows }
        ensures columns { self.new.columns ≡ self.old.columns }
        ensures bounds { self.new.bounds ≡ self.old.bounds }
        ensures forbidden { self.new.forbidden ≡ slice_set self.old.forbidden column.number true }
    {
        self.selection.forbidden[column.number()] = true;
    }

    /// Sets by how much a reduced cost has to be below 0 for its variable to enter, in units of cost, at most 2^60. It
    /// is 16 at first.
    pub fn set_tolerance(&mut self, tolerance: u64)
        ensures { self.new ≡ self.old }
    {
        self.tolerance = Amount::of(tolerance.min(MOST_TOLERANCE) as i64);
    }

    /// Sets by how much a reduced cost may fall below 0 in the dual method for the sake of a greater pivot, in units of
    /// cost, at most 2^60. It is 0 at first, and then pivots are not looked at twice.
    pub fn set_slack(&mut self, slack: u64)
        ensures { self.new ≡ self.old }
    {
        self.slack = slack.min(MOST_TOLERANCE) as i64;
    }

    /// Goes from basis to basis: by the dual method if rows are new, which is taken back if it does not end before its
    /// cap, and then by the primal one. If the activities then give some row 2^-10 more or less than its right side, the
    /// inverse is built anew, and the primal method goes on, with the same cap. It answers whether the primal method
    /// ended before its cap. A step takes time in proportion to the square of the rows in use and to the entries of the
    /// columns in use, and every so many steps the inverse is built anew, in time in proportion to the cube of the rows
    /// in use.
    pub fn solve(
        &mut self,
        alloc: Global,
        store: &Store,
        after_new_rows: bool,
        caps: &Caps,
    ) -> Result<bool, Memory>
        ensures { self.new ≡ self.old }
    {
        solve(
            alloc,
            store,
            &mut self.selection,
            &mut self.basis,
            self.tolerance,
            self.slack,
            after_new_rows,
            caps,
        )
    }

    /// Takes at most so many steps of the dual method, as after new rows, and answers the value that the multipliers
    /// come to then, as `value` does. Without a slack, and if the program was at its least cost before rows came and
    /// columns were forbidden, that is a lower estimate of the least cost with them. It does not go on to the primal
    /// method, so the activities may not fit. A step takes time as in `solve`.
    pub fn estimate(&mut self, alloc: Global, store: &Store, steps: u32) -> Result<i64, Memory>
        ensures same { self.new ≡ self.old }
        ensures small { IfOk result (λ value. unsigned_abs value ≤ 2 ^ 61) }
    {
        solving::estimate(
            alloc,
            store,
            &mut self.selection,
            &mut self.basis,
            self.slack,
            &Caps {
                dual: steps,
                primal: 0,
                work: u64::MAX,
            },
        )?;
        Ok(self.value(store))
    }

    /// Begins anew from a basis, by place, that another program with the same rows in use had. A column that does not
    /// fit into it is left out.
    pub fn start_from(
        &mut self,
        alloc: Global,
        store: &Store,
        variables: &[Variable],
    ) -> Result<(), Memory>
        ensures { self.new ≡ self.old }
    {
        start_from(alloc, store, &self.selection, &mut self.basis, variables)
    }

    /// The multiplier of a row, in units of cost: 0 if the row is not in use.
    pub fn multiplier(&self, row: RowId) -> i64
        ensures { unsigned_abs result ≤ 2 ^ 61 }
    {
        self.basis.multipliers[row.number()].value()
    }

    /// The reduced cost of a column of the store, in units of cost.
    pub fn reduced_cost(&self, store: &Store, column: ColumnId) -> i64
        ensures { unsigned_abs result ≤ 2 ^ 61 }
    {
        let multipliers = &self.basis.multipliers;
        column_reduced_cost(store, &self.selection, multipliers, column).value()
    }

    /// The variable at a place of the basis with its activity, or `None` if no row has that place.
    pub fn basic(&self, place: usize) -> Option<Basic>
        ensures there { IsTrue (is_some result) ↔ place < length self.now.rows }
        ensures small { IfSome result (λ basic. unsigned_abs basic.activity ≤ 2 ^ 61) }
    {
        if place < self.selection.rows.len() {
            Some(Basic {
                variable: self.basis.variables[place],
                activity: self.basis.activities[place].value(),
            })
        } else {
            None
        }
    }

    /// What the multipliers of the rows in use give for their right sides, in units of cost. At the least cost it is
    /// that cost, except for rounding.
    pub fn value(&self, store: &Store) -> i64
        ensures { unsigned_abs result ≤ 2 ^ 61 }
    {
        value_of(store, &self.selection.rows, &self.basis.multipliers).value()
    }

    /// How many pivots there were so far. No clause speaks of it.
    pub fn pivots(&self) -> u64 {
        self.basis.pivots
    }

    /// How many entries were touched so far. No clause speaks of it.
    pub fn work(&self) -> u64 {
        self.basis.work
    }
}

// A multiplier times the right side of its row.
fn share_of(store: &Store, multipliers: &[Amount], row: RowId) -> Amount
    requires { length multipliers.now ≡ store_row_limit }
{
    let multiplier = multipliers[row.number()].value();
    Amount::clamped(product(multiplier, store.right_side(row)))
}

// The sum of the multipliers times the right sides.
fn value_of(store: &Store, rows: &[RowId], multipliers: &[Amount]) -> Amount
    requires { length multipliers.now ≡ store_row_limit }
{
    let mut sum: i64 = 0;
    for row in rows {
        let share = share_of(store, multipliers, *row);
        sum = Amount::of(sum).plus(share).value();
    }
    Amount::of(sum)
}
