// The store of rows and columns that many programs share.
ghost use Rattle.std.specs.Prelude.{◌≡◌, ◌≤◌, ◌^◌, [], IfOk, IfSome, OnErr, length, take};
ghost use Rattle.std.specs.Int.RustNames.{unsigned_abs};

use crate::fixed::{Amount, ONE};
use crate::ids::{COLUMNS, ColumnId, ROWS, RowId};
use carp_base::Memory;
use std::alloc::Global;
use std::marker::Model;

// The greatest cost and the greatest bound of a multiplier.
const MOST_COST: u64 = 1 << 55;

// The greatest right side.
const MOST_RIGHT_SIDE: u64 = 1 << 16;

// The greatest coefficient.
const MOST_COEFFICIENT: u32 = 1 << 15;

// What the coefficients of a column sum to at most, without their signs.
const MOST_WEIGHT: u32 = 1 << 20;

/// What a row demands, and the range of its multiplier.
#[derive(Clone, Copy)]
pub struct RowBounds {
    /// The sum over the row is at least this, and it is this unless the multiplier is at its least.
    pub right_side: i64,
    /// The least multiplier, in units of cost.
    pub least: i64,
    /// The greatest multiplier, in units of cost.
    pub most: i64,
}

/// A coefficient of a column in a row.
#[derive(Clone, Copy)]
pub struct Entry {
    row: RowId,
    coefficient: i32,
    ghost small: { unsigned_abs coefficient ≤ 2 ^ 15 },
}

/// A column with its entries, rows rising.
#[derive(Drop)]
pub(crate) struct Column {
    pub cost: Amount,
    /// What the coefficients sum to, without their signs.
    pub weight: u32,
    pub entries: Vec<Entry>,
}

/// Rows and columns that many programs share. Contracts see the list of rows and that of columns.
#[derive(Drop)]
pub struct Store {
    forbidden_cost: Amount,
    rows: Vec<RowBounds>,
    columns: Vec<Column>,
}

impl Model for Store {
    ghost use Rattle.linear_program.specs.Stores.{Contents};

    ghost Value = { Contents };

    ghost view = { λ s. record { rows = s.rows.items; columns = s.columns.items } };
}

impl Entry {
    /// A coefficient in a row, or `None` if it is more than 2^15 from 0.
    pub fn new(row: RowId, coefficient: i32) -> Option<Entry>
        ensures { IfSome result (λ entry. (entry.row ≡ row) × (entry.coefficient ≡ coefficient)) }
    {
        if coefficient.unsigned_abs() <= MOST_COEFFICIENT {
            Some(Entry { row, coefficient })
        } else {
            None
        }
    }

    /// The row.
    pub fn row(self) -> RowId
        ensures { result ≡ self.row }
    {
        self.row
    }

    /// The coefficient.
    pub fn coefficient(self) -> i32
        ensures { result ≡ self.coefficient }
    {
        self.coefficient
    }

    /// The coefficient in 64 bits.
    pub(crate) fn wide(self) -> i64
        ensures { unsigned_abs result ≤ 2 ^ 15 }
    {
        i64::from(self.coefficient)
    }
}

impl RowBounds {
    // Whether all numbers are within the limits.
    fn are_small(&self) -> bool {
        self.right_side.unsigned_abs() <= MOST_RIGHT_SIDE
            && self.least.unsigned_abs() <= MOST_COST
            && self.most.unsigned_abs() <= MOST_COST
    }
}

// What the coefficients sum to, without their signs, or the greatest number.
fn weight_of(entries: &[Entry]) -> u32 {
    let mut weight: u32 = 0;
    for entry in entries {
        weight = weight.saturating_add(entry.coefficient.unsigned_abs());
    }
    weight
}

// Whether the rows rise, and are among the first ones.
fn are_rising(entries: &[Entry], rows: usize) -> bool {
    let mut next = 0;
    for entry in entries {
        let row = entry.row.number();
        if row < next || row >= rows {
            return false;
        }
        next = row + 1;
    }
    true
}

impl Column {
    // Whether the column has room for one more coefficient.
    fn takes(&self, coefficient: i32) -> bool {
        let size = coefficient.unsigned_abs();
        size <= MOST_COEFFICIENT && self.weight.saturating_add(size) <= MOST_WEIGHT
    }

    // Adds a coefficient if it is not 0.
    fn add(&mut self, row: RowId, coefficient: i32) -> Result<(), Memory> {
        if coefficient == 0 {
            return Ok(());
        }
        if let Some(entry) = Entry::new(row, coefficient) {
            self.entries.push(entry)?;
            self.weight = self.weight.saturating_add(coefficient.unsigned_abs());
        }
        Ok(())
    }

    // Takes out the entries of rows from a number on.
    fn forget(&mut self, rows: usize) {
        let keep = self
            .entries
            .iter()
            .filter(|entry| entry.row.number() < rows)
            .count();
        self.entries.truncate(keep);
        self.weight = weight_of(&self.entries);
    }
}

// Whether each column has room for its coefficient.
fn all_take(columns: &[Column], coefficients: &[i32]) -> bool {
    for (column, coefficient) in columns.iter().zip(coefficients) {
        if !column.takes(*coefficient) {
            return false;
        }
    }
    true
}

// Adds the coefficients of a row to the columns.
fn add_all(columns: &mut [Column], row: RowId, coefficients: &[i32]) -> Result<(), Memory> {
    for (column, coefficient) in columns.iter_mut().zip(coefficients) {
        column.add(row, *coefficient)?;
    }
    Ok(())
}

// Takes out the entries of rows from a number on.
fn forget_all(columns: &mut [Column], rows: usize) {
    for column in columns.iter_mut() {
        column.forget(rows);
    }
}

impl Store {
    ghost use Rattle.linear_program.specs.Stores.{HasColumnAdded, HasRowAdded};

    /// A store with no row and no column. The basis of a program gives up a forbidden column as if it cost so much
    /// more, at most 2^55.
    pub fn new(alloc: Global, forbidden_cost: u64) -> Store
        ensures rows { result.rows ≡ [] }
        ensures columns { result.columns ≡ [] }
    {
        Store {
            forbidden_cost: Amount::of(forbidden_cost.min(MOST_COST) as i64),
            rows: Vec::new(alloc),
            columns: Vec::new(alloc),
        }
    }

    /// How many rows there are.
    pub fn row_count(&self) -> usize
        ensures { result ≡ length self.now.rows }
    {
        self.rows.len()
    }

    /// How many columns there are.
    pub fn column_count(&self) -> usize
        ensures { result ≡ length self.now.columns }
    {
        self.columns.len()
    }

    /// Adds a row with a coefficient for each column, and answers its number. It answers `None` and leaves all as it
    /// was if there is not one coefficient for each column, or if a limit would be passed: 4,000 rows, 2^16 for the
    /// right side, 2^55 for the multipliers, 2^15 for a coefficient and 2^20 for the coefficients of a column, without
    /// their signs.
    ///
    /// It takes time in proportion to the number of columns.
    pub fn add_row(
        &mut self,
        bounds: RowBounds,
        coefficients: &[i32],
    ) -> Result<Option<RowId>, Memory>
        ensures ok { IfOk result (λ row. HasRowAdded self.old bounds row self.new) }
        ensures err { OnErr result (self.new.rows ≡ self.old.rows) }
    {
        let Some(row) = RowId::new(self.rows.len()) else {
            return Ok(None);
        };
        let fits = bounds.are_small()
            && coefficients.len() == self.columns.len()
            && all_take(&self.columns, coefficients);
        if !fits {
            return Ok(None);
        }
        if add_all(&mut self.columns, row, coefficients).is_err() {
            forget_all(&mut self.columns, row.number());
            return Err(Memory);
        }
        if self.rows.push(bounds).is_err() {
            forget_all(&mut self.columns, row.number());
            return Err(Memory);
        }
        Ok(Some(row))
    }

    /// Adds a column, and answers its number. It answers `None` and leaves all as it was if the rows of the entries do
    /// not rise, if one of them is not there, or if a limit would be passed: 64,000 columns, 2^55 for the cost, and
    /// 2^20 for the coefficients, without their signs.
    pub fn add_column(&mut self, cost: i64, entries: Vec<Entry>) -> Result<Option<ColumnId>, Memory>
        ensures ok { IfOk result (λ column. HasColumnAdded self.old column self.new) }
        ensures err { OnErr result (self.new ≡ self.old) }
    {
        let Some(column) = ColumnId::new(self.columns.len()) else {
            return Ok(None);
        };
        let weight = weight_of(&entries);
        let fits = cost.unsigned_abs() <= MOST_COST
            && weight <= MOST_WEIGHT
            && are_rising(&entries, self.rows.len());
        if !fits {
            return Ok(None);
        }
        self.columns.push(Column {
            cost: Amount::of(cost),
            weight,
            entries,
        })?;
        Ok(Some(column))
    }

    /// Takes out the rows from a number on, with their entries. No program may have one of them in use.
    pub fn forget_rows(&mut self, count: usize)
        ensures rows { self.new.rows ≡ take count self.old.rows }
        ensures columns { length self.new.columns ≡ length self.old.columns }
    {
        self.rows.truncate(count);
        forget_all(&mut self.columns, count);
    }

    /// The cost of a column in a basis that is to give it up.
    pub(crate) fn forbidden_cost(&self) -> Amount {
        self.forbidden_cost
    }

    /// The column, if it is there.
    pub(crate) fn column(&self, column: ColumnId) -> Option<&Column> {
        self.columns.get(column.number())
    }

    /// What a row demands, if it is there.
    pub(crate) fn row(&self, row: RowId) -> Option<&RowBounds> {
        self.rows.get(row.number())
    }

    /// The entries of a column, rows rising, or none if it is not there.
    pub fn entries(&self, column: ColumnId) -> &[Entry] {
        match self.columns.get(column.number()) {
            Some(column) => &column.entries,
            None => &[],
        }
    }

    /// The right side of a row in fixed point, with a noise of at most 2^-12 away from 0, so that no two rows are
    /// alike.
    pub(crate) fn noisy_right_side(&self, row: RowId) -> Amount {
        let side = self.right_side(row).saturating_mul(ONE);
        let noise = noise(row.number() as u64);
        let noisy = if side > 0 {
            side.saturating_add(noise)
        } else {
            side.saturating_sub(noise)
        };
        Amount::of(noisy)
    }

    /// The right side of a row, or 0 if it is not there.
    pub(crate) fn right_side(&self, row: RowId) -> i64 {
        self.row(row).map_or(0, |bounds| bounds.right_side)
    }
}

// A number below 2^28 that looks drawn.
fn noise(number: u64) -> i64 {
    let mixed = number.wrapping_add(1).wrapping_mul(0x9E37_79B9_7F4A_7C15);
    let mixed = (mixed ^ (mixed >> 29)).wrapping_mul(0xBF58_476D_1CE4_E5B9);
    let mixed = mixed ^ (mixed >> 32);
    ((mixed % 4096) << 16) as i64
}
