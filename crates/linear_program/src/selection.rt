// What a program has in use: rows and columns of the store, and the bounds of its multipliers.
ghost use Rattle.std.specs.Prelude.{◌≡◌, ◌+◌, ◌<◌, ◌≤◌, [], IfOk, IfSome, OnOk, OnErr, length, true};
ghost use Rattle.linear_program.specs.Limits.{program_row_limit, store_column_limit, store_row_limit};

use crate::fixed::Amount;
use crate::ids::{COLUMNS, ColumnId, ROWS, RowId};
use crate::store::Store;
use carp_base::Memory;
use std::alloc::Global;

/// How many rows a program has room for.
pub(crate) const MOST_ROWS: usize = 700;

// The place of a row that is not in use.
const NOWHERE: u32 = u32::MAX;

/// A variable of a program.
#[derive(Clone, Copy, PartialEq, Eq)]
pub enum Variable {
    /// A column of the store.
    Column(ColumnId),
    /// What a row has above its right side, at the least multiplier.
    Surplus(RowId),
    /// What a row lacks below its right side, at the greatest multiplier.
    Penalty(RowId),
}

/// The range of a multiplier.
#[derive(Clone, Copy)]
pub(crate) struct Bounds {
    pub least: Amount,
    pub most: Amount,
}

/// Rows and columns in use.
#[derive(Drop)]
pub(crate) struct Selection {
    pub rows: Vec<RowId>,
    /// The place of each row of the store among those in use, or `NOWHERE`.
    pub places: Vec<u32>,
    /// The range of the multiplier of each row of the store.
    pub bounds: Vec<Bounds>,
    pub columns: Vec<ColumnId>,
    /// Whether each column of the store is in use.
    pub used: Vec<bool>,
    /// Whether each column of the store is forbidden.
    pub forbidden: Vec<bool>,
    /// Whether a forbidden column in the basis costs more.
    pub charged: bool,
    ghost few_rows: { length rows.items ≤ program_row_limit },
    ghost places_long: { length places.items ≡ store_row_limit },
    ghost bounds_long: { length bounds.items ≡ store_row_limit },
    ghost used_long: { length used.items ≡ store_column_limit },
    ghost forbidden_long: { length forbidden.items ≡ store_column_limit },
}

impl Selection {
    ghost use Rattle.linear_program.specs.Programs.{IsRowOffered, IsRowTaken};
    ghost use Rattle.linear_program.specs.Selections.{in_use};

    /// Nothing in use.
    pub(crate) fn new(alloc: Global) -> Result<Selection, Memory>
        ensures rows { IfOk result (λ s. s.rows.items ≡ []) }
        ensures columns { IfOk result (λ s. s.columns.items ≡ []) }
    {
        let zero = Bounds {
            least: Amount::ZERO,
            most: Amount::ZERO,
        };
        Ok(Selection {
            rows: Vec::new(alloc),
            places: vec![in alloc; NOWHERE; ROWS]?,
            bounds: vec![in alloc; zero; ROWS]?,
            columns: Vec::new(alloc),
            used: vec![in alloc; false; COLUMNS]?,
            forbidden: vec![in alloc; false; COLUMNS]?,
            charged: true,
        })
    }

    /// A copy.
    pub(crate) fn copy(&self, alloc: Global) -> Result<Selection, Memory>
        ensures { IfOk result (λ s. in_use s ≡ in_use self.now) }
    {
        Ok(Selection {
            rows: Vec::from_slice(alloc, &self.rows)?,
            places: Vec::from_slice(alloc, &self.places)?,
            bounds: Vec::from_slice(alloc, &self.bounds)?,
            columns: Vec::from_slice(alloc, &self.columns)?,
            used: Vec::from_slice(alloc, &self.used)?,
            forbidden: Vec::from_slice(alloc, &self.forbidden)?,
            charged: self.charged,
        })
    }

    /// The place of a row among those in use.
    pub(crate) fn place_of(&self, row: RowId) -> Option<usize>
        ensures { IfSome result (λ place. place < length self.now.rows.items) }
    {
        let place = self.places[row.number()] as usize;
        if place < self.rows.len() {
            Some(place)
        } else {
            None
        }
    }

    /// Puts a row in use, with the bounds that the store has for it.
    pub(crate) fn use_row(&mut self, store: &Store, row: RowId) -> Result<(), Memory>
        requires { length self.old.rows.items < program_row_limit }
        ensures ok { OnOk result (IsRowOffered row true (in_use self.old) (in_use self.new)) }
        ensures more { OnOk result (length self.new.rows.items ≡ length self.old.rows.items + 1) }
        ensures err { OnErr result (in_use self.new ≡ in_use self.old) }
    {
        let place = self.rows.len() as u32;
        self.rows.push(row)?;
        self.places[row.number()] = place;
        if let Some(bounds) = store.row(row) {
            self.bounds[row.number()] = Bounds {
                least: Amount::of(bounds.least),
                most: Amount::of(bounds.most),
            };
        }
        Ok(())
    }

    /// Takes a row out of use. Those behind it move up.
    pub(crate) fn drop_row(&mut self, place: usize)
        requires { place < length self.old.rows.items }
        ensures taken { IsRowTaken place true (in_use self.old) (in_use self.new) }
        ensures fewer { length self.new.rows.items + 1 ≡ length self.old.rows.items }
    {
        let row = self.rows.remove(place);
        self.places[row.number()] = NOWHERE;
        place_rows(&self.rows, &mut self.places);
    }
}

// Notes the place of each row.
fn place_rows(rows: &[RowId], places: &mut [u32])
    requires rows { length rows.now ≤ program_row_limit }
    requires places { length places.old ≡ store_row_limit }
{
    for place in 0..rows.len() {
        places[rows[place].number()] = place as u32;
    }
}
