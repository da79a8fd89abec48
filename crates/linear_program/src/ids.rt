// Numbers of rows and columns of a store.
ghost use Rattle.std.specs.Prelude.{◌≡◌, ◌<◌, ◌↔◌, IfSome, IsTrue, is_some};
ghost use Rattle.linear_program.specs.Limits.{store_column_limit, store_row_limit};

/// How many rows a store has room for.
pub(crate) const ROWS: usize = 4000;

/// How many columns a store has room for.
pub(crate) const COLUMNS: usize = 64_000;

/// A row of a store, numbered from 0.
#[derive(Clone, Copy, PartialEq, Eq)]
pub struct RowId {
    number: u32,
    ghost in_range: { number < store_row_limit },
}

/// A column of a store, numbered from 0.
#[derive(Clone, Copy, PartialEq, Eq)]
pub struct ColumnId {
    number: u32,
    ghost in_range: { number < store_column_limit },
}

impl RowId {
    pub(crate) const FIRST: RowId = RowId { number: 0 };

    /// The row of a number, or `None` if it is 4,000 or more.
    pub fn new(number: usize) -> Option<RowId>
        ensures there { IsTrue (is_some result) ↔ number < store_row_limit }
        ensures same { IfSome result (λ row. row.number ≡ number) }
    {
        if number < ROWS {
            Some(RowId {
                number: number as u32,
            })
        } else {
            None
        }
    }

    /// The number of the row.
    pub fn number(self) -> usize
        ensures small { result < store_row_limit }
        ensures same { result ≡ self.number }
    {
        self.number as usize
    }
}

impl ColumnId {
    pub(crate) const FIRST: ColumnId = ColumnId { number: 0 };

    /// The column of a number, or `None` if it is 64,000 or more.
    pub fn new(number: usize) -> Option<ColumnId>
        ensures there { IsTrue (is_some result) ↔ number < store_column_limit }
        ensures same { IfSome result (λ column. column.number ≡ number) }
    {
        if number < COLUMNS {
            Some(ColumnId {
                number: number as u32,
            })
        } else {
            None
        }
    }

    /// The number of the column.
    pub fn number(self) -> usize
        ensures small { result < store_column_limit }
        ensures same { result ≡ self.number }
    {
        self.number as usize
    }
}
