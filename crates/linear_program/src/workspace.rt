// Lists that the steps work in, so that they need no memory of their own.
ghost use Rattle.std.specs.Prelude.{◌≡◌, ◌<◌, length};
ghost use Rattle.linear_program.specs.Limits.{program_row_limit, store_column_limit, store_row_limit};

use crate::fixed::{Amount, Fraction};
use crate::ids::{COLUMNS, ColumnId, ROWS, RowId};
use crate::selection::{MOST_ROWS, Variable};
use crate::shortlist::Shortlist;
use carp_base::Memory;
use std::alloc::Global;

// How many columns are kept in a list of the least reduced costs.
const LISTED: usize = 50;

// How many variables are looked at for a step.
const LOOKED_AT: usize = 6;

/// A basis place and an entry of the column that enters, which is not 0.
#[derive(Clone, Copy)]
pub(crate) struct Term {
    pub place: usize,
    pub factor: Fraction,
    ghost in_range: { place < program_row_limit },
}

impl Term {
    /// The term of a place.
    pub(crate) fn new(place: usize, factor: Fraction) -> Term
        requires { place < program_row_limit }
    {
        Term { place, factor }
    }
}

/// A column of a basis, and how many entries it has.
#[derive(Clone, Copy)]
pub(crate) struct Rank {
    pub length: usize,
    pub column: ColumnId,
}

/// Variables that are not to enter for now.
#[derive(Drop)]
pub(crate) struct Resting {
    /// Whether each column of the store rests.
    columns: Vec<bool>,
    /// Whether the surplus of each row of the store rests.
    surpluses: Vec<bool>,
    /// Whether the penalty of each row of the store rests.
    penalties: Vec<bool>,
    ghost columns_long: { length columns.items ≡ store_column_limit },
    ghost surpluses_long: { length surpluses.items ≡ store_row_limit },
    ghost penalties_long: { length penalties.items ≡ store_row_limit },
}

/// Lists of a fixed length.
#[derive(Drop)]
pub(crate) struct Workspace {
    /// Sums of lines of the inverse.
    pub sums: Vec<i64>,
    /// The column that is to enter, through the inverse, by basis place.
    pub direction: Vec<Fraction>,
    /// Another column that is looked at.
    pub trial: Vec<Fraction>,
    /// The entries of the direction that are not 0.
    pub terms: Vec<Term>,
    /// The costs of the basis.
    pub costs: Vec<Amount>,
    /// The entries of a basis place, by row of the store.
    pub line: Vec<Amount>,
    /// The variables of a basis that is being built.
    pub units: Vec<Variable>,
    /// Whether a row place has its variable in a basis that is being built.
    pub placed: Vec<bool>,
    /// The columns of a basis that is being built.
    pub ranks: Vec<Rank>,
    /// Columns of little reduced cost.
    pub list: Shortlist,
    /// The variables that are looked at for the next step.
    pub front: Shortlist,
    pub resting: Resting,
    ghost sums_long: { length sums.items ≡ program_row_limit },
    ghost direction_long: { length direction.items ≡ program_row_limit },
    ghost trial_long: { length trial.items ≡ program_row_limit },
    ghost terms_long: { length terms.items ≡ program_row_limit },
    ghost costs_long: { length costs.items ≡ program_row_limit },
    ghost line_long: { length line.items ≡ store_row_limit },
    ghost units_long: { length units.items ≡ program_row_limit },
    ghost placed_long: { length placed.items ≡ program_row_limit },
    ghost ranks_long: { length ranks.items ≡ program_row_limit },
}

impl Workspace {
    /// Lists of zeros.
    pub(crate) fn new(alloc: Global) -> Result<Workspace, Memory> {
        let term = Term::new(0, Fraction::ZERO);
        let none = Variable::Surplus(RowId::FIRST);
        let rank = Rank {
            length: 0,
            column: ColumnId::FIRST,
        };
        Ok(Workspace {
            sums: vec![in alloc; 0; MOST_ROWS]?,
            direction: vec![in alloc; Fraction::ZERO; MOST_ROWS]?,
            trial: vec![in alloc; Fraction::ZERO; MOST_ROWS]?,
            terms: vec![in alloc; term; MOST_ROWS]?,
            costs: vec![in alloc; Amount::ZERO; MOST_ROWS]?,
            line: vec![in alloc; Amount::ZERO; ROWS]?,
            units: vec![in alloc; none; MOST_ROWS]?,
            placed: vec![in alloc; false; MOST_ROWS]?,
            ranks: vec![in alloc; rank; MOST_ROWS]?,
            list: Shortlist::new(alloc, LISTED)?,
            front: Shortlist::new(alloc, LOOKED_AT)?,
            resting: Resting::new(alloc)?,
        })
    }
}

impl Resting {
    /// No variable rests.
    pub(crate) fn new(alloc: Global) -> Result<Resting, Memory> {
        Ok(Resting {
            columns: vec![in alloc; false; COLUMNS]?,
            surpluses: vec![in alloc; false; ROWS]?,
            penalties: vec![in alloc; false; ROWS]?,
        })
    }

    /// Whether a variable rests.
    pub(crate) fn has(&self, variable: Variable) -> bool {
        match variable {
            Variable::Column(column) => self.columns[column.number()],
            Variable::Surplus(row) => self.surpluses[row.number()],
            Variable::Penalty(row) => self.penalties[row.number()],
        }
    }

    /// Lets a variable rest.
    pub(crate) fn add(&mut self, variable: Variable) {
        match variable {
            Variable::Column(column) => self.columns[column.number()] = true,
            Variable::Surplus(row) => self.surpluses[row.number()] = true,
            Variable::Penalty(row) => self.penalties[row.number()] = true,
        }
    }

    /// No variable rests any more.
    pub(crate) fn clear(&mut self) {
        self.columns.fill(false);
        self.surpluses.fill(false);
        self.penalties.fill(false);
    }
}
