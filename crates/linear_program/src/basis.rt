// The basis of a program with its inverse, its activities and its multipliers.
ghost use Rattle.std.specs.Prelude.{◌≡◌, ◌≤◌, IfOk, length};
ghost use Rattle.linear_program.specs.Bases.{IsBasis};

use crate::fixed::{Amount, Fraction, ONE};
use crate::ids::{COLUMNS, ROWS, RowId};
use crate::selection::{MOST_ROWS, Variable};
use carp_base::Memory;
use std::alloc::Global;

/// A basis of a program. The entry of row place k and basis place i of the inverse is at `k * MOST_ROWS + i`.
#[derive(Drop)]
pub(crate) struct Basis {
    /// The variable at each basis place. Places behind the last row have no meaning here, nor in the other lists.
    pub variables: Vec<Variable>,
    /// The activity at each basis place.
    pub activities: Vec<Amount>,
    /// The multiplier of each row of the store, 0 for rows that are not in use.
    pub multipliers: Vec<Amount>,
    pub inverse: Vec<Fraction>,
    /// Whether each column of the store is in the basis.
    pub basic: Vec<bool>,
    /// How many pivots there were since the inverse was built.
    pub age: u32,
    pub pivots: u64,
    /// How many entries were touched.
    pub work: u64,
}

// A copy of the first entries.
fn front(alloc: Global, entries: &[Fraction], count: usize) -> Result<Vec<Fraction>, Memory>
    requires { count ≤ length entries.now }
    ensures { IfOk result (λ copy. length copy.items ≡ count) }
{
    Ok(Vec::from_slice(alloc, &entries[..count])?)
}

/// A number of touched entries, and so many more.
pub(crate) fn more_work(work: u64, entries: usize) -> u64 {
    work.saturating_add(entries as u64)
}

impl Basis {
    /// The basis of no row.
    pub(crate) fn new(alloc: Global) -> Result<Basis, Memory>
        ensures { IfOk result (IsBasis 0) }
    {
        let none = Variable::Surplus(RowId::FIRST);
        Ok(Basis {
            variables: vec![in alloc; none; MOST_ROWS]?,
            activities: vec![in alloc; Amount::ZERO; MOST_ROWS]?,
            multipliers: vec![in alloc; Amount::ZERO; ROWS]?,
            inverse: Vec::new(alloc),
            basic: vec![in alloc; false; COLUMNS]?,
            age: 0,
            pivots: 0,
            work: 0,
        })
    }

    /// A copy, for so many rows.
    pub(crate) fn copy(&self, alloc: Global, rows: usize) -> Result<Basis, Memory>
        requires { IsBasis rows self.now }
        ensures { IfOk result (IsBasis rows) }
    {
        Ok(Basis {
            variables: Vec::from_slice(alloc, &self.variables)?,
            activities: Vec::from_slice(alloc, &self.activities)?,
            multipliers: Vec::from_slice(alloc, &self.multipliers)?,
            inverse: front(alloc, &self.inverse, rows * MOST_ROWS)?,
            basic: Vec::from_slice(alloc, &self.basic)?,
            age: self.age,
            pivots: self.pivots,
            work: self.work,
        })
    }

    /// Whether no activity of the first places is below 0 by more than 2^-8.
    pub(crate) fn fits(&self, rows: usize) -> bool
        requires { IsBasis rows self.now }
    {
        self.activities[..rows]
            .iter()
            .all(|activity| activity.value() >= -(ONE >> 8))
    }
}
