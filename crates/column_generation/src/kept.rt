// Where a program and its best point stand, as far as it is worth keeping.

use crate::boxstep::BoxSize;
use crate::generation::Generation;
use carp_base::{Instance, Memory};
use linear_program::{ColumnId, Program, Range, RowId, Variable};
use price_points::Point;
use std::alloc::Global;

/// What is kept of a generation. It takes some 40,000 bytes for 250 rows.
#[derive(Drop)]
pub struct Kept {
    /// The rows in use, by place, and the basis.
    pub(crate) rows: Vec<RowId>,
    pub(crate) basis: Vec<Variable>,
    /// The columns in use.
    pub(crate) columns: Vec<ColumnId>,
    /// The ranges of the multipliers of the services.
    pub(crate) ranges: Vec<Range>,
    pub(crate) box_size: BoxSize,
    /// The best point.
    pub(crate) point: Point,
}

impl Generation {
    /// What is kept of it. The only error is want of memory.
    pub fn kept(&self, alloc: Global, inst: &Instance) -> Result<Kept, Memory> {
        Ok(Kept {
            rows: Vec::from_slice(alloc, self.program.rows())?,
            basis: basis_of(alloc, &self.program)?,
            columns: Vec::from_slice(alloc, self.program.columns())?,
            ranges: ranges_of(alloc, inst, &self.program)?,
            box_size: self.box_size,
            point: self.best.copy(alloc)?,
        })
    }
}

// The basis of a program, by place.
fn basis_of(alloc: Global, program: &Program) -> Result<Vec<Variable>, Memory> {
    let mut basis = Vec::with_capacity(alloc, program.rows().len())?;
    for place in 0..program.rows().len() {
        if let Some(basic) = program.basic(place) {
            basis.push(basic.variable)?;
        }
    }
    Ok(basis)
}

fn ranges_of(alloc: Global, inst: &Instance, program: &Program) -> Result<Vec<Range>, Memory> {
    let mut ranges = Vec::with_capacity(alloc, inst.required() as usize)?;
    for number in 0..inst.required() {
        if let Some(row) = RowId::new(number as usize) {
            ranges.push(program.range(row))?;
        }
    }
    Ok(ranges)
}
