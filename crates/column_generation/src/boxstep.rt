// The box around the best point in which a program looks for prices (the boxstep method: Marsten, Hogan and
// Blankenship 1975).
ghost use Rattle.carp_base.specs.Problem.{IsRequired};

use carp_base::Instance;
use linear_program::{Basic, Program, RowId, Variable};
use price_points::{Point, UNIT, clamped, number_at, service_cost};

// After so many points that gained little the box is halved.
const MOST_NULLS: u32 = 15;

// The box is doubled so often at most between two searches.
const MOST_DOUBLINGS: u32 = 12;

// A unit of a service's row above a thousandth counts, in parts of 2^40.
const LEAST_ACTIVITY: i64 = 1 << 30;

/// How far prices may be from those of the best point.
#[derive(Clone, Copy)]
pub(crate) struct BoxSize {
    width: i64,
    least: i64,
    most: i64,
    nulls: u32,
    doublings: u32,
}

impl BoxSize {
    /// The first size, by the mean cost of an edge.
    pub(crate) fn new(mean: u64) -> BoxSize {
        let width = mean.saturating_mul(UNIT).min(1 << 50) as i64;
        BoxSize {
            width,
            least: (UNIT / 100) as i64,
            most: width.saturating_mul(64),
            nulls: 0,
            doublings: 0,
        }
    }

    /// Doubles the size, unless that was done 12 times since the last search. Answers whether it did.
    pub(crate) fn doubled(&mut self) -> bool {
        if self.doublings >= MOST_DOUBLINGS {
            return false;
        }
        self.doublings = self.doublings.saturating_add(1);
        self.width = self.width.saturating_mul(2).min(self.most);
        true
    }

    /// Notes that a search comes.
    pub(crate) fn rest(&mut self) {
        self.doublings = 0;
    }

    /// Takes whether a point gained much, and answers whether the box is to be placed anew.
    pub(crate) fn take(&mut self, gained: bool) -> bool {
        if gained {
            self.nulls = 0;
            return true;
        }
        self.nulls = self.nulls.saturating_add(1);
        if self.nulls < MOST_NULLS {
            return false;
        }
        self.nulls = 0;
        self.width = (self.width / 2).max(self.least);
        true
    }

    /// Places the box around the prices of a point.
    pub(crate) fn place(self, inst: &Instance, center: &Point, program: &mut Program) {
        inst.validity();
        for place in 0..inst.required() {
            self.place_row(inst, center, program, place + 1);
        }
    }

    // The range of the multiplier of a service.
    fn place_row(self, inst: &Instance, center: &Point, program: &mut Program, e: u32)
        requires { IsRequired inst.now e }
    {
        let place = e as usize - 1;
        if let Some(row) = RowId::new(place) {
            let price = i128::from(number_at(&center.prices, place));
            let multiplier = clamped(price.saturating_sub(service_cost(inst, e)));
            program.set_bounds(
                row,
                multiplier.saturating_sub(self.width),
                multiplier.saturating_add(self.width),
            );
        }
    }
}

/// Whether the program's multipliers stand at the border of the box.
pub(crate) fn is_at_border(inst: &Instance, program: &Program) -> bool {
    for place in 0..program.rows().len() {
        if is_service_unit(inst, program.basic(place)) {
            return true;
        }
    }
    false
}

// Whether it is a unit of the row of a service, with an activity that counts.
fn is_service_unit(inst: &Instance, basic: Option<Basic>) -> bool {
    match basic {
        Some(basic) => LEAST_ACTIVITY < basic.activity && is_of_service(inst, basic.variable),
        None => false,
    }
}

// Whether the variable is a unit of the row of a service.
fn is_of_service(inst: &Instance, variable: Variable) -> bool {
    let services = inst.required() as usize;
    match variable {
        Variable::Surplus(row) => row.number() < services,
        Variable::Penalty(row) => row.number() < services,
        Variable::Column(_) => false,
    }
}
