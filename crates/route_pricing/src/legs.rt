// The legs to tasks on edges with surcharges, in 64 bits.
ghost use Rattle.std.specs.Prelude.{◌≡◌, ◌*◌, ◌<◌, length};
ghost use Rattle.route_pricing.specs.Partial.{IsGrid, IsSuccessor, column_task, width};
ghost use Rattle.route_pricing.specs.Legs.{AreLegs, IsCapped, IsLegRow, IsShortLeg, KeepsRows, legs_written};

use crate::charging::Charge;
use crate::grid::Grid;
use crate::joining::Successor;

// What stands in 64 bits for each number that is no less: two of them together fit.
pub(crate) const FAR: u64 = 4_611_686_018_427_387_904;

// A number in 64 bits.
pub(crate) fn capped(number: u128) -> u64
    ensures { IsCapped number result }
{
    if number < u128::from(FAR) {
        number as u64
    } else {
        FAR
    }
}

impl Grid {
    // The leg from the task of a column, if it may precede.
    fn short_leg(&self, next: &Successor, before: usize) -> u64
        requires grid { IsGrid self.now }
        requires next { IsSuccessor self.now next.now }
        requires before { before < width self.now }
        ensures { IsShortLeg self.now (column_task before) (column_task next.now.column) result }
    {
        if !self.may_precede(next, before) {
            return FAR;
        }
        capped(self.leg_above(next, before) + next.charge.least_raised())
    }

    // Writes the legs to the tasks on edges with surcharges, a row for each column. Other rows stay.
    pub(crate) fn write_legs(&self, legs: &mut [u64])
        requires grid { IsGrid self.now }
        requires long { length legs.old ≡ width self.now * width self.now }
        ensures long { length legs.new ≡ width self.now * width self.now }
        ensures legs { AreLegs self.now legs.new }
    {
        for column in 0..self.width() {
            self.write_legs_to(legs, column);
        }
    }

    fn write_legs_to(&self, legs: &mut [u64], column: usize)
        requires grid { IsGrid self.now }
        requires long { length legs.old ≡ width self.now * width self.now }
        requires column { column < width self.now }
        ensures long { length legs.new ≡ width self.now * width self.now }
        ensures row { legs_written self.now column legs.new }
        ensures others { KeepsRows self.now column legs.old legs.new }
    {
        match self.charge(column) {
            Charge::Free => {}
            Charge::Charged | Charge::Gained => self.write_leg_row(legs, column),
        }
    }

    fn write_leg_row(&self, legs: &mut [u64], column: usize)
        requires grid { IsGrid self.now }
        requires long { length legs.old ≡ width self.now * width self.now }
        requires column { column < width self.now }
        ensures long { length legs.new ≡ width self.now * width self.now }
        ensures row { IsLegRow self.now column (width self.now) legs.new }
        ensures others { KeepsRows self.now column legs.old legs.new }
    {
        let next = self.successor(0, column);
        let row = column * self.width();
        for before in 0..self.width() {
            legs[row + before] = self.short_leg(&next, before);
        }
    }
}
