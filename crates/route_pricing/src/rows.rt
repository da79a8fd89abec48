// The values of one load in 64 bits, and the least of the partial tours that a task may follow, found by them.
ghost use Rattle.std.specs.Prelude.{◌≡◌, ℕ, ◌+◌, ◌*◌, ◌<◌, ◌≤◌, false, length, slice_index};
ghost use Rattle.carp_base.specs.Problem.{IsRequired};
ghost use Rattle.route_pricing.specs.declared.charging.Charge.TheVariants.{Free};
ghost use Rattle.route_pricing.specs.Partial.{AreFilled, IsGrid, IsLeastJoin, cell_place, charge_at, column_task, width};
ghost use Rattle.route_pricing.specs.Rooms.{AreRooms};
ghost use Rattle.route_pricing.specs.Legs.{IsLegRow, IsShortRow, IsShortValue, IsSum, far};

use crate::charging::Charge;
use crate::grid::{Grid, UNREACHED};
use crate::legs::{FAR, capped};
use crate::rooms::Rooms;

// How far a value is above the least of its load, or `FAR` if there is none.
fn short_value(value: u128, least: u128) -> u64
    requires { least ≤ value }
    ensures { IsShortValue value least result }
{
    if value == UNREACHED {
        FAR
    } else {
        capped(value - least)
    }
}

// The least sum of a number of the row and that of the same column from a place on, or `FAR`.
fn least_sum(row: &[u64], legs: &[u64], from: usize) -> u64
    requires within { from + length row.now ≤ length legs.now }
    requires row { (b : ℕ) → b < length row.now → slice_index row.now b ≤ far }
    requires legs { (b : ℕ) → b < length row.now → slice_index legs.now (from + b) ≤ far }
    ensures attained { result < far → IsSum row.now legs.now from result }
    ensures least { (b : ℕ) → b < length row.now → result ≤ slice_index row.now b + slice_index legs.now (from + b) }
{
    let mut best = FAR;
    for before in 0..row.len() {
        let sum = row[before] + legs[from + before];
        best = best.min(sum);
    }
    best
}

impl Grid {
    // Whether some edge has a surcharge.
    pub(crate) fn has_surcharges(&self) -> bool
        requires { IsGrid self.now }
        ensures { result ≡ false → (e : ℕ) → IsRequired self.now.inst e → charge_at self.now e ≡ Free }
    {
        for place in 0..self.charges.len() {
            match self.charges[place] {
                Charge::Free => {}
                Charge::Charged | Charge::Gained => return true,
            }
        }
        false
    }

    // The least value of a load.
    fn least_value(&self, cells: &[u128], load: usize) -> u128
        requires long { length cells.now ≡ (self.now.inst.capacity + 1) * width self.now }
        requires load { load ≤ self.now.inst.capacity }
        ensures { (c : ℕ) → c < width self.now → result ≤ slice_index cells.now (cell_place self.now load c) }
    {
        let mut least = UNREACHED;
        for column in 0..self.width() {
            least = least.min(cells[self.place(load, column)]);
        }
        least
    }

    // Writes how far the values of a load are above the least of them, which it answers.
    pub(crate) fn write_row(&self, cells: &[u128], load: usize, row: &mut [u64]) -> u128
        requires grid { IsGrid self.now }
        requires filled { AreFilled self.now cells.now load 0 }
        requires load { load ≤ self.now.inst.capacity }
        requires long { length row.old ≡ width self.now }
        ensures long { length row.new ≡ width self.now }
        ensures row { IsShortRow self.now load result (width self.now) row.new }
    {
        let least = self.least_value(cells, load);
        for column in 0..self.width() {
            let value = cells[self.place(load, column)];
            row[column] = short_value(value, least);
        }
        least
    }

    // The least value of a partial tour of a load that the task may follow, with the raised leg to it, by a row and the legs.
    // Where none is seen in 64 bits, it is found among all tasks.
    pub(crate) fn best_in_row(
        &self,
        cells: &[u128],
        load: usize,
        rooms: &Rooms,
        least: u128,
        column: usize,
    ) -> u128
        requires grid { IsGrid self.now }
        requires filled { AreFilled self.now cells.now load column }
        requires load { load ≤ self.now.inst.capacity }
        requires column { column < width self.now }
        requires rooms { AreRooms self.now.inst rooms.now }
        requires row { IsShortRow self.now load least (width self.now) rooms.now.row.items }
        requires legs { IsLegRow self.now column (width self.now) rooms.now.legs.items }
        ensures { IsLeastJoin self.now load (column_task column) result }
    {
        let above = least_sum(&rooms.row, &rooms.legs, column * self.width());
        if above < FAR {
            least + u128::from(above)
        } else {
            self.least_join(cells, load, column)
        }
    }
}
