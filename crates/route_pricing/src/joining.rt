// The least of the partial tours that a task may follow, found among all tasks.
ghost use Rattle.std.specs.Prelude.{◌≡◌, ◌+◌, ◌^◌, ◌<◌, ◌≤◌};
ghost use Rattle.route_pricing.specs.Partial.{least_raised, IsGrid, IsSuccessor, IsLeastJoin, IsLeastUpTo, AreFilled, leg, may_follow, surcharge_at, width, column_task};

use crate::charging::Charge;
use crate::grid::{Grid, UNREACHED};

// A task after the partial tours of one load, with what a grid holds of it, read once for all of them.
#[derive(Clone, Copy)]
pub(crate) struct Successor {
    load: usize,
    column: usize,
    // Where the cells of the load, the pairs of the task's edge and the ways from the vertex where it starts begin.
    cells: usize,
    pairs: usize,
    ways: usize,
    // What is known of the surcharges of its edge.
    pub(crate) charge: Charge,
}

impl Grid {
    // The task of a column after the partial tours of a load.
    pub(crate) fn successor(&self, load: usize, column: usize) -> Successor
        requires grid { IsGrid self.now }
        requires load { load ≤ self.now.inst.capacity }
        requires column { column < width self.now }
        ensures successor { IsSuccessor self.now result }
        ensures load { result.load ≡ load }
        ensures column { result.column ≡ column }
    {
        self.inst.validity();
        Successor {
            load,
            column,
            cells: load * self.width(),
            pairs: column / 2 * self.inst.required() as usize,
            ways: self.start(column) as usize * (self.inst.vertices() as usize + 1),
            charge: self.charge(column),
        }
    }

    // The least value of a partial tour of this load that the task may follow, with the raised leg to it. Values stand here less the
    // least raised surcharge that the leg can have, so that a tour whose value alone is no less than the limit is passed over.
    pub(crate) fn least_join(&self, cells: &[u128], load: usize, column: usize) -> u128
        requires grid { IsGrid self.now }
        requires filled { AreFilled self.now cells.now load column }
        requires load { load ≤ self.now.inst.capacity }
        requires column { column < width self.now }
        ensures { IsLeastJoin self.now load (column_task column) result }
    {
        let next = self.successor(load, column);
        let least = next.charge.least_raised();
        let mut limit = UNREACHED - least;
        for before in 0..self.width() {
            limit = self.lowered(cells, &next, before, limit);
        }
        limit + least
    }

    // The limit, or the value of the join with the task of one column more, less the least raised surcharge, if that is less.
    fn lowered(&self, cells: &[u128], next: &Successor, before: usize, limit: u128) -> u128
        requires grid { IsGrid self.now }
        requires next { IsSuccessor self.now next.now }
        requires filled { AreFilled self.now cells.now next.now.load next.now.column }
        requires before { before < width self.now }
        requires limit { IsLeastUpTo self.now next.now.load (column_task next.now.column) before (limit + least_raised next.now.charge) }
        ensures least { IsLeastUpTo self.now next.now.load (column_task next.now.column) (before + 1) (result + least_raised next.now.charge) }
        ensures falls { result ≤ limit }
    {
        let value = cells[next.cells + before];
        if value >= limit {
            return limit;
        }
        if !self.may_precede(next, before) {
            return limit;
        }
        limit.min(value + self.leg_above(next, before))
    }

    pub(crate) fn may_precede(&self, next: &Successor, before: usize) -> bool
        requires grid { IsGrid self.now }
        requires next { IsSuccessor self.now next.now }
        requires before { before < width self.now }
        ensures { result ≡ may_follow self.now (column_task next.now.column) (column_task before) }
    {
        self.may[next.pairs + before / 2]
    }

    // The raised leg from the task of a column, less the least raised surcharge.
    pub(crate) fn leg_above(&self, next: &Successor, before: usize) -> u128
        requires grid { IsGrid self.now }
        requires next { IsSuccessor self.now next.now }
        requires before { before < width self.now }
        ensures value { result + least_raised next.now.charge ≡ leg self.now (column_task before) (column_task next.now.column) }
        ensures small { result ≤ 2 ^ 73 + 2 ^ 62 }
    {
        let way = self.dist[next.ways + self.ends[before] as usize];
        way + self.surcharge_above(next, before)
    }

    fn surcharge_above(&self, next: &Successor, before: usize) -> u128
        requires grid { IsGrid self.now }
        requires next { IsSuccessor self.now next.now }
        requires before { before < width self.now }
        ensures value { result + least_raised next.now.charge ≡ surcharge_at self.now (column_task before).edge (column_task next.now.column).edge }
        ensures small { result ≤ 2 ^ 62 }
    {
        match next.charge {
            Charge::Free => 0,
            _ => u128::from(self.raised[next.pairs + before / 2]) - next.charge.least_raised(),
        }
    }
}
