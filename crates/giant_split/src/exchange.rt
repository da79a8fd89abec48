// Small changes of an order.
ghost use Rattle.std.specs.Prelude.{◌≡◌, ◌<◌, length};
ghost use Rattle.giant_split.specs.Exchanges.{ServeAlike, task_edges};

use carp_base::Task;
use rand_core::utils::NextWord;
use rand_pcg::Lcg64Xsh32;

// The services at two places of an order change places, and each may be turned.
#[derive(Clone, Copy)]
pub(crate) struct Exchange {
    first: usize,
    second: usize,
    turns_first: bool,
    turns_second: bool,
}

impl Exchange {
    // A change of an order of so many tasks, by draws.
    pub(crate) fn draw(draws: &mut Lcg64Xsh32, count: usize) -> Exchange
        requires { 0 < count }
        ensures first { result.first < count }
        ensures second { result.second < count }
    {
        let turns = draws.next_word();
        Exchange {
            first: draws.next_word() as usize % count,
            second: draws.next_word() as usize % count,
            turns_first: turns & 1 == 1,
            turns_second: turns & 2 == 2,
        }
    }

    pub(crate) fn apply(&self, order: &mut [Task])
        requires first { self.now.first < length order.old }
        requires second { self.now.second < length order.old }
        ensures { ServeAlike order.old order.new }
    {
        order.swap(self.first, self.second);
        self.turn(order);
    }

    // Takes back what `apply` did.
    pub(crate) fn undo(&self, order: &mut [Task])
        requires first { self.now.first < length order.old }
        requires second { self.now.second < length order.old }
        ensures { ServeAlike order.old order.new }
    {
        self.turn(order);
        order.swap(self.second, self.first);
    }

    fn turn(&self, order: &mut [Task])
        requires first { self.now.first < length order.old }
        requires second { self.now.second < length order.old }
        ensures { task_edges order.new ≡ task_edges order.old }
    {
        turn(order, self.first, self.turns_first);
        turn(order, self.second, self.turns_second);
    }
}

// Turns the task at a place, if it is to be turned.
fn turn(order: &mut [Task], at: usize, turns: bool)
    requires { at < length order.old }
    ensures { task_edges order.new ≡ task_edges order.old }
{
    order[at].forward ^= turns;
}
