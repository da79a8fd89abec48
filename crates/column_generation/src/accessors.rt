// What is told of a generation.
ghost use Rattle.std.specs.Prelude.{◌≡◌, IfOk};
ghost use Rattle.edge_components.specs.Parts.{AreParts};

use crate::flows::{Solution, solution_of};
use crate::generation::Generation;
use crate::integral::Whole;
use carp_base::{Instance, Memory, Task};
use cut_pool::Shore;
use std::alloc::Global;
use std::mem;

impl Generation {
    /// The value of the program, in parts of 1/1,000,000 of a unit of cost. It counts no service costs.
    pub fn value(&self) -> i128 {
        i128::from(self.program.value(&self.master.store))
    }

    /// The value that is enough, which counts no service costs either.
    pub fn enough(&self) -> i128 {
        self.limits.enough
    }

    /// How many entries of programs were touched, and how many steps of fills were made, for all leaves so far.
    pub fn spent(&self) -> u64 {
        self.spent
    }

    /// The solution of the program. The only error is want of memory.
    pub fn solution(&self, alloc: Global, inst: &Instance) -> Result<Solution, Memory>
        ensures parts { IfOk result (λ solution. AreParts inst.now solution.deadheads.items) }
        ensures services { IfOk result (λ solution. solution.flow.services ≡ inst.now.required) }
    {
        solution_of(alloc, inst, &self.master, &self.program)
    }

    /// How many rows are known that are not of a service.
    pub fn row_count(&self) -> usize {
        self.master.constraints.len()
    }

    /// The shore over which a row asks for deadheads, if it does. Rows that are not of a service are counted from 0.
    pub fn shore_of_row(&self, place: usize) -> Option<&Shore> {
        self.master.constraints.get(place)?.asks_over()
    }

    /// The tours, as lists of tasks, of the cheapest plan that a solution showed since this was asked before, or `None`.
    /// It takes constant time and no memory.
    pub fn take_whole(&mut self) -> Option<Vec<Vec<Task>>> {
        let whole = mem::replace(&mut self.whole, None)?;
        let Whole { tours, .. } = whole;
        Some(tours)
    }
}
