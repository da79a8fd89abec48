// A tour as the list of its tasks.
ghost use Rattle.std.specs.Prelude.{◌≡◌, ◌++◌, ◌∷◌, [], IfOk, OnOk};
ghost use Rattle.augment_merge.specs.Joins.{joined_tour, oriented_tour, reversed_tour};

use carp_base::{Memory, Task};
use std::alloc::Global;
use std::marker::Model;

#[derive(Drop)]
pub(crate) struct Tour {
    tasks: Vec<Task>,
}

impl Model for Tour {
    ghost use Rattle.std.specs.Prelude.{List};
    ghost use Rattle.carp_base.specs.declared.edge.Task.{Task};

    ghost Value = { List Task };

    ghost view = { λ t. t.tasks.items };
}

impl Tour {
    // The tour without tasks.
    pub(crate) fn new(alloc: Global) -> Tour
        ensures { result ≡ [] }
    {
        Tour {
            tasks: Vec::new(alloc),
        }
    }

    pub(crate) fn tasks(&self) -> &[Task]
        ensures { result.now ≡ self.now }
    {
        &self.tasks
    }

    pub(crate) fn push(&mut self, task: Task) -> Result<(), Memory>
        ensures { OnOk result (self.new ≡ self.old ++ task ∷ []) }
    {
        self.tasks.push(task)?;
        Ok(())
    }

    // Adds these tasks, as they stand or from the last to the first and each the other way.
    fn add(&mut self, tasks: &[Task], turned: bool) -> Result<(), Memory>
        ensures { OnOk result (self.new ≡ self.old ++ oriented_tour turned tasks.now) }
    {
        if turned {
            return self.add_reversed(tasks);
        }
        self.tasks.extend_from_slice(tasks)?;
        Ok(())
    }

    fn add_reversed(&mut self, tasks: &[Task]) -> Result<(), Memory>
        ensures { OnOk result (self.new ≡ self.old ++ reversed_tour tasks.now) }
    {
        for i in 0..tasks.len() {
            let task = tasks[tasks.len() - 1 - i];
            self.push(Task {
                edge: task.edge,
                forward: !task.forward,
            })?;
        }
        Ok(())
    }

    // One tour after the other, either of them as it stands or reversed.
    pub(crate) fn joined(
        alloc: Global,
        first: &Tour,
        second: &Tour,
        turn_first: bool,
        turn_second: bool,
    ) -> Result<Tour, Memory>
        ensures { IfOk result (λ tour. tour ≡ joined_tour turn_first turn_second first.now second.now) }
    {
        let mut tour = Tour::new(alloc);
        tour.add(first.tasks(), turn_first)?;
        tour.add(second.tasks(), turn_second)?;
        Ok(tour)
    }
}
