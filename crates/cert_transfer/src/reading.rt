// The services of a walk as tasks.
ghost use Rattle.std.specs.Prelude.{◌≡◌, IfOk};
ghost use Rattle.deadhead_paths.specs.Tours.{tasks_of};

use carp_base::{Memory, Task};
use plan_model::Walk;
use std::alloc::Global;

// The services of a walk in their order and direction.
pub(crate) fn services(alloc: Global, walk: &Walk) -> Result<Vec<Task>, Memory>
    ensures { IfOk result (λ tasks. tasks.items ≡ tasks_of walk.now) }
{
    let mut tasks = Vec::new(alloc);
    for place in 0..walk.len() {
        let step = walk.step(place);
        if step.served {
            tasks.push(Task {
                edge: step.edge,
                forward: step.forward,
            })?;
        }
    }
    Ok(tasks)
}
