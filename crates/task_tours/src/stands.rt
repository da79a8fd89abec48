// Where a task starts and ends.
ghost use Rattle.std.specs.Prelude.{◌≡◌};
ghost use Rattle.carp_base.specs.Problem.{IsRequired, edge_at, head_of, tail_of};
ghost use Rattle.task_tours.specs.Tours.{IsStand};

use carp_base::{Instance, Task};

/// The vertex where a task on a required edge starts, and the vertex where it ends.
pub fn ends(inst: &Instance, task: Task) -> (u32, u32)
    requires { IsRequired inst.now task.edge }
    ensures tail { result.0 ≡ tail_of (edge_at inst.now task.edge) task.forward }
    ensures head { result.1 ≡ head_of (edge_at inst.now task.edge) task.forward }
    ensures tail_stands { IsStand inst.now result.0 }
    ensures head_stands { IsStand inst.now result.1 }
{
    inst.validity();
    let edge = inst.edge(task.edge);
    if task.forward {
        (edge.u, edge.v)
    } else {
        (edge.v, edge.u)
    }
}
