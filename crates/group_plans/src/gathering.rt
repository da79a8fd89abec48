// The tasks of a group.
ghost use Rattle.std.specs.Prelude.{◌≡◌, ◌++◌, ◌<◌, ◌^◌, length, IfOk, OnOk};
ghost use Rattle.group_plans.specs.Gathering.{ServesGroup};
ghost use Rattle.group_plans.specs.Groups.{gathered, own_task};

use carp_base::{Instance, Memory, Task};
use std::alloc::Global;

// Adds the edge, forward, where it lies in the group.
fn add_own(tasks: &mut Vec<Task>, owner: u32, group: u32, edge: u32) -> Result<(), Memory>
    ensures { OnOk result (tasks.new.items ≡ tasks.old.items ++ own_task owner group edge) }
{
    if owner == group {
        tasks.push(Task {
            edge,
            forward: true,
        })?;
    }
    Ok(())
}

// The edges of a group, in rising number and forward.
fn gather(alloc: Global, groups: &[u32], group: u32) -> Result<Vec<Task>, Memory>
    requires { length groups.now < 2 ^ 32 }
    ensures { IfOk result (λ tasks. tasks.items ≡ gathered groups.now group (length groups.now)) }
{
    let mut tasks = Vec::new(alloc);
    for place in 0..groups.len() {
        add_own(&mut tasks, groups[place], group, place as u32 + 1)?;
    }
    Ok(tasks)
}

// The tasks of a group of the required edges.
pub(crate) fn group_tasks(
    alloc: Global,
    inst: &Instance,
    groups: &[u32],
    group: u32,
) -> Result<Vec<Task>, Memory>
    requires { length groups.now ≡ inst.now.required }
    ensures serves { IfOk result (λ tasks. ServesGroup inst.now groups.now group tasks.items) }
    ensures order { IfOk result (λ tasks. tasks.items ≡ gathered groups.now group inst.now.required) }
{
    inst.validity();
    gather(alloc, groups, group)
}
