// What a walk serves and costs.
ghost use Rattle.std.specs.Prelude.{◌≡◌};
ghost use Rattle.plan_model.specs.Plans.{walk_cost, walk_load, IsOnEdges};

use crate::Walk;
use carp_base::Instance;

/// The demand that a walk serves, in the unit of the capacity. It takes time in proportion to the steps.
pub fn load_of(inst: &Instance, walk: &Walk) -> u128
    requires { IsOnEdges inst.now walk.now }
    ensures { result ≡ walk_load inst.now walk.now }
{
    let mut sum: u128 = 0;
    for i in 0..walk.len() {
        let step = walk.step(i);
        if step.served {
            sum += u128::from(inst.edge(step.edge).demand);
        }
    }
    sum
}

/// What a walk costs, in the instance's unit of cost: the service cost for each served step, and the cost for each other
/// one. It takes time in proportion to the steps.
pub fn cost_of(inst: &Instance, walk: &Walk) -> u128
    requires { IsOnEdges inst.now walk.now }
    ensures { result ≡ walk_cost inst.now walk.now }
{
    let mut sum: u128 = 0;
    for i in 0..walk.len() {
        let step = walk.step(i);
        let edge = inst.edge(step.edge);
        sum += u128::from(if step.served { edge.service } else { edge.cost });
    }
    sum
}
