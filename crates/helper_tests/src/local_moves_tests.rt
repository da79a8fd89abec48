// Plans that small changes make cheaper, for the cases of `data/local_moves`.
ghost use Rattle.plan_model.specs.Plans.{IsLawful};

use carp_base::Instance;
use local_moves::{Mover, settle};
use plan_model::{JudgeRoom, Plan, Proposer, Verdict, judge, verdicts_are_exact};
use samples::{instance_of, plan_of};
use std::alloc::Global;
use std::test::Fail;
use task_tours::{cost_distances, lawful_cost};

pub fn answer(alloc: Global, over: &str, call: &str, input: &str) -> Result<String, Fail> {
    let inst = instance_of(alloc, over)?;
    let plan = plan_of(alloc, input)?;
    let mut room = JudgeRoom::new(alloc, &inst)?;
    verdicts_are_exact();
    let Verdict::Lawful { .. } = judge(&inst, &plan, &mut room) else {
        return Err("the plan is not lawful")?;
    };
    let cost = match call {
        "settle" => settled(alloc, &inst, &plan)?,
        "offer" => offered(alloc, &inst, &plan)?,
        _ => Err("no such call")?,
    };
    Ok(format!(in alloc; "{cost}")?)
}

// What the plan costs that comes of settling one.
fn settled(alloc: Global, inst: &Instance, plan: &Plan) -> Result<u128, Fail>
    requires { IsLawful inst.now plan.now }
{
    let dist = cost_distances(alloc, inst)?;
    let settled = settle(alloc, inst, &dist, plan)?;
    Ok(lawful_cost(alloc, inst, &settled)?)
}

// What the first offer of a new helper costs.
fn offered(alloc: Global, inst: &Instance, plan: &Plan) -> Result<u128, Fail>
    requires { IsLawful inst.now plan.now }
{
    let mut helper = Mover::new(5);
    let offer = helper.propose(alloc, inst, plan)?.ok_or("no offer")?;
    let mut room = JudgeRoom::new(alloc, inst)?;
    match judge(inst, &offer, &mut room) {
        Verdict::Lawful { cost } => Ok(cost),
        _ => Err("the offer is not lawful")?,
    }
}
