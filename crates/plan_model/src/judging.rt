// The judge of plans.
ghost use Rattle.std.specs.Prelude.{◌≡◌, length, IfOk};
ghost use Rattle.plan_model.specs.Verdicts.{IsVerdict};

use crate::served::{count_services, first_twice, first_unserved, least_other};
use crate::tours::{first_away, first_broken, first_overload, plan_cost_of};
use crate::{Plan, Verdict};
use carp_base::{Instance, Memory};
use std::alloc::Global;
use std::marker::Model;

/// Room for judging plans of one instance, used again from plan to plan.
///
/// Contracts see it as the number of required edges that it was made for.
#[derive(Drop)]
pub struct JudgeRoom {
    counts: Vec<u8>,
}

impl Model for JudgeRoom {
    ghost use Rattle.std.specs.Prelude.{ℕ, length};

    ghost Value = { ℕ };

    ghost view = { λ room. length room.counts.items };
}

impl JudgeRoom {
    /// Room for judging plans of the instance, in memory in proportion to the required edges.
    pub fn new(alloc: Global, inst: &Instance) -> Result<JudgeRoom, Memory>
        ensures { IfOk result (λ room. room ≡ inst.now.required) }
    {
        let counts = vec![in alloc; 0u8; inst.required() as usize]?;
        Ok(JudgeRoom { counts })
    }
}

/// What is first wrong with the plan, or what it costs if nothing is wrong. The room is one that was made for an
/// instance with as many required edges.
///
/// It takes no memory, and time in proportion to the plan's walks and steps and the number of required edges.
///
/// ```
/// // The one street of the instance costs 5: it is served on the way out, and crossed again on the way back.
/// let mut walk = Walk::new(alloc);
/// walk.push(Step { edge: 1, forward: true, served: true })?;
/// walk.push(Step { edge: 1, forward: false, served: false })?;
/// let mut plan = Plan::new(alloc);
/// plan.push(walk)?;
/// let mut room = JudgeRoom::new(alloc, &inst)?;
/// assert_eq!(rt; judge(&inst, &plan, &mut room), Verdict::Lawful { cost: 10 });
/// ```
pub fn judge(inst: &Instance, plan: &Plan, room: &mut JudgeRoom) -> Verdict
    requires { room.old ≡ inst.now.required }
    ensures verdict { IsVerdict inst.now plan.now result }
    ensures room { room.new ≡ room.old }
{
    verdict_of(inst, plan, &mut room.counts)
}

// The verdict, where the services are counted in `counts`.
fn verdict_of(inst: &Instance, plan: &Plan, counts: &mut [u8]) -> Verdict
    requires { length counts.old ≡ inst.now.required }
    ensures { IsVerdict inst.now plan.now result }
{
    if let Some((tour, step)) = first_broken(inst, plan) {
        return Verdict::Broken {
            tour: u64::from(tour) + 1,
            step: u64::from(step) + 1,
        };
    }
    if let Some(tour) = first_away(inst, plan) {
        return Verdict::NotAtDepot {
            tour: u64::from(tour) + 1,
        };
    }
    if let Some(edge) = least_other(inst, plan) {
        return Verdict::ServesOther { edge };
    }
    count_services(plan, counts);
    if let Some(i) = first_twice(counts) {
        return Verdict::ServedTwice { edge: i as u32 + 1 };
    }
    if let Some(i) = first_unserved(counts) {
        return Verdict::NotServed { edge: i as u32 + 1 };
    }
    if let Some((tour, load)) = first_overload(inst, plan) {
        return Verdict::Overload {
            tour: u64::from(tour) + 1,
            load,
        };
    }
    Verdict::Lawful {
        cost: plan_cost_of(inst, plan),
    }
}
