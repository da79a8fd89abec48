// Plans that advisers offer.
ghost use Rattle.std.specs.Prelude.{◌≡◌, IfOk, IfSome, IsTrue, OnErr};
ghost use Rattle.std.specs.List.{All};
ghost use Rattle.carp_base.specs.Problem.{IsRequired};
ghost use Rattle.deadhead_paths.specs.Prices.{costs_of};
ghost use Rattle.plan_model.specs.Plans.{IsLawful};
ghost use Rattle.task_tours.specs.Shorts.{IsShortPlan};
ghost use Rattle.branch_tree.specs.Leaves.{IsFramed, IsOffer, with_plan};
ghost use Rattle.branch_tree.specs.Searches.{IsSearch, state_of};
ghost use Rattle.branch_tree.specs.Steps.{IsOffered};

use crate::beginning::allowed_cost;
use crate::search::Search;
use carp_base::{Instance, Memory, Task};
use deadhead_paths::{Distances, tidy};
use leaf_adviser::Adviser;
use plan_model::{JudgeRoom, Plan, Verdict, judge, verdicts_are_exact};
use std::alloc::Global;
use task_tours::{add_tour, short_plans_are_allowed};

// A tour of more tasks, and a plan of more tours, is none of an instance, which has at most 600 required edges.
const MOST_TASKS: usize = 600;

impl Search {
    /// Takes the plan of the first tours that an adviser offers, in the order of the list, if it is lawful and costs less
    /// than the best plan. It answers whether it did. The plan is short then, and the turns of the tree are counted anew
    /// for its cost. Else the best plan stays. All else is as before.
    ///
    /// The only error is want of memory, and then the search is as before. It takes time in proportion to the number of
    /// nodes and to the steps of the plan.
    pub fn take_plan<A: Adviser>(
        &mut self,
        inst: &Instance,
        advisers: &mut Vec<A>,
    ) -> Result<bool, Memory>
        requires search { IsSearch inst.now self.old }
        ensures search { IsSearch inst.now self.new }
        ensures turns { self.new.turns ≡ self.old.turns }
        ensures least { self.new.least ≡ self.old.least }
        ensures short { IsShortPlan inst.now self.old.best → IsShortPlan inst.now self.new.best }
        ensures offered { IfOk result (IsOffered inst.now (state_of self.old) (state_of self.new)) }
        ensures err { OnErr result (state_of self.new ≡ state_of self.old) }
    {
        match first_tours(advisers) {
            Some(tours) => self.offer_tours(inst, &tours),
            None => Ok(false),
        }
    }

    // Takes the plan of tours, if it is lawful and cheaper than the best plan.
    fn offer_tours(&mut self, inst: &Instance, tours: &[Vec<Task>]) -> Result<bool, Memory>
        requires search { IsSearch inst.now self.old }
        ensures { IsOffer inst.now self.old self.new result }
    {
        match plan_of(self.alloc, inst, &self.dist, tours)? {
            Some(plan) => self.offer(inst, plan),
            None => Ok(false),
        }
    }

    // Takes a plan if it is cheaper than the best plan.
    fn offer(&mut self, inst: &Instance, plan: Plan) -> Result<bool, Memory>
        requires search { IsSearch inst.now self.old }
        requires short { IsShortPlan inst.now plan }
        ensures { IsOffer inst.now self.old self.new result }
    {
        short_plans_are_allowed();
        inst.validity();
        let cost = allowed_cost(self.alloc, inst, &plan)?;
        if self.cost <= cost {
            return Ok(false);
        }
        self.put_plan(plan, cost);
        Ok(true)
    }

    // Puts a plan of this cost in the place of the best plan.
    fn put_plan(&mut self, plan: Plan, cost: u64)
        ensures framed { IsFramed self.old self.new }
        ensures state { state_of self.new ≡ with_plan (state_of self.old) plan cost }
    {
        self.best = plan;
        self.cost = cost;
        let turns = self.tree.turns(cost);
        self.done = turns as u64;
    }
}

// The first tours that an adviser offers.
fn first_tours<A: Adviser>(advisers: &mut Vec<A>) -> Option<Vec<Vec<Task>>> {
    for adviser in advisers.iter_mut() {
        let offered = adviser.tours();
        if offered.is_some() {
            return offered;
        }
    }
    None
}

// The plan of tours, joined by least paths, if it is lawful.
fn plan_of(
    alloc: Global,
    inst: &Instance,
    dist: &Distances,
    tours: &[Vec<Task>],
) -> Result<Option<Plan>, Memory>
    requires problem { dist.now.problem ≡ inst.now }
    requires prices { dist.now.prices ≡ costs_of inst.now }
    ensures { IfOk result (λ found. IfSome found (IsShortPlan inst.now)) }
{
    let plan = joined(alloc, inst, dist, tours)?;
    if !is_lawful(alloc, inst, &plan)? {
        return Ok(None);
    }
    let plan = tidy(alloc, inst, dist, &plan)?;
    Ok(Some(plan))
}

// The walks of tours, without those that no lawful plan has.
fn joined(
    alloc: Global,
    inst: &Instance,
    dist: &Distances,
    tours: &[Vec<Task>],
) -> Result<Plan, Memory>
    requires problem { dist.now.problem ≡ inst.now }
    requires prices { dist.now.prices ≡ costs_of inst.now }
{
    let mut plan = Plan::new(alloc);
    for tour in tours {
        add_if_fit(alloc, inst, dist, &mut plan, tour)?;
    }
    Ok(plan)
}

// Adds the walk of a tour of at most 600 tasks on required edges to a plan of fewer than 600 walks.
fn add_if_fit(
    alloc: Global,
    inst: &Instance,
    dist: &Distances,
    plan: &mut Plan,
    tour: &[Task],
) -> Result<(), Memory>
    requires problem { dist.now.problem ≡ inst.now }
    requires prices { dist.now.prices ≡ costs_of inst.now }
{
    if tour.len() > MOST_TASKS || plan.len() >= MOST_TASKS || !are_required(inst, tour) {
        return Ok(());
    }
    add_tour(alloc, inst, dist, plan, tour)
}

// Whether tasks are on required edges.
fn are_required(inst: &Instance, tasks: &[Task]) -> bool
    ensures { IsTrue result → All (λ t. IsRequired inst.now t.edge) tasks.now }
{
    let required = inst.required();
    for task in tasks {
        if task.edge < 1 || required < task.edge {
            return false;
        }
    }
    true
}

// Whether a plan is lawful.
fn is_lawful(alloc: Global, inst: &Instance, plan: &Plan) -> Result<bool, Memory>
    ensures { IfOk result (λ lawful. IsTrue lawful → IsLawful inst.now plan.now) }
{
    verdicts_are_exact();
    let mut room = JudgeRoom::new(alloc, inst)?;
    match judge(inst, plan, &mut room) {
        Verdict::Lawful { .. } => Ok(true),
        _ => Ok(false),
    }
}
