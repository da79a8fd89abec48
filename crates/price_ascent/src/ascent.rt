// The ascent.
ghost use Rattle.std.specs.Prelude.{◌≡◌, All, IfOk, IfSome};
ghost use Rattle.cut_pool.specs.Shores.{Belongs};
ghost use Rattle.route_pricing.specs.Tables.{IsRoom};
ghost use Rattle.price_ascent.specs.Ascents.{IsAscent, IsStart};
ghost use Rattle.price_points.specs.Points.{IsPoint};
ghost use Rattle.price_points.specs.Problems.{IsPricingProblem};

use crate::cover::cover_of;
use crate::slopes::{Slopes, Step, mixed};
use crate::start::{Start, first_point};
use crate::step_size::{StepSize, Turn};
use carp_base::{Instance, Memory};
use cut_pool::{Shore, need};
use price_points::{
    Constraint, Cover, Demand, Easing, Point, PricingProblem, parts_of, score, service_costs,
};
use route_pricing::Table;
use shore_search::{Effort, ShoreSearch};
use std::alloc::Global;

// Shores are searched for once in so many steps, so many at most, of which so many new ones are added.
const STEPS: u32 = 10;

const FOUND: usize = 40;

const ADDED: usize = 10;

/// Where an ascent stands.
#[derive(Drop)]
pub(crate) struct Ascent {
    /// What the weights of its points are of.
    pub(crate) constraints: Vec<Constraint>,
    /// The best point that pays.
    pub(crate) best: Point,
    point: Point,
    summit: Point,
    step_size: StepSize,
    slopes: Slopes,
    // The deadheads of the tours so far, of which later ones count for more.
    deadheads: Vec<i64>,
    search: ShoreSearch,
}

impl Ascent {
    /// An ascent whose best point is made of a start, or `None` if no edge is required.
    pub(crate) fn begin(
        alloc: Global,
        problem: &PricingProblem<'_>,
        table: &mut Table,
        start: Start,
    ) -> Result<Option<Ascent>, Memory>
        requires problem { IsPricingProblem problem.now }
        requires room { IsRoom problem.now.inst.now table.old }
        requires start { IsStart problem.now.inst.now start }
        ensures room { IsRoom problem.now.inst.now table.new }
        ensures begun { IfOk result (λ found. IfSome found (IsAscent problem.now.inst.now)) }
    {
        let Start { constraints, point } = start;
        let easing = Easing::InProportion;
        let Some(scored) = score(alloc, problem, table, &constraints, &[], &point, easing)? else {
            return Ok(None);
        };
        let first = first_point(alloc, problem, &constraints, &point.weights)?;
        let summit = first.copy(alloc)?;
        Ok(Some(Ascent {
            constraints,
            best: scored.point,
            point: first,
            summit,
            step_size: StepSize::new(),
            slopes: Slopes::new(alloc),
            deadheads: Vec::new(alloc),
            search: ShoreSearch::new(),
        }))
    }

    /// Makes up to so many steps.
    pub(crate) fn climb(
        &mut self,
        alloc: Global,
        problem: &PricingProblem<'_>,
        table: &mut Table,
        fills: u32,
    ) -> Result<(), Memory>
        requires problem { IsPricingProblem problem.now }
        requires room { IsRoom problem.now.inst.now table.old }
        requires ascent { IsAscent problem.now.inst.now self.old }
        ensures room { IsRoom problem.now.inst.now table.new }
        ensures ascent { IsAscent problem.now.inst.now self.new }
    {
        for step in 1..fills {
            if !self.step(alloc, problem, table, step)? {
                break;
            }
        }
        Ok(())
    }

    // Makes a step, by one fill, and answers whether another one follows.
    fn step(
        &mut self,
        alloc: Global,
        problem: &PricingProblem<'_>,
        table: &mut Table,
        step: u32,
    ) -> Result<bool, Memory>
        requires problem { IsPricingProblem problem.now }
        requires room { IsRoom problem.now.inst.now table.old }
        requires ascent { IsAscent problem.now.inst.now self.old }
        ensures room { IsRoom problem.now.inst.now table.new }
        ensures ascent { IsAscent problem.now.inst.now self.new }
    {
        let (constraints, easing) = (&self.constraints, Easing::InProportion);
        let found = score(alloc, problem, table, constraints, &[], &self.point, easing)?;
        let Some(scored) = found else {
            return Ok(false);
        };
        let cover = cover_of(alloc, problem.inst, table, &scored.dist, scored.rate)?;
        let value = scored
            .point
            .value
            .saturating_add(service_costs(problem.inst));
        self.keep(problem.inst, scored.point);
        match self.step_size.take(value) {
            Turn::End => Ok(false),
            Turn::Back => self.go_back(alloc, problem.inst),
            Turn::Record => {
                self.mark(alloc, problem.inst)?;
                self.go_on(alloc, problem, step, value, &cover)
            }
            Turn::On => self.go_on(alloc, problem, step, value, &cover),
        }
    }

    // Goes back to the best point.
    fn go_back(&mut self, alloc: Global, inst: &Instance) -> Result<bool, Memory>
        requires ascent { IsAscent inst.now self.old }
        ensures ascent { IsAscent inst.now self.new }
    {
        self.point = self.summit.copy(alloc)?;
        Ok(true)
    }

    // Notes that the point is the best one.
    fn mark(&mut self, alloc: Global, inst: &Instance) -> Result<(), Memory>
        requires ascent { IsAscent inst.now self.old }
        ensures ascent { IsAscent inst.now self.new }
    {
        self.summit = self.point.copy(alloc)?;
        Ok(())
    }

    // Takes what the tours of the point serve and cross, and moves on.
    fn go_on(
        &mut self,
        alloc: Global,
        problem: &PricingProblem<'_>,
        step: u32,
        value: i128,
        cover: &Cover,
    ) -> Result<bool, Memory>
        requires problem { IsPricingProblem problem.now }
        requires ascent { IsAscent problem.now.inst.now self.old }
        ensures ascent { IsAscent problem.now.inst.now self.new }
    {
        self.deadheads = mixed(alloc, &self.deadheads, &cover.deadheads)?;
        self.find_shores(alloc, problem, step)?;
        self.move_point(alloc, problem.inst, value, cover)?;
        Ok(true)
    }

    // Keeps a point that pays where it is the best.
    fn keep(&mut self, inst: &Instance, point: Point)
        requires ascent { IsAscent inst.now self.old }
        requires point { IsPoint inst.now point }
        ensures { IsAscent inst.now self.new }
    {
        if point.value > self.best.value {
            self.best = point;
        }
    }

    // Moves the point along its slopes.
    fn move_point(
        &mut self,
        alloc: Global,
        inst: &Instance,
        value: i128,
        cover: &Cover,
    ) -> Result<(), Memory>
        requires ascent { IsAscent inst.now self.old }
        ensures ascent { IsAscent inst.now self.new }
    {
        let weights = &self.point.weights;
        let latest = Slopes::of(alloc, inst, &self.constraints, cover)?;
        let slopes = self.slopes.turned(alloc, &latest)?;
        let step = Step::new(
            self.step_size.next_length(value),
            slopes.squares(weights),
            latest.squares(weights),
        );
        self.point = slopes.moved(alloc, inst, &self.constraints, &self.point, step)?;
        self.slopes = slopes;
        Ok(())
    }

    // Adds shores that the deadheads so far leave short, once in some steps.
    fn find_shores(
        &mut self,
        alloc: Global,
        problem: &PricingProblem<'_>,
        step: u32,
    ) -> Result<(), Memory>
        requires problem { IsPricingProblem problem.now }
        requires ascent { IsAscent problem.now.inst.now self.old }
        ensures ascent { IsAscent problem.now.inst.now self.new }
    {
        if step % STEPS != 0 {
            return Ok(());
        }
        let parts = parts_of(alloc, problem.inst, &self.deadheads)?;
        let found = self.search.find(
            alloc,
            problem.inst,
            problem.net,
            &parts,
            Effort::Quick,
            FOUND,
        )?;
        add_shores(problem.inst, &mut self.constraints, found)
    }
}

// Adds new shores.
fn add_shores(
    inst: &Instance,
    constraints: &mut Vec<Constraint>,
    found: Vec<Shore>,
) -> Result<(), Memory>
    requires { All (Belongs inst.now) found.items }
{
    let most = constraints.len().saturating_add(ADDED);
    for shore in found {
        if constraints.len() < most && !constraints.iter().any(|c| c.is_over(&shore)) {
            let lower = need(inst, &shore);
            constraints.push(Constraint::new(Demand::Deadheads(shore), lower))?;
        }
    }
    Ok(())
}
