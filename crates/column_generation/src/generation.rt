// The loop: the program, the point between its multipliers and the best point, tours, and rows.
ghost use Rattle.std.specs.Prelude.{◌≡◌, IfOk, IfSome};
ghost use Rattle.route_pricing.specs.Tables.{IsRoom};
ghost use Rattle.price_points.specs.Problems.{IsPricingProblem};
ghost use Rattle.column_generation.specs.Points.{IsGeneration, IsStart};
ghost use Rattle.price_points.specs.Points.{IsPoint};

use crate::boxstep::{BoxSize, is_at_border};
use crate::cold_start::{Start, first_program, use_tour};
use crate::integral::{Whole, whole_of};
use crate::limits::Limits;
use crate::master::Master;
use crate::multipliers::point_of_program;
use crate::offers::Offer;
use crate::pace::{Due, Pace, Turn};
use crate::removal::{drop_slack_rows, trim_columns};
use crate::reply::{Reply, query};
use crate::separation::Separator;
use crate::size::steps_of_fill;
use carp_base::{Instance, Memory};
use deadhead_paths::Distances;
use linear_program::{Caps, Program};
use price_points::{Point, PricingProblem, UNIT};
use route_pricing::Table;
use std::alloc::Global;

// So many turns are made at most: two fills make one, and so do a search, a box that is doubled and a ratio that rises.
const MOST_TURNS: u32 = 8000;

// So many tours of one point are added at most.
const MOST_ADDED: u32 = 30;

// The least tolerance of the program, and that of a gap is one part in so many of it.
const LEAST_TOLERANCE: u64 = 16;

const FINER: i128 = 8192;

/// Where a generation of columns stands, for the leaf that it was begun or taken up for last.
#[derive(Drop)]
pub struct Generation {
    pub(crate) master: Master,
    /// The best point that pays.
    pub(crate) best: Point,
    pub(crate) program: Program,
    pub(crate) box_size: BoxSize,
    pub(crate) limits: Limits,
    separator: Separator,
    pub(crate) pace: Pace,
    pub(crate) due: Due,
    // By how much the program's value is above that of the best point.
    pub(crate) gap: i128,
    // That of the program when it was solved last.
    tolerance: u64,
    pub(crate) fills: u32,
    /// Entries of programs that were touched and steps of fills that were made, for all leaves so far.
    pub(crate) spent: u64,
    /// The cheapest plan that solutions showed since it was asked for.
    pub(crate) whole: Option<Whole>,
}

// What became of the tours of a point.
#[derive(Clone, Copy)]
pub(crate) struct Asked {
    // The value of the point made one that pays.
    value: i128,
    // How many tours came into use.
    added: u32,
    // How many of them the program gains by.
    useful: u32,
}

impl Generation {
    /// A generation from a start within limits, or `None` if no edge is required.
    pub(crate) fn from_start(
        alloc: Global,
        problem: &PricingProblem<'_>,
        table: &mut Table,
        dist: &Distances,
        start: Start,
        limits: Limits,
    ) -> Result<Option<Generation>, Memory>
        requires problem { IsPricingProblem problem.now }
        requires room { IsRoom problem.now.inst.now table.old }
        requires dist { dist.now.problem ≡ problem.now.inst.now }
        requires start { IsStart problem.now.inst.now start }
        ensures room { IsRoom problem.now.inst.now table.new }
        ensures begun { IfOk result (λ found. IfSome found (IsGeneration problem.now.inst.now)) }
    {
        let Start { mut master, point } = start;
        let Some(reply) = query(alloc, problem, table, &master.constraints, &point)? else {
            return Ok(None);
        };
        let Reply {
            point: best,
            offers,
        } = reply;
        let program = first_program(alloc, problem.inst, dist, &mut master, offers)?;
        let generation = Generation::new(master, best, program, limits);
        Ok(Some(generation))
    }

    // Before the first turn.
    fn new(master: Master, best: Point, program: Program, limits: Limits) -> Generation
        ensures { result.best ≡ best }
    {
        let value = best.value;
        Generation {
            box_size: BoxSize::new(master.scale.mean),
            separator: Separator::new(),
            pace: Pace::new(limits, value),
            due: Due::Solve,
            gap: first_gap(value),
            tolerance: LEAST_TOLERANCE,
            fills: limits.fills,
            spent: 0,
            whole: None,
            limits,
            master,
            best,
            program,
        }
    }

    /// Makes turns until the value of the best point is near that of the program, and no row is found any more, or
    /// until a limit ends it.
    ///
    /// It asks for a table that was made for the instance. The only error is want of memory. It takes up to 1,000 fills
    /// of the table and 4 * 10^9 entries of the program if the generation began with a set, and up to 100 fills and
    /// 1.5 * 10^9 entries if it went on from what was kept.
    pub fn go_on(
        &mut self,
        alloc: Global,
        problem: &PricingProblem<'_>,
        table: &mut Table,
    ) -> Result<(), Memory>
        requires problem { IsPricingProblem problem.now }
        requires room { IsRoom problem.now.inst.now table.old }
        requires generation { IsGeneration problem.now.inst.now self.old }
        ensures room { IsRoom problem.now.inst.now table.new }
        ensures generation { IsGeneration problem.now.inst.now self.new }
    {
        'turns: for _ in 0..MOST_TURNS {
            match self.turn(alloc, problem, table)? {
                Turn::End => break 'turns,
                Turn::Go(due) => self.due = due,
            }
        }
        self.count_work(problem.inst);
        Ok(())
    }

    // Solves the program, and comes nearer to it or searches for rows.
    fn turn(
        &mut self,
        alloc: Global,
        problem: &PricingProblem<'_>,
        table: &mut Table,
    ) -> Result<Turn, Memory>
        requires problem { IsPricingProblem problem.now }
        requires room { IsRoom problem.now.inst.now table.old }
        requires generation { IsGeneration problem.now.inst.now self.old }
        ensures room { IsRoom problem.now.inst.now table.new }
        ensures generation { IsGeneration problem.now.inst.now self.new }
    {
        self.solve(alloc)?;
        self.note_whole(alloc, problem.inst)?;
        let target = point_of_program(
            alloc,
            problem.inst,
            &self.master.constraints,
            &self.program,
        )?;
        self.gap = target.value.saturating_sub(self.best.value);
        if self.is_spent() {
            return Ok(Turn::End);
        }
        if self.pace.is_small(self.gap, self.best.value) {
            self.search(alloc, problem)
        } else {
            self.come_nearer(alloc, problem, table, &target)
        }
    }

    // Keeps the plan that the program's solution shows, if it shows one that is cheaper than the one that is kept.
    fn note_whole(&mut self, alloc: Global, inst: &Instance) -> Result<(), Memory>
        ensures { self.new.best ≡ self.old.best }
    {
        let found = whole_of(alloc, inst, &self.master, &self.program)?;
        let Some(whole) = found else {
            return Ok(());
        };
        if whole.is_cheaper(&self.whole) {
            self.whole = Some(whole);
        }
        Ok(())
    }

    // Counts what the turns took.
    fn count_work(&mut self, inst: &Instance)
        ensures { self.new.best ≡ self.old.best }
    {
        let fills = u64::from(self.limits.fills.saturating_sub(self.fills));
        let steps = fills.saturating_mul(steps_of_fill(inst));
        let touched = self.program.work().saturating_add(steps);
        self.spent = self.spent.saturating_add(touched);
    }

    // Whether a limit is reached.
    fn is_spent(&self) -> bool {
        self.fills == 0
            || self.program.work() > self.limits.work
            || self.master.is_full()
            || self.best.value >= self.limits.enough
    }

    // Solves the program if that is due.
    fn solve(&mut self, alloc: Global) -> Result<(), Memory>
        ensures { self.new.best ≡ self.old.best }
    {
        self.tolerance = tolerance_for(self.gap);
        self.program.set_tolerance(self.tolerance);
        let caps = Caps::by_rows(self.program.rows().len()).within(self.limits.work);
        let store = &self.master.store;
        match self.due {
            Due::Nothing => {}
            Due::Solve => {
                self.program.solve(alloc, store, false, &caps)?;
            }
            Due::SolveWithNewRows => {
                self.program.solve(alloc, store, true, &caps)?;
            }
        }
        Ok(())
    }

    /// Places the box around the best point.
    pub(crate) fn place_box(&mut self, inst: &Instance)
        ensures { self.new.best ≡ self.old.best }
    {
        self.box_size.place(inst, &self.best, &mut self.program);
    }

    // Doubles the box if the program stands at its border, and answers whether it did.
    fn widens_box(&mut self, inst: &Instance) -> bool
        ensures { self.new.best ≡ self.old.best }
    {
        if !is_at_border(inst, &self.program) {
            return false;
        }
        let doubled = self.box_size.doubled();
        if doubled {
            self.place_box(inst);
        }
        doubled
    }

    // Doubles the box if the program stands at its border, and searches for rows if not.
    fn search(&mut self, alloc: Global, problem: &PricingProblem<'_>) -> Result<Turn, Memory>
        requires problem { IsPricingProblem problem.now }
        ensures { self.new.best ≡ self.old.best }
    {
        if self.widens_box(problem.inst) {
            return Ok(Turn::Go(Due::Solve));
        }
        self.box_size.rest();
        if !self.pace.may_search() {
            return Ok(Turn::End);
        }
        let now = self.separator.count;
        drop_slack_rows(
            problem.inst,
            &self.master,
            &self.best,
            now,
            &mut self.program,
        );
        let found = self.separator.separate(
            alloc,
            problem,
            &mut self.master,
            &mut self.program,
            self.pace.effort,
        )?;
        Ok(self.pace.after_search(found, self.gap, self.best.value))
    }

    // Asks the table for the point halfway to the program, and for the program's own point if that gives nothing.
    fn come_nearer(
        &mut self,
        alloc: Global,
        problem: &PricingProblem<'_>,
        table: &mut Table,
        target: &Point,
    ) -> Result<Turn, Memory>
        requires problem { IsPricingProblem problem.now }
        requires room { IsRoom problem.now.inst.now table.old }
        requires generation { IsGeneration problem.now.inst.now self.old }
        requires target { IsPoint problem.now.inst.now target.now }
        ensures room { IsRoom problem.now.inst.now table.new }
        ensures generation { IsGeneration problem.now.inst.now self.new }
    {
        let old = self.best.value;
        let quarter = old.saturating_add(self.gap / 4);
        let middle = target.halfway(alloc, problem.inst, &self.master.constraints, &self.best)?;
        let Some(asked) = self.ask(alloc, problem, table, &middle)? else {
            return Ok(Turn::End);
        };
        if asked.useful > 0 || asked.value > quarter {
            return self.after_point(alloc, problem.inst, old);
        }
        self.ask_program(alloc, problem, table, target, old)
    }

    // Asks the table for the program's own point.
    fn ask_program(
        &mut self,
        alloc: Global,
        problem: &PricingProblem<'_>,
        table: &mut Table,
        target: &Point,
        old: i128,
    ) -> Result<Turn, Memory>
        requires problem { IsPricingProblem problem.now }
        requires room { IsRoom problem.now.inst.now table.old }
        requires generation { IsGeneration problem.now.inst.now self.old }
        requires target { IsPoint problem.now.inst.now target.now }
        ensures room { IsRoom problem.now.inst.now table.new }
        ensures generation { IsGeneration problem.now.inst.now self.new }
    {
        let Some(asked) = self.ask(alloc, problem, table, target)? else {
            return Ok(Turn::End);
        };
        if asked.added == 0 && self.best.value <= old.saturating_add(self.gap / 4) {
            return Ok(self.without_tours());
        }
        self.after_point(alloc, problem.inst, old)
    }

    // Moves or halves the box, and takes columns out of use if there are many.
    fn after_point(&mut self, alloc: Global, inst: &Instance, old: i128) -> Result<Turn, Memory>
        ensures { self.new.best ≡ self.old.best }
    {
        let gained = self.best.value > old.saturating_add(self.gap / 10);
        if self.box_size.take(gained) {
            self.place_box(inst);
        }
        trim_columns(alloc, inst, &self.master, &mut self.program)?;
        Ok(Turn::Go(Due::Solve))
    }

    // What follows if no tour was new: the program is solved more finely, or the pace changes.
    fn without_tours(&mut self) -> Turn
        ensures { self.new.best ≡ self.old.best }
    {
        if self.tolerance > LEAST_TOLERANCE {
            self.gap = 0;
            return Turn::Go(Due::Solve);
        }
        self.pace.without_tours()
    }

    /// Makes of a point one that pays, keeps it if it is the best, and adds its tours.
    pub(crate) fn ask(
        &mut self,
        alloc: Global,
        problem: &PricingProblem<'_>,
        table: &mut Table,
        point: &Point,
    ) -> Result<Option<Asked>, Memory>
        requires problem { IsPricingProblem problem.now }
        requires room { IsRoom problem.now.inst.now table.old }
        requires generation { IsGeneration problem.now.inst.now self.old }
        requires point { IsPoint problem.now.inst.now point.now }
        ensures room { IsRoom problem.now.inst.now table.new }
        ensures generation { IsGeneration problem.now.inst.now self.new }
    {
        self.fills = self.fills.saturating_sub(1);
        let Some(reply) = query(alloc, problem, table, &self.master.constraints, point)? else {
            return Ok(None);
        };
        let Reply {
            point: paying,
            offers,
        } = reply;
        let value = paying.value;
        self.keep(problem.inst, paying);
        Ok(Some(self.add_offers(alloc, problem.inst, value, offers)?))
    }

    // Keeps a point that pays if it is the best.
    fn keep(&mut self, inst: &Instance, point: Point)
        requires generation { IsGeneration inst.now self.old }
        requires point { IsPoint inst.now point }
        ensures { IsGeneration inst.now self.new }
    {
        if point.value > self.best.value {
            self.best = point;
        }
    }

    // Adds the tours of the least values below 0.
    fn add_offers(
        &mut self,
        alloc: Global,
        inst: &Instance,
        value: i128,
        offers: Vec<Offer>,
    ) -> Result<Asked, Memory>
        ensures { self.new.best ≡ self.old.best }
    {
        let mut asked = Asked {
            value,
            added: 0,
            useful: 0,
        };
        for offer in offers {
            if offer.value < 0 && asked.added < MOST_ADDED {
                asked = self.add_offer(alloc, inst, offer, asked)?;
            }
        }
        Ok(asked)
    }

    // Adds a tour, and counts it if it is new to the program.
    fn add_offer(
        &mut self,
        alloc: Global,
        inst: &Instance,
        offer: Offer,
        asked: Asked,
    ) -> Result<Asked, Memory>
        ensures { self.new.best ≡ self.old.best }
    {
        let Offer { tour, .. } = offer;
        let used = use_tour(alloc, inst, &mut self.master, &mut self.program, tour)?;
        let Some(column) = used else {
            return Ok(asked);
        };
        let reduced = self.program.reduced_cost(&self.master.store, column);
        let useful = reduced < 0 && reduced.unsigned_abs() > LEAST_TOLERANCE;
        Ok(Asked {
            value: asked.value,
            added: asked.added.saturating_add(1),
            useful: asked.useful.saturating_add(u32::from(useful)),
        })
    }
}

/// The gap that is assumed before the first one is known.
pub(crate) fn first_gap(value: i128) -> i128 {
    (value / 8).saturating_add(i128::from(UNIT))
}

// How far below 0 a reduced cost has to be at a gap.
fn tolerance_for(gap: i128) -> u64 {
    let part = (gap / FINER).clamp(0, i128::from(UNIT)) as u64;
    part.max(LEAST_TOLERANCE)
}
