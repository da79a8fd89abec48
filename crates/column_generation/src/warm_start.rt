// A generation that goes on from what was kept of another one.
ghost use Rattle.std.specs.Prelude.{◌≡◌, OnOk};
ghost use Rattle.price_points.specs.Problems.{IsPricingProblem};
ghost use Rattle.route_pricing.specs.Tables.{IsRoom};
ghost use Rattle.column_generation.specs.Points.{IsGeneration};

use crate::decision_rows::{
    column_in, forbid_unlawful, held_under, is_lawful, lifted, use_decisions,
};
use crate::generation::{Generation, first_gap};
use crate::kept::Kept;
use crate::limits::Limits;
use crate::master::Master;
use crate::pace::{Due, Pace};
use branch_rules::{Branch, Decision};
use carp_base::{Allowed, Instance, Memory};
use cut_pool::ShorePool;
use linear_program::{Program, Range, RowId, Variable};
use price_points::PricingProblem;
use route_pricing::Table;
use std::alloc::Global;

// By how much reduced costs may fall below 0 in the dual method.
const SLACK: u64 = 64;

impl Generation {
    /// Goes on under a branch from what was kept. Rows of other decisions stay out, and so do tours that the branch
    /// excludes.
    pub(crate) fn take_up(
        &mut self,
        alloc: Global,
        problem: &PricingProblem<'_>,
        pool: &ShorePool,
        branch: &Branch,
        kept: &Kept,
        limits: Limits,
    ) -> Result<(), Memory>
        requires { IsPricingProblem problem.now }
        ensures { OnOk result (IsGeneration problem.now.inst.now self.new) }
    {
        let inst = problem.inst;
        let decisions = branch.decisions();
        self.program = program_of(alloc, inst, problem.allowed, &self.master, decisions, kept)?;
        self.best = kept.point.copy(alloc)?;
        self.box_size = kept.box_size;
        self.decide(alloc, inst, pool, branch, limits)
    }

    /// Goes on under a branch from what was kept for another one. By one fill its point becomes one that pays here.
    pub(crate) fn adopt(
        &mut self,
        alloc: Global,
        problem: &PricingProblem<'_>,
        table: &mut Table,
        pool: &ShorePool,
        branch: &Branch,
        kept: &Kept,
        limits: Limits,
    ) -> Result<(), Memory>
        requires problem { IsPricingProblem problem.now }
        requires room { IsRoom problem.now.inst.now table.old }
        ensures room { IsRoom problem.now.inst.now table.new }
        ensures generation { OnOk result (IsGeneration problem.now.inst.now self.new) }
    {
        self.take_up(alloc, problem, pool, branch, kept, limits)?;
        let decisions = branch.decisions();
        let point = held_under(
            alloc,
            problem.inst,
            decisions,
            &self.master.constraints,
            &self.best,
        )?;
        self.best.value = i128::MIN;
        self.ask(alloc, problem, table, &point)?;
        self.gap = first_gap(self.best.value);
        Ok(())
    }

    /// Takes columns of great reduced cost out of use, so that trials are short, and gives the dual method its slack. The
    /// only error is want of memory.
    pub fn trim_for_trials(&mut self, alloc: Global, inst: &Instance) -> Result<(), Memory> {
        self.program.set_slack(SLACK);
        let keep = self
            .program
            .rows()
            .len()
            .saturating_mul(2)
            .saturating_add(100);
        let deadheads = inst.edge_count() as usize;
        self.program
            .forget_columns(alloc, &self.master.store, keep, deadheads)
    }

    /// Puts the rows of the decisions of a branch in use, and begins anew within limits.
    pub(crate) fn decide(
        &mut self,
        alloc: Global,
        inst: &Instance,
        pool: &ShorePool,
        branch: &Branch,
        limits: Limits,
    ) -> Result<(), Memory>
        ensures { OnOk result (IsGeneration inst.now self.new) }
    {
        use_decisions(
            alloc,
            inst,
            pool,
            branch,
            &mut self.master,
            &mut self.program,
        )?;
        self.best = lifted(
            alloc,
            inst,
            pool,
            branch,
            &self.master.constraints,
            &self.best,
        )?;
        self.pace = Pace::new(limits, self.best.value);
        self.gap = first_gap(self.best.value);
        self.due = Due::SolveWithNewRows;
        self.fills = limits.fills;
        self.limits = limits;
        Ok(())
    }
}

// The program that was kept.
fn program_of(
    alloc: Global,
    inst: &Instance,
    allowed: &Allowed,
    master: &Master,
    decisions: &[Decision],
    kept: &Kept,
) -> Result<Program, Memory>
    requires { allowed.now.size ≡ inst.now.required }
{
    let mut program = Program::new(alloc)?;
    program.set_slack(SLACK);
    use_rows(alloc, inst, master, decisions, &kept.rows, &mut program)?;
    set_ranges(&kept.ranges, &mut program);
    use_columns(inst, allowed, master, kept, &mut program)?;
    use_basis(&kept.basis, &mut program)?;
    forbid_unlawful(alloc, inst, master, allowed, &mut program)?;
    program.start_from(alloc, &master.store, &kept.basis)?;
    Ok(program)
}

fn use_rows(
    alloc: Global,
    inst: &Instance,
    master: &Master,
    decisions: &[Decision],
    rows: &[RowId],
    program: &mut Program,
) -> Result<(), Memory> {
    for row in rows {
        if holds(inst, master, decisions, *row) {
            program.use_row(alloc, &master.store, *row)?;
        }
    }
    Ok(())
}

// Whether what a row asks holds for each plan that meets the decisions.
fn holds(inst: &Instance, master: &Master, decisions: &[Decision], row: RowId) -> bool {
    let services = inst.required() as usize;
    if row.number() < services {
        return true;
    }
    match master.constraints.get(row.number() - services) {
        Some(constraint) => constraint.holds_under(decisions),
        None => false,
    }
}

// Sets the ranges of the multipliers of the services.
fn set_ranges(ranges: &[Range], program: &mut Program) {
    for number in 0..ranges.len() {
        if let Some(row) = RowId::new(number) {
            program.set_bounds(row, ranges[number].least, ranges[number].most);
        }
    }
}

fn use_columns(
    inst: &Instance,
    allowed: &Allowed,
    master: &Master,
    kept: &Kept,
    program: &mut Program,
) -> Result<(), Memory>
    requires { allowed.now.size ≡ inst.now.required }
{
    for column in &kept.columns {
        if is_lawful(inst, master, allowed, *column) {
            program.use_column(*column)?;
        }
    }
    Ok(())
}

// Puts the columns of a basis in use.
fn use_basis(basis: &[Variable], program: &mut Program) -> Result<(), Memory> {
    for variable in basis {
        if let Some(column) = column_in(*variable) {
            program.use_column(column)?;
        }
    }
    Ok(())
}
