// What a child of the leaf comes to.
ghost use Rattle.std.specs.Prelude.{◌≡◌};
ghost use Rattle.route_pricing.specs.Tables.{IsRoom};
ghost use Rattle.price_points.specs.Problems.{IsPricingProblem};

use crate::decision_rows::{forbid_unlawful, use_decision};
use crate::generation::Generation;
use crate::kept::Kept;
use crate::limits::Limits;
use branch_rules::{Branch, Decision};
use carp_base::{Allowed, Instance, Memory};
use cut_pool::ShorePool;
use price_points::PricingProblem;
use route_pricing::Table;
use std::alloc::Global;

// So many steps of the dual method an estimate takes at most.
const STEPS: u32 = 50;

impl Generation {
    /// What the program comes to after a few steps of the dual method under one more decision, without tours in which
    /// excluded pairs follow each other. It is tried on a copy of the program, so that the generation stays where it
    /// stands.
    ///
    /// It asks for the pairs that the child does not exclude. The only error is want of memory. It takes up to 50 steps
    /// of the dual method.
    pub fn estimate(
        &mut self,
        alloc: Global,
        inst: &Instance,
        pool: &ShorePool,
        allowed: &Allowed,
        decision: &Decision,
    ) -> Result<i128, Memory>
        requires { allowed.now.size ≡ inst.now.required }
    {
        let count = self.master.constraints.len();
        let mut copy = self.program.copy(alloc)?;
        forbid_unlawful(alloc, inst, &self.master, allowed, &mut copy)?;
        use_decision(alloc, inst, pool, decision, &mut self.master, &mut copy)?;
        let value = copy.estimate(alloc, &self.master.store, STEPS)?;
        let touched = copy.work().saturating_sub(self.program.work());
        self.spent = self.spent.saturating_add(touched);
        if count < self.master.constraints.len() {
            self.master.forget_constraints(inst, count);
        }
        Ok(i128::from(value))
    }

    /// Goes on for a child, with its branch, from what was kept of the leaf, and answers what it comes to after a few
    /// fills of the table.
    ///
    /// It asks for a table that was made for the instance. The only error is want of memory. It takes up to 8 fills of
    /// the table, and 4 * 10^8 entries of the program.
    pub fn try_child(
        &mut self,
        alloc: Global,
        problem: &PricingProblem<'_>,
        table: &mut Table,
        pool: &ShorePool,
        child: &Branch,
        kept: &Kept,
    ) -> Result<i128, Memory>
        requires problem { IsPricingProblem problem.now }
        requires room { IsRoom problem.now.inst.now table.old }
        ensures { IsRoom problem.now.inst.now table.new }
    {
        let limits = Limits::of_trial(self.limits.enough);
        self.take_up(alloc, problem, pool, child, kept, limits)?;
        self.go_on(alloc, problem, table)?;
        if self.program.work() > limits.work {
            return Ok(self.best.value);
        }
        Ok(self.value().max(self.best.value))
    }
}
