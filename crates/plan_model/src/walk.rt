// A list of steps.
ghost use Rattle.std.specs.Prelude.{◌≡◌, ◌+◌, ◌-◌, ◌^◌, ◌<◌, ◌++◌, ◌∷◌, [], length, OnOk, OnErr, IfOk};
ghost use Rattle.plan_model.specs.Plans.{step_at};

use crate::Step;
use carp_base::Memory;
use std::alloc::Global;
use std::marker::Model;

/// A list of fewer than 2^32 steps. It need not chain, nor start at the depot.
#[derive(Drop)]
pub struct Walk {
    steps: Vec<Step>,
}

impl Model for Walk {
    ghost use Rattle.std.specs.Prelude.{List, ◌^◌, ◌<◌, length};
    ghost use Rattle.plan_model.specs.declared.step.Step.{Step};

    ghost Value = { List Step };

    ghost view = { λ w. w.steps.items };

    ghost invariant = { λ w. length w.steps.items < 2 ^ 32 };
}

impl Walk {
    /// The walk of no steps.
    pub fn new(alloc: Global) -> Walk
        ensures { result ≡ [] }
    {
        Walk {
            steps: Vec::new(alloc),
        }
    }

    /// Adds a step at the end. Without memory the walk stays as it was.
    pub fn push(&mut self, s: Step) -> Result<(), Memory>
        requires { length self.old < 2 ^ 32 - 1 }
        ensures ok { OnOk result (self.new ≡ self.old ++ s ∷ []) }
        ensures err { OnErr result (self.new ≡ self.old) }
    {
        self.steps.push(s)?;
        Ok(())
    }

    /// The number of steps.
    pub fn len(&self) -> usize
        ensures value { result ≡ length self.now }
        ensures short { length self.now < 2 ^ 32 }
    {
        self.steps.len()
    }

    /// The step at a place from 0.
    pub fn step(&self, i: usize) -> Step
        requires { i < length self.now }
        ensures { result ≡ step_at self.now i }
    {
        self.steps[i]
    }

    /// A walk with the same steps.
    pub(crate) fn copy(&self, alloc: Global) -> Result<Walk, Memory>
        ensures { IfOk result (λ walk. walk ≡ self.now) }
    {
        let steps = Vec::from_slice(alloc, &self.steps)?;
        Ok(Walk { steps })
    }
}
