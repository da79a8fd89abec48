// A list of walks.
ghost use Rattle.std.specs.Prelude.{◌≡◌, ◌-◌, ◌^◌, ◌<◌, ◌++◌, ◌∷◌, [], length, OnOk, OnErr, IfOk};
ghost use Rattle.plan_model.specs.Plans.{walk_at};

use crate::Walk;
use carp_base::Memory;
use std::alloc::Global;
use std::marker::Model;

/// A list of fewer than 2^32 walks. It need not be lawful.
#[derive(Drop)]
pub struct Plan {
    walks: Vec<Walk>,
}

impl Model for Plan {
    ghost use Rattle.std.specs.Prelude.{List, ◌^◌, ◌<◌, length};
    ghost use Rattle.plan_model.specs.declared.step.Step.{Step};

    ghost Value = { List (List Step) };

    ghost view = { λ p. p.walks.items };

    ghost invariant = { λ p. length p.walks.items < 2 ^ 32 };
}

impl Plan {
    /// The plan of no walks.
    pub fn new(alloc: Global) -> Plan
        ensures { result ≡ [] }
    {
        Plan {
            walks: Vec::new(alloc),
        }
    }

    /// Adds a walk at the end. Without memory the plan stays as it was, and the walk is dropped.
    pub fn push(&mut self, w: Walk) -> Result<(), Memory>
        requires { length self.old < 2 ^ 32 - 1 }
        ensures ok { OnOk result (self.new ≡ self.old ++ w ∷ []) }
        ensures err { OnErr result (self.new ≡ self.old) }
    {
        self.walks.push(w)?;
        Ok(())
    }

    /// The number of walks.
    pub fn len(&self) -> usize
        ensures value { result ≡ length self.now }
        ensures short { length self.now < 2 ^ 32 }
    {
        self.walks.len()
    }

    /// The walk at a place from 0.
    pub fn walk(&self, i: usize) -> &Walk
        requires { i < length self.now }
        ensures value { result.now ≡ walk_at self.now i }
        ensures short { length result.now < 2 ^ 32 }
    {
        let walk = &self.walks[i];
        // What a read of the walk says of it reaches the caller, who needs that it is short.
        let _ = walk.len();
        walk
    }

    /// A plan with the same walks, in time and memory in proportion to the walks and steps. The only error is want of
    /// memory.
    pub fn copy(&self, alloc: Global) -> Result<Plan, Memory>
        ensures { IfOk result (λ plan. plan ≡ self.now) }
    {
        let mut walks = Vec::with_capacity(alloc, self.walks.len())?;
        for i in 0..self.walks.len() {
            walks.push(self.walks[i].copy(alloc)?)?;
        }
        Ok(Plan { walks })
    }
}
