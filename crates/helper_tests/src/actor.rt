// A helper that offers what it is told, lawful or not.
ghost use Rattle.std.specs.Prelude.{◌≡◌, ◌<◌, List, Ok, Some};
ghost use Rattle.carp_base.specs.Problem.{Problem};
ghost use Rattle.plan_model.specs.declared.step.Step.{Step};
ghost use Rattle.plan_model.specs.Offers.{AfterOffer};
ghost use Rattle.plan_model.specs.Verdicts.{IsVerdict};

use carp_base::{Instance, Memory};
use helper_frame::Standing;
use plan_model::{JudgeRoom, Plan, Proposer, Verdict, judge, verdicts_are_exact};
use samples::plan_of;
use std::alloc::Global;
use std::test::Fail;

/// What a helper offers.
#[derive(Drop)]
pub enum Part {
    /// A copy of a plan.
    Plan(Plan),
    Nothing,
    /// It has no memory.
    NoMemory,
}

impl Part {
    /// The plan of a text, `nothing`, or `no memory`.
    pub fn of(alloc: Global, text: &str) -> Result<Part, Fail> {
        match text {
            "nothing" => Ok(Part::Nothing),
            "no memory" => Ok(Part::NoMemory),
            _ => Ok(Part::Plan(plan_of(alloc, text)?)),
        }
    }

    // The plan that is offered.
    fn plan(&self, alloc: Global) -> Result<Option<Plan>, Memory> {
        match self {
            Part::Plan(plan) => Ok(Some(plan.copy(alloc)?)),
            Part::Nothing => Ok(None),
            Part::NoMemory => Err(Memory),
        }
    }
}

#[derive(Drop)]
pub struct Actor {
    pub standing: Standing,
    pub part: Part,
}

impl Actor {
    // Counts the offer of a plan with this verdict.
    fn count(&mut self, verdict: Verdict)
        requires { self.old.standing.fouls < 1000 }
        ensures id { self.new.standing.id ≡ self.old.standing.id }
        ensures seed { self.new.standing.seed ≡ self.old.standing.seed }
        ensures asked { self.new.standing.asked ≡ self.old.standing.asked }
        ensures offer { (p : Problem) (plan : List (List Step)) → IsVerdict p plan verdict → AfterOffer p (Ok (Some plan)) (⟦<Actor as Proposer>⟧.tally self.old) (⟦<Actor as Proposer>⟧.tally self.new) }
    {
        // A verdict other than `Lawful` is of no lawful plan.
        verdicts_are_exact();
        match verdict {
            Verdict::Lawful { cost } => self.standing.offer(cost),
            _ => {
                self.standing.fouls += 1;
                self.standing.last = None;
            }
        }
    }
}

impl Proposer for Actor {
    ghost use Rattle.helper_frame.specs.Standings.{tally_of};

    ghost id = { λ h. h.standing.id };

    ghost seed = { λ h. h.standing.seed };

    ghost asked = { λ h. h.standing.asked };

    ghost tally = { λ h. tally_of h.standing };

    fn id(&self) -> u64 {
        self.standing.id
    }

    fn fouls(&self) -> u64 {
        self.standing.fouls
    }

    fn reseed(&mut self, word: u64) {
        self.standing.reseed(word);
    }

    fn propose(
        &mut self,
        alloc: Global,
        inst: &Instance,
        _best: &Plan,
    ) -> Result<Option<Plan>, Memory> {
        self.standing.ask();
        let Some(plan) = self.part.plan(alloc)? else {
            return Ok(None);
        };
        let mut room = JudgeRoom::new(alloc, inst)?;
        self.count(judge(inst, &plan, &mut room));
        Ok(Some(plan))
    }
}
