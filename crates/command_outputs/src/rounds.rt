// Spells a round of the postman.
ghost use Rattle.std.specs.Prelude.{◌≡◌, [], IfOk};
ghost use Rattle.plan_model.specs.Plans.{IsOnEdges};
ghost use Rattle.postman.specs.Rounds.{IsShownRound, deadheads_in};
ghost use Rattle.command_outputs.specs.Rounds.{round_text};
ghost use Rattle.command_outputs.specs.Outputs.{output_in};

use crate::delivery::Delivery;
use carp_base::{Instance, Memory};
use command_inputs::{Laid, Status};
use plan_model::Walk;
use plan_print::{push_line, push_route};
use std::alloc::Global;

/// A least closed walk over all required edges: its cost, its deadheads and its route.
pub(crate) fn spell_round<'a>(alloc: Global, laid: &Laid) -> Result<Delivery<'a>, Memory>
    requires { IsShownRound laid.now.inst laid.now.round.walk laid.now.round.shores.items laid.now.round.cost }
    ensures { IfOk result (λ d. (d.status ≡ Status.Done) × (output_in d ≡ record { kept = []; text = round_text laid.now.inst laid.now.round.walk laid.now.round.cost })) }
{
    let text = round_lines(alloc, &laid.inst, &laid.round.walk, laid.round.cost)?;
    Ok(Delivery {
        kept: Vec::new(alloc),
        text,
        status: Status::Done,
    })
}

#[tactic(auto, unfolding(crate::specs::Rounds::round_text))]
fn round_lines(alloc: Global, inst: &Instance, walk: &Walk, cost: u64) -> Result<Vec<u8>, Memory>
    requires { IsOnEdges inst.now walk.now }
    ensures { IfOk result (λ text. text.items ≡ round_text inst.now walk.now cost) }
{
    let mut text = Vec::new(alloc);
    push_line(&mut text, b"postman cost ", u128::from(cost))?;
    push_line(&mut text, b"deadheads ", deadheads(walk) as u128)?;
    text.extend_from_slice(b"route ")?;
    push_route(&mut text, inst, walk)?;
    text.push(b'\n')?;
    Ok(text)
}

// How many steps of a walk do not serve.
fn deadheads(walk: &Walk) -> usize
    ensures { result ≡ deadheads_in walk.now }
{
    let mut count = 0;
    for i in 0..walk.len() {
        if !walk.step(i).served {
            count += 1;
        }
    }
    count
}
