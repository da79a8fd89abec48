// Asks a list of helpers, round after round.
ghost use Rattle.std.specs.Prelude.{◌≡◌, ◌+◌, ◌%◌, ◌^◌, ◌<◌, ◌≤◌, All, EachIndex, IfOk, None, OnOk, length, map, replicate, slice_index};
ghost use Rattle.deadhead_paths.specs.Prices.{costs_of};
ghost use Rattle.plan_model.specs.Plans.{plan_cost};
ghost use Rattle.task_tours.specs.Shorts.{IsShortPlan};
ghost use Rattle.helper_rounds.specs.Asking.{AreRounds, IsRound, IsTurn, TellsOfBetter, fresh, standings};
ghost use Rattle.helper_rounds.specs.Helpers.{IsAtMost, IsFit};

use crate::consulting::{Heard, hear};
use carp_base::{Instance, Memory};
use deadhead_paths::Distances;
use plan_model::{Plan, Proposer};
use std::alloc::Global;

// How often each helper is asked at most.
const ROUNDS: u64 = 4;

// Gives each helper a seed of its own: the word plus its place, from 0.
fn reseed_all<P: Proposer>(helpers: &mut Vec<P>, word: u64)
    ensures same { map P.id helpers.new.items ≡ map P.id helpers.old.items }
    ensures seeds { EachIndex helpers.new.items (λ k. slice_index (map P.seed helpers.new.items) k ≡ (word + k) % 2 ^ 64) }
    ensures fresh { All (λ helper. (P.asked helper ≡ 0) × (P.tally helper ≡ record { fouls = 0; least = None; last = None })) helpers.new.items }
{
    for i in 0..helpers.len() {
        reseed(&mut helpers[i], word.wrapping_add(i as u64));
    }
}

fn reseed<P: Proposer>(helper: &mut P, word: u64)
    ensures id { P.id helper.new ≡ P.id helper.old }
    ensures seed { P.seed helper.new ≡ word }
    ensures fresh { (P.asked helper.new ≡ 0) × (P.tally helper.new ≡ record { fouls = 0; least = None; last = None }) }
{
    helper.reseed(word);
}

// Asks a helper, if it has no foul, and says whether its offer was taken.
fn ask<P: Proposer>(
    alloc: Global,
    inst: &Instance,
    dist: &Distances,
    best: &mut Plan,
    helper: &mut P,
    round: u64,
) -> Result<bool, Memory>
    requires problem { dist.now.problem ≡ inst.now }
    requires prices { dist.now.prices ≡ costs_of inst.now }
    requires short { IsShortPlan inst.now best.old }
    requires round { round < 900 }
    requires fit { IsFit round (plan_cost inst.now best.old) (P.asked helper.old) (P.tally helper.old) }
    ensures id { P.id helper.new ≡ P.id helper.old }
    ensures seed { P.seed helper.new ≡ P.seed helper.old }
    ensures fit { OnOk result (IsFit (round + 1) (plan_cost inst.now best.new) (P.asked helper.new) (P.tally helper.new)) }
    ensures asked { OnOk result (1 ≤ P.asked helper.new) }
    ensures turn { OnOk result (IsTurn inst.now best.old (record { asked = P.asked helper.old; tally = P.tally helper.old }) (record { asked = P.asked helper.new; tally = P.tally helper.new }) best.new) }
    ensures better { IfOk result (λ taken. TellsOfBetter inst.now taken best.old best.new) }
    ensures short { IsShortPlan inst.now best.new }
    ensures no_dearer { plan_cost inst.now best.new ≤ plan_cost inst.now best.old }
{
    if helper.fouls() > 0 {
        return Ok(false);
    }
    let offer = helper.propose(alloc, inst, best)?;
    let heard = hear(alloc, inst, dist, best, offer)?;
    Ok(heard == Heard::Better)
}

// Asks each helper without a foul once, and says whether an offer was taken.
fn ask_round<P: Proposer>(
    alloc: Global,
    inst: &Instance,
    dist: &Distances,
    best: &mut Plan,
    helpers: &mut Vec<P>,
    round: u64,
) -> Result<bool, Memory>
    requires problem { dist.now.problem ≡ inst.now }
    requires prices { dist.now.prices ≡ costs_of inst.now }
    requires short { IsShortPlan inst.now best.old }
    requires round { round < 900 }
    requires fit { All (λ helper. IsFit round (plan_cost inst.now best.old) (P.asked helper) (P.tally helper)) helpers.old.items }
    ensures same { map P.id helpers.new.items ≡ map P.id helpers.old.items }
    ensures seeds { map P.seed helpers.new.items ≡ map P.seed helpers.old.items }
    ensures fit { OnOk result (All (λ helper. IsFit (round + 1) (plan_cost inst.now best.new) (P.asked helper) (P.tally helper)) helpers.new.items) }
    ensures asked { OnOk result (All (λ helper. 1 ≤ P.asked helper) helpers.new.items) }
    ensures turns { OnOk result (IsRound inst.now (record { best = best.old; helpers = standings P.asked P.tally helpers.old.items }) (record { best = best.new; helpers = standings P.asked P.tally helpers.new.items })) }
    ensures better { IfOk result (λ better. TellsOfBetter inst.now better best.old best.new) }
    ensures short { IsShortPlan inst.now best.new }
    ensures no_dearer { plan_cost inst.now best.new ≤ plan_cost inst.now best.old }
{
    let mut better = false;
    for i in 0..helpers.len() {
        let taken = ask(alloc, inst, dist, best, &mut helpers[i], round)?;
        better |= taken;
    }
    Ok(better)
}

/// Gives each helper a seed of its own: the word plus its place from 0, modulo 2^64. Then it asks all helpers in up to
/// four rounds, each time in the order of the list. A lawful plan that costs less takes the place of the best one at
/// once. After an unlawful offer a helper is not asked again. A round without a better plan is the last.
///
/// The best plan is short before and after, and costs no more than before. The only error is want of memory, and this
/// holds after it too. The list keeps its helpers in their order. The distances are those by cost.
///
/// Beside what the helpers take, it takes time in proportion to the tours and steps of the plans.
pub fn ask_all<P: Proposer>(
    alloc: Global,
    inst: &Instance,
    dist: &Distances,
    best: &mut Plan,
    helpers: &mut Vec<P>,
    word: u64,
) -> Result<(), Memory>
    requires problem { dist.now.problem ≡ inst.now }
    requires prices { dist.now.prices ≡ costs_of inst.now }
    requires short { IsShortPlan inst.now best.old }
    ensures same { map P.id helpers.new.items ≡ map P.id helpers.old.items }
    ensures seeds { EachIndex helpers.new.items (λ k. slice_index (map P.seed helpers.new.items) k ≡ (word + k) % 2 ^ 64) }
    ensures asked { OnOk result (All (λ helper. 1 ≤ P.asked helper) helpers.new.items) }
    ensures few_rounds { OnOk result (All (λ helper. P.asked helper ≤ 4) helpers.new.items) }
    ensures fouls { OnOk result (All (λ helper. (P.tally helper).fouls ≤ 1) helpers.new.items) }
    ensures least { OnOk result (All (λ helper. IsAtMost (plan_cost inst.now best.new) (P.tally helper).least) helpers.new.items) }
    ensures rounds { OnOk result (AreRounds inst.now (record { best = best.old; helpers = replicate (length helpers.old.items) fresh }) (record { best = best.new; helpers = standings P.asked P.tally helpers.new.items })) }
    ensures short { IsShortPlan inst.now best.new }
    ensures no_dearer { plan_cost inst.now best.new ≤ plan_cost inst.now best.old }
{
    reseed_all(helpers, word);
    let mut better = ask_round(alloc, inst, dist, best, helpers, 0)?;
    for round in 1..ROUNDS {
        if !better {
            return Ok(());
        }
        better = ask_round(alloc, inst, dist, best, helpers, round)?;
    }
    Ok(())
}
