// Goes on from a certificate.
ghost use Rattle.std.specs.Prelude.{◌≡◌, ◌⊎◌, ◌+◌, ◌%◌, ◌^◌, ◌≤◌, All, EachIndex, IfOk, OnOk, length, map, slice_index};
ghost use Rattle.deadhead_paths.specs.Prices.{costs_of};
ghost use Rattle.plan_model.specs.Plans.{IsLawful, plan_cost};
ghost use Rattle.task_tours.specs.Shorts.{IsShortPlan};
ghost use Rattle.helper_rounds.specs.Asking.{standings};
ghost use Rattle.helper_rounds.specs.Helpers.{IsAtMost};
ghost use Rattle.cert_lines.specs.Spelling.{IsSpellable};
ghost use Rattle.cert_format.specs.Certs.{certificate_in};
ghost use Rattle.cert_format.specs.Good.{IsGood};
ghost use Rattle.carp_engine.specs.Asked.{AreAskedFrom};
ghost use Rattle.carp_engine.specs.Improved.{IsImproved};

use crate::Solved;
use crate::laws::known_laws;
use crate::searching::search_on;
use carp_base::{Instance, Memory};
use cert_format::Cert;
use deadhead_paths::{Distances, tidy};
use helper_rounds::ask_all;
use leaf_adviser::Adviser;
use plan_model::{Plan, Proposer};
use progress::Watch;
use std::alloc::Global;
use task_tours::cost_distances;
use tree_transfer::{keep_named_sets, note_nodes};

/// The best plan that the helpers find from that of a good certificate on, whoever made it, and what a search shows
/// that goes on from its tree. The plan costs no more than the old one, and the bound is no lower.
///
/// First the old plan's tours are joined by least paths, and its tours without service are left out. The helpers are
/// seeded and asked as in [`solve`](crate::solve). Then the search takes up the old tree with its price sets and its
/// shores, and goes on for so many turns more than the tree has for the cost of that plan, up to 1,048,576 in all. So
/// if the bound is below the cost, the tree has at least as many turns as the old one had for the old cost and so many
/// more, or 1,048,576.
///
/// Price sets that no leaf of the old tree names are left out before. If its leaves name 256, or the old certificate has
/// 2,000 shores, the limits of a certificate leave room for no more. The only error is want of memory.
///
/// Beside what `solve` takes for helpers and turns, it takes the time of a check of the old tree.
pub fn improve<P: Proposer, A: Adviser, W: Watch>(
    alloc: Global,
    inst: &Instance,
    cert: Cert,
    turns: u64,
    seed: u64,
    helpers: &mut Vec<P>,
    advisers: &mut Vec<A>,
    watch: &mut W,
) -> Result<Solved, Memory>
    requires some_turns { 1 ≤ turns }
    requires turns_in_range { turns ≤ 1048576 }
    requires spellable { IsSpellable (certificate_in cert) }
    requires good { IsGood inst.now (certificate_in cert) }
    ensures same { map P.id helpers.new.items ≡ map P.id helpers.old.items }
    ensures seeds { OnOk result (EachIndex helpers.new.items (λ k. slice_index (map P.seed helpers.new.items) k ≡ (seed + k) % 2 ^ 64)) }
    ensures asked { OnOk result (All (λ helper. 1 ≤ P.asked helper) helpers.new.items) }
    ensures few_rounds { OnOk result (All (λ helper. P.asked helper ≤ 4) helpers.new.items) }
    ensures fouls { OnOk result (All (λ helper. (P.tally helper).fouls ≤ 1) helpers.new.items) }
    ensures least { IfOk result (λ solved. All (λ helper. IsAtMost solved.cert.cost (P.tally helper).least) helpers.new.items) }
    ensures rounds { IfOk result (λ solved. AreAskedFrom inst.now (certificate_in cert).plan (length helpers.old.items) (standings P.asked P.tally helpers.new.items) solved.cert.cost) }
    ensures improved { IfOk result (λ solved. IsImproved inst.now (certificate_in cert) (certificate_in solved.cert) turns solved.turns) }
    ensures ended { IfOk result (λ solved. (solved.cert.bound ≡ solved.cert.cost) ⊎ (turns ≤ solved.turns)) }
{
    let helped = help(alloc, inst, &cert.plan, seed, helpers, watch)?;
    take_up(alloc, inst, cert, turns, helped, advisers, watch)
}

// A plan that helpers found, and the distances by cost.
#[derive(Drop)]
struct Helped {
    dist: Distances,
    plan: Plan,
}

// The best plan that the helpers find from a lawful plan on.
fn help<P: Proposer, W: Watch>(
    alloc: Global,
    inst: &Instance,
    start: &Plan,
    seed: u64,
    helpers: &mut Vec<P>,
    watch: &mut W,
) -> Result<Helped, Memory>
    requires { IsLawful inst.now start.now }
    ensures same { map P.id helpers.new.items ≡ map P.id helpers.old.items }
    ensures seeds { OnOk result (EachIndex helpers.new.items (λ k. slice_index (map P.seed helpers.new.items) k ≡ (seed + k) % 2 ^ 64)) }
    ensures asked { OnOk result (All (λ helper. 1 ≤ P.asked helper) helpers.new.items) }
    ensures few_rounds { OnOk result (All (λ helper. P.asked helper ≤ 4) helpers.new.items) }
    ensures fouls { OnOk result (All (λ helper. (P.tally helper).fouls ≤ 1) helpers.new.items) }
    ensures least { IfOk result (λ helped. All (λ helper. IsAtMost (plan_cost inst.now helped.plan) (P.tally helper).least) helpers.new.items) }
    ensures rounds { IfOk result (λ helped. AreAskedFrom inst.now start.now (length helpers.old.items) (standings P.asked P.tally helpers.new.items) (plan_cost inst.now helped.plan)) }
    ensures problem { IfOk result (λ helped. helped.dist.problem ≡ inst.now) }
    ensures prices { IfOk result (λ helped. helped.dist.prices ≡ costs_of inst.now) }
    ensures short { IfOk result (λ helped. IsShortPlan inst.now helped.plan) }
    ensures no_dearer { IfOk result (λ helped. plan_cost inst.now helped.plan ≤ plan_cost inst.now start.now) }
{
    let dist = cost_distances(alloc, inst)?;
    let mut plan = tidy(alloc, inst, &dist, start)?;
    watch.asks();
    ask_all(alloc, inst, &dist, &mut plan, helpers, seed)?;
    Ok(Helped { dist, plan })
}

// What a search shows that takes up the tree of a good certificate, with a plan that costs no more.
fn take_up<A: Adviser, W: Watch>(
    alloc: Global,
    inst: &Instance,
    cert: Cert,
    turns: u64,
    helped: Helped,
    advisers: &mut Vec<A>,
    watch: &mut W,
) -> Result<Solved, Memory>
    requires some_turns { 1 ≤ turns }
    requires turns_in_range { turns ≤ 1048576 }
    requires spellable { IsSpellable (certificate_in cert) }
    requires good { IsGood inst.now (certificate_in cert) }
    requires problem { helped.dist.problem ≡ inst.now }
    requires prices { helped.dist.prices ≡ costs_of inst.now }
    requires short { IsShortPlan inst.now helped.plan }
    requires cheap { plan_cost inst.now helped.plan ≤ cert.cost }
    ensures improved { IfOk result (λ solved. IsImproved inst.now (certificate_in cert) (certificate_in solved.cert) turns solved.turns) }
    ensures no_dearer { IfOk result (λ solved. solved.cert.cost ≤ plan_cost inst.now helped.plan) }
{
    known_laws();
    inst.validity();
    let mut nodes = note_nodes(
        alloc,
        inst,
        &cert.shores,
        &cert.sets,
        &helped.dist,
        &cert.tree,
    )?;
    let sets = keep_named_sets(alloc, cert.sets, &mut nodes)?;
    search_on(
        alloc,
        inst,
        turns,
        helped.plan,
        &nodes,
        sets,
        cert.shores,
        cert.bound,
        advisers,
        watch,
    )
}
