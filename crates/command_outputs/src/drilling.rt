// Solves a town, and checks what comes of it.
ghost use Rattle.std.specs.Prelude.{◌≡◌, ◌≤◌, ◌^◌, ◌%◌, ◌+◌, ◌++◌, ◌↔◌, [], All, EachIndex, map, slice_index, IfOk, OnOk, IsTrue};
ghost use Rattle.cert_lines.specs.Spelling.{IsSpellable};
ghost use Rattle.cert_format.specs.Certs.{certificate_in};
ghost use Rattle.cert_format.specs.Good.{IsGood};
ghost use Rattle.town_maker.specs.Towns.{town_of};
ghost use Rattle.command_outputs.specs.Drills.{IsDrilled};
ghost use Rattle.command_outputs.specs.Texts.{drill_line, drill_text, result_text, town_line};
ghost use Rattle.command_outputs.specs.Outputs.{output_in};

use crate::delivery::Delivery;
use carp_base::{Instance, Memory};
use carp_engine::{Solved, solve_with};
use cert_checker::{Answer, check, good_has_no_reason};
use cert_format::Cert;
use command_inputs::Status;
use leaf_adviser::Adviser;
use plan_model::Proposer;
use plan_print::{push_line, push_words};
use progress::Watch;
use std::alloc::Global;
use town_maker::town;

/// Solves the town of a number with so many turns, and with the aid of the helpers, which are seeded from it on. Checks
/// the certificate, and sums up what came of it.
pub(crate) fn drill<'a, P: Proposer, A: Adviser, W: Watch>(
    alloc: Global,
    turns: u64,
    seed: u64,
    helpers: &mut Vec<P>,
    advisers: &mut Vec<A>,
    watch: &mut W,
) -> Result<Delivery<'a>, Memory>
    requires some_turns { 1 ≤ turns }
    requires turns_in_range { turns ≤ 1048576 }
    ensures drilled { IfOk result (λ d. (d.status ≡ Status.Done) × IsDrilled seed turns (map (λ helper. (P.tally helper).least) helpers.new.items) (output_in d)) }
    ensures same { map P.id helpers.new.items ≡ map P.id helpers.old.items }
    ensures seeds { OnOk result (EachIndex helpers.new.items (λ k. slice_index (map P.seed helpers.new.items) k ≡ (seed + k) % 2 ^ 64)) }
    ensures asked { OnOk result (All (λ helper. 1 ≤ P.asked helper) helpers.new.items) }
    ensures fouls { OnOk result (All (λ helper. (P.tally helper).fouls ≤ 1) helpers.new.items) }
{
    let inst = town(alloc, seed)?;
    drill_town(alloc, turns, seed, &inst, helpers, advisers, watch)
}

// The same for a town that is made.
fn drill_town<'a, P: Proposer, A: Adviser, W: Watch>(
    alloc: Global,
    turns: u64,
    seed: u64,
    inst: &Instance,
    helpers: &mut Vec<P>,
    advisers: &mut Vec<A>,
    watch: &mut W,
) -> Result<Delivery<'a>, Memory>
    requires town { inst.now ≡ town_of seed }
    requires some_turns { 1 ≤ turns }
    requires turns_in_range { turns ≤ 1048576 }
    ensures drilled { IfOk result (λ d. (d.status ≡ Status.Done) × IsDrilled seed turns (map (λ helper. (P.tally helper).least) helpers.new.items) (output_in d)) }
    ensures same { map P.id helpers.new.items ≡ map P.id helpers.old.items }
    ensures seeds { OnOk result (EachIndex helpers.new.items (λ k. slice_index (map P.seed helpers.new.items) k ≡ (seed + k) % 2 ^ 64)) }
    ensures asked { OnOk result (All (λ helper. 1 ≤ P.asked helper) helpers.new.items) }
    ensures fouls { OnOk result (All (λ helper. (P.tally helper).fouls ≤ 1) helpers.new.items) }
{
    let solved = solve_with(alloc, inst, turns, seed, helpers, advisers, watch)?;
    deliver_checked(alloc, seed, turns, inst, &solved)
}

// What came of a drill, once a check has accepted the certificate.
fn deliver_checked<'a>(
    alloc: Global,
    seed: u64,
    turns: u64,
    inst: &Instance,
    solved: &Solved,
) -> Result<Delivery<'a>, Memory>
    requires spellable { IsSpellable (certificate_in solved.now.cert) }
    requires good { IsGood inst.now (certificate_in solved.now.cert) }
    ensures { IfOk result (λ d. (d.status ≡ Status.Done) × (output_in d ≡ record { kept = []; text = drill_text seed turns inst.now solved.now.cert.cost solved.now.cert.bound solved.now.turns })) }
{
    if !is_accepted(alloc, inst, &solved.cert)? {
        unreachable!();
    }
    let text = summary(alloc, seed, turns, inst, solved)?;
    Ok(Delivery {
        kept: Vec::new(alloc),
        text,
        status: Status::Done,
    })
}

// Whether a check accepts the certificate.
fn is_accepted(alloc: Global, inst: &Instance, cert: &Cert) -> Result<bool, Memory>
    requires { IsSpellable (certificate_in cert.now) }
    ensures { IfOk result (λ accepted. IsTrue accepted ↔ IsGood inst.now (certificate_in cert.now)) }
{
    good_has_no_reason();
    match check(alloc, inst, cert)? {
        Answer::Accepted => Ok(true),
        Answer::Rejected(_) => Ok(false),
    }
}

// What came of a drill.
#[tactic(auto, unfolding(crate::specs::Texts::drill_text))]
fn summary(
    alloc: Global,
    seed: u64,
    turns: u64,
    inst: &Instance,
    solved: &Solved,
) -> Result<Vec<u8>, Memory>
    ensures { IfOk result (λ text. text.items ≡ drill_text seed turns inst.now solved.now.cert.cost solved.now.cert.bound solved.now.turns) }
{
    let mut text = Vec::new(alloc);
    push_drill(&mut text, seed, turns)?;
    push_town(&mut text, inst)?;
    push_result(&mut text, solved.cert.cost, solved.cert.bound, solved.turns)?;
    text.extend_from_slice(b"accepted\n")?;
    Ok(text)
}

#[tactic(auto, unfolding(crate::specs::Texts::drill_line))]
fn push_drill(text: &mut Vec<u8>, seed: u64, turns: u64) -> Result<(), Memory>
    ensures { OnOk result (text.new.items ≡ text.old.items ++ drill_line seed turns) }
{
    push_words(text, b"drill seed ", seed)?;
    push_line(text, b" turns ", u128::from(turns))
}

#[tactic(auto, unfolding(crate::specs::Texts::town_line))]
fn push_town(text: &mut Vec<u8>, inst: &Instance) -> Result<(), Memory>
    ensures { OnOk result (text.new.items ≡ text.old.items ++ town_line inst.now) }
{
    push_words(text, b"edges ", inst.edge_count())?;
    push_words(text, b" required ", inst.required())?;
    push_line(text, b" demand ", u128::from(inst.total_demand()))
}

#[tactic(auto, unfolding(crate::specs::Texts::result_text))]
fn push_result(text: &mut Vec<u8>, cost: u64, bound: u64, turns: u64) -> Result<(), Memory>
    ensures { OnOk result (text.new.items ≡ text.old.items ++ result_text cost bound turns) }
{
    push_line(text, b"cost ", u128::from(cost))?;
    push_line(text, b"bound ", u128::from(bound))?;
    push_line(text, b"turns ", u128::from(turns))
}
