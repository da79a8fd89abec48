// Solves an instance.
ghost use Rattle.std.specs.Prelude.{◌≡◌, ◌⊎◌, ◌≢◌, ◌≤◌, ◌^◌, ◌%◌, ◌+◌, [], ◌∷◌, All, EachIndex, map, slice_index, IfOk, OnOk};
ghost use Rattle.plan_model.specs.Plans.{IsLawful};
ghost use Rattle.cert_lines.specs.Spelling.{IsSpellable};
ghost use Rattle.cert_format.specs.Certs.{certificate_in};
ghost use Rattle.command_outputs.specs.Solving.{IsSolvedBy, IsTold};
ghost use Rattle.command_outputs.specs.Outputs.{output_in};

use crate::delivery::{Delivery, Kept};
use carp_base::{Instance, Memory};
use carp_engine::{Solved, solve_with};
use cert_format::write_cert;
use command_inputs::Status;
use leaf_adviser::Adviser;
use plan_model::Proposer;
use plan_print::report;
use progress::Watch;
use std::alloc::Global;

/// Solves an instance with so many turns, and with the aid of the helpers, which are seeded from the seed on. Builds
/// the texts of its certificate, which is to be kept under this name, and of its report.
pub(crate) fn solve_instance<'a, P: Proposer, A: Adviser, W: Watch>(
    alloc: Global,
    inst: &Instance,
    cert: &'a str,
    turns: u64,
    seed: u64,
    helpers: &mut Vec<P>,
    advisers: &mut Vec<A>,
    watch: &mut W,
) -> Result<Delivery<'a>, Memory>
    requires some_turns { 1 ≤ turns }
    requires turns_in_range { turns ≤ 1048576 }
    ensures solved { IfOk result (λ d. ((d.status ≡ Status.Proven) ⊎ (d.status ≡ Status.Gap)) × IsSolvedBy inst.now cert.now turns (map (λ helper. (P.tally helper).least) helpers.new.items) d.status (output_in d)) }
    ensures same { map P.id helpers.new.items ≡ map P.id helpers.old.items }
    ensures seeds { OnOk result (EachIndex helpers.new.items (λ k. slice_index (map P.seed helpers.new.items) k ≡ (seed + k) % 2 ^ 64)) }
    ensures asked { OnOk result (All (λ helper. 1 ≤ P.asked helper) helpers.new.items) }
    ensures fouls { OnOk result (All (λ helper. (P.tally helper).fouls ≤ 1) helpers.new.items) }
{
    let solved = solve_with(alloc, inst, turns, seed, helpers, advisers, watch)?;
    deliver_found(alloc, inst, &solved, cert)
}

/// The texts of a certificate, which is to be kept under this name, and of its report.
pub(crate) fn deliver_found<'a>(
    alloc: Global,
    inst: &Instance,
    solved: &Solved,
    name: &'a str,
) -> Result<Delivery<'a>, Memory>
    requires spellable { IsSpellable (certificate_in solved.now.cert) }
    requires lawful { IsLawful inst.now solved.now.cert.plan }
    requires bounded { solved.now.cert.bound ≤ solved.now.cert.cost }
    ensures { IfOk result (λ d. IsTold inst.now (certificate_in solved.now.cert) solved.now.turns name.now d.status (output_in d)) }
{
    let bytes = write_cert(alloc, &solved.cert)?;
    let text = report(alloc, inst, &solved.cert, solved.turns)?;
    let status = ending(solved.cert.bound, solved.cert.cost);
    deliver_one(alloc, name, bytes, text, status)
}

/// What is answered for a bound and a cost.
pub(crate) fn ending(bound: u64, cost: u64) -> Status
    ensures proven { bound ≡ cost → result ≡ Status.Proven }
    ensures gap { bound ≢ cost → result ≡ Status.Gap }
    ensures either { (result ≡ Status.Proven) ⊎ (result ≡ Status.Gap) }
    ensures is_proven { result ≡ Status.Proven → bound ≡ cost }
    ensures is_gap { result ≡ Status.Gap → bound ≢ cost }
{
    if bound == cost {
        Status::Proven
    } else {
        Status::Gap
    }
}

/// An answer that keeps these bytes at one name.
pub(crate) fn deliver_one(
    alloc: Global,
    name: &str,
    bytes: Vec<u8>,
    text: Vec<u8>,
    status: Status,
) -> Result<Delivery<'_>, Memory>
    ensures { IfOk result (λ d. (output_in d ≡ record { kept = record { name = name.now; bytes = bytes.items } ∷ []; text = text.items }) × (d.status ≡ status)) }
{
    let mut kept = Vec::with_capacity(alloc, 1)?;
    kept.push(Kept { name, bytes })?;
    Ok(Delivery { kept, text, status })
}
