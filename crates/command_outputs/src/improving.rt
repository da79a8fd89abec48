// Goes on from a certificate.
ghost use Rattle.std.specs.Prelude.{◌≡◌, ◌⊎◌, ◌≤◌, ◌^◌, ◌%◌, ◌+◌, All, EachIndex, map, slice_index, IfOk, OnOk};
ghost use Rattle.cert_lines.specs.Spelling.{IsSpellable};
ghost use Rattle.cert_format.specs.Certs.{certificate_in};
ghost use Rattle.cert_format.specs.Good.{IsGood};
ghost use Rattle.command_outputs.specs.Improving.{IsImprovedBy};
ghost use Rattle.command_outputs.specs.Outputs.{output_in};

use crate::delivery::Delivery;
use crate::solving::deliver_found;
use carp_base::{Instance, Memory};
use carp_engine::improve;
use cert_format::Cert;
use command_inputs::Status;
use leaf_adviser::Adviser;
use plan_model::Proposer;
use progress::Watch;
use std::alloc::Global;

/// Goes on from a certificate that is good for the instance, with so many turns more and with the aid of the helpers,
/// which are seeded from the seed on. Builds the texts of the certificate that comes of it, which is to be kept under
/// this name, and of its report.
pub(crate) fn improve_instance<'a, P: Proposer, A: Adviser, W: Watch>(
    alloc: Global,
    inst: &Instance,
    cert: Cert,
    improved: &'a str,
    turns: u64,
    seed: u64,
    helpers: &mut Vec<P>,
    advisers: &mut Vec<A>,
    watch: &mut W,
) -> Result<Delivery<'a>, Memory>
    requires some_turns { 1 ≤ turns }
    requires turns_in_range { turns ≤ 1048576 }
    requires spellable { IsSpellable (certificate_in cert) }
    requires good { IsGood inst.now (certificate_in cert) }
    ensures improved { IfOk result (λ d. ((d.status ≡ Status.Proven) ⊎ (d.status ≡ Status.Gap))
        × IsImprovedBy inst.now (certificate_in cert) improved.now turns (map (λ helper. (P.tally helper).least) helpers.new.items) d.status (output_in d)) }
    ensures same { map P.id helpers.new.items ≡ map P.id helpers.old.items }
    ensures seeds { OnOk result (EachIndex helpers.new.items (λ k. slice_index (map P.seed helpers.new.items) k ≡ (seed + k) % 2 ^ 64)) }
    ensures asked { OnOk result (All (λ helper. 1 ≤ P.asked helper) helpers.new.items) }
    ensures fouls { OnOk result (All (λ helper. (P.tally helper).fouls ≤ 1) helpers.new.items) }
{
    let better = improve(alloc, inst, cert, turns, seed, helpers, advisers, watch)?;
    deliver_found(alloc, inst, &better, improved)
}
