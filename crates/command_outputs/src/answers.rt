// What the commands make that solve nothing.
ghost use Rattle.std.specs.Prelude.{◌≡◌, [], ◌∷◌, IfOk, codes};
ghost use Rattle.plan_model.specs.Plans.{IsLawful};
ghost use Rattle.dat_text.specs.DatText.{dat_of};
ghost use Rattle.plan_print.specs.Sheet.{sheet_text};
ghost use Rattle.town_maker.specs.Towns.{town_of};
ghost use Rattle.cert_lines.specs.Spelling.{IsSpellable};
ghost use Rattle.cert_format.specs.Certs.{certificate_in};
ghost use Rattle.command_outputs.specs.Made.{IsKeptAgain};
ghost use Rattle.command_outputs.specs.Texts.{answer_text, made_text};
ghost use Rattle.command_outputs.specs.Outputs.{output_in};

use crate::delivery::Delivery;
use crate::solving::deliver_one;
use carp_base::{Instance, Memory};
use cert_format::{Cert, write_cert};
use command_inputs::Status;
use dat_text::write_dat;
use plan_model::Plan;
use plan_print::{push_line, push_words, sheet};
use std::alloc::Global;
use town_maker::town;

/// The answer for a good certificate of this cost and bound.
pub(crate) fn accept<'a>(alloc: Global, cost: u64, bound: u64) -> Result<Delivery<'a>, Memory>
    ensures { IfOk result (λ d. (d.status ≡ Status.Accepted) × (output_in d ≡ record { kept = []; text = answer_text (codes "accepted\n") cost bound })) }
{
    let text = answer(alloc, b"accepted\n", cost, bound)?;
    Ok(Delivery {
        kept: Vec::new(alloc),
        text,
        status: Status::Accepted,
    })
}

/// The street sheet of a lawful plan.
pub(crate) fn spell_sheet<'a>(
    alloc: Global,
    inst: &Instance,
    plan: &Plan,
) -> Result<Delivery<'a>, Memory>
    requires { IsLawful inst.now plan.now }
    ensures { IfOk result (λ d. (d.status ≡ Status.Done) × (output_in d ≡ record { kept = []; text = sheet_text inst.now plan.now })) }
{
    let text = sheet(alloc, inst, plan)?;
    Ok(Delivery {
        kept: Vec::new(alloc),
        text,
        status: Status::Done,
    })
}

/// The text of the town of a number, to be kept under this name.
pub(crate) fn keep_town(alloc: Global, file: &str, seed: u64) -> Result<Delivery<'_>, Memory>
    ensures { IfOk result (λ d. (d.status ≡ Status.Done) × (output_in d ≡ record { kept = record { name = file.now; bytes = dat_of (town_of seed) } ∷ []; text = made_text (town_of seed) })) }
{
    let inst = town(alloc, seed)?;
    let bytes = write_dat(alloc, &inst)?;
    let text = made_line(alloc, &inst)?;
    deliver_one(alloc, file, bytes, text, Status::Done)
}

/// The text of a certificate, to be kept under this name.
pub(crate) fn renew<'a>(
    alloc: Global,
    cert: &Cert,
    renewed: &'a str,
) -> Result<Delivery<'a>, Memory>
    requires { IsSpellable (certificate_in cert.now) }
    ensures { IfOk result (λ d. (d.status ≡ Status.Done) × IsKeptAgain cert.now renewed.now (output_in d)) }
{
    let bytes = write_cert(alloc, cert)?;
    let text = answer(alloc, b"upgraded\n", cert.cost, cert.bound)?;
    deliver_one(alloc, renewed, bytes, text, Status::Done)
}

/// A first line, the cost, and the bound.
#[tactic(auto, unfolding(crate::specs::Texts::answer_text))]
pub(crate) fn answer(alloc: Global, word: &[u8], cost: u64, bound: u64) -> Result<Vec<u8>, Memory>
    ensures { IfOk result (λ text. text.items ≡ answer_text word.now cost bound) }
{
    let mut text = Vec::from_slice(alloc, word)?;
    push_line(&mut text, b"cost ", u128::from(cost))?;
    push_line(&mut text, b"bound ", u128::from(bound))?;
    Ok(text)
}

// The numbers of a town that was made.
#[tactic(auto, unfolding(crate::specs::Texts::made_text))]
fn made_line(alloc: Global, inst: &Instance) -> Result<Vec<u8>, Memory>
    ensures { IfOk result (λ text. text.items ≡ made_text inst.now) }
{
    let mut text = Vec::new(alloc);
    push_words(&mut text, b"made vertices ", inst.vertices())?;
    push_words(&mut text, b" edges ", inst.edge_count())?;
    push_line(&mut text, b" required ", u128::from(inst.required()))?;
    Ok(text)
}
