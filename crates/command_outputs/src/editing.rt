// What an edit makes.
ghost use Rattle.std.specs.Prelude.{◌≡◌, ◌≤◌, [], ◌∷◌, IfOk};
ghost use Rattle.cert_format.specs.Certs.{certificate_in};
ghost use Rattle.cert_transfer.specs.Transfer.{IsCarriedOver};
ghost use Rattle.command_inputs.specs.Edited.{IsEdited};
ghost use Rattle.command_outputs.specs.Carried.{AreBothKept};
ghost use Rattle.command_outputs.specs.Texts.{edit_text, edited_line};
ghost use Rattle.command_outputs.specs.Outputs.{output_in};

use crate::answers::answer;
use crate::delivery::{Delivery, Kept};
use carp_base::Memory;
use cert_format::{Cert, good_is_proof, write_cert};
use cert_transfer::carry;
use command_inputs::{Edited, Status};
use dat_text::write_dat;
use plan_print::{push_gap, push_line, push_words};
use std::alloc::Global;

/// The edited instance, to be kept under the first name, and the certificate that is carried over to it, to be kept
/// under the second.
pub(crate) fn keep_edited<'a>(
    alloc: Global,
    read: &Edited,
    edited: &'a str,
    carried: &'a str,
) -> Result<Delivery<'a>, Memory>
    requires { IsEdited read.now }
    ensures { IfOk result (λ d. (d.status ≡ Status.Done) × AreBothKept read.now edited.now carried.now (output_in d)) }
{
    let cert = carry(alloc, &read.before, &read.edits, &read.after, &read.cert)?;
    deliver_edited(alloc, read, &cert, edited, carried)
}

// The same for a certificate that is carried over. A `?` at which a certificate is owned would drop it there.
fn deliver_edited<'a>(
    alloc: Global,
    read: &Edited,
    cert: &Cert,
    edited: &'a str,
    carried: &'a str,
) -> Result<Delivery<'a>, Memory>
    requires { IsCarriedOver read.now.after (certificate_in read.now.cert) (certificate_in cert.now) }
    ensures { IfOk result (λ d. (d.status ≡ Status.Done) × AreBothKept read.now edited.now carried.now (output_in d)) }
{
    good_is_proof();
    let (before, after) = (read.before.edge_count(), read.after.edge_count());
    let text = summary(
        alloc,
        after,
        before.saturating_sub(after),
        cert.cost,
        cert.bound,
    )?;
    let first = Kept {
        name: edited,
        bytes: write_dat(alloc, &read.after)?,
    };
    let second = Kept {
        name: carried,
        bytes: write_cert(alloc, cert)?,
    };
    deliver_two(alloc, first, second, text)
}

// Two texts to be kept, one after the other.
fn deliver_two<'a>(
    alloc: Global,
    first: Kept<'a>,
    second: Kept<'a>,
    text: Vec<u8>,
) -> Result<Delivery<'a>, Memory>
    ensures { IfOk result (λ d. (d.status ≡ Status.Done) × (d.kept.items ≡ first.entry ∷ second.entry ∷ []) × (d.text ≡ text)) }
{
    let mut kept = Vec::new(alloc);
    kept.push(first)?;
    kept.push(second)?;
    Ok(Delivery {
        kept,
        text,
        status: Status::Done,
    })
}

// The sizes, the cost and the bound, and the gap between them.
#[tactic(auto, unfolding(crate::specs::Texts::edit_text))]
fn summary(alloc: Global, edges: u32, closed: u32, cost: u64, bound: u64) -> Result<Vec<u8>, Memory>
    requires { bound ≤ cost }
    ensures { IfOk result (λ text. text.items ≡ edit_text edges closed cost bound) }
{
    let line = sizes(alloc, edges, closed)?;
    let mut text = answer(alloc, &line, cost, bound)?;
    push_gap(&mut text, u128::from(cost), u128::from(bound))?;
    Ok(text)
}

// The first line.
#[tactic(auto, unfolding(crate::specs::Texts::edited_line))]
fn sizes(alloc: Global, edges: u32, closed: u32) -> Result<Vec<u8>, Memory>
    ensures { IfOk result (λ text. text.items ≡ edited_line edges closed) }
{
    let mut text = Vec::new(alloc);
    push_words(&mut text, b"edited edges ", edges)?;
    push_line(&mut text, b" closed ", u128::from(closed))?;
    Ok(text)
}
