// The texts of answers that have no report.
ghost use Rattle.std.specs.Prelude.{◌≡◌, IfOk};
ghost use Rattle.carp_cli.specs.Refusals.{apart_line, limit_line, refusal_text};

use carp_base::Memory;
use command_inputs::Status;
use plan_print::{
    certificate_fault_line, edit_fault_line, instance_fault_line, push_words, rejection_line,
};
use std::alloc::Global;

/// What is written for an answer. It is nothing if the answer has a report, after a write fault, and without memory.
#[tactic(auto, unfolding(crate::specs::Refusals::usage_text))]
pub(crate) fn refusal(alloc: Global, status: &Status) -> Result<Vec<u8>, Memory>
    ensures { IfOk result (λ text. text.items ≡ refusal_text status.now) }
{
    match status {
        Status::BadUsage => Ok(Vec::from_slice(
            alloc,
            b"usage: carp solve FILE CERT [--turns N] [--seed N]\n       carp check FILE CERT\n       carp sheet FILE CERT\n       carp make FILE [--seed N]\n       carp drill [--turns N] [--seed N]\n       carp upgrade FILE CERT NEWCERT\n       carp postman FILE\n       carp fleet FILE [--turns N]\n       carp edit FILE CERT EDITS NEWFILE NEWCERT\n       carp improve FILE CERT NEWCERT [--turns N] [--seed N]\n",
        )?),
        Status::BadInstance(fault) => instance_fault_line(alloc, fault),
        Status::BadCertificate(fault) => certificate_fault_line(alloc, fault),
        Status::Rejected(reason) => rejection_line(alloc, reason),
        Status::ReadFault => Ok(Vec::from_slice(alloc, b"read fault\n")?),
        Status::TooLong(limit) => write_limit(alloc, *limit),
        Status::NotJoined(edge) => write_apart(alloc, *edge),
        Status::BadEdit(fault) => edit_fault_line(alloc, fault),
        Status::Memory | Status::WriteFault => Ok(Vec::new(alloc)),
        Status::Proven | Status::Gap | Status::Accepted | Status::Done => Ok(Vec::new(alloc)),
    }
}

#[tactic(auto, unfolding(crate::specs::Refusals::limit_line))]
fn write_limit(alloc: Global, limit: u64) -> Result<Vec<u8>, Memory>
    ensures { IfOk result (λ text. text.items ≡ limit_line limit) }
{
    let mut text = Vec::new(alloc);
    push_words(&mut text, b"too long: more than ", limit)?;
    text.extend_from_slice(b" bytes\n")?;
    Ok(text)
}

#[tactic(auto, unfolding(crate::specs::Refusals::apart_line))]
fn write_apart(alloc: Global, edge: u32) -> Result<Vec<u8>, Memory>
    ensures { IfOk result (λ text. text.items ≡ apart_line edge) }
{
    let mut text = Vec::new(alloc);
    push_words(&mut text, b"not joined: edge ", edge)?;
    text.extend_from_slice(b"\n")?;
    Ok(text)
}
