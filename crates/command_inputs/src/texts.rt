// Makes an instance, a certificate and edits of three texts.
ghost use Rattle.std.specs.Prelude.{ℕ, ◌≤◌, ◌<◌, ◌^◌, List, length};
ghost use Rattle.dat_text.specs.Text.{IsTextOf};
ghost use Rattle.instance_edits.specs.Texts.{IsEditsText};
ghost use Rattle.command_inputs.specs.Files.{IsBadCertificate, IsBadInstance, IsGoodText, IsInstance};
ghost use Rattle.command_inputs.specs.Reads.{IsGoodCert, IsParsed};
ghost use Rattle.command_inputs.specs.Edited.{AreBadTexts, AreGoodTexts, IsBadEdits, IsEditedBy, IsGoodEdits};
ghost use Rattle.command_inputs.specs.Stages.{IsChangedBy, IsReadCert, IsReadInstance};

use crate::Status;
use crate::edited::Edited;
use crate::reading::{parse_good, parse_instance};
use carp_base::{Fail, Instance, valid_where_no_fault};
use cert_format::Cert;
use dat_text::readings_are_unique;
use instance_edits::{Edit, EditFault, edited, edits_are_unique, read_edits};
use std::alloc::Global;

/// Edits, and the instance that they make.
#[derive(Drop)]
struct Changed {
    edits: Vec<Edit>,
    after: Instance,
}

/// What three texts say: the instance first, then the certificate for it, then the edits. It refuses the first one that
/// is bad. It gives up the bytes of an instance and of a certificate as soon as it has read them.
pub(crate) fn parse_texts(
    alloc: Global,
    file: Vec<u8>,
    cert: Vec<u8>,
    edits: &[u8],
) -> Result<Edited, Fail<Status>>
    requires short_file { length file.items < 2 ^ 32 }
    requires short_edits { length edits.now ≤ 2 ^ 20 }
    ensures { IsParsed edits.now (IsEditedBy file.items cert.items) (AreBadTexts file.items cert.items) (AreGoodTexts file.items cert.items) result }
{
    readings_are_unique();
    match take_instance(alloc, file) {
        Ok(inst) => with_instance(alloc, inst, cert, edits),
        Err(fail) => Err(fail),
    }
}

// What the two other texts say of an instance.
fn with_instance(
    alloc: Global,
    inst: Instance,
    cert: Vec<u8>,
    edits: &[u8],
) -> Result<Edited, Fail<Status>>
    requires { length edits.now ≤ 2 ^ 20 }
    ensures { (file : List ℕ) → IsReadInstance file inst → IsParsed edits.now (IsEditedBy file cert.items) (AreBadTexts file cert.items) (AreGoodTexts file cert.items) result }
{
    readings_are_unique();
    match take_good(alloc, &inst, cert) {
        Ok(good) => with_certificate(alloc, inst, good, edits),
        Err(fail) => Err(fail),
    }
}

// What the text of edits says of an instance that has this certificate.
fn with_certificate(
    alloc: Global,
    inst: Instance,
    cert: Cert,
    edits: &[u8],
) -> Result<Edited, Fail<Status>>
    requires { length edits.now ≤ 2 ^ 20 }
    ensures { (file text : List ℕ) → IsReadInstance file inst → IsReadCert inst text cert → IsParsed edits.now (IsEditedBy file text) (AreBadTexts file text) (AreGoodTexts file text) result }
{
    readings_are_unique();
    match parse_edits(alloc, &inst, edits) {
        Ok(changed) => Ok(Edited {
            before: inst,
            cert,
            edits: changed.edits,
            after: changed.after,
        }),
        Err(fail) => Err(fail),
    }
}

// The instance of these bytes, which are given up.
fn take_instance(alloc: Global, bytes: Vec<u8>) -> Result<Instance, Fail<Status>>
    requires { length bytes.items < 2 ^ 32 }
    ensures { IsParsed bytes.items IsTextOf IsBadInstance IsInstance result }
{
    parse_instance(alloc, &bytes)
}

// The certificate of these bytes, which are given up.
fn take_good(alloc: Global, inst: &Instance, bytes: Vec<u8>) -> Result<Cert, Fail<Status>>
    ensures { IsParsed bytes.items (IsGoodCert inst.now) (IsBadCertificate inst.now) (IsGoodText inst.now) result }
{
    parse_good(alloc, inst, &bytes)
}

// The edits of these bytes, and the instance that they make.
fn parse_edits(alloc: Global, inst: &Instance, bytes: &[u8]) -> Result<Changed, Fail<Status>>
    requires { length bytes.now ≤ 2 ^ 20 }
    ensures { IsParsed bytes.now (IsChangedBy inst.now) (IsBadEdits inst.now) (IsGoodEdits inst.now) result }
{
    edits_are_unique();
    match read_edits(alloc, inst, bytes) {
        Ok(edits) => change(alloc, inst, bytes, edits),
        Err(Fail::Memory) => Err(Fail::Memory),
        Err(Fail::Refused(fault)) => Err(Fail::Refused(Status::BadEdit(fault))),
    }
}

// The instance that edits make, which were read from these bytes.
fn change(
    alloc: Global,
    inst: &Instance,
    _bytes: &[u8],
    edits: Vec<Edit>,
) -> Result<Changed, Fail<Status>>
    requires few { length edits.items ≤ 2 ^ 20 }
    requires text { IsEditsText inst.now _bytes.now edits.items }
    ensures { IsParsed _bytes.now (IsChangedBy inst.now) (IsBadEdits inst.now) (IsGoodEdits inst.now) result }
{
    edits_are_unique();
    valid_where_no_fault();
    match edited(alloc, inst, &edits) {
        Ok(after) => Ok(Changed { edits, after }),
        Err(Fail::Memory) => Err(Fail::Memory),
        Err(Fail::Refused(fault)) => Err(Fail::Refused(Status::BadEdit(EditFault::Refused(fault)))),
    }
}
