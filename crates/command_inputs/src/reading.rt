// Reads the files of a command.
ghost use Rattle.std.specs.Prelude.{◌≡◌, ℕ, ◌<◌, ◌≤◌, ◌^◌, List, length, IsTrue, IfOk};
ghost use Rattle.carp_outside.specs.Told.{SameContents};
ghost use Rattle.dat_text.specs.Text.{IsTextOf};
ghost use Rattle.cert_lines.specs.Texts as certificates;
ghost use Rattle.cert_format.specs.Certs.{certificate_in};
ghost use Rattle.command_line.specs.Commands.{instance_at, certificate_at};
ghost use Rattle.command_inputs.specs.Files.{IsInstance, IsBadInstance, IsGoodText, IsBadCertificate};
ghost use Rattle.command_inputs.specs.Reads.{IsFileRead, IsOfCertificate, IsOfInstance, IsOfNone, IsParsed, AreBytes, NoneIsBad, EachIsGood, IsAcceptedText, IsGoodCert, seen_by, accepted_of};

use crate::status::Status;
use carp_base::{Fail, Instance, Memory};
use carp_outside::{ReadFault, Shelf, read_whole};
use cert_checker::{
    Answer, Checked, StreamFault, check, check_stream, good_has_no_reason, reason_is_unique,
};
use cert_format::{Cert, read_cert};
use cert_lines::{read_is_spelled, texts_are_unique};
use dat_text::{read_dat, readings_are_unique};
use plan_model::Plan;
use std::alloc::Global;

/// The most bytes of an instance file. Contracts have the number from `instance_at`.
pub const INSTANCE_LIMIT: u64 = 4_194_304;

/// The most bytes of a certificate. Contracts have the number from `certificate_at`.
pub const CERTIFICATE_LIMIT: u64 = 268_435_456;

/// What a certificate states that is good for its instance.
#[derive(Drop)]
pub struct Stated {
    /// The cost of its plan.
    pub cost: u64,
    /// Its lower bound.
    pub bound: u64,
    /// Its plan.
    pub plan: Plan,
}

/// Reads the instance that a file describes.
///
/// It refuses with [`Status::ReadFault`], [`Status::TooLong`] with [`INSTANCE_LIMIT`], or [`Status::BadInstance`].
/// `Fail::Memory` says only that there was not enough memory. It takes time and memory in proportion to the bytes.
pub fn read_instance<H: Shelf>(
    alloc: Global,
    shelf: &mut H,
    file: &str,
) -> Result<Instance, Fail<Status>>
    ensures read { IsFileRead
        (seen_by H.tells (H.contents shelf.old) (H.failed_looks shelf.old) (H.failed_looks shelf.new) (H.given shelf.old) (H.given shelf.new))
        (instance_at file.now) IsOfInstance IsTextOf IsBadInstance IsInstance result }
    ensures contents { IsTrue H.tells → SameContents (H.contents shelf.old) (H.contents shelf.new) }
    ensures keeps { H.failed_keeps shelf.new ≡ H.failed_keeps shelf.old }
    ensures given { H.given shelf.old ≤ H.given shelf.new }
    ensures looks { (other : List ℕ) → H.failed_looks shelf.old other ≤ H.failed_looks shelf.new other }
{
    match read_file(alloc, shelf, file, INSTANCE_LIMIT) {
        Ok(bytes) => parse_instance(alloc, &bytes),
        Err(fail) => Err(fail),
    }
}

/// What the certificate of a file states, if it is good for the instance. The nodes are not kept in memory.
///
/// It refuses with [`Status::ReadFault`], [`Status::TooLong`] with [`CERTIFICATE_LIMIT`], [`Status::BadCertificate`] or
/// [`Status::Rejected`]. `Fail::Memory` says only that there was not enough memory. It takes the time of
/// [`cert_checker::check_stream`], and memory that does not grow with the nodes.
pub fn check_file<H: Shelf>(
    alloc: Global,
    inst: &Instance,
    shelf: &mut H,
    file: &str,
) -> Result<Stated, Fail<Status>>
    ensures read { IsFileRead
        (seen_by H.tells (H.contents shelf.old) (H.failed_looks shelf.old) (H.failed_looks shelf.new) (H.given shelf.old) (H.given shelf.new))
        (certificate_at file.now) IsOfCertificate (IsAcceptedText inst.now) (IsBadCertificate inst.now) (IsGoodText inst.now) result }
    ensures contents { IsTrue H.tells → SameContents (H.contents shelf.old) (H.contents shelf.new) }
    ensures keeps { H.failed_keeps shelf.new ≡ H.failed_keeps shelf.old }
    ensures given { H.given shelf.old ≤ H.given shelf.new }
    ensures looks { (other : List ℕ) → H.failed_looks shelf.old other ≤ H.failed_looks shelf.new other }
{
    texts_are_unique();
    good_has_no_reason();
    reason_is_unique();
    match check_stream(alloc, inst, shelf, file, CERTIFICATE_LIMIT) {
        Ok(checked) => accept(checked),
        Err(Fail::Memory) => Err(Fail::Memory),
        Err(Fail::Refused(StreamFault::Read)) => Err(Fail::Refused(Status::ReadFault)),
        Err(Fail::Refused(StreamFault::TooLong)) => {
            Err(Fail::Refused(Status::TooLong(CERTIFICATE_LIMIT)))
        }
        Err(Fail::Refused(StreamFault::Bad(fault))) => {
            Err(Fail::Refused(Status::BadCertificate(fault)))
        }
    }
}

// What was checked, if the answer is good.
fn accept(checked: Checked) -> Result<Stated, Fail<Status>>
    ensures { result ≡ accepted_of checked checked.answer }
{
    match checked.answer {
        Answer::Accepted => Ok(Stated {
            cost: checked.cost,
            bound: checked.bound,
            plan: checked.plan,
        }),
        Answer::Rejected(reason) => Err(Fail::Refused(Status::Rejected(reason))),
    }
}

/// Reads the certificate of a file, if it is good for the instance.
///
/// It refuses as [`check_file`] does. It takes the time of reading and of [`cert_checker::check`], and memory in
/// proportion to the bytes.
pub fn read_good<H: Shelf>(
    alloc: Global,
    inst: &Instance,
    shelf: &mut H,
    file: &str,
) -> Result<Cert, Fail<Status>>
    ensures read { IsFileRead
        (seen_by H.tells (H.contents shelf.old) (H.failed_looks shelf.old) (H.failed_looks shelf.new) (H.given shelf.old) (H.given shelf.new))
        (certificate_at file.now) IsOfCertificate (IsGoodCert inst.now) (IsBadCertificate inst.now) (IsGoodText inst.now) result }
    ensures contents { IsTrue H.tells → SameContents (H.contents shelf.old) (H.contents shelf.new) }
    ensures keeps { H.failed_keeps shelf.new ≡ H.failed_keeps shelf.old }
    ensures given { H.given shelf.old ≤ H.given shelf.new }
    ensures looks { (other : List ℕ) → H.failed_looks shelf.old other ≤ H.failed_looks shelf.new other }
{
    match read_file(alloc, shelf, file, CERTIFICATE_LIMIT) {
        Ok(bytes) => parse_good(alloc, inst, &bytes),
        Err(fail) => Err(fail),
    }
}

/// All bytes of a file.
///
/// It is refused with [`Status::ReadFault`], or [`Status::TooLong`] with the limit. It takes time and memory in
/// proportion to the bytes.
pub(crate) fn read_file<H: Shelf>(
    alloc: Global,
    shelf: &mut H,
    file: &str,
    limit: u64,
) -> Result<Vec<u8>, Fail<Status>>
    requires { limit < 2 ^ 32 }
    ensures read { IsFileRead
        (seen_by H.tells (H.contents shelf.old) (H.failed_looks shelf.old) (H.failed_looks shelf.new) (H.given shelf.old) (H.given shelf.new))
        (record { name = file.now; limit = limit }) IsOfNone AreBytes NoneIsBad EachIsGood result }
    ensures within { IfOk result (λ bytes. length bytes.items ≤ limit) }
    ensures contents { IsTrue H.tells → SameContents (H.contents shelf.old) (H.contents shelf.new) }
    ensures keeps { H.failed_keeps shelf.new ≡ H.failed_keeps shelf.old }
    ensures given { H.given shelf.old ≤ H.given shelf.new }
    ensures looks { (other : List ℕ) → H.failed_looks shelf.old other ≤ H.failed_looks shelf.new other }
{
    match read_whole(alloc, shelf, file, limit) {
        Ok(bytes) => Ok(bytes),
        Err(Fail::Memory) => Err(Fail::Memory),
        Err(Fail::Refused(ReadFault::Fault)) => Err(Fail::Refused(Status::ReadFault)),
        Err(Fail::Refused(ReadFault::TooLong)) => Err(Fail::Refused(Status::TooLong(limit))),
    }
}

/// The instance that the bytes of a file describe. It is refused with [`Status::BadInstance`].
pub(crate) fn parse_instance(alloc: Global, bytes: &[u8]) -> Result<Instance, Fail<Status>>
    requires { length bytes.now < 2 ^ 32 }
    ensures { IsParsed bytes.now IsTextOf IsBadInstance IsInstance result }
{
    readings_are_unique();
    match read_dat(alloc, bytes) {
        Ok(inst) => Ok(inst),
        Err(Fail::Memory) => Err(Fail::Memory),
        Err(Fail::Refused(fault)) => Err(Fail::Refused(Status::BadInstance(fault))),
    }
}

/// The certificate of the bytes of a file, which is good for the instance. It refuses with [`Status::BadCertificate`]
/// or [`Status::Rejected`].
pub(crate) fn parse_good(alloc: Global, inst: &Instance, bytes: &[u8]) -> Result<Cert, Fail<Status>>
    ensures { IsParsed bytes.now (IsGoodCert inst.now) (IsBadCertificate inst.now) (IsGoodText inst.now) result }
{
    texts_are_unique();
    match read_cert(alloc, bytes) {
        Ok(cert) => judge_cert(alloc, inst, bytes, cert),
        Err(Fail::Memory) => Err(Fail::Memory),
        Err(Fail::Refused(fault)) => Err(Fail::Refused(Status::BadCertificate(fault))),
    }
}

// A certificate that was read from these bytes, if it is good for the instance.
fn judge_cert(
    alloc: Global,
    inst: &Instance,
    _bytes: &[u8],
    cert: Cert,
) -> Result<Cert, Fail<Status>>
    requires { certificates.IsTextOf _bytes.now (certificate_in cert) }
    ensures { IsParsed _bytes.now (IsGoodCert inst.now) (IsBadCertificate inst.now) (IsGoodText inst.now) result }
{
    texts_are_unique();
    read_is_spelled();
    good_has_no_reason();
    reason_is_unique();
    match check(alloc, inst, &cert) {
        Ok(Answer::Accepted) => Ok(cert),
        Ok(Answer::Rejected(reason)) => Err(Fail::Refused(Status::Rejected(reason))),
        Err(Memory) => Err(Fail::Memory),
    }
}
