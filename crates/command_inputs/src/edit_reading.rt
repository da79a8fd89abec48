// Reads the three files of an edit.
ghost use Rattle.std.specs.Prelude.{◌≡◌, ℕ, ◌≤◌, ◌<◌, ◌^◌, List, length, IfOk, IsTrue};
ghost use Rattle.carp_outside.specs.Told.{SameContents};
ghost use Rattle.command_inputs.specs.Files.{GivenIn, HeldIn};
ghost use Rattle.command_inputs.specs.Reads.{seen_by};
ghost use Rattle.command_inputs.specs.Edited.{AreTried, IsEdited, IsEditedFrom};
ghost use Rattle.command_inputs.specs.Stages.{AreOfThird, AreOfTwo, AreTriedTwo, IsTriedThird};

use crate::Status;
use crate::edited::Edited;
use crate::reading::{CERTIFICATE_LIMIT, INSTANCE_LIMIT, read_file};
use crate::texts::parse_texts;
use carp_base::Fail;
use carp_outside::Shelf;
use std::alloc::Global;

/// The most bytes of a file of edits. Contracts have the number from `edits_at`.
pub const EDITS_LIMIT: u64 = 1_048_576;

/// Reads an instance, a certificate and edits from three files, all of them before it looks at what they hold. It
/// refuses the first file that cannot be read or is too long. Then it refuses the instance, the certificate for it, and
/// the edits, if they are bad or the edited instance is.
///
/// A refusal is [`Status::ReadFault`], [`Status::TooLong`] with the limit of the file, [`Status::BadInstance`],
/// [`Status::BadCertificate`] or [`Status::Rejected`], or [`Status::BadEdit`]. `Fail::Memory` says only that there was
/// not enough memory.
///
/// The time is that of reading the files, checking the certificate and building both instances. The memory grows with
/// the bytes of the files.
pub fn read_edited<H: Shelf>(
    alloc: Global,
    shelf: &mut H,
    file: &str,
    cert: &str,
    edits: &str,
) -> Result<Edited, Fail<Status>>
    ensures made { IsTrue H.tells → IfOk result (IsEditedFrom file.now cert.now edits.now (HeldIn (H.contents shelf.old))) }
    ensures founded { IfOk result (IsEditedFrom file.now cert.now edits.now (GivenIn (H.given shelf.old) (H.given shelf.new))) }
    ensures sound { IfOk result IsEdited }
    ensures tried { AreTried file.now cert.now edits.now
        (seen_by H.tells (H.contents shelf.old) (H.failed_looks shelf.old) (H.failed_looks shelf.new) (H.given shelf.old) (H.given shelf.new)) result }
    ensures contents { IsTrue H.tells → SameContents (H.contents shelf.old) (H.contents shelf.new) }
    ensures keeps { H.failed_keeps shelf.new ≡ H.failed_keeps shelf.old }
{
    match read_file(alloc, shelf, file, INSTANCE_LIMIT) {
        Ok(text) => read_two(alloc, shelf, text, cert, edits),
        Err(fail) => Err(fail),
    }
}

// Reads the two other files, with the bytes of the instance's file at hand.
fn read_two<H: Shelf>(
    alloc: Global,
    shelf: &mut H,
    text: Vec<u8>,
    cert: &str,
    edits: &str,
) -> Result<Edited, Fail<Status>>
    requires { length text.items < 2 ^ 32 }
    ensures made { IsTrue H.tells → IfOk result (AreOfTwo text.items cert.now edits.now (HeldIn (H.contents shelf.old))) }
    ensures founded { IfOk result (AreOfTwo text.items cert.now edits.now (GivenIn (H.given shelf.old) (H.given shelf.new))) }
    ensures sound { IfOk result IsEdited }
    ensures tried { AreTriedTwo text.items cert.now edits.now
        (seen_by H.tells (H.contents shelf.old) (H.failed_looks shelf.old) (H.failed_looks shelf.new) (H.given shelf.old) (H.given shelf.new)) result }
    ensures contents { IsTrue H.tells → SameContents (H.contents shelf.old) (H.contents shelf.new) }
    ensures keeps { H.failed_keeps shelf.new ≡ H.failed_keeps shelf.old }
    ensures given { H.given shelf.old ≤ H.given shelf.new }
    ensures looks { (other : List ℕ) → H.failed_looks shelf.old other ≤ H.failed_looks shelf.new other }
{
    match read_file(alloc, shelf, cert, CERTIFICATE_LIMIT) {
        Ok(cert) => read_third(alloc, shelf, text, cert, edits),
        Err(fail) => Err(fail),
    }
}

// Reads the file of edits, with the bytes of both other files at hand.
fn read_third<H: Shelf>(
    alloc: Global,
    shelf: &mut H,
    text: Vec<u8>,
    cert: Vec<u8>,
    edits: &str,
) -> Result<Edited, Fail<Status>>
    requires { length text.items < 2 ^ 32 }
    ensures made { IsTrue H.tells → IfOk result (AreOfThird text.items cert.items edits.now (HeldIn (H.contents shelf.old))) }
    ensures founded { IfOk result (AreOfThird text.items cert.items edits.now (GivenIn (H.given shelf.old) (H.given shelf.new))) }
    ensures sound { IfOk result IsEdited }
    ensures tried { IsTriedThird text.items cert.items edits.now
        (seen_by H.tells (H.contents shelf.old) (H.failed_looks shelf.old) (H.failed_looks shelf.new) (H.given shelf.old) (H.given shelf.new)) result }
    ensures contents { IsTrue H.tells → SameContents (H.contents shelf.old) (H.contents shelf.new) }
    ensures keeps { H.failed_keeps shelf.new ≡ H.failed_keeps shelf.old }
    ensures given { H.given shelf.old ≤ H.given shelf.new }
    ensures looks { (other : List ℕ) → H.failed_looks shelf.old other ≤ H.failed_looks shelf.new other }
{
    match read_file(alloc, shelf, edits, EDITS_LIMIT) {
        Ok(bytes) => parse_texts(alloc, text, cert, &bytes),
        Err(fail) => Err(fail),
    }
}
