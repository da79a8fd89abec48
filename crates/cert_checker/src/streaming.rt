// A certificate in a file.
ghost use Rattle.std.specs.Prelude.{◌≡◌, ℕ, ◌+◌, ◌^◌, ◌<◌, ◌≤◌, [], List, length, Some, IsTrue, IsOk, IfOk, OnOk, IfSome, IsSomeAnd, IsErrOf, ◌⊎◌};
ghost use Rattle.carp_base.specs.declared.fail.Fail.TheVariants.{Refused, Memory as OutOfMemory};
ghost use Rattle.carp_outside.specs.Causes.{Rose, RoseBy};
ghost use Rattle.carp_outside.specs.Told.{SameContents};
ghost use Rattle.carp_outside.specs.declared.reading.ReadFault.TheVariants as read_faults;
ghost use Rattle.cert_lines.specs.Certificates.{Certificate};
ghost use Rattle.cert_lines.specs.declared.fault.CertFault.{CertFault as Fault};
ghost use Rattle.cert_lines.specs.Texts.{IsFaultOf, IsTextOf};
ghost use Rattle.cert_checker.specs.declared.streaming.StreamFault.TheVariants as stream_faults;
ghost use Rattle.cert_checker.specs.Streams.{FileSays, HasStreamed, HasStreamedGiven, IsChecked, IsCheckedGiven};

use crate::Answer;
use crate::stream::Stream;
use carp_base::{Fail, Instance};
use carp_outside::{Pieces, ReadFault, Shelf};
use cert_format::CertFault;
use cert_lines::texts_are_unique;
use plan_model::Plan;
use std::alloc::Global;

/// Why a file was not checked.
#[derive(Clone, Copy, Debug, PartialEq, Eq)]
pub enum StreamFault {
    /// A look at this name failed. A look at a name that holds no file always fails.
    Read,
    /// The name gave more bytes than the limit.
    TooLong,
    /// The bytes are the text of no certificate, and this is their first fault.
    Bad(CertFault),
}

/// The answer to a certificate in a file, with what it states.
#[derive(Drop)]
pub struct Checked {
    /// Whether it is good.
    pub answer: Answer,
    /// The cost of the plan, as the text states it.
    pub cost: u64,
    /// The lower bound, as the text states it.
    pub bound: u64,
    /// The plan.
    pub plan: Plan,
}

// The most bytes of a piece.
const PIECE: usize = 65_536;

/// Whether the certificate that a name holds is good for an instance, or the first reason why it is not. The answer is
/// that of [`check`](crate::check) for the certificate of these bytes. Whether or not the shelf tells its contents, the
/// answer is that for a certificate whose text is no longer than the bytes that the shelf gave in this call.
///
/// `limit` is in bytes, below 2^40. The call looks for pieces of at most 64 KiB until a look finds the end, as
/// [`read_whole`](carp_outside::read_whole) does. Its memory does not grow with the number of nodes: it keeps one
/// piece, what stands before the nodes, one branch, and which child of each node on the path is being read.
///
/// A reason waits until the text has ended, since a text with a fault is bad and not rejected. Behind a bad line the
/// call takes the bytes up to the end and keeps nothing of them. So `Read` and `TooLong` come as they do for a read of
/// the whole file. `Fail::Memory` says only that there was not enough memory, whatever the file holds.
///
/// It takes the time of `check`, and expected time in proportion to the bytes.
pub fn check_stream<H: Shelf>(
    alloc: Global,
    inst: &Instance,
    shelf: &mut H,
    name: &str,
    limit: u64,
) -> Result<Checked, Fail<StreamFault>>
    requires { limit < 2 ^ 40 }
    ensures checked { IsTrue H.tells → IfOk result (λ checked. IsSomeAnd (H.contents shelf.old name.now) (λ file. (length file ≤ limit) × IsChecked inst.now file checked)) }
    ensures given_text { IfOk result (IsCheckedGiven inst.now (H.given shelf.old) (H.given shelf.new)) }

    // Each refusal has its cause.
    ensures read { IsErrOf result (Refused stream_faults.Read) → Rose (H.failed_looks shelf.old name.now) (H.failed_looks shelf.new name.now) }
    ensures too_long { IsErrOf result (Refused stream_faults.TooLong) → RoseBy (limit + 1) (H.given shelf.old) (H.given shelf.new) }
    ensures longer { IsTrue H.tells → IsErrOf result (Refused stream_faults.TooLong)
        → IsSomeAnd (H.contents shelf.old name.now) (λ file. limit < length file) }
    ensures bad { IsTrue H.tells → (fault : Fault) → IsErrOf result (Refused (stream_faults.Bad fault))
        → IsSomeAnd (H.contents shelf.old name.now) (λ file. (length file ≤ limit) × IsFaultOf file fault) }

    // If no look at this name failed, the bytes and the memory decide.
    ensures not_longer { IsTrue H.tells → IfSome (H.contents shelf.old name.now) (λ file. limit < length file)
        → (Rose (H.failed_looks shelf.old name.now) (H.failed_looks shelf.new name.now) → ⊥)
        → IsErrOf result (Refused stream_faults.TooLong) ⊎ IsErrOf result OutOfMemory }
    ensures text { IsTrue H.tells → (file : List ℕ) (c : Certificate) → H.contents shelf.old name.now ≡ Some file → length file ≤ limit → IsTextOf file c
        → (Rose (H.failed_looks shelf.old name.now) (H.failed_looks shelf.new name.now) → ⊥)
        → IsOk result ⊎ IsErrOf result OutOfMemory }
    ensures no_text { IsTrue H.tells → (file : List ℕ) (fault : Fault) → H.contents shelf.old name.now ≡ Some file → length file ≤ limit → IsFaultOf file fault
        → (Rose (H.failed_looks shelf.old name.now) (H.failed_looks shelf.new name.now) → ⊥)
        → IsErrOf result (Refused (stream_faults.Bad fault)) ⊎ IsErrOf result OutOfMemory }

    // What stays, whatever is answered.
    ensures contents { IsTrue H.tells → SameContents (H.contents shelf.old) (H.contents shelf.new) }
    ensures keeps { H.failed_keeps shelf.new ≡ H.failed_keeps shelf.old }
    ensures given { H.given shelf.old ≤ H.given shelf.new }
    ensures looks { (other : List ℕ) → H.failed_looks shelf.old other ≤ H.failed_looks shelf.new other }
{
    let mut stream = Stream::new(alloc, inst)?;
    check_file(alloc, inst, shelf, name, limit, &mut stream)
}

// Checks the certificate of a name by a stream that has taken no bytes.
fn check_file<H: Shelf>(
    alloc: Global,
    inst: &Instance,
    shelf: &mut H,
    name: &str,
    limit: u64,
    stream: &mut Stream,
) -> Result<Checked, Fail<StreamFault>>
    requires few { limit < 2 ^ 40 }
    requires none { HasStreamed inst.now stream.old [] }
    ensures says { FileSays inst.now limit H.tells (H.contents shelf.old name.now)
        (H.failed_looks shelf.old name.now) (H.failed_looks shelf.new name.now) (H.given shelf.old) (H.given shelf.new) result }
    ensures too_long { IsErrOf result (Refused stream_faults.TooLong) → RoseBy (limit + 1) (H.given shelf.old) (H.given shelf.new) }
    ensures contents { IsTrue H.tells → SameContents (H.contents shelf.old) (H.contents shelf.new) }
    ensures keeps { H.failed_keeps shelf.new ≡ H.failed_keeps shelf.old }
    ensures given { H.given shelf.old ≤ H.given shelf.new }
    ensures looks { (other : List ℕ) → H.failed_looks shelf.old other ≤ H.failed_looks shelf.new other }
{
    texts_are_unique();
    match take_file(alloc, inst, shelf, name, limit, stream) {
        Ok(()) => {}
        Err(Fail::Memory) => return Err(Fail::Memory),
        Err(Fail::Refused(ReadFault::Fault)) => return Err(Fail::Refused(StreamFault::Read)),
        Err(Fail::Refused(ReadFault::TooLong)) => return Err(Fail::Refused(StreamFault::TooLong)),
    }
    match stream.finish(alloc, inst) {
        Ok(checked) => Ok(checked),
        Err(Fail::Memory) => Err(Fail::Memory),
        Err(Fail::Refused(fault)) => Err(Fail::Refused(StreamFault::Bad(fault))),
    }
}

// Takes all bytes of a name, if these are at most `limit`.
fn take_file<H: Shelf>(
    alloc: Global,
    inst: &Instance,
    shelf: &mut H,
    name: &str,
    limit: u64,
    stream: &mut Stream,
) -> Result<(), Fail<ReadFault>>
    requires few { limit < 2 ^ 40 }
    requires none { HasStreamed inst.now stream.old [] }
    ensures streamed { OnOk result (HasStreamedGiven inst.now (H.given shelf.old) (H.given shelf.new) stream.new) }
    ensures whole { IsTrue H.tells → OnOk result (IsSomeAnd (H.contents shelf.old name.now) (λ file. (length file ≤ limit) × HasStreamed inst.now stream.new file)) }

    // Each refusal has its cause.
    ensures fault { IsErrOf result (Refused read_faults.Fault) → Rose (H.failed_looks shelf.old name.now) (H.failed_looks shelf.new name.now) }
    ensures too_long { IsErrOf result (Refused read_faults.TooLong) → RoseBy (limit + 1) (H.given shelf.old) (H.given shelf.new) }
    ensures longer { IsTrue H.tells → IsErrOf result (Refused read_faults.TooLong)
        → IsSomeAnd (H.contents shelf.old name.now) (λ file. limit < length file) }

    // What stays, whatever is answered.
    ensures contents { IsTrue H.tells → SameContents (H.contents shelf.old) (H.contents shelf.new) }
    ensures keeps { H.failed_keeps shelf.new ≡ H.failed_keeps shelf.old }
    ensures given { H.given shelf.old ≤ H.given shelf.new }
    ensures looks { (other : List ℕ) → H.failed_looks shelf.old other ≤ H.failed_looks shelf.new other }
{
    let mut pieces = Pieces::new(alloc, PIECE, limit)?;
    loop {
        match pieces.next(shelf, name) {
            Ok(0) => return Ok(()),
            Ok(_) => stream.take_piece(alloc, inst, pieces.piece())?,
            Err(fault) => return Err(Fail::Refused(fault)),
        }
    }
}
