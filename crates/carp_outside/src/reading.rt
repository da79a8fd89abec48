// A whole file in, and all bytes out.
ghost use Rattle.std.specs.Prelude.{◌≡◌, ℕ, ◌+◌, ◌^◌, ◌<◌, ◌≤◌, ◌++◌, List, length, Some, IsTrue, IsOk, IfOk, OnOk, OnErr, IfSome, IsSomeAnd, IsErrOf, ◌⊎◌};
ghost use Rattle.carp_base.specs.declared.fail.Fail.TheVariants.{Refused, Memory as OutOfMemory};
ghost use Rattle.carp_outside.specs.declared.reading.ReadFault.TheVariants.{Fault, TooLong};
ghost use Rattle.carp_outside.specs.Causes.{Rose, RoseBy, HasCause};
ghost use Rattle.carp_outside.specs.Told.{SameContents, WroteFront};

use crate::{Pieces, Shelf, Sink, SinkFault};
use carp_base::Fail;
use std::alloc::Global;

/// Why a file was not read whole.
#[derive(Clone, Copy, Debug, PartialEq, Eq)]
pub enum ReadFault {
    /// A look at this name failed. A look at a name that is not held always fails.
    Fault,
    /// The name gave more bytes than the limit.
    TooLong,
}

// The most bytes of a piece.
const PIECE: usize = 65_536;

/// Reads all bytes of a name, if these are at most `limit`. It looks for pieces of 64 KiB at most until a look finds
/// the end, and answers `Fault` at the first look that fails. The shelf gave in this call at least as many bytes as the
/// answer has. Whatever the answer, no count of the shelf falls. It takes time and memory in proportion to the bytes.
///
/// If the shelf tells its contents, the answer is all bytes of the name. Then `TooLong` comes exactly if there are more
/// than `limit` and no look failed, and the shelf holds what it held.
pub fn read_whole<H: Shelf>(
    alloc: Global,
    shelf: &mut H,
    name: &str,
    limit: u64,
) -> Result<Vec<u8>, Fail<ReadFault>>
    requires { limit < 2 ^ 40 }
    ensures whole { IsTrue H.tells → IfOk result (λ bytes. H.contents shelf.old name.now ≡ Some bytes.items) }
    ensures within { IfOk result (λ bytes. length bytes.items ≤ limit) }
    ensures read { IfOk result (λ bytes. RoseBy (length bytes.items) (H.given shelf.old) (H.given shelf.new)) }

    // Each refusal has its cause.
    ensures fault { IsErrOf result (Refused Fault) → Rose (H.failed_looks shelf.old name.now) (H.failed_looks shelf.new name.now) }
    ensures too_long { IsErrOf result (Refused TooLong) → RoseBy (limit + 1) (H.given shelf.old) (H.given shelf.new) }
    ensures longer { IsTrue H.tells → IsErrOf result (Refused TooLong)
        → IsSomeAnd (H.contents shelf.old name.now) (λ file. limit < length file) }

    // Where no look at this name failed, the length decides, and memory.
    ensures not_longer { IsTrue H.tells → IfSome (H.contents shelf.old name.now) (λ file. limit < length file)
        → (Rose (H.failed_looks shelf.old name.now) (H.failed_looks shelf.new name.now) → ⊥)
        → IsErrOf result (Refused TooLong) ⊎ IsErrOf result OutOfMemory }
    ensures complete { IsTrue H.tells → IfSome (H.contents shelf.old name.now) (λ file. length file ≤ limit)
        → (Rose (H.failed_looks shelf.old name.now) (H.failed_looks shelf.new name.now) → ⊥)
        → IsOk result ⊎ IsErrOf result OutOfMemory }

    // What stays, whatever is answered.
    ensures contents { IsTrue H.tells → SameContents (H.contents shelf.old) (H.contents shelf.new) }
    ensures keeps { H.failed_keeps shelf.new ≡ H.failed_keeps shelf.old }
    ensures given { H.given shelf.old ≤ H.given shelf.new }
    ensures looks { (other : List ℕ) → H.failed_looks shelf.old other ≤ H.failed_looks shelf.new other }
{
    let mut bytes = Vec::new(alloc);
    let mut pieces = Pieces::new(alloc, PIECE, limit)?;
    loop {
        match pieces.next(shelf, name) {
            Ok(0) => return Ok(bytes),
            Ok(_) => bytes.extend_from_slice(pieces.piece())?,
            Err(fault) => return Err(Fail::Refused(fault)),
        }
    }
}

/// Writes all bytes, or answers the first failure of the sink. If the sink tells what was written, that is all bytes,
/// or after a failure a front of them. It takes time in proportion to the bytes, and no memory.
pub fn put_all<O: Sink>(out: &mut O, bytes: &[u8]) -> Result<(), SinkFault>
    ensures written { IsTrue O.tells → OnOk result (O.written out.new ≡ O.written out.old ++ bytes.now) }
    ensures front { IsTrue O.tells → OnErr result (WroteFront bytes.now (O.written out.old) (O.written out.new)) }
    ensures cause { HasCause (O.faults out.old) (O.faults out.new) result }
{
    let mut done = 0;
    while done < bytes.len() {
        done += out.put(&bytes[done..])?;
    }
    Ok(())
}
