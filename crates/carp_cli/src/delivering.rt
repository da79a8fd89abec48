// Keeps and writes what a command has made.
ghost use Rattle.std.specs.Prelude.{◌≡◌, ◌≢◌, ℕ, ◌++◌, List, [], map, IsTrue, OnOk, OnErr, ◌⊎◌};
ghost use Rattle.carp_outside.specs.Causes.{HasCause};
ghost use Rattle.carp_cli.specs.Outside.{AreKept, AreKeptInPart, IsLeftShort, outside_of};
ghost use Rattle.command_outputs.specs.Outputs.{kept_in, output_in};

use carp_outside::{Shelf, ShelfFault, Sink, put_all};
use command_inputs::Status;
use command_outputs::{Delivery, Kept};

/// Keeps what is to be kept, and then writes the text: the answer, or the first failure.
pub(crate) fn deliver<H: Shelf, O: Sink>(
    shelf: &mut H,
    out: &mut O,
    delivery: &Delivery<'_>,
) -> Status
    ensures answer { result ≡ delivery.now.status ⊎ (result ≡ Status.WriteFault) }
    ensures kept { IsTrue H.tells → result ≢ Status.WriteFault → AreKept (output_in delivery.now).kept (H.contents shelf.old) (H.contents shelf.new) }
    ensures wrote { IsTrue O.tells → result ≢ Status.WriteFault → O.written out.new ≡ O.written out.old ++ delivery.now.text.items }
    ensures cut { result ≡ Status.WriteFault → (delivery.now.status ≡ Status.WriteFault) ⊎ IsLeftShort H.tells O.tells (output_in delivery.now)
        (outside_of (H.contents shelf.old) (H.failed_looks shelf.old) (H.failed_keeps shelf.old) (H.given shelf.old) (O.written out.old) (O.faults out.old) [])
        (outside_of (H.contents shelf.new) (H.failed_looks shelf.new) (H.failed_keeps shelf.new) (H.given shelf.new) (O.written out.new) (O.faults out.new) []) }
    ensures looks { (name : List ℕ) → H.failed_looks shelf.new name ≡ H.failed_looks shelf.old name }
    ensures given { H.given shelf.new ≡ H.given shelf.old }
{
    if keep_all(shelf, &delivery.kept).is_err() {
        return Status::WriteFault;
    }
    if put_all(out, &delivery.text).is_err() {
        return Status::WriteFault;
    }
    delivery.status
}

// Keeps each of these, in order, up to the first failure.
fn keep_all<H: Shelf>(shelf: &mut H, kept: &[Kept<'_>]) -> Result<(), ShelfFault>
    ensures kept { IsTrue H.tells → OnOk result (AreKept (map kept_in kept.now) (H.contents shelf.old) (H.contents shelf.new)) }
    ensures cut { IsTrue H.tells → OnErr result (AreKeptInPart (map kept_in kept.now) (H.contents shelf.old) (H.contents shelf.new)) }
    ensures cause { HasCause (H.failed_keeps shelf.old) (H.failed_keeps shelf.new) result }
    ensures looks { (name : List ℕ) → H.failed_looks shelf.new name ≡ H.failed_looks shelf.old name }
    ensures given { H.given shelf.new ≡ H.given shelf.old }
{
    match kept {
        [] => Ok(()),
        [first, others @ ..] => {
            shelf.keep(first.name, &first.bytes)?;
            keep_all(shelf, others)
        }
    }
}
