// The helpers and the advisers of the program.
ghost use Rattle.std.specs.Prelude.{◌≡◌};
ghost use Rattle.command_line.specs.Words.{command_of, texts_of};
ghost use Rattle.carp_cli.specs.Outside.{outside_of};
ghost use Rattle.carp.specs.Helped.{LeavesByHelpers};

use augment_merge::Merger;
use carp_cli::{Status, run_with};
use carp_engine::dismiss;
use carp_outside::{Shelf, Sink};
use giant_split::Splitter;
use leaf_adviser::Adviser;
use leaf_programs::LeafPrograms;
use local_moves::Mover;
use path_scanning::Scanner;
use plan_model::Proposer;
use price_ascent::AscentAdviser;
use progress::Watch;
use shore_prices::ShoreAdviser;
use std::alloc::Global;

// Path scanning, augment-merge, splitting of one order of all tasks, and ruin and recreate with small changes. No two
// have one id.
fn four_helpers() -> (Scanner, Merger, Splitter, Mover)
    ensures scanner { ⟦<Scanner as Proposer>⟧.id result.0 ≡ 1 }
    ensures merger { ⟦<Merger as Proposer>⟧.id result.1 ≡ 2 }
    ensures splitter { ⟦<Splitter as Proposer>⟧.id result.2 ≡ 3 }
    ensures mover { ⟦<Mover as Proposer>⟧.id result.3 ≡ 4 }
{
    (
        Scanner::new(1),
        Merger::new(2),
        Splitter::new(3),
        Mover::new(4),
    )
}

/// Runs the command that the words name ([`carp_cli::run_with`]) with the aid of four helpers: path scanning, augment-merge,
/// splitting of one order of all tasks, and ruin and recreate with small changes, of ids 1 to 4. Three advisers are asked
/// at each leaf, in this order: the program over shores, the ascent, and the programs over tours, shores and groups. Helpers
/// that offered an unlawful plan are dismissed at the end.
///
/// It leaves what `run_with` says for four helpers. Or there was no memory for the helpers, and nothing was done.
pub(crate) fn run_with_helpers<H: Shelf, O: Sink, W: Watch>(
    alloc: Global,
    words: &[String],
    shelf: &mut H,
    out: &mut O,
    watch: &mut W,
) -> Status
    ensures leaves { LeavesByHelpers 4 H.tells O.tells (command_of (texts_of words.now))
        (outside_of (H.contents shelf.old) (H.failed_looks shelf.old) (H.failed_keeps shelf.old) (H.given shelf.old)
        (O.written out.old) (O.faults out.old))
        (outside_of (H.contents shelf.new) (H.failed_looks shelf.new) (H.failed_keeps shelf.new) (H.given shelf.new)
        (O.written out.new) (O.faults out.new)) result }
{
    let (scanner, merger, splitter, mover) = four_helpers();
    let (Ok(scanner), Ok(merger), Ok(splitter), Ok(mover)) = (
        Box::new(alloc, scanner),
        Box::new(alloc, merger),
        Box::new(alloc, splitter),
        Box::new(alloc, mover),
    ) else {
        return Status::Memory;
    };
    let (Ok(shores), Ok(ascent), Ok(programs)) = (
        Box::new(alloc, ShoreAdviser),
        Box::new(alloc, AscentAdviser),
        Box::new(alloc, LeafPrograms::new(alloc)),
    ) else {
        return Status::Memory;
    };
    let four: [Box<dyn Proposer>; 4] = [scanner, merger, splitter, mover];
    let three: [Box<dyn Adviser>; 3] = [shores, ascent, programs];
    let (Ok(mut helpers), Ok(mut advisers)) = (
        Vec::from_array(alloc, four),
        Vec::from_array(alloc, three),
    ) else {
        return Status::Memory;
    };
    let status = run_with(alloc, words, shelf, out, &mut helpers, &mut advisers, watch);
    dismiss(&mut helpers);
    status
}
