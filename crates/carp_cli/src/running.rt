// The top call.
ghost use Rattle.std.specs.Prelude.{◌≡◌, ◌≤◌, ◌%◌, ◌^◌, ◌+◌, Some, map, slice_index, All, EachIndex, IsTrue, IfOk, false};
ghost use Rattle.carp_outside.specs.Told.{SameContents};
ghost use Rattle.command_line.specs.Commands.{asks_helpers, is_helped, seed_by, seed_of};
ghost use Rattle.command_line.specs.Words.{command_of, texts_of};
ghost use Rattle.carp_cli.specs.Outside.{outside_of, Finding};
ghost use Rattle.carp_cli.specs.Answers.{refusal_output};
ghost use Rattle.carp_cli.specs.Runs.{Leaves, LeavesHelpers, IsHelped};
ghost use Rattle.carp_cli.specs.Steps.{IsPrepared};
ghost use Rattle.command_line.specs.Laws.{HasBudget};
ghost use Rattle.command_outputs.specs.Outputs.{output_in};
ghost use Rattle.command_line.specs.Forms.{command_in};

use crate::delivering::deliver;
use crate::refusals::refusal;
use carp_base::{Fail, Memory};
use carp_outside::{Shelf, Sink};
use command_inputs::{Status, gather};
use command_line::{Command, budgets_are_in_range, read_words};
use command_outputs::{Delivery, make};
use leaf_adviser::Adviser;
use plan_model::Proposer;
use progress::{Silent, Watch};
use std::alloc::Global;

/// Runs the command that the words name.
///
/// - `solve FILE CERT [--turns N] [--seed N]` reads the instance of FILE, solves it with the aid of the helpers, keeps
///   a certificate at CERT and writes a report. It ends `Proven` if the bound is the cost, and else `Gap`. Turns and
///   seed are those of [`carp_engine::solve`], and are 64 and 1 if they are not given. None of the helpers need be
///   trusted.
/// - `check FILE CERT` reads the instance of FILE and then the certificate of CERT, whose nodes it does not keep. It
///   writes whether it is good: `Accepted`, with its cost and its bound, or `Rejected`, with the first reason.
/// - `sheet FILE CERT` does as `check`. If the certificate is good, it writes the street sheet of its plan, and ends
///   `Done`.
/// - `make FILE [--seed N]` keeps the town of a number ([`town_maker::town`]) at FILE, and writes its numbers. The
///   number is 1 if it is not given.
/// - `drill [--turns N] [--seed N]` solves the town of a number as `solve` does, checks the certificate, keeps nothing,
///   and writes a summary. The turns are 4 and the number is 1 if they are not given. It ends `Done`.
/// - `upgrade FILE CERT NEWCERT` does as `check`. If the certificate is good, the command keeps it at NEWCERT with the
///   numbers of the instance, and ends `Done`.
/// - `improve FILE CERT NEWCERT [--turns N] [--seed N]` reads the instance of FILE and then the certificate of CERT,
///   with the refusals of `upgrade`. It goes on from its plan and its tree with the aid of the helpers
///   ([`carp_engine::improve`]), keeps a certificate at NEWCERT that costs no more and whose bound is no lower, and
///   writes its report. It ends as `solve` does. The turns are those beside the old ones. Turns and seed are 64 and 1
///   if they are not given.
/// - `postman FILE` writes a least closed walk over all required edges of the instance of FILE, for one vehicle without
///   a limit ([`postman::postman`]), and ends `Done`. If they do not hang together with the depot, it ends `NotJoined`.
/// - `fleet FILE [--turns N]` finds a number of vehicles that carry all demands ([`fleet_pack::pack`]). It writes a
///   tour for each, and a tree that proves how many it takes at least. It ends `Proven` if that is the number, and else
///   `Gap`. The turns are 64 if they are not given.
/// - `edit FILE CERT EDITS NEWFILE NEWCERT` reads an instance, a certificate that is good for it and edits
///   ([`instance_edits::read_edits`]), all three files before it looks at what they hold. It keeps the edited instance
///   at NEWFILE and then the certificate, carried over to it ([`cert_transfer::carry`]), at NEWCERT, and ends `Done`.
///   It ends `BadEdit` if the edits cannot be read, name an edge that they may not change, or make an instance with a
///   fault.
///
/// All other words are bad usage. [`command_line::read_words`] says which are plain. All texts are built in memory
/// before anything is kept or written. It takes the time of reading ([`command_inputs::gather`]) and of making
/// ([`command_outputs::make`]), and of keeping and writing in proportion to the bytes.
///
/// The contract is said once for all commands, by the tables of `command_line` and of `specs/Answers.antt`: [`Status`]
/// says when each answer comes, and `Leaves` what stands after it. What it says of the contents of names and of what
/// was written holds if the shelf and the sink tell it, as [`carp_outside::MemShelf`] and [`carp_outside::MemSink`] do.
///
/// Over [`crate::DirShelf`] and [`crate::StdSink`] it says that each answer is founded (`specs/Founded.antt`):
///
/// - A refusal is one of those that the command has. `make` and `drill` are never refused.
/// - What a command says when it is done is so of some texts: the shelf's count of given bytes rose in this call by at
///   least the length of each.
/// - A certificate is accepted only if such a text spells an instance, and such a text a certificate that is good for
///   it, with the cost and the bound that are to be printed.
/// - A sheet, an upgrade, an edit and an improvement rest on such a certificate. A solution, a round and a fleet rest
///   on such an instance.
///
/// It also says which count rose if an answer is a fault, and what becomes of the helpers. It does not say that these
/// are the bytes of the named files, nor that what is to be kept and written arrives there.
///
/// ```
/// let mut words = Vec::new(alloc);
/// for word in ["solve", "town.dat", "town.cert"] {
///     words.push(String::from_str(alloc, word)?)?;
/// }
/// let mut shelf = DirShelf::new(&rt, alloc);
/// let mut out = StdSink::new(io::writer(&rt));
/// let mut helpers: Vec<Box<dyn Proposer>> = Vec::new(alloc);
/// let status = run(alloc, &words, &mut shelf, &mut out, &mut helpers);
/// ```
pub fn run<H: Shelf, O: Sink>(
    alloc: Global,
    words: &[String],
    shelf: &mut H,
    out: &mut O,
    helpers: &mut Vec<Box<dyn Proposer>>,
) -> Status
    ensures leaves { Leaves H.tells O.tells (command_of (texts_of words.now))
        (outside_of (H.contents shelf.old) (H.failed_looks shelf.old) (H.failed_keeps shelf.old) (H.given shelf.old)
        (O.written out.old) (O.faults out.old) (map (λ helper. (tally helper).least) helpers.old.items))
        (outside_of (H.contents shelf.new) (H.failed_looks shelf.new) (H.failed_keeps shelf.new) (H.given shelf.new)
        (O.written out.new) (O.faults out.new) (map (λ helper. (tally helper).least) helpers.new.items)) result }
    ensures helpers { LeavesHelpers id seed asked (λ helper. (tally helper).fouls) (command_of (texts_of words.now))
        helpers.old.items helpers.new.items result }
{
    let mut none: Vec<Box<dyn Adviser>> = Vec::new(alloc);
    run_with(alloc, words, shelf, out, helpers, &mut none, &mut Silent)
}

/// The same call with advisers, who offer prices, splits and tours to a search, and with somebody who is told how far it is.
/// No clause speaks of either. None of the advisers need be trusted. The watch is told nothing any more before anything is
/// kept or written.
pub fn run_with<H: Shelf, O: Sink, W: Watch>(
    alloc: Global,
    words: &[String],
    shelf: &mut H,
    out: &mut O,
    helpers: &mut Vec<Box<dyn Proposer>>,
    advisers: &mut Vec<Box<dyn Adviser>>,
    watch: &mut W,
) -> Status
    ensures leaves { Leaves H.tells O.tells (command_of (texts_of words.now))
        (outside_of (H.contents shelf.old) (H.failed_looks shelf.old) (H.failed_keeps shelf.old) (H.given shelf.old)
        (O.written out.old) (O.faults out.old) (map (λ helper. (tally helper).least) helpers.old.items))
        (outside_of (H.contents shelf.new) (H.failed_looks shelf.new) (H.failed_keeps shelf.new) (H.given shelf.new)
        (O.written out.new) (O.faults out.new) (map (λ helper. (tally helper).least) helpers.new.items)) result }
    ensures helpers { LeavesHelpers id seed asked (λ helper. (tally helper).fouls) (command_of (texts_of words.now))
        helpers.old.items helpers.new.items result }
{
    match prepare(alloc, words, shelf, helpers, advisers, watch) {
        Ok(delivery) => {
            watch.ends();
            deliver(shelf, out, &delivery)
        }
        Err(Memory) => {
            watch.ends();
            Status::Memory
        }
    }
}

// What the words ask to be kept, written and answered.
fn prepare<'a, H: Shelf, P: Proposer, A: Adviser, W: Watch>(
    alloc: Global,
    words: &'a [String],
    shelf: &mut H,
    helpers: &mut Vec<P>,
    advisers: &mut Vec<A>,
    watch: &mut W,
) -> Result<Delivery<'a>, Memory>
    ensures prepared { let finding : Finding = record {
      contents = H.contents shelf.old;
      looks_before = H.failed_looks shelf.old;
      looks_now = H.failed_looks shelf.new;
      offered = map (λ helper. (P.tally helper).least) helpers.new.items;
    } in
        IfOk result (λ d. IsPrepared H.tells (command_of (texts_of words.now)) finding (H.given shelf.old) (H.given shelf.new) d.status (output_in d)) }
    ensures contents { IsTrue H.tells → SameContents (H.contents shelf.old) (H.contents shelf.new) }
    ensures keeps { H.failed_keeps shelf.new ≡ H.failed_keeps shelf.old }
    ensures helpers { map P.id helpers.new.items ≡ map P.id helpers.old.items }
    ensures unasked { is_helped (command_of (texts_of words.now)) ≡ false → helpers.new.items ≡ helpers.old.items }
    ensures seeds { IfOk result (λ d. IsHelped (command_of (texts_of words.now)) d.status
        → EachIndex helpers.new.items (λ k. slice_index (map P.seed helpers.new.items) k ≡ (seed_by (command_of (texts_of words.now)) + k) % 2 ^ 64)) }
    ensures asked { IfOk result (λ d. IsHelped (command_of (texts_of words.now)) d.status → All (λ helper. 1 ≤ P.asked helper) helpers.new.items) }
    ensures fouls { IfOk result (λ d. IsHelped (command_of (texts_of words.now)) d.status → All (λ helper. (P.tally helper).fouls ≤ 1) helpers.new.items) }
{
    budgets_are_in_range();
    match read_words(alloc, words) {
        Ok(None) => refuse(alloc, Status::BadUsage),
        Ok(Some(command)) => perform(alloc, command, shelf, helpers, advisers, watch),
        Err(Memory) => Err(Memory),
    }
}

// What a command asks to be kept, written and answered: its files are read, and then it is done.
fn perform<'a, H: Shelf, P: Proposer, A: Adviser, W: Watch>(
    alloc: Global,
    command: Command<'a>,
    shelf: &mut H,
    helpers: &mut Vec<P>,
    advisers: &mut Vec<A>,
    watch: &mut W,
) -> Result<Delivery<'a>, Memory>
    requires { HasBudget (command_in command) }
    ensures prepared { let finding : Finding = record {
      contents = H.contents shelf.old;
      looks_before = H.failed_looks shelf.old;
      looks_now = H.failed_looks shelf.new;
      offered = map (λ helper. (P.tally helper).least) helpers.new.items;
    } in
        IfOk result (λ d. IsPrepared H.tells (Some (command_in command.entry)) finding (H.given shelf.old) (H.given shelf.new) d.status (output_in d)) }
    ensures contents { IsTrue H.tells → SameContents (H.contents shelf.old) (H.contents shelf.new) }
    ensures keeps { H.failed_keeps shelf.new ≡ H.failed_keeps shelf.old }
    ensures helpers { map P.id helpers.new.items ≡ map P.id helpers.old.items }
    ensures unasked { asks_helpers (command_in command.entry) ≡ false → helpers.new.items ≡ helpers.old.items }
    ensures seeds { IfOk result (λ d. IsHelped (Some (command_in command.entry)) d.status
        → EachIndex helpers.new.items (λ k. slice_index (map P.seed helpers.new.items) k ≡ (seed_of (command_in command.entry) + k) % 2 ^ 64)) }
    ensures asked { IfOk result (λ d. IsHelped (Some (command_in command.entry)) d.status → All (λ helper. 1 ≤ P.asked helper) helpers.new.items) }
    ensures fouls { IfOk result (λ d. IsHelped (Some (command_in command.entry)) d.status → All (λ helper. (P.tally helper).fouls ≤ 1) helpers.new.items) }
{
    match gather(alloc, command, shelf) {
        Ok(job) => make(alloc, job, helpers, advisers, watch),
        Err(Fail::Memory) => Err(Memory),
        Err(Fail::Refused(status)) => refuse(alloc, status),
    }
}

// An answer that keeps nothing, and writes its text.
fn refuse<'a>(alloc: Global, status: Status) -> Result<Delivery<'a>, Memory>
    ensures { IfOk result (λ d. (d.status ≡ status) × (output_in d ≡ refusal_output status)) }
{
    let text = refusal(alloc, &status)?;
    Ok(Delivery {
        kept: Vec::new(alloc),
        text,
        status,
    })
}
