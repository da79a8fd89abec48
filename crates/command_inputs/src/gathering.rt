// Reads the files of a command.
ghost use Rattle.std.specs.Prelude.{◌≡◌, ◌≤◌, IfOk, IsTrue};
ghost use Rattle.carp_outside.specs.Told.{SameContents};
ghost use Rattle.cert_format.specs.Certs.{certificate_in};
ghost use Rattle.cert_format.specs.Good.{with_counts};
ghost use Rattle.command_line.specs.Commands.{Solve, Check, Sheet, Upgrade, Postman, Fleet, Edit, Improve};
ghost use Rattle.command_line.specs.Forms.{command_in};
ghost use Rattle.command_line.specs.Laws.{HasBudget};
ghost use Rattle.command_inputs.specs.Reads.{seen_by};
ghost use Rattle.command_inputs.specs.Jobs.{IsGathered, IsJobOf};

use crate::job::Job;
use crate::{Status, check_file, read_edited, read_good, read_instance, read_round};
use carp_base::{Fail, Instance};
use carp_outside::Shelf;
use cert_format::{Cert, counts_keep_good, counts_of, good_is_proof};
use command_line::Command;
use dat_text::readings_are_unique;
use std::alloc::Global;

/// Reads the files of a command, each of them whole before the next, and makes its job of them. The first file that
/// cannot be read, is too long or is bad ends it with its status; of `edit`, whose three files are all read before what
/// they hold is looked at, a file that cannot be read or is too long comes before a bad one. A command without files
/// has its job at once, and is never refused.
///
/// A refusal is [`Status::ReadFault`] or [`Status::TooLong`], or one for the bytes of the files that the command reads:
/// [`Status::BadInstance`] of an instance, [`Status::BadCertificate`] or [`Status::Rejected`] of a certificate,
/// [`Status::BadEdit`] of edits, and [`Status::NotJoined`] only of `postman`.
///
/// Whether or not the shelf tells its contents, the job rests on texts that are no longer than what it gave in this
/// call: the certificate of a check, a sheet, an upgrade, an edit and an improvement is good for the instance. If it
/// tells them, these are the bytes that the names hold, and what they hold decides, if no look failed at a file that had
/// to be looked at.
///
/// `Fail::Memory` says only that there was not enough memory. It takes the time of reading the files and checking the
/// certificate, for `postman` also of the round, and for `edit` of the edited instance.
pub fn gather<'a, H: Shelf>(
    alloc: Global,
    command: Command<'a>,
    shelf: &mut H,
) -> Result<Job<'a>, Fail<Status>>
    requires { HasBudget (command_in command) }
    ensures job { IfOk result (IsJobOf H.tells (command_in command.entry) (H.contents shelf.old) (H.given shelf.old) (H.given shelf.new)) }
    ensures tried { IsGathered (command_in command.entry)
        (seen_by H.tells (H.contents shelf.old) (H.failed_looks shelf.old) (H.failed_looks shelf.new) (H.given shelf.old) (H.given shelf.new)) result }
    ensures contents { IsTrue H.tells → SameContents (H.contents shelf.old) (H.contents shelf.new) }
    ensures keeps { H.failed_keeps shelf.new ≡ H.failed_keeps shelf.old }
{
    match command {
        Command::Solve {
            file,
            cert,
            turns,
            seed,
        } => gather_instance(alloc, file, cert, turns, seed, shelf),
        Command::Check { file, cert } => gather_checked(alloc, file, cert, shelf),
        Command::Sheet { file, cert } => gather_plan(alloc, file, cert, shelf),
        Command::Make { file, seed } => Ok(Job::Make { file, seed }),
        Command::Drill { turns, seed } => Ok(Job::Drill { turns, seed }),
        Command::Upgrade {
            file,
            cert,
            renewed,
        } => gather_renewed(alloc, file, cert, renewed, shelf),
        Command::Postman { file } => gather_round(alloc, file, shelf),
        Command::Fleet { file, turns } => gather_fleet(alloc, file, turns, shelf),
        Command::Edit {
            file,
            cert,
            edits,
            edited,
            carried,
        } => gather_edited(alloc, file, cert, edits, edited, carried, shelf),
        Command::Improve {
            file,
            cert,
            improved,
            turns,
            seed,
        } => gather_held(alloc, file, cert, improved, turns, seed, shelf),
    }
}

// The instance to be solved.
fn gather_instance<'a, H: Shelf>(
    alloc: Global,
    file: &str,
    cert: &'a str,
    turns: u64,
    seed: u64,
    shelf: &mut H,
) -> Result<Job<'a>, Fail<Status>>
    requires some_turns { 1 ≤ turns }
    requires turns_in_range { turns ≤ 1048576 }
    ensures job { IfOk result (IsJobOf H.tells (Solve file.now cert.now turns seed) (H.contents shelf.old) (H.given shelf.old) (H.given shelf.new)) }
    ensures tried { IsGathered (Solve file.now cert.now turns seed)
        (seen_by H.tells (H.contents shelf.old) (H.failed_looks shelf.old) (H.failed_looks shelf.new) (H.given shelf.old) (H.given shelf.new)) result }
    ensures contents { IsTrue H.tells → SameContents (H.contents shelf.old) (H.contents shelf.new) }
    ensures keeps { H.failed_keeps shelf.new ≡ H.failed_keeps shelf.old }
{
    match read_instance(alloc, shelf, file) {
        Ok(inst) => Ok(Job::Solve {
            inst,
            cert,
            turns,
            seed,
        }),
        Err(fail) => Err(fail),
    }
}

// What is left of a certificate that is good.
fn gather_checked<'a, H: Shelf>(
    alloc: Global,
    file: &str,
    cert: &str,
    shelf: &mut H,
) -> Result<Job<'a>, Fail<Status>>
    ensures job { IfOk result (IsJobOf H.tells (Check file.now cert.now) (H.contents shelf.old) (H.given shelf.old) (H.given shelf.new)) }
    ensures tried { IsGathered (Check file.now cert.now)
        (seen_by H.tells (H.contents shelf.old) (H.failed_looks shelf.old) (H.failed_looks shelf.new) (H.given shelf.old) (H.given shelf.new)) result }
    ensures contents { IsTrue H.tells → SameContents (H.contents shelf.old) (H.contents shelf.new) }
    ensures keeps { H.failed_keeps shelf.new ≡ H.failed_keeps shelf.old }
{
    good_is_proof();
    readings_are_unique();
    match read_instance(alloc, shelf, file) {
        Ok(inst) => match check_file(alloc, &inst, shelf, cert) {
            Ok(stated) => Ok(Job::Check {
                cost: stated.cost,
                bound: stated.bound,
            }),
            Err(fail) => Err(fail),
        },
        Err(fail) => Err(fail),
    }
}

// The instance, and the plan of a certificate that is good.
fn gather_plan<'a, H: Shelf>(
    alloc: Global,
    file: &str,
    cert: &str,
    shelf: &mut H,
) -> Result<Job<'a>, Fail<Status>>
    ensures job { IfOk result (IsJobOf H.tells (Sheet file.now cert.now) (H.contents shelf.old) (H.given shelf.old) (H.given shelf.new)) }
    ensures tried { IsGathered (Sheet file.now cert.now)
        (seen_by H.tells (H.contents shelf.old) (H.failed_looks shelf.old) (H.failed_looks shelf.new) (H.given shelf.old) (H.given shelf.new)) result }
    ensures contents { IsTrue H.tells → SameContents (H.contents shelf.old) (H.contents shelf.new) }
    ensures keeps { H.failed_keeps shelf.new ≡ H.failed_keeps shelf.old }
{
    good_is_proof();
    readings_are_unique();
    match read_instance(alloc, shelf, file) {
        Ok(inst) => match check_file(alloc, &inst, shelf, cert) {
            Ok(stated) => Ok(Job::Sheet {
                inst,
                plan: stated.plan,
            }),
            Err(fail) => Err(fail),
        },
        Err(fail) => Err(fail),
    }
}

// A certificate that is good, with the numbers of the instance. All of it is kept in memory, since it is written again.
fn gather_renewed<'a, H: Shelf>(
    alloc: Global,
    file: &str,
    cert: &str,
    renewed: &'a str,
    shelf: &mut H,
) -> Result<Job<'a>, Fail<Status>>
    ensures job { IfOk result (IsJobOf H.tells (Upgrade file.now cert.now renewed.now) (H.contents shelf.old) (H.given shelf.old) (H.given shelf.new)) }
    ensures tried { IsGathered (Upgrade file.now cert.now renewed.now)
        (seen_by H.tells (H.contents shelf.old) (H.failed_looks shelf.old) (H.failed_looks shelf.new) (H.given shelf.old) (H.given shelf.new)) result }
    ensures contents { IsTrue H.tells → SameContents (H.contents shelf.old) (H.contents shelf.new) }
    ensures keeps { H.failed_keeps shelf.new ≡ H.failed_keeps shelf.old }
{
    good_is_proof();
    counts_keep_good();
    readings_are_unique();
    match read_instance(alloc, shelf, file) {
        Ok(inst) => match read_good(alloc, &inst, shelf, cert) {
            Ok(good) => {
                let cert = with_counts(&inst, good);
                Ok(Job::Upgrade { cert, renewed })
            }
            Err(fail) => Err(fail),
        },
        Err(fail) => Err(fail),
    }
}

// The certificate with the numbers of the instance.
fn with_counts(inst: &Instance, mut cert: Cert) -> Cert
    ensures { certificate_in result ≡ with_counts inst.now (certificate_in cert) }
{
    cert.counts = Some(counts_of(inst));
    cert
}

// A least closed walk over all required edges.
fn gather_round<'a, H: Shelf>(
    alloc: Global,
    file: &str,
    shelf: &mut H,
) -> Result<Job<'a>, Fail<Status>>
    ensures job { IfOk result (IsJobOf H.tells (Postman file.now) (H.contents shelf.old) (H.given shelf.old) (H.given shelf.new)) }
    ensures tried { IsGathered (Postman file.now)
        (seen_by H.tells (H.contents shelf.old) (H.failed_looks shelf.old) (H.failed_looks shelf.new) (H.given shelf.old) (H.given shelf.new)) result }
    ensures contents { IsTrue H.tells → SameContents (H.contents shelf.old) (H.contents shelf.new) }
    ensures keeps { H.failed_keeps shelf.new ≡ H.failed_keeps shelf.old }
{
    match read_round(alloc, shelf, file) {
        Ok(laid) => Ok(Job::Postman { laid }),
        Err(fail) => Err(fail),
    }
}

// The instance whose vehicles are to be counted.
fn gather_fleet<'a, H: Shelf>(
    alloc: Global,
    file: &str,
    turns: u64,
    shelf: &mut H,
) -> Result<Job<'a>, Fail<Status>>
    requires some_turns { 1 ≤ turns }
    requires turns_in_range { turns ≤ 1048576 }
    ensures job { IfOk result (IsJobOf H.tells (Fleet file.now turns) (H.contents shelf.old) (H.given shelf.old) (H.given shelf.new)) }
    ensures tried { IsGathered (Fleet file.now turns)
        (seen_by H.tells (H.contents shelf.old) (H.failed_looks shelf.old) (H.failed_looks shelf.new) (H.given shelf.old) (H.given shelf.new)) result }
    ensures contents { IsTrue H.tells → SameContents (H.contents shelf.old) (H.contents shelf.new) }
    ensures keeps { H.failed_keeps shelf.new ≡ H.failed_keeps shelf.old }
{
    match read_instance(alloc, shelf, file) {
        Ok(inst) => Ok(Job::Fleet { inst, turns }),
        Err(fail) => Err(fail),
    }
}

// An instance, a certificate that is good for it, and edits.
fn gather_edited<'a, H: Shelf>(
    alloc: Global,
    file: &str,
    cert: &str,
    edits: &str,
    edited: &'a str,
    carried: &'a str,
    shelf: &mut H,
) -> Result<Job<'a>, Fail<Status>>
    ensures job { IfOk result (IsJobOf H.tells (Edit file.now cert.now edits.now edited.now carried.now) (H.contents shelf.old)
        (H.given shelf.old) (H.given shelf.new)) }
    ensures tried { IsGathered (Edit file.now cert.now edits.now edited.now carried.now)
        (seen_by H.tells (H.contents shelf.old) (H.failed_looks shelf.old) (H.failed_looks shelf.new) (H.given shelf.old) (H.given shelf.new)) result }
    ensures contents { IsTrue H.tells → SameContents (H.contents shelf.old) (H.contents shelf.new) }
    ensures keeps { H.failed_keeps shelf.new ≡ H.failed_keeps shelf.old }
{
    match read_edited(alloc, shelf, file, cert, edits) {
        Ok(read) => Ok(Job::Edit {
            read,
            edited,
            carried,
        }),
        Err(fail) => Err(fail),
    }
}

// An instance, and a certificate that is good for it. All of it is kept in memory, since the search goes on from it.
fn gather_held<'a, H: Shelf>(
    alloc: Global,
    file: &str,
    cert: &str,
    improved: &'a str,
    turns: u64,
    seed: u64,
    shelf: &mut H,
) -> Result<Job<'a>, Fail<Status>>
    requires some_turns { 1 ≤ turns }
    requires turns_in_range { turns ≤ 1048576 }
    ensures job { IfOk result (IsJobOf H.tells (Improve file.now cert.now improved.now turns seed) (H.contents shelf.old) (H.given shelf.old) (H.given shelf.new)) }
    ensures tried { IsGathered (Improve file.now cert.now improved.now turns seed)
        (seen_by H.tells (H.contents shelf.old) (H.failed_looks shelf.old) (H.failed_looks shelf.new) (H.given shelf.old) (H.given shelf.new)) result }
    ensures contents { IsTrue H.tells → SameContents (H.contents shelf.old) (H.contents shelf.new) }
    ensures keeps { H.failed_keeps shelf.new ≡ H.failed_keeps shelf.old }
{
    good_is_proof();
    readings_are_unique();
    match read_instance(alloc, shelf, file) {
        Ok(inst) => match read_good(alloc, &inst, shelf, cert) {
            Ok(good) => Ok(Job::Improve {
                inst,
                cert: good,
                improved,
                turns,
                seed,
            }),
            Err(fail) => Err(fail),
        },
        Err(fail) => Err(fail),
    }
}
