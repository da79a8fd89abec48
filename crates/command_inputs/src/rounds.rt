// Reads an instance, and lays a round over it.
ghost use Rattle.std.specs.Prelude.{◌≡◌, ◌<◌, ◌^◌, length, IfErr, IfOk, IsTrue, OnOk};
ghost use Rattle.postman.specs.Refusals.{RefusesApart};
ghost use Rattle.postman.specs.Rounds.{AreJoined, IsShownRound};
ghost use Rattle.carp_outside.specs.Told.{SameContents};
ghost use Rattle.dat_text.specs.Text.{IsTextOf};
ghost use Rattle.command_line.specs.Commands.{instance_at};
ghost use Rattle.command_inputs.specs.Files.{IsBadRound, IsJoinedText};
ghost use Rattle.command_inputs.specs.Reads.{IsFileRead, IsNamed, IsOfRound, IsParsed, IsRoundOf, seen_by};

use crate::reading::{INSTANCE_LIMIT, parse_instance, read_file};
use crate::status::Status;
use carp_base::{Fail, Instance, Memory};
use carp_outside::Shelf;
use dat_text::readings_are_unique;
use postman::{PostmanFault, Round, postman};
use road_network::Network;
use std::alloc::Global;
use task_tours::cost_distances;

/// An instance, and a least round of it.
#[derive(Drop)]
pub struct Laid {
    /// The instance of the file.
    pub inst: Instance,
    /// A least closed walk over its required edges.
    pub round: Round,
}

/// Reads the instance that a file describes, and lays a least round over its required edges.
///
/// It refuses with [`Status::ReadFault`], [`Status::TooLong`] with [`INSTANCE_LIMIT`], [`Status::BadInstance`] or
/// [`Status::NotJoined`]. `Fail::Memory` says only that there was not enough memory. It takes the time of reading, of
/// least paths between all vertices and of [`postman::postman`].
pub fn read_round<H: Shelf>(alloc: Global, shelf: &mut H, file: &str) -> Result<Laid, Fail<Status>>
    ensures read { IsFileRead
        (seen_by H.tells (H.contents shelf.old) (H.failed_looks shelf.old) (H.failed_looks shelf.new) (H.given shelf.old) (H.given shelf.new))
        (instance_at file.now) IsOfRound IsRoundOf IsBadRound IsJoinedText result }
    ensures contents { IsTrue H.tells → SameContents (H.contents shelf.old) (H.contents shelf.new) }
    ensures keeps { H.failed_keeps shelf.new ≡ H.failed_keeps shelf.old }
{
    match read_file(alloc, shelf, file, INSTANCE_LIMIT) {
        Ok(bytes) => parse_round(alloc, &bytes),
        Err(fail) => Err(fail),
    }
}

// The instance of the bytes, with a round.
fn parse_round(alloc: Global, bytes: &[u8]) -> Result<Laid, Fail<Status>>
    requires { length bytes.now < 2 ^ 32 }
    ensures { IsParsed bytes.now IsRoundOf IsBadRound IsJoinedText result }
{
    readings_are_unique();
    match parse_instance(alloc, bytes) {
        Ok(inst) => lay(alloc, bytes, inst),
        Err(fail) => Err(fail),
    }
}

// The round of an instance that was read from these bytes.
fn lay(alloc: Global, _bytes: &[u8], inst: Instance) -> Result<Laid, Fail<Status>>
    requires { IsTextOf _bytes.now inst }
    ensures { IsParsed _bytes.now IsRoundOf IsBadRound IsJoinedText result }
{
    readings_are_unique();
    match lay_round(alloc, &inst) {
        Ok(round) => Ok(Laid { inst, round }),
        Err(Fail::Memory) => Err(Fail::Memory),
        Err(Fail::Refused(fault)) => Err(Fail::Refused(status_of(fault))),
    }
}

// The status that names a fault.
fn status_of(fault: PostmanFault) -> Status
    ensures { IsNamed fault result }
{
    match fault {
        PostmanFault::NotJoined(edge) => Status::NotJoined(edge),
    }
}

// A least round of an instance.
fn lay_round(alloc: Global, inst: &Instance) -> Result<Round, Fail<PostmanFault>>
    ensures round { IfOk result (λ r. IsShownRound inst.now r.walk r.shores.items r.cost) }
    ensures joined { OnOk result (AreJoined inst.now) }
    ensures refused { IfErr result (RefusesApart inst.now) }
{
    let net = Network::new(alloc, inst)?;
    let dist = cost_distances(alloc, inst)?;
    postman(alloc, inst, &net, &dist)
}
