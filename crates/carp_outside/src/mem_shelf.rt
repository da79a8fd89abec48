// A shelf in memory.
ghost use Rattle.std.specs.Prelude.{◌≡◌, ◌↔◌, ℕ, ◌-◌, ◌<◌, ◌≤◌, List, length, take, min, true, Some, None, IsNone, IsErr, IfOk, IfSome, IsSomeAnd, OnOk, OnErr, ◌⊎◌};
ghost use Rattle.std.specs.Option.{option_copied};
ghost use Rattle.carp_outside.specs.Causes.{grown, HasCause};
ghost use Rattle.carp_outside.specs.Told.{IsPiece, HoldsExactly, HoldsFront, SameContents};

use crate::calls::Calls;
use crate::mem_files::{Files, held_in, keep_in, ready_in, tear_in};
use crate::{Shelf, ShelfFault};
use carp_base::Memory;
use std::alloc::Global;
use std::collections::BTreeMap;

/// A shelf in memory. It tells its contents, and fails at the calls that it is told to fail.
///
/// Calls are numbered from 1, looks and keeps apart. If a call fails, the count of faults of its kind rises by one. No
/// other call changes this count. One count of failed looks stands for every name. `look` and `keep` take no memory. A
/// keep that fails changes nothing, until [`MemShelf::tear`] says how many bytes a keep leaves that fails at a listed
/// number.
#[derive(Drop)]
pub struct MemShelf {
    alloc: Global,
    files: Files,
    piece: usize,
    looks: Calls,
    keeps: Calls,
    given: u64,
    torn: Option<u64>,
    ghost some: { 0 < piece },
}

impl MemShelf {
    ghost use Rattle.carp_outside.specs.Calls.{empty_log};
    ghost use Rattle.carp_outside.specs.Files.{SameRooms, IsMadeReady};
    ghost use Rattle.carp_outside.specs.MemShelf.{contents_of, room_of, piece_of, looks_of, keeps_of, given_of, torn_of, SameCounts};

    /// A shelf that holds nothing. A look gives at most `piece` bytes. The looks and the keeps of the listed numbers
    /// fail, and no keep is torn.
    pub fn new(
        alloc: Global,
        piece: usize,
        failing_looks: Vec<u64>,
        failing_keeps: Vec<u64>,
    ) -> MemShelf
        requires { 0 < piece }
        ensures nothing { (name : List ℕ) → contents_of result name ≡ None }
        ensures not_ready { (name : List ℕ) → room_of result name ≡ None }
        ensures piece { piece_of result ≡ piece }
        ensures looks { looks_of result ≡ empty_log failing_looks.items }
        ensures keeps { keeps_of result ≡ empty_log failing_keeps.items }
        ensures given { given_of result ≡ 0 }
        ensures torn { torn_of result ≡ None }
    {
        MemShelf {
            alloc,
            files: BTreeMap::new(alloc),
            piece,
            looks: Calls::new(failing_looks),
            keeps: Calls::new(failing_keeps),
            given: 0,
            torn: None,
        }
    }

    /// Sets up a file: the name holds these bytes, and is ready for so many. This is no keep, and never a fault. After
    /// want of memory all is as it was.
    pub fn place(&mut self, name: &str, bytes: &[u8]) -> Result<(), Memory>
        ensures holds { OnOk result (HoldsExactly name.now bytes.now (contents_of self.old) (contents_of self.new)) }
        ensures ready { OnOk result (IsMadeReady name.now (length bytes.now) (room_of self.old) (room_of self.new)) }
        ensures counts { SameCounts self.old self.new }

        // A refusal changes nothing.
        ensures same { OnErr result (SameContents (contents_of self.old) (contents_of self.new)) }
        ensures same_rooms { OnErr result (SameRooms (room_of self.old) (room_of self.new)) }
    {
        ready_in(self.alloc, &mut self.files, name, bytes.len())?;
        // The name is ready for them now.
        let _fits = keep_in(&mut self.files, name, bytes, bytes.len());
        Ok(())
    }

    /// Takes the memory for `room` bytes at a name, so that as many can be kept there. What is held stays. A name
    /// that is ready for more stays so. After want of memory all is as it was.
    pub fn ready(&mut self, name: &str, room: usize) -> Result<(), Memory>
        ensures ready { OnOk result (IsMadeReady name.now room (room_of self.old) (room_of self.new)) }
        ensures same_rooms { OnErr result (SameRooms (room_of self.old) (room_of self.new)) }
        ensures same { SameContents (contents_of self.old) (contents_of self.new) }
        ensures counts { SameCounts self.old self.new }
    {
        ready_in(self.alloc, &mut self.files, name, room)
    }

    /// From now on, a keep is torn if it fails at a listed number and the name is ready for the new contents. It then
    /// leaves the first `bytes` bytes of these there, or all of them if there are fewer. It takes no memory.
    pub fn tear(&mut self, bytes: u64)
        ensures torn { torn_of self.new ≡ Some bytes }

        // All else stays.
        ensures contents { SameContents (contents_of self.old) (contents_of self.new) }
        ensures rooms { SameRooms (room_of self.old) (room_of self.new) }
        ensures looks { looks_of self.new ≡ looks_of self.old }
        ensures keeps { keeps_of self.new ≡ keeps_of self.old }
        ensures given { given_of self.new ≡ given_of self.old }
        ensures piece { piece_of self.new ≡ piece_of self.old }
    {
        self.torn = Some(bytes);
    }

    /// The bytes that a name holds, or `None` exactly if it is not held.
    pub fn held(&self, name: &str) -> Option<&[u8]>
        ensures { option_copied result ≡ contents_of self.now name.now }
    {
        held_in(&self.files, name)
    }
}

impl Shelf for MemShelf {
    ghost use Rattle.carp_outside.specs.Calls.{IsListed, AddsCall};
    ghost use Rattle.carp_outside.specs.Files.{SameRooms};
    ghost use Rattle.carp_outside.specs.MemShelf.{contents_of, room_of, piece_of, looks_of, keeps_of, given_of, torn_of};

    ghost tells = { true };

    ghost contents = { contents_of };

    ghost failed_looks = { λ s _. (looks_of s).faults };

    ghost failed_keeps = { λ s. (keeps_of s).faults };

    ghost given = { given_of };

    /// Fails exactly at a listed number and at a name that is not held.
    fn look(&mut self, name: &str, at: u64, buffer: &mut [u8]) -> Result<usize, ShelfFault>
        requires { 0 < length buffer.old }
        ensures within { IfOk result (λ n. n ≤ length buffer.new) }
        ensures bytes { IfOk result (λ n. IsSomeAnd (contents_of self.old name.now) (λ file. IsPiece file at n buffer.new)) }
        ensures contents { SameContents (contents_of self.old) (contents_of self.new) }
        ensures given { IfOk result (λ n. given_of self.new ≡ grown (given_of self.old) n) }
        ensures given_none { OnErr result (given_of self.new ≡ given_of self.old) }
        ensures given_later { given_of self.old ≤ given_of self.new }
        ensures keeps { keeps_of self.new ≡ keeps_of self.old }
        ensures cause { HasCause (looks_of self.old).faults (looks_of self.new).faults result }
        ensures others { (other : List ℕ) → (looks_of self.old).faults ≤ (looks_of self.new).faults }

        // When it fails, how many bytes it gives otherwise, and what it counts.
        ensures fails { IsErr result ↔ (IsListed (looks_of self.old) ⊎ IsNone (contents_of self.old name.now)) }
        ensures as_many { IfOk result (λ n. IfSome (contents_of self.old name.now) (λ file. n ≡ min (length file - at) (min (length buffer.old) (piece_of self.old)))) }
        ensures looks { AddsCall (looks_of self.old) (looks_of self.new) result }
        ensures rooms { SameRooms (room_of self.old) (room_of self.new) }
        ensures piece { piece_of self.new ≡ piece_of self.old }
        ensures tear { torn_of self.new ≡ torn_of self.old }
    {
        if self.looks.next_fails() {
            self.looks.add_fault();
            return Err(ShelfFault);
        }
        match held_in(&self.files, name) {
            None => {
                self.looks.add_fault();
                Err(ShelfFault)
            }
            Some(bytes) => {
                let count = copy_piece(bytes, at, buffer, self.piece);
                self.given = self.given.saturating_add(count as u64);
                Ok(count)
            }
        }
    }

    /// Fails exactly at a listed number, and at a name that was not made ready for so many bytes. Then the name holds
    /// what it held. If a tear is set, the number is listed and the name is ready, the name holds the front that the
    /// tear says.
    fn keep(&mut self, name: &str, bytes: &[u8]) -> Result<(), ShelfFault>
        ensures kept { OnOk result (HoldsExactly name.now bytes.now (contents_of self.old) (contents_of self.new)) }
        ensures cut { OnErr result (HoldsFront name.now bytes.now (contents_of self.old) (contents_of self.new)) }
        ensures cause { HasCause (keeps_of self.old).faults (keeps_of self.new).faults result }
        ensures looks { looks_of self.new ≡ looks_of self.old }
        ensures given { given_of self.new ≡ given_of self.old }

        // When it fails, what is left then, and what it counts.
        ensures fails { IsErr result ↔ (IsListed (keeps_of self.old) ⊎ IfSome (room_of self.old name.now) (λ room. room < length bytes.now)) }
        ensures same { IsNone (torn_of self.old) ⊎ (IsListed (keeps_of self.old) → ⊥) ⊎ IfSome (room_of self.old name.now) (λ room. room < length bytes.now)
            → OnErr result (SameContents (contents_of self.old) (contents_of self.new)) }
        ensures torn { IfSome (torn_of self.old) (λ n. IsListed (keeps_of self.old) → IsSomeAnd (room_of self.old name.now) (λ room. length bytes.now ≤ room)
            → HoldsExactly name.now (take n bytes.now) (contents_of self.old) (contents_of self.new)) }
        ensures keeps { AddsCall (keeps_of self.old) (keeps_of self.new) result }
        ensures rooms { SameRooms (room_of self.old) (room_of self.new) }
        ensures piece { piece_of self.new ≡ piece_of self.old }
        ensures tear { torn_of self.new ≡ torn_of self.old }
    {
        if self.keeps.next_fails() {
            self.keeps.add_fault();
            tear_in(&mut self.files, name, bytes, self.torn);
            return Err(ShelfFault);
        }
        if keep_in(&mut self.files, name, bytes, bytes.len()) {
            Ok(())
        } else {
            self.keeps.add_fault();
            Err(ShelfFault)
        }
    }
}

// Copies bytes from a place on, at most so many, to the front of the buffer, and says how many.
fn copy_piece(bytes: &[u8], at: u64, buffer: &mut [u8], most: usize) -> usize
    requires room { 0 < length buffer.old }
    requires most { 0 < most }
    ensures count { result ≡ min (length bytes.now - at) (min (length buffer.old) most) }
    ensures piece { IsPiece bytes.now at result buffer.new }
{
    let at = at.min(bytes.len() as u64) as usize;
    let rest = &bytes[at..];
    let count = rest.len().min(buffer.len()).min(most);
    buffer[..count].copy_from_slice(&rest[..count]);
    count
}
