// A file in pieces.
ghost use Rattle.std.specs.Prelude.{◌≡◌, ℕ, ◌+◌, ◌^◌, ◌<◌, ◌≤◌, [], List, length, IsTrue, IfOk, OnOk, IsErrOf, OnErr, take};
ghost use Rattle.carp_outside.specs.declared.reading.ReadFault.TheVariants.{Fault, TooLong};
ghost use Rattle.carp_outside.specs.Causes.{Rose, grown};
ghost use Rattle.carp_outside.specs.Told.{IsNextPiece, SameContents};

use crate::{ReadFault, Shelf};
use carp_base::Memory;
use std::alloc::Global;

/// A file that is read in pieces of a greatest size, up to a limit of bytes. It holds one piece.
#[derive(Drop)]
pub struct Pieces {
    room: Vec<u8>,
    filled: usize,
    taken: u64,
    limit: u64,
    ghost some: { 0 < length room.items },
    ghost within: { filled ≤ length room.items },
    ghost few: { limit < 2 ^ 40 },
}

impl Pieces {
    ghost use Rattle.carp_outside.specs.Pieces.{limit_of, piece_of, size_of, taken_of};

    /// No piece was taken. A piece has at most `size` bytes, 1 to 1,048,576, and a file at most `limit`, below 2^40.
    pub fn new(alloc: Global, size: usize, limit: u64) -> Result<Pieces, Memory>
        requires some { 0 < size }
        requires small { size ≤ 1048576 }
        requires few { limit < 2 ^ 40 }
        ensures size { IfOk result (λ pieces. size_of pieces ≡ size) }
        ensures limit { IfOk result (λ pieces. limit_of pieces ≡ limit) }
        ensures taken { IfOk result (λ pieces. taken_of pieces ≡ 0) }
        ensures piece { IfOk result (λ pieces. piece_of pieces ≡ []) }
    {
        let room = zeros(alloc, size)?;
        Ok(Pieces {
            room,
            filled: 0,
            taken: 0,
            limit,
        })
    }

    /// Takes the next piece of a name, and answers how many bytes it has: at most the size, and at most one more than
    /// are left up to the limit. It answers 0 only at the end, and takes no memory.
    ///
    /// `Fault` comes only if a look at the name failed, and then no bytes were taken. `TooLong` comes exactly if one
    /// byte more than the limit is taken now.
    pub fn next<H: Shelf>(&mut self, shelf: &mut H, name: &str) -> Result<usize, ReadFault>
        requires { taken_of self.old ≤ limit_of self.old }
        ensures count { IfOk result (λ n. n ≡ length (piece_of self.new)) }
        ensures taken { IfOk result (λ n. taken_of self.new ≡ taken_of self.old + n) }
        ensures within { OnOk result (taken_of self.new ≤ limit_of self.new) }
        ensures size { size_of self.new ≡ size_of self.old }
        ensures few { length (piece_of self.new) ≤ size_of self.new }
        ensures limit { limit_of self.new ≡ limit_of self.old }
        ensures bytes { IsTrue H.tells → OnOk result (IsNextPiece (H.contents shelf.old name.now) (taken_of self.old) (piece_of self.new)) }
        ensures given { IfOk result (λ n. H.given shelf.new ≡ grown (H.given shelf.old) n) }

        // Each refusal has its cause.
        ensures fault { IsErrOf result Fault → Rose (H.failed_looks shelf.old name.now) (H.failed_looks shelf.new name.now) }
        ensures not_taken { IsErrOf result Fault → taken_of self.new ≡ taken_of self.old }
        ensures too_long { IsErrOf result TooLong → taken_of self.new ≡ limit_of self.new + 1 }
        ensures last { IsErrOf result TooLong → taken_of self.new ≡ taken_of self.old + length (piece_of self.new) }
        ensures longer { IsTrue H.tells → IsErrOf result TooLong → IsNextPiece (H.contents shelf.old name.now) (taken_of self.old) (piece_of self.new) }
        ensures given_last { IsErrOf result TooLong → H.given shelf.new ≡ grown (H.given shelf.old) (length (piece_of self.new)) }

        // What stays, whatever is answered.
        ensures contents { IsTrue H.tells → SameContents (H.contents shelf.old) (H.contents shelf.new) }
        ensures keeps { H.failed_keeps shelf.new ≡ H.failed_keeps shelf.old }
        ensures given_later { H.given shelf.old ≤ H.given shelf.new }
        ensures looks { (other : List ℕ) → H.failed_looks shelf.old other ≤ H.failed_looks shelf.new other }
    {
        let most = (self.room.len() as u64).min(self.limit + 1 - self.taken) as usize;
        let count = look_front(shelf, name, self.taken, self.room.as_mut_slice(), most)?;
        self.filled = count;
        self.taken += count as u64;
        if self.taken > self.limit {
            return Err(ReadFault::TooLong);
        }
        Ok(count)
    }

    /// The bytes of the latest piece.
    pub fn piece(&self) -> &[u8]
        ensures { result.now ≡ piece_of self.now }
    {
        &self.room[..self.filled]
    }

    /// How many bytes were taken.
    pub fn taken(&self) -> u64
        ensures { result ≡ taken_of self.now }
    {
        self.taken
    }
}

// Fills the front of a buffer, as far as so many bytes, with the name's bytes from a place on.
fn look_front<H: Shelf>(
    shelf: &mut H,
    name: &str,
    at: u64,
    buffer: &mut [u8],
    most: usize,
) -> Result<usize, ReadFault>
    requires some { 0 < most }
    requires most { most ≤ length buffer.old }
    ensures within { IfOk result (λ n. n ≤ most) }
    ensures length { length buffer.new ≡ length buffer.old }
    ensures bytes { IsTrue H.tells → IfOk result (λ n. IsNextPiece (H.contents shelf.old name.now) at (take n buffer.new)) }
    ensures contents { IsTrue H.tells → SameContents (H.contents shelf.old) (H.contents shelf.new) }
    ensures given { IfOk result (λ n. H.given shelf.new ≡ grown (H.given shelf.old) n) }
    ensures given_later { H.given shelf.old ≤ H.given shelf.new }
    ensures keeps { H.failed_keeps shelf.new ≡ H.failed_keeps shelf.old }
    ensures fault { OnErr result (Rose (H.failed_looks shelf.old name.now) (H.failed_looks shelf.new name.now)) }
    ensures only { IsErrOf result TooLong → ⊥ }
    ensures looks { (other : List ℕ) → H.failed_looks shelf.old other ≤ H.failed_looks shelf.new other }
{
    let Ok(count) = shelf.look(name, at, &mut buffer[..most]) else {
        return Err(ReadFault::Fault);
    };
    Ok(count)
}

// So many bytes, each 0.
fn zeros(alloc: Global, count: usize) -> Result<Vec<u8>, Memory>
    ensures { IfOk result (λ bytes. length bytes.items ≡ count) }
{
    Ok(vec![in alloc; 0u8; count]?)
}
