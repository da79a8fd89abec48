// A store of named files.
ghost use Rattle.std.specs.Prelude.{◌≡◌, ℕ, ◌<◌, ◌≤◌, List, length, Option, Bool, IsTrue, IfOk, OnOk, OnErr, IsSomeAnd};
ghost use Rattle.carp_outside.specs.Causes.{grown, HasCause};
ghost use Rattle.carp_outside.specs.Told.{IsPiece, HoldsExactly, HoldsFront, SameContents};

/// The shelf failed at a call. Its count for that kind of call rose.
#[derive(Clone, Copy, Debug, PartialEq, Eq)]
pub struct ShelfFault;

/// A store of named files.
///
/// Contracts see what each name holds, if the type tells it (`None`: the name is not held). They see three kinds of
/// counts, which never fall: the failed looks of each name, the failed keeps, and the bytes given so far. They read a
/// count of 2^64 - 1 or more as one that rose.
pub trait Shelf {
    // Whether contents are told, the same for every value of the type.
    ghost tells: { Bool };

    ghost contents: { Self → List ℕ → Option (List ℕ) };

    ghost failed_looks: { Self → List ℕ → ℕ };

    ghost failed_keeps: { Self → ℕ };

    ghost given: { Self → ℕ };

    /// Fills the front of the buffer with the name's bytes from a place on, counted from 0, and answers how many. It
    /// answers 0 only at or past the end. A name that is not held is a fault.
    fn look(&mut self, name: &str, at: u64, buffer: &mut [u8]) -> Result<usize, ShelfFault>
        requires { 0 < length buffer.old }
        ensures within { IfOk result (λ n. n ≤ length buffer.new) }
        ensures bytes { IsTrue tells → IfOk result (λ n. IsSomeAnd (contents self.old name.now) (λ file. IsPiece file at n buffer.new)) }
        ensures contents { IsTrue tells → SameContents (contents self.old) (contents self.new) }
        ensures given { IfOk result (λ n. given self.new ≡ grown (given self.old) n) }
        ensures given_none { OnErr result (given self.new ≡ given self.old) }
        ensures given_later { given self.old ≤ given self.new }
        ensures keeps { failed_keeps self.new ≡ failed_keeps self.old }
        ensures cause { HasCause (failed_looks self.old name.now) (failed_looks self.new name.now) result }
        ensures others { (other : List ℕ) → failed_looks self.old other ≤ failed_looks self.new other };

    /// Makes the name hold exactly these bytes. After a fault it holds what it held, or a front of these bytes.
    fn keep(&mut self, name: &str, bytes: &[u8]) -> Result<(), ShelfFault>
        ensures kept { IsTrue tells → OnOk result (HoldsExactly name.now bytes.now (contents self.old) (contents self.new)) }
        ensures cut { IsTrue tells → OnErr result (HoldsFront name.now bytes.now (contents self.old) (contents self.new)) }
        ensures cause { HasCause (failed_keeps self.old) (failed_keeps self.new) result }
        ensures looks { (other : List ℕ) → failed_looks self.new other ≡ failed_looks self.old other }
        ensures given { given self.new ≡ given self.old };
}
