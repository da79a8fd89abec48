// An output.
ghost use Rattle.std.specs.Prelude.{◌≡◌, ℕ, ◌<◌, ◌≤◌, ◌++◌, List, length, take, Bool, IsTrue, IfOk, OnErr};
ghost use Rattle.carp_outside.specs.Causes.{HasCause};

/// The sink took nothing. Its count of faults rose.
#[derive(Clone, Copy, Debug, PartialEq, Eq)]
pub struct SinkFault;

/// An output.
///
/// Contracts see the bytes that were written so far, if the type tells them, and the count of faults, which never
/// falls. They read a count of 2^64 - 1 or more as one that rose.
pub trait Sink {
    // Whether the written bytes are told, the same for every value of the type.
    ghost tells: { Bool };

    ghost written: { Self → List ℕ };

    ghost faults: { Self → ℕ };

    /// Takes at least one byte from the front of the piece, and answers how many. After a fault nothing was taken.
    fn put(&mut self, piece: &[u8]) -> Result<usize, SinkFault>
        requires { 0 < length piece.now }
        ensures some { IfOk result (λ n. 0 < n) }
        ensures within { IfOk result (λ n. n ≤ length piece.now) }
        ensures written { IsTrue tells → IfOk result (λ n. written self.new ≡ written self.old ++ take n piece.now) }
        ensures none { IsTrue tells → OnErr result (written self.new ≡ written self.old) }
        ensures cause { HasCause (faults self.old) (faults self.new) result };
}
