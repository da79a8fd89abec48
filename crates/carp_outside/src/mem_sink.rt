// A sink in memory.
ghost use Rattle.std.specs.Prelude.{◌≡◌, ◌↔◌, ◌-◌, ◌<◌, ◌≤◌, ◌++◌, [], length, take, min, true, IsErr, IfOk, OnErr, vec_capacity, ◌⊎◌};
ghost use Rattle.carp_outside.specs.Causes.{HasCause};

use crate::calls::Calls;
use crate::{Sink, SinkFault};
use carp_base::Memory;
use std::alloc::Global;

/// A sink in memory, which tells what was written and fails at the calls that it is told to fail.
///
/// Calls of `put` are numbered from 1. `put` takes no memory.
#[derive(Drop)]
pub struct MemSink {
    taken: Vec<u8>,
    room: usize,
    piece: usize,
    puts: Calls,
    ghost some: { 0 < piece },
    ghost roomy: { room ≤ vec_capacity taken },
}

impl MemSink {
    ghost use Rattle.carp_outside.specs.Calls.{empty_log};
    ghost use Rattle.carp_outside.specs.MemSink.{written_of, sink_room_of, sink_piece_of, puts_of};

    /// A sink to which nothing was written. It takes at most `room` bytes in all, and at most `piece` at a call. The
    /// puts of the listed numbers fail.
    pub fn new(
        alloc: Global,
        room: usize,
        piece: usize,
        failing: Vec<u64>,
    ) -> Result<MemSink, Memory>
        requires { 0 < piece }
        ensures nothing { IfOk result (λ sink. written_of sink ≡ []) }
        ensures room { IfOk result (λ sink. sink_room_of sink ≡ room) }
        ensures piece { IfOk result (λ sink. sink_piece_of sink ≡ piece) }
        ensures puts { IfOk result (λ sink. puts_of sink ≡ empty_log failing.items) }
    {
        Ok(MemSink {
            taken: Vec::with_capacity(alloc, room)?,
            room,
            piece,
            puts: Calls::new(failing),
        })
    }

    /// The bytes that were written so far.
    pub fn written(&self) -> &[u8]
        ensures { result.now ≡ written_of self.now }
    {
        self.taken.as_slice()
    }
}

impl Sink for MemSink {
    ghost use Rattle.carp_outside.specs.Calls.{IsListed, AddsCall};
    ghost use Rattle.carp_outside.specs.MemSink.{written_of, sink_room_of, sink_piece_of, puts_of};

    ghost tells = { true };

    ghost written = { written_of };

    ghost faults = { λ s. (puts_of s).faults };

    /// Fails exactly at a listed number, and if `room` bytes are already written.
    fn put(&mut self, piece: &[u8]) -> Result<usize, SinkFault>
        requires { 0 < length piece.now }
        ensures some { IfOk result (λ n. 0 < n) }
        ensures within { IfOk result (λ n. n ≤ length piece.now) }
        ensures written { IfOk result (λ n. written_of self.new ≡ written_of self.old ++ take n piece.now) }
        ensures none { OnErr result (written_of self.new ≡ written_of self.old) }
        ensures cause { HasCause (puts_of self.old).faults (puts_of self.new).faults result }

        // When it fails, how many bytes it takes otherwise, and what it counts.
        ensures fails { IsErr result ↔ (IsListed (puts_of self.old) ⊎ (sink_room_of self.old ≤ length (written_of self.old))) }
        ensures as_many { IfOk result (λ n. n ≡ min (min (length piece.now) (sink_piece_of self.old)) (sink_room_of self.old - length (written_of self.old))) }
        ensures puts { AddsCall (puts_of self.old) (puts_of self.new) result }
        ensures room { sink_room_of self.new ≡ sink_room_of self.old }
        ensures piece { sink_piece_of self.new ≡ sink_piece_of self.old }
    {
        if self.puts.next_fails() || self.taken.len() >= self.room {
            self.puts.add_fault();
            return Err(SinkFault);
        }
        let count = piece
            .len()
            .min(self.piece)
            .min(self.room - self.taken.len());
        self.taken.extend_from_slice(&piece[..count]).unwrap();
        Ok(count)
    }
}
