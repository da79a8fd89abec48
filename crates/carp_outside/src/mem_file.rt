// A file in memory.
ghost use Rattle.std.specs.Prelude.{◌≡◌, ◌≤◌, ◌<◌, Some, true, false, max, length, IfOk, OnOk, OnErr, vec_capacity};
ghost use Rattle.std.specs.Bool.{OnTrue, OnFalse};
ghost use Rattle.std.specs.Option.{option_copied};

use carp_base::Memory;
use std::alloc::Global;

/// A file in memory: the bytes that it holds, if it is held, and the number of bytes for which it was made ready.
#[derive(Drop)]
pub(crate) struct MemFile {
    bytes: Vec<u8>,
    room: usize,
    held: bool,
    ghost roomy: { room ≤ vec_capacity bytes },
}

impl MemFile {
    ghost use Rattle.carp_outside.specs.Files.{held_bytes};

    // A file that is ready for so many bytes, and holds none.
    pub(crate) fn new(alloc: Global, room: usize) -> Result<MemFile, Memory>
        ensures room { IfOk result (λ file. file.room ≡ room) }
        ensures held { IfOk result (λ file. file.held ≡ false) }
    {
        Ok(MemFile {
            bytes: Vec::with_capacity(alloc, room)?,
            room,
            held: false,
        })
    }

    // The bytes, where the file is held.
    pub(crate) fn held(&self) -> Option<&[u8]>
        ensures { option_copied result ≡ held_bytes (Some self.now) }
    {
        if self.held {
            Some(self.bytes.as_slice())
        } else {
            None
        }
    }

    // Takes the memory for so many bytes.
    pub(crate) fn grow(&mut self, room: usize) -> Result<(), Memory>
        ensures room { OnOk result (self.new.room ≡ max self.old.room room) }
        ensures same_room { OnErr result (self.new.room ≡ self.old.room) }
        ensures held { self.new.held ≡ self.old.held }
        ensures bytes { self.new.bytes.items ≡ self.old.bytes.items }
    {
        let more = room.saturating_sub(self.bytes.len());
        self.bytes.reserve(more)?;
        self.room = self.room.max(room);
        Ok(())
    }

    // Holds other bytes, where the file is ready for so many as are needed.
    pub(crate) fn put(&mut self, bytes: &[u8], needed: usize) -> bool
        requires { length bytes.now ≤ needed }
        ensures fits { OnTrue result (needed ≤ self.old.room) }
        ensures lacks { OnFalse result (self.old.room < needed) }
        ensures held { OnTrue result (self.new.held ≡ true) }
        ensures bytes { OnTrue result (self.new.bytes.items ≡ bytes.now) }
        ensures same { OnFalse result (self.new ≡ self.old) }
        ensures room { self.new.room ≡ self.old.room }
    {
        if self.room < needed {
            return false;
        }
        self.bytes.clear();
        self.bytes.extend_from_slice(bytes).unwrap();
        self.held = true;
        true
    }
}
