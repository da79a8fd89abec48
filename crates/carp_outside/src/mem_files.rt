// Files in memory, by name.
ghost use Rattle.std.specs.Prelude.{◌≡◌, ◌<◌, ◌≤◌, length, take, IsNone, IsSome, IsSomeAnd, IfSome, OnOk, OnErr, ◌⊎◌};
ghost use Rattle.std.specs.BTreeMap.{get_by_text};
ghost use Rattle.std.specs.Option.{option_copied};
ghost use Rattle.std.specs.Bool.{OnTrue, OnFalse};
ghost use Rattle.carp_outside.specs.Told.{HoldsExactly, HoldsFront, SameContents};
ghost use Rattle.carp_outside.specs.Files.{bytes_in, room_in, SameRooms, IsMadeReady};

use crate::mem_file::MemFile;
use carp_base::Memory;
use std::alloc::Global;
use std::collections::BTreeMap;

pub(crate) type Files = BTreeMap<String, MemFile>;

// The bytes that a name holds.
pub(crate) fn held_in<'a>(files: &'a Files, name: &str) -> Option<&'a [u8]>
    ensures { option_copied result ≡ bytes_in files.now name.now }
{
    match files.get(name) {
        None => None,
        Some(file) => file.held(),
    }
}

// Holds bytes at a name that is ready for so many as are needed.
pub(crate) fn keep_in(files: &mut Files, name: &str, bytes: &[u8], needed: usize) -> bool
    requires { length bytes.now ≤ needed }
    ensures fits { OnTrue result (IsSomeAnd (room_in files.old name.now) (λ room. needed ≤ room)) }
    ensures lacks { OnFalse result (IfSome (room_in files.old name.now) (λ room. room < needed)) }
    ensures kept { OnTrue result (HoldsExactly name.now bytes.now (bytes_in files.old) (bytes_in files.new)) }
    ensures same { OnFalse result (SameContents (bytes_in files.old) (bytes_in files.new)) }
    ensures rooms { SameRooms (room_in files.old) (room_in files.new) }
{
    match files.get_mut(name) {
        None => false,
        Some(file) => file.put(bytes, needed),
    }
}

// Holds a front of bytes, of so many where one is to be left, at a name that is ready for all of them.
pub(crate) fn tear_in(files: &mut Files, name: &str, bytes: &[u8], left: Option<u64>)
    ensures torn { IfSome left (λ n. IsSomeAnd (room_in files.old name.now) (λ room. length bytes.now ≤ room)
        → HoldsExactly name.now (take n bytes.now) (bytes_in files.old) (bytes_in files.new)) }
    ensures same { IsNone left ⊎ IfSome (room_in files.old name.now) (λ room. room < length bytes.now)
        → SameContents (bytes_in files.old) (bytes_in files.new) }
    ensures cut { HoldsFront name.now bytes.now (bytes_in files.old) (bytes_in files.new) }
    ensures rooms { SameRooms (room_in files.old) (room_in files.new) }
{
    if let Some(most) = left {
        let front = most.min(bytes.len() as u64) as usize;
        let _held = keep_in(files, name, &bytes[..front], bytes.len());
    }
}

// Takes the memory for so many bytes at a name.
pub(crate) fn ready_in(
    alloc: Global,
    files: &mut Files,
    name: &str,
    room: usize,
) -> Result<(), Memory>
    ensures room { OnOk result (IsMadeReady name.now room (room_in files.old) (room_in files.new)) }
    ensures same_rooms { OnErr result (SameRooms (room_in files.old) (room_in files.new)) }
    ensures same { SameContents (bytes_in files.old) (bytes_in files.new) }
{
    if files.contains_key(name) {
        grow_in(files, name, room)
    } else {
        add_in(alloc, files, name, room)
    }
}

// Takes the memory for so many bytes at a name that is there.
fn grow_in(files: &mut Files, name: &str, room: usize) -> Result<(), Memory>
    requires { IsSome (get_by_text files.old name.now) }
    ensures room { OnOk result (IsMadeReady name.now room (room_in files.old) (room_in files.new)) }
    ensures same_rooms { OnErr result (SameRooms (room_in files.old) (room_in files.new)) }
    ensures same { SameContents (bytes_in files.old) (bytes_in files.new) }
{
    match files.get_mut(name) {
        None => Ok(()),
        Some(file) => file.grow(room),
    }
}

// Takes the memory for so many bytes at a name that is not there.
fn add_in(alloc: Global, files: &mut Files, name: &str, room: usize) -> Result<(), Memory>
    requires { get_by_text files.old name.now ≡ None }
    ensures room { OnOk result (IsMadeReady name.now room (room_in files.old) (room_in files.new)) }
    ensures same_rooms { OnErr result (SameRooms (room_in files.old) (room_in files.new)) }
    ensures same { SameContents (bytes_in files.old) (bytes_in files.new) }
{
    let key = String::from_str(alloc, name)?;
    let file = MemFile::new(alloc, room)?;
    files.insert(key, file)?;
    Ok(())
}
