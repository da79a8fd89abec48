// The files of the system as a shelf.
ghost use Rattle.std.specs.Prelude.{◌≡◌, ◌≤◌, false, None, length, IfOk};

use carp_outside::{Shelf, ShelfFault};
use std::alloc::{AllocError, Global};
use std::fs::{Metadata, OpenFile, OpenOptions};
use std::io::{Error, ErrorKind, Read, Seek, SeekFrom, Write};
use std::rt::Files;
use std::{fs, io};

// How many names beside a file are tried before a keep is given up.
const NAMES_TRIED: u32 = 1000;

// The most bytes of a file's name for which a name beside it is at most 255 bytes, as most file systems want it.
const LONGEST_NAME: usize = 247;

/// The files of the system by their paths, as a shelf. It does not tell what they hold, and counts each failure of the
/// system. One count of failed looks stands for every name.
///
/// A file is replaced whole: the new bytes are written to a new file beside it, under the permissions of the old file,
/// synced and renamed. So a failure leaves the old file as it was. The new file is `NAME.0.new`, or the first of
/// `NAME.1.new` to `NAME.999.new` that does not exist. If the file's own name has more than 247 bytes, it is
/// `carp.0.new` and so on in the same folder. A run that is killed can leave it there, and a user can remove it by
/// hand. No other file is ever removed or changed.
///
/// A write-protected file is not replaced: its keep fails. If the path is something other than a regular file, such as
/// a symbolic link or a device, it is written in place. Another hard link to the file keeps the old bytes.
#[derive(Drop)]
pub struct DirShelf<R: Files> {
    rt: R,
    alloc: Global,
    failed_looks: u64,
    failed_keeps: u64,
    given: u64,
}

impl<R: Files> DirShelf<R> {
    /// The files that the runtime reaches, with all counts 0.
    pub fn new(rt: R, alloc: Global) -> DirShelf<R>
        ensures failed_looks { result.failed_looks ≡ 0 }
        ensures failed_keeps { result.failed_keeps ≡ 0 }
        ensures given { result.given ≡ 0 }
    {
        DirShelf {
            rt,
            alloc,
            failed_looks: 0,
            failed_keeps: 0,
            given: 0,
        }
    }
}

impl<R: Files> Shelf for DirShelf<R> {
    ghost tells = { false };

    ghost contents = { λ _ _. None };

    ghost failed_looks = { λ s _. s.failed_looks };

    ghost failed_keeps = { λ s. s.failed_keeps };

    ghost given = { λ s. s.given };

    fn look(&mut self, name: &str, at: u64, buffer: &mut [u8]) -> Result<usize, ShelfFault> {
        match read_at(&self.rt, name, at, buffer) {
            Ok(count) => {
                self.given = self.given.saturating_add(count as u64);
                Ok(count)
            }
            Err(_) => {
                self.failed_looks = self.failed_looks.saturating_add(1);
                Err(ShelfFault)
            }
        }
    }

    fn keep(&mut self, name: &str, bytes: &[u8]) -> Result<(), ShelfFault> {
        match replace(&self.rt, self.alloc, name, bytes) {
            Ok(()) => Ok(()),
            Err(_) => {
                self.failed_keeps = self.failed_keeps.saturating_add(1);
                Err(ShelfFault)
            }
        }
    }
}

fn read_at<R: Files>(rt: &R, name: &str, at: u64, buffer: &mut [u8]) -> io::Result<usize>
    ensures { IfOk result (λ n. n ≤ length buffer.new) }
{
    let mut file = fs::open(rt, name)?;
    file.seek(SeekFrom::Start(at))?;
    file.read(buffer)
}

// Makes a path hold the bytes.
fn replace<R: Files>(rt: &R, alloc: Global, name: &str, bytes: &[u8]) -> io::Result<()> {
    match rt.symlink_metadata(name) {
        Ok(old) if !old.is_file() => fs::write(rt, name, bytes),
        Ok(old) if old.permissions().readonly() => Err(Error::from(ErrorKind::PermissionDenied)),
        Ok(old) => replace_file(rt, alloc, name, bytes, Some(&old)),
        Err(_) => replace_file(rt, alloc, name, bytes, None),
    }
}

// Writes the bytes beside the path, and renames.
fn replace_file<R: Files>(
    rt: &R,
    alloc: Global,
    name: &str,
    bytes: &[u8],
    old: Option<&Metadata>,
) -> io::Result<()> {
    let (beside, file) = create_beside(rt, alloc, name)?;
    let done = fill(file, bytes, old).and_then(|()| rt.rename(&beside, name));
    if done.is_err() {
        let _ = rt.remove_file(&beside);
    }
    done
}

// Makes a new file beside the path, under a name that did not exist.
fn create_beside<R: Files>(rt: &R, alloc: Global, name: &str) -> io::Result<(String, R::File)> {
    for number in 0..NAMES_TRIED {
        let beside = name_beside(alloc, name, number)?;
        match OpenOptions::new()
            .write(true)
            .create_new(true)
            .open(rt, beside.as_str())
        {
            Ok(file) => return Ok((beside, file)),
            Err(error) if error.kind() == ErrorKind::AlreadyExists => {}
            Err(error) => return Err(error),
        }
    }
    Err(Error::from(ErrorKind::AlreadyExists))
}

// A name in the folder of the path: the path with an ending, or a short one if the ending would make the name too long.
fn name_beside(alloc: Global, path: &str, number: u32) -> Result<String, AllocError> {
    match path.rsplit_once('/') {
        Some((folder, file)) if file.len() > LONGEST_NAME => {
            format!(in alloc; "{folder}/carp.{number}.new")
        }
        None if path.len() > LONGEST_NAME => format!(in alloc; "carp.{number}.new"),
        _ => format!(in alloc; "{path}.{number}.new"),
    }
}

// Gives a new file the permissions of the file that it is to replace, and then fills it. So nobody can read it who
// could not read the old one.
fn fill<F: Write + OpenFile + Drop>(
    mut file: F,
    bytes: &[u8],
    old: Option<&Metadata>,
) -> io::Result<()> {
    if let Some(old) = old {
        file.set_permissions(old.permissions())?;
    }
    file.write_all(bytes)?;
    file.sync_all()
}
