//! A shelf of real files, each named by its path. No clause says what the system has in them.
ghost use Rattle.std.specs.Prelude.{◌≡◌, ◌≢◌, ⊤, IfOk, IsErr, OnOk, OnErr, Err, None};
ghost use Rattle.shelf_core.specs.Faults.{HasCause};
ghost use Rattle.shelf_core.specs.Fetching.{IsWithin};
ghost use Rattle.shelf_core.specs.Held.{Sets, OthersStay};
ghost use Rattle.shelf_core.specs.InMemory.{next_count};

use crate::shelf::{FetchError, Fetched, Shelf, StoreFailed};
use crate::transfer::{read_within, write_whole};
use std::alloc::Global;
use std::io::ErrorKind;
use std::marker::Model;
use std::rt::Files;
use std::{fs, io};

/// Files, which contracts see as the number of calls that failed. A file that isn't there is missing, and no fault.
/// Folders are neither made nor read: a folder in a file's place is a fault.
#[derive(Drop)]
pub struct FileShelf<'a, R: Files> {
    files: &'a R,
    faults: u64,
}

impl<'a, R: Files> Model for FileShelf<'a, R> {
    ghost use Rattle.std.specs.Prelude.{ℕ};

    ghost Value = { ℕ };

    ghost view = { λ s. s.faults };
}

impl<'a, R: Files> FileShelf<'a, R> {
    /// The files of the runtime, and no fault.
    pub fn new(files: &'a R) -> FileShelf<'a, R>
        ensures { result ≡ 0 }
    {
        FileShelf { files, faults: 0 }
    }

    // Counts a fault.
    fn fault(&mut self)
        ensures one_more { self.new ≡ next_count self.old }
        ensures cause { HasCause self.old self.new ⊤ }
    {
        self.faults = self.faults.saturating_add(1);
    }
}

// The file of that path, where it has at most `limit` bytes.
fn read_file<R: Files>(
    files: &R,
    alloc: Global,
    path: &str,
    limit: usize,
) -> Result<Fetched, FetchError>
    ensures { IfOk result (IsWithin limit) }
{
    match fs::open(files, path) {
        Ok(mut file) => read_within(&mut file, alloc, limit),
        Err(error) => match error.kind() {
            ErrorKind::NotFound => Ok(Fetched::Missing),
            ErrorKind::OutOfMemory => Err(FetchError::Memory),
            _ => Err(FetchError::Failed),
        },
    }
}

// Makes or empties the file of that path, and writes the bytes to it.
fn write_file<R: Files>(files: &R, path: &str, bytes: &[u8]) -> io::Result<()> {
    let mut file = fs::create(files, path)?;
    write_whole(&mut file, bytes)
}

impl<R: Files> Shelf for FileShelf<'_, R> {
    ghost holds = { λ _. None };

    ghost faults = { λ s. s };

    fn fetch(&mut self, alloc: Global, name: &str, limit: usize) -> Result<Fetched, FetchError>
        ensures counted { result ≡ Err FetchError.Failed → self.new ≡ next_count self.old }
        ensures stays { result ≢ Err FetchError.Failed → self.new ≡ self.old }

        // What every shelf promises, where it doesn't tell what it holds.
        ensures bound { IfOk result (IsWithin limit) }
        ensures cause { HasCause self.old self.new (result ≡ Err FetchError.Failed) }
    {
        match read_file(self.files, alloc, name, limit) {
            Ok(fetched) => Ok(fetched),
            Err(FetchError::Memory) => Err(FetchError::Memory),
            Err(FetchError::Failed) => {
                self.fault();
                Err(FetchError::Failed)
            }
        }
    }

    fn store(&mut self, name: &str, bytes: &[u8]) -> Result<(), StoreFailed>
        ensures counted { OnErr result (self.new ≡ next_count self.old) }
        ensures stays { OnOk result (self.new ≡ self.old) }

        // What every shelf promises, where it doesn't tell what it holds.
        ensures sets { OnOk result (Sets None None name.now bytes.now) }
        ensures others { OnErr result (OthersStay None None name.now) }
        ensures cause { HasCause self.old self.new (IsErr result) }
    {
        match write_file(self.files, name, bytes) {
            Ok(()) => Ok(()),
            Err(_) => {
                self.fault();
                Err(StoreFailed)
            }
        }
    }
}
