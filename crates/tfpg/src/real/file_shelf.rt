//! The files of the system as a shelf.

ghost use Rattle.std.specs.Prelude.{◌≡◌, ◌<◌, ◌≤◌, ◌++◌, [], ℕ, List, length, vec_capacity, IfSome, OnOk, IsErrOf};
ghost use Rattle.tfpg_base.specs.declared.limits.TheConstants.{LONGEST_FILE};

use super::tries::read_uncut;
use std::alloc::Global;
use std::fs;
use std::io::Read;
use std::rt::Files;
use tfpg_base::{FaultCount, Shelf, ShelfFault, append_to_file};

/// How many bytes of a file are read at once.
const BLOCK: usize = 4096;

/// The files of the system by name. A name is a path.
#[derive(Drop)]
pub(crate) struct FileShelf<'a, R> {
    files: &'a R,
    faults: FaultCount,
}

impl<'a, R> FileShelf<'a, R> {
    /// The shelf of these files, which has not failed.
    pub(crate) fn new(files: &'a R) -> FileShelf<'a, R>
        ensures no_fault { result.faults.count ≡ 0 }
    {
        FileShelf {
            files,
            faults: FaultCount::new(),
        }
    }

    /// How often fetching has failed.
    #[cfg(test)]
    pub(crate) fn faults(&self) -> u64
        ensures { result ≡ self.now.faults.count }
    {
        self.faults.count
    }
}

impl<'a, R: Files> Shelf for FileShelf<'a, R> {
    ghost use Rattle.std.specs.Prelude.{None};

    ghost state = { λ shelf. record { files = None; asked = None; faults = shelf.faults.count } };

    fn fetch(&mut self, _alloc: Global, name: &str, into: &mut Vec<u8>) -> Result<(), ShelfFault> {
        into.clear();
        let result = read_file(self.files, name, into);
        match result {
            Err(ShelfFault::Failed) => {
                into.clear();
                self.faults.raise();
            }
            Err(ShelfFault::NoMemory) => into.clear(),
            Err(ShelfFault::TooLong) | Ok(()) => {}
        }
        result
    }
}

/// Reads the file of that name into the empty buffer.
fn read_file<R: Files>(files: &R, name: &str, into: &mut Vec<u8>) -> Result<(), ShelfFault>
    requires { into.old.items ≡ [] }
    ensures small { OnOk result (length into.new.items ≤ LONGEST_FILE) }
    ensures too_long { IsErrOf result ShelfFault.TooLong → length into.new.items ≡ LONGEST_FILE }
    ensures no_memory { IsErrOf result ShelfFault.NoMemory → vec_capacity into.old < LONGEST_FILE }
{
    match fs::open(files, name) {
        Ok(mut file) => read_whole(&mut file, into),
        Err(_) => Err(ShelfFault::Failed),
    }
}

/// Reads to the end of the reader, or past what a file may have.
fn read_whole<R: Read>(reader: &mut R, into: &mut Vec<u8>) -> Result<(), ShelfFault>
    requires { into.old.items ≡ [] }
    ensures small { OnOk result (length into.new.items ≤ LONGEST_FILE) }
    ensures too_long { IsErrOf result ShelfFault.TooLong → length into.new.items ≡ LONGEST_FILE }
    ensures no_memory { IsErrOf result ShelfFault.NoMemory → vec_capacity into.old < LONGEST_FILE }
    ensures whole { OnOk result (IfSome (R.remaining reader.old) (λ known. into.new.items ≡ known)) }
    ensures front { IsErrOf result ShelfFault.TooLong →
        IfSome (R.remaining reader.old) (λ known. (more : List ℕ) × (0 < length more) ×
        (known ≡ into.new.items ++ more)) }
{
    let mut room = [0; BLOCK];
    // The limit lets the call be proved to return; no run comes near it.
    for _ in 0..u64::MAX {
        match read_uncut(reader, &mut room) {
            Ok(0) => return Ok(()),
            Ok(count) => {
                if !append_to_file(into, &room[..count])? {
                    return Err(ShelfFault::TooLong);
                }
            }
            Err(_) => return Err(ShelfFault::Failed),
        }
    }
    Err(ShelfFault::Failed)
}
