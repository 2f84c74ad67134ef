//! A shelf of files in memory, which fails at chosen calls.

ghost use Rattle.std.specs.Prelude.{◌≡◌, ◌⊎◌, ℕ, List, [], ◌∷◌, ◌++◌, map, Some, None, OnOk, OnErr, IsErrOf};
ghost use Rattle.std.specs.String.{string_bytes};
ghost use Rattle.std.specs.Option.{option_copied};
ghost use Rattle.tfpg_base.specs.Outside.{file_of, Rose};
ghost use Rattle.tfpg_base.specs.Memory.{Copies, Fetches, FailsNext, FailsOrLacksMemory, GivesOrLacksMemory, after_fetch};

use super::failing_calls::FailingCalls;
use crate::{NoMemory, Shelf, ShelfFault, append_to_file};
use std::alloc::Global;
use std::marker::Model;

/// Files by name. Fetching fails at chosen calls, and where there is no such file.
#[derive(Drop)]
pub struct MemoryShelf<'a> {
    files: &'a [(&'a str, &'a [u8])],
    asked: Vec<String>,
    calls: FailingCalls<'a>,
}

impl<'a> Model for MemoryShelf<'a> {
    ghost use Rattle.std.specs.Prelude.{map};
    ghost use Rattle.std.specs.String.{string_bytes};
    ghost use Rattle.tfpg_base.specs.Memory.{MemoryShelfState};

    ghost Value = { MemoryShelfState };

    ghost view = { λ shelf. record {
      files = map (λ file. (file.0.now, file.1.now)) shelf.files.now;
      asked = map string_bytes shelf.asked.items;
      failing = shelf.calls.failing.now;
      calls = shelf.calls.calls;
      faults = shelf.calls.faults.count;
    } };
}

impl<'a> MemoryShelf<'a> {
    /// A shelf of these files, names with contents, which fails at the calls with these numbers. Of two files
    /// with one name the first wins. Takes no memory.
    pub fn new(
        alloc: Global,
        files: &'a [(&'a str, &'a [u8])],
        failing: &'a [u64],
    ) -> MemoryShelf<'a>
        ensures { result ≡ record {
          files = map (λ file. (file.0.now, file.1.now)) files.now;
          asked = [];
          failing = failing.now;
          calls = 0;
          faults = 0;
        } }
    {
        MemoryShelf {
            files,
            asked: Vec::new(alloc),
            calls: FailingCalls::new(failing),
        }
    }

    /// The names asked for so far.
    pub fn asked(&self) -> &[String]
        ensures { map string_bytes result.now ≡ self.now.asked }
    {
        &self.asked
    }

    /// How often fetching has failed.
    pub fn faults(&self) -> u64
        ensures { result ≡ self.now.faults }
    {
        self.calls.faults.count
    }

    /// Clears `into` and fills it with the file, as [`Shelf::fetch`] does. It fails at the chosen calls, and where there is no
    /// such file.
    pub fn fetch(&mut self, alloc: Global, name: &str, into: &mut Vec<u8>) -> Result<(), ShelfFault>
        ensures fetched { Fetches (FailsNext self.old.failing self.old.calls)
            (file_of self.old.files name.now) into.new.items result }
        ensures fails { FailsNext self.old.failing self.old.calls ⊎ (file_of self.old.files name.now ≡ None) →
            FailsOrLacksMemory result }
        ensures gives { (FailsNext self.old.failing self.old.calls → ⊥) →
            (content : List ℕ) → file_of self.old.files name.now ≡ Some content →
            GivesOrLacksMemory content result }
        ensures now { self.new ≡ after_fetch self.old name.now result }
        ensures rises { IsErrOf result ShelfFault.Failed → Rose self.old.faults self.new.faults }
    {
        into.clear();
        let fails = self.calls.next_fails();
        note_name(&mut self.asked, alloc, name)?;
        if fails {
            self.calls.raise();
            return Err(ShelfFault::Failed);
        }
        let fetched = copy_named(self.files, name, into);
        match fetched {
            Err(ShelfFault::Failed) => self.calls.raise(),
            Err(ShelfFault::NoMemory) => {
                let _ = self.asked.pop();
            }
            Err(ShelfFault::TooLong) | Ok(()) => {}
        }
        fetched
    }
}

impl<'a> Shelf for MemoryShelf<'a> {
    ghost use Rattle.std.specs.Prelude.{Some};

    ghost state = { λ shelf. record {
      files = Some shelf.files;
      asked = Some shelf.asked;
      faults = shelf.faults;
    } };

    fn fetch(&mut self, alloc: Global, name: &str, into: &mut Vec<u8>) -> Result<(), ShelfFault> {
        MemoryShelf::fetch(self, alloc, name, into)
    }
}

/// Notes that this name was asked for.
fn note_name(asked: &mut Vec<String>, alloc: Global, name: &str) -> Result<(), NoMemory>
    ensures ok { OnOk result
        (map string_bytes asked.new.items ≡ map string_bytes asked.old.items ++ name.now ∷ []) }
    ensures err { OnErr result (asked.new.items ≡ asked.old.items) }
{
    asked.push(String::from_str(alloc, name)?)?;
    Ok(())
}

/// Copies the file of that name into the empty buffer, as far as a file may go.
fn copy_named(files: &[(&str, &[u8])], name: &str, into: &mut Vec<u8>) -> Result<(), ShelfFault>
    requires { into.old.items ≡ [] }
    ensures { Copies (file_of (map (λ file. (file.0.now, file.1.now)) files.now) name.now)
        into.new.items result }
{
    let Some(content) = content_named(files, name) else {
        return Err(ShelfFault::Failed);
    };
    if append_to_file(into, content)? {
        Ok(())
    } else {
        Err(ShelfFault::TooLong)
    }
}

/// The content of the first file of that name.
fn content_named<'a>(files: &[(&str, &'a [u8])], name: &str) -> Option<&'a [u8]>
    ensures { option_copied result ≡ file_of (map (λ file. (file.0.now, file.1.now)) files.now) name.now }
{
    for (file, content) in files {
        if *file == name {
            return Some(*content);
        }
    }
    None
}
