//! The outside: where bytes come from, where they go, and the shelf of files.
//!
//! Contracts see each as one state: its contents, as far as they are known, and how often a call failed. The count
//! of faults rises in a call that fails and in no other, so a body that claims a fault that was none is refused, and so is
//! one that hides a fault.

ghost use Rattle.std.specs.Prelude.{◌≡◌, ◌⊎◌, ◌<◌, ◌≤◌, ◌^◌, ◌↔◌, ◌++◌, ◌∷◌, [], ℕ, List, length, take, Option, None, Some, IsTrue, IfSome, IfOk, OnOk, OnErr, IsErrOf, Ok};
ghost use Rattle.tfpg_base.specs.Outside.{SourceState, SinkState, ShelfState, Rose, Takes, Puts, IsAtEnd, Asks, Gives, PassesLimit, CountsFailure};
ghost use Rattle.tfpg_base.specs.declared.limits.TheConstants.{LONGEST_FILE};

use crate::NoMemory;
use std::alloc::Global;

/// The outside failed.
#[derive(Clone, Copy, Debug, PartialEq, Eq)]
pub struct Failed;

/// Why a file could not be fetched.
#[derive(Clone, Copy, Debug, PartialEq, Eq)]
pub enum ShelfFault {
    /// The file is absent, or reading it failed.
    Failed,
    /// The file has more than [`LONGEST_FILE`](crate::LONGEST_FILE) bytes, which are 2^24.
    TooLong,
    /// The call ran out of memory.
    NoMemory,
}

impl From<NoMemory> for ShelfFault {
    ghost use Rattle.std.specs.Prelude.{◌≡◌};
    ghost use Rattle.tfpg_base.specs.declared.outside.ShelfFault.TheVariants as fault;

    ghost from_gives = { λ _ e. e ≡ fault.NoMemory };

    fn from(_e: NoMemory) -> ShelfFault {
        ShelfFault::NoMemory
    }
}

/// Where input bytes come from.
pub trait Source {
    /// The bytes that are left, whether the source has returned its end, and how often taking failed.
    ghost state: { Self → SourceState };

    /// Writes the next bytes to the front of the buffer, and returns how many. A result of 0 for a buffer of at least one
    /// byte means that the source has ended.
    fn take(&mut self, room: &mut [u8]) -> Result<usize, Failed>
        ensures within { IfOk result (λ count. count ≤ length room.old) }
        ensures taken { IfOk result (λ count. Takes (state self.old) (state self.new) (take count room.new)) }
        ensures no_fault { IfOk result (λ count. (state self.new).faults ≡ (state self.old).faults) }
        ensures end { result ≡ Ok 0 → 0 < length room.old → IsAtEnd (state self.new) }
        ensures ended { IsTrue (state self.new).ended ↔
            (IsTrue (state self.old).ended ⊎ ((result ≡ Ok 0) × (0 < length room.old))) }
        ensures failed { OnErr result (Rose (state self.old).faults (state self.new).faults) }
        ensures nothing_taken { OnErr result ((state self.new).left ≡ (state self.old).left) };
}

/// Where output bytes go.
pub trait Sink {
    /// All the bytes so far, and how often putting failed.
    ghost state: { Self → SinkState };

    /// Appends the first bytes of the piece, and returns how many: 0 only for an empty piece.
    fn put(&mut self, piece: &[u8]) -> Result<usize, Failed>
        ensures within { IfOk result (λ count. count ≤ length piece.now) }
        ensures put { IfOk result (λ count. Puts (state self.old) (state self.new) (take count piece.now)) }
        ensures no_fault { IfOk result (λ count. (state self.new).faults ≡ (state self.old).faults) }
        ensures progress { 0 < length piece.now → IfOk result (λ count. 0 < count) }
        ensures failed { OnErr result (Rose (state self.old).faults (state self.new).faults) }
        ensures nothing_put { OnErr result ((state self.new).holds ≡ (state self.old).holds) };
}

/// Files by name.
pub trait Shelf {
    /// The files, the names asked for so far, and how often fetching failed.
    ghost state: { Self → ShelfState };

    /// Clears `into` and fills it with the file. Each call but one that runs out of memory counts as asking for
    /// the name. After `TooLong` `into` holds the first 2^24 bytes of the file; after the other faults it is empty.
    fn fetch(&mut self, alloc: Global, name: &str, into: &mut Vec<u8>) -> Result<(), ShelfFault>
        ensures given { OnOk result (Gives (state self.old) name.now into.new.items) }
        ensures small { OnOk result (length into.new.items ≤ LONGEST_FILE) }
        ensures too_long { IsErrOf result ShelfFault.TooLong →
            PassesLimit (state self.old) name.now into.new.items }
        ensures failed { IsErrOf result ShelfFault.Failed → into.new.items ≡ [] }
        ensures no_memory { IsErrOf result ShelfFault.NoMemory → into.new.items ≡ [] }
        ensures counted { CountsFailure result (state self.old) (state self.new) }
        ensures asks { Asks (state self.old) (state self.new) name.now result }
        ensures same_files { (state self.new).files ≡ (state self.old).files };
}
