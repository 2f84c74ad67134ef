//! Readers and writers whose contents contracts know always or never.
//!
//! By the toolchain's contracts, the contents of a reader or writer may become known in a call that fails. Those of a
//! source and a sink may not: a call that fails leaves them unchanged.

ghost use Rattle.std.specs.Prelude.{◌≡◌};
ghost use Rattle.std.specs.Io.KnownBytes.{Keeps};

use std::io::{Read, Stdin, Stdout, Write};

/// A reader of which it does not become known what it has left.
pub(crate) trait SteadyRead: Read {
    ghost steady: { (before after : Self) → Keeps (Self.remaining before) (Self.remaining after) →
        Self.remaining after ≡ Self.remaining before };
}

/// A writer of which it does not become known what it holds.
pub(crate) trait SteadyWrite: Write {
    ghost steady: { (before after : Self) → Keeps (Self.contents before) (Self.contents after) →
        Self.contents after ≡ Self.contents before };
}

impl SteadyRead for Stdin {
    ghost use Rattle.std.specs.Prelude.{refl};

    ghost steady = { λ _ _ _. refl };
}

impl SteadyWrite for Stdout {
    ghost use Rattle.std.specs.Prelude.{refl};

    ghost steady = { λ _ _ _. refl };
}
