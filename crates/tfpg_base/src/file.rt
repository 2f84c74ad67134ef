//! What a file may hold.

ghost use Rattle.std.specs.Prelude.{◌≡◌, ◌<◌, ◌≤◌, ◌+◌, ◌++◌, true, false, List, length, vec_capacity, OnErr, IsErr, Ok};
ghost use Rattle.tfpg_base.specs.declared.limits.TheConstants.{LONGEST_FILE};

use crate::{LONGEST_FILE, NoMemory};

/// Appends the part to what was read of a file, as far as a file may go, and returns whether that was the whole part. Where it
/// was not, the file holds [`LONGEST_FILE`] bytes. Where memory runs out, the file is unchanged.
pub fn append_to_file(file: &mut Vec<u8>, part: &[u8]) -> Result<bool, NoMemory>
    requires { length file.old.items ≤ LONGEST_FILE }
    ensures whole { result ≡ Ok true →
        (file.new.items ≡ file.old.items ++ part.now) × (length file.new.items ≤ LONGEST_FILE) }
    ensures front { result ≡ Ok false → (length file.new.items ≡ LONGEST_FILE) ×
        ((more : List _) × (0 < length more) × (file.old.items ++ part.now ≡ file.new.items ++ more)) }
    ensures unchanged { OnErr result (file.new.items ≡ file.old.items) }
    ensures full { IsErr result → vec_capacity file.old < length file.old.items + length part.now }
    ensures limit { IsErr result → vec_capacity file.old < LONGEST_FILE }
    ensures capacity { vec_capacity file.old ≤ vec_capacity file.new }
{
    let (kept, more) = part.split_at(part.len().min(LONGEST_FILE - file.len()));
    file.extend_from_slice(kept)?;
    Ok(more.is_empty())
}
