//! Reads and writes that are tried again where a signal cut them off.

ghost use Rattle.std.specs.Prelude.{◌≢◌, ◌<◌, ◌≤◌, length, IfOk, IfErr};
ghost use Rattle.std.specs.IoError.{error_kind};
ghost use Rattle.std.specs.Io.KnownBytes.{ReadConsumes, WriteAppends};

use std::io;
use std::io::{Error, ErrorKind, Read, Write};

/// Reads once, and as often again as a signal cuts the read off. The count is 0 only at the end or for an empty buffer.
pub(crate) fn read_uncut<R: Read>(reader: &mut R, room: &mut [u8]) -> io::Result<usize>
    ensures within { IfOk result (λ count. count ≤ length room.old) }
    ensures bytes { ReadConsumes (R.remaining reader.old) (R.remaining reader.new) result room.new }
    ensures uncut { IfErr result (λ error. error_kind error ≢ ErrorKind.Interrupted) }
{
    // The limit lets the call be proved to return; no run comes near it.
    for _ in 0..u64::MAX {
        match reader.read(room) {
            Err(error) if error.kind() == ErrorKind::Interrupted => {}
            result => return result,
        }
    }
    Err(Error::from(ErrorKind::TimedOut))
}

/// Writes once, and as often again as a signal cuts the write off. A writer that takes nothing of a piece has failed.
pub(crate) fn write_uncut<W: Write>(writer: &mut W, piece: &[u8]) -> io::Result<usize>
    ensures within { IfOk result (λ count. count ≤ length piece.now) }
    ensures bytes { WriteAppends (W.contents writer.old) (W.contents writer.new) result piece.now }
    ensures uncut { IfErr result (λ error. error_kind error ≢ ErrorKind.Interrupted) }
    ensures progress { 0 < length piece.now → IfOk result (λ count. 0 < count) }
{
    // The limit lets the call be proved to return; no run comes near it.
    for _ in 0..u64::MAX {
        match writer.write(piece) {
            Ok(0) if !piece.is_empty() => return Err(Error::from(ErrorKind::WriteZero)),
            Err(error) if error.kind() == ErrorKind::Interrupted => {}
            result => return result,
        }
    }
    Err(Error::from(ErrorKind::TimedOut))
}
