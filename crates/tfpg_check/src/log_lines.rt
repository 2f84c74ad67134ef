//! The lines of a log, one after the other.

ghost use Rattle.std.specs.Prelude.{◌≡◌, ◌≢◌, ◌+◌, ◌≤◌, [], ◌∷◌, length, drop, MatchOption};
ghost use Rattle.tfpg_base.specs.Lines.{lines_of};
ghost use Rattle.tfpg_check.specs.inside.LogLines.{IsLineEnd};

use crate::log_text::LogText;
use std::marker::Model;

/// The lines of a log's text that were not passed yet.
#[derive(Drop)]
pub(crate) struct LogLines<T: LogText> {
    text: T,
    /// Where they begin.
    next: usize,
    /// How many were passed.
    passed: u64,
}

impl<T: LogText> Model for LogLines<T> {
    ghost use Rattle.std.specs.Prelude.{◌≤◌, length, drop};
    ghost use Rattle.tfpg_base.specs.Lines.{lines_of};
    ghost use Rattle.tfpg_check.specs.JudgeState.{LogLinesState};

    ghost Value = { LogLinesState };

    ghost view = { λ lines. record { passed = lines.passed; left = lines_of (drop lines.next (T.text lines.text)) } };

    ghost invariant = { λ lines. (lines.passed ≤ lines.next) × (lines.next ≤ length (T.text lines.text)) };
}

impl<T: LogText> LogLines<T> {
    /// All lines of the text.
    pub(crate) fn new(text: T) -> LogLines<T>
        ensures { result ≡ record { passed = 0; left = lines_of (T.text text) } }
    {
        LogLines {
            text,
            next: 0,
            passed: 0,
        }
    }

    /// The first line that was not passed, without its line end. Goes through it once.
    pub(crate) fn first(&self) -> Option<&[u8]>
        ensures { MatchOption result (self.now.left ≡ []) (λ line. self.now.left ≡ line.now ∷ drop 1 self.now.left) }
    {
        first_line(&self.text.bytes()[self.next..])
    }

    /// Passes the first line. Goes through it once.
    pub(crate) fn pass(&mut self)
        requires { self.old.left ≢ [] }
        ensures { self.new ≡ record { passed = self.old.passed + 1; left = drop 1 self.old.left } }
    {
        self.next += len_with_end(&self.text.bytes()[self.next..]);
        self.passed += 1;
    }

    /// How many lines were passed: the number of the last of them.
    pub(crate) fn passed(&self) -> u64
        ensures { result ≡ self.now.passed }
    {
        self.passed
    }
}

/// The first line of the bytes, without its line end.
fn first_line(bytes: &[u8]) -> Option<&[u8]>
    ensures { MatchOption result (lines_of bytes.now ≡ [])
        (λ line. lines_of bytes.now ≡ line.now ∷ drop 1 (lines_of bytes.now)) }
{
    if bytes.is_empty() {
        return None;
    }
    Some(&bytes[..line_len(bytes)])
}

/// How many bytes the first line has, with its line end if it has one.
fn len_with_end(bytes: &[u8]) -> usize
    ensures within { result ≤ length bytes.now }
    ensures rest { lines_of (drop result bytes.now) ≡ drop 1 (lines_of bytes.now) }
    ensures some { lines_of bytes.now ≢ [] → 1 ≤ result }
{
    let len = line_len(bytes);
    if len == bytes.len() {
        return len;
    }
    len + 1
}

/// How many bytes the first line has, without its line end.
fn line_len(bytes: &[u8]) -> usize
    ensures { IsLineEnd bytes.now result }
{
    bytes
        .iter()
        .position(|byte| *byte == b'\n')
        .unwrap_or(bytes.len())
}
