//! Standard input as a source.

ghost use Rattle.std.specs.Prelude.{◌≡◌, false};

use super::steady::SteadyRead;
use super::tries::read_uncut;
use tfpg_base::{Failed, FaultCount, Source};

/// A reader as a source. Each call reads once, into the caller's buffer, so it returns as soon as there are bytes.
#[derive(Drop)]
pub(crate) struct StandardInput<R> {
    reader: R,
    ended: bool,
    faults: FaultCount,
}

impl<R> StandardInput<R> {
    /// A source over this reader, which has neither ended nor failed.
    pub(crate) fn new(reader: R) -> StandardInput<R>
        ensures reader { result.reader ≡ reader }
        ensures begins { result.ended ≡ false }
        ensures no_fault { result.faults.count ≡ 0 }
    {
        StandardInput {
            reader,
            ended: false,
            faults: FaultCount::new(),
        }
    }

    /// How often reading has failed.
    #[cfg(test)]
    pub(crate) fn faults(&self) -> u64
        ensures { result ≡ self.now.faults.count }
    {
        self.faults.count
    }
}

impl<R: SteadyRead> Source for StandardInput<R> {
    ghost state = { λ input. record {
      left = R.remaining input.reader;
      ended = input.ended;
      faults = input.faults.count;
    } };

    fn take(&mut self, room: &mut [u8]) -> Result<usize, Failed> {
        match read_uncut(&mut self.reader, room) {
            Ok(count) => {
                if count == 0 && !room.is_empty() {
                    self.ended = true;
                }
                Ok(count)
            }
            Err(_) => {
                self.faults.raise();
                Err(Failed)
            }
        }
    }
}
