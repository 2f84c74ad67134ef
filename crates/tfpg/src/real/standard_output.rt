//! Standard output as a sink.

ghost use Rattle.std.specs.Prelude.{◌≡◌};

use super::steady::SteadyWrite;
use super::tries::write_uncut;
use tfpg_base::{Failed, FaultCount, Sink};

/// A writer as a sink. The writer is to pass its bytes on in each call, as standard output does, so that a reader sees each
/// block at once: nothing is flushed.
#[derive(Drop)]
pub(crate) struct StandardOutput<W> {
    writer: W,
    faults: FaultCount,
}

impl<W> StandardOutput<W> {
    /// A sink over this writer, which has not failed.
    pub(crate) fn new(writer: W) -> StandardOutput<W>
        ensures writer { result.writer ≡ writer }
        ensures no_fault { result.faults.count ≡ 0 }
    {
        StandardOutput {
            writer,
            faults: FaultCount::new(),
        }
    }

    /// How often writing has failed.
    #[cfg(test)]
    pub(crate) fn faults(&self) -> u64
        ensures { result ≡ self.now.faults.count }
    {
        self.faults.count
    }
}

impl<W: SteadyWrite> Sink for StandardOutput<W> {
    ghost state = { λ output. record { holds = W.contents output.writer; faults = output.faults.count } };

    fn put(&mut self, piece: &[u8]) -> Result<usize, Failed> {
        match write_uncut(&mut self.writer, piece) {
            Ok(count) => Ok(count),
            Err(_) => {
                self.faults.raise();
                Err(Failed)
            }
        }
    }
}
