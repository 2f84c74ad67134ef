//! What ends reading the input and writing the output early.

ghost use Rattle.std.specs.Prelude.{◌≡◌};
ghost use Rattle.tfpg_streams.specs.Faults.{stream_fault_of_lines, stream_fault_of_output};
ghost use Rattle.tfpg_streams.specs.declared.fault.StreamFault.TheVariants as streams;
ghost use Rattle.tfpg_streams.specs.declared.fault.OutputFault.TheVariants as output;

use tfpg_base::{Failed, LineFault, NoMemory};

/// Why the input was not read to its end, or the output not written.
#[derive(Clone, Copy, PartialEq, Eq)]
pub enum StreamFault {
    /// The input failed.
    ReadFault,
    /// The output failed.
    WriteFault,
    /// The input has more than [`MAX_BYTES`](tfpg_base::MAX_BYTES) bytes.
    TooMuchInput,
    /// Out of memory.
    NoMemory,
}

impl From<LineFault> for StreamFault {
    ghost from_gives = { λ fault e. e ≡ stream_fault_of_lines fault };

    fn from(fault: LineFault) -> StreamFault {
        match fault {
            LineFault::ReadFault => StreamFault::ReadFault,
            LineFault::TooMuchInput => StreamFault::TooMuchInput,
        }
    }
}

impl From<NoMemory> for StreamFault {
    ghost from_gives = { λ _ e. e ≡ streams.NoMemory };

    fn from(_e: NoMemory) -> StreamFault {
        StreamFault::NoMemory
    }
}

impl From<Failed> for StreamFault {
    ghost from_gives = { λ _ e. e ≡ streams.WriteFault };

    fn from(_e: Failed) -> StreamFault {
        StreamFault::WriteFault
    }
}

impl From<OutputFault> for StreamFault {
    ghost from_gives = { λ fault e. e ≡ stream_fault_of_output fault };

    fn from(fault: OutputFault) -> StreamFault {
        match fault {
            OutputFault::WriteFault => StreamFault::WriteFault,
            OutputFault::NoMemory => StreamFault::NoMemory,
        }
    }
}

/// Why a text was not written.
#[derive(Clone, Copy, PartialEq, Eq)]
pub enum OutputFault {
    /// The output failed.
    WriteFault,
    /// Out of memory.
    NoMemory,
}

impl From<NoMemory> for OutputFault {
    ghost from_gives = { λ _ e. e ≡ output.NoMemory };

    fn from(_e: NoMemory) -> OutputFault {
        OutputFault::NoMemory
    }
}

impl From<Failed> for OutputFault {
    ghost from_gives = { λ _ e. e ≡ output.WriteFault };

    fn from(_e: Failed) -> OutputFault {
        OutputFault::WriteFault
    }
}
