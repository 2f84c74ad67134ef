//! What ends a run early that has no home below: why a graph is not fetched.

ghost use Rattle.std.specs.Prelude.{◌≡◌};
ghost use Rattle.tfpg_run.specs.inside.Faults.{fetch_fault_of_refusal, fetch_fault_of_shelf};
ghost use Rattle.tfpg_run.specs.declared.fault.FetchFault.TheVariants as fetch;

use tfpg_base::{NoMemory, ShelfFault};
use tfpg_graph::{GraphFault, GraphRefusal};

/// Why there is no graph of a file.
#[derive(Clone, Copy, PartialEq, Eq)]
pub(crate) enum FetchFault {
    /// The shelf of files failed.
    Failed,
    /// The file has more than [`LONGEST_FILE`](tfpg_base::LONGEST_FILE) bytes.
    TooLong,
    /// This is the first fault of its text.
    Graph(GraphFault),
    /// Out of memory.
    NoMemory,
}

impl From<ShelfFault> for FetchFault {
    ghost from_gives = { λ fault e. e ≡ fetch_fault_of_shelf fault };

    fn from(fault: ShelfFault) -> FetchFault {
        match fault {
            ShelfFault::Failed => FetchFault::Failed,
            ShelfFault::TooLong => FetchFault::TooLong,
            ShelfFault::NoMemory => FetchFault::NoMemory,
        }
    }
}

impl From<GraphRefusal> for FetchFault {
    ghost from_gives = { λ refusal e. e ≡ fetch_fault_of_refusal refusal };

    fn from(refusal: GraphRefusal) -> FetchFault {
        match refusal {
            GraphRefusal::Fault(fault) => FetchFault::Graph(fault),
            GraphRefusal::NoMemory => FetchFault::NoMemory,
        }
    }
}

impl From<NoMemory> for FetchFault {
    ghost from_gives = { λ _ e. e ≡ fetch.NoMemory };

    fn from(_e: NoMemory) -> FetchFault {
        FetchFault::NoMemory
    }
}
