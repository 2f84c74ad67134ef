//! When at the earliest a node becomes active.

use tfpg_base::Trace;
use tfpg_evidence::StepList;

/// When at the earliest a node becomes active, with its evidence. Times are in milliseconds. No refutation has more splits than the
/// budget of each search.
#[derive(Drop)]
pub enum Outlook {
    /// At this time, which the trace attains. The steps are a refutation for the probe with the bound before it. At time 0
    /// there are none.
    Earliest {
        time: u64,
        trace: Trace,
        earlier: StepList,
    },
    /// It does not become active. The steps are a refutation for the probe with the time to which was asked as its bound.
    Never {
        steps: StepList,
    },
    /// The budget was spent in the search for the probe with this bound. These are its steps. The bound is the time to which was
    /// asked, or the middle of a time that a trace gives the node and of a lesser one, before which it has none.
    Unsettled {
        bound: u64,
        steps: StepList,
    },
}
