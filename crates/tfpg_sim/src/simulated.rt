//! What a simulation gives.

use tfpg_base::{Bytes, Set, Trace};

/// A simulated set of failure modes, the trace of what it brings about, and the log that an observer would have.
#[derive(Drop)]
pub struct Simulated {
    /// The failure modes that the script starts.
    pub set: Set,
    /// Which node becomes active at which millisecond.
    pub trace: Trace,
    /// The lines of the log.
    pub log: Bytes,
}
