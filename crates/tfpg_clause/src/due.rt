//! What is due over an edge.

/// A failure on its way over an edge with a finite greatest delay.
#[derive(Clone, Copy)]
pub(crate) struct EdgeDue {
    /// The number of the node that the edge leaves.
    pub(crate) source: u32,
    /// The number of the discrepancy that it enters.
    pub(crate) target: u32,
    /// Its greatest delay, in milliseconds.
    pub(crate) tmax: u64,
    /// By when it arrives, in milliseconds, if it has been on its way since the beginning of the edge's window.
    pub(crate) by: u64,
}
