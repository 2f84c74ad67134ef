//! The names of clauses.

/// The name of a clause: each trace that explains the log meets one of its alternatives. It is about the span of this
/// number, up to a horizon in milliseconds.
#[derive(Clone, Copy, PartialEq, Eq)]
pub enum ClauseName {
    /// An OR node becomes active in the span only where the failure arrives by some edge.
    OrMay { node: u32, span: u32, horizon: u64 },
    /// An AND node becomes active in the span only where the failure arrives by this edge.
    AndMay { edge: u32, span: u32, horizon: u64 },
    /// An OR node is active once the failure is due by this edge, in the window that begins with the span.
    OrMust { edge: u32, span: u32, horizon: u64 },
    /// An AND node is active once the failure is due by all edges, in the joint window that begins with the span.
    AndMust { node: u32, span: u32, horizon: u64 },
}
