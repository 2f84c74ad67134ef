//! One entry of a trace.

/// A node, and the millisecond at which it became active.
#[derive(Clone, Copy, Debug, PartialEq, Eq)]
pub struct Activation {
    pub node: u32,
    pub time: u64,
}
