//! A change of mode, as a log keeps it beside its events.

/// When the mode changed, in milliseconds, and to which.
#[derive(Clone, Copy)]
pub(crate) struct ModeChange {
    pub(crate) time: u64,
    pub(crate) mode: u32,
}
