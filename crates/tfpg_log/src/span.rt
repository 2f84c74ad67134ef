//! Runs of instants of one mode, and runs of these in which an edge is active.

ghost use Rattle.std.specs.Prelude.{◌≡◌};
ghost use Rattle.tfpg_log.specs.Spans.{first_from};

/// A maximal run of instants with one mode, from the first to the last of them, in milliseconds.
#[derive(Clone, Copy, PartialEq, Eq)]
pub struct Span {
    pub lo: u64,
    pub hi: u64,
    pub mode: u32,
}

impl Span {
    /// The first instant of the span that is not before this one, where there is one.
    pub fn first_from(self, instant: u64) -> Option<u64>
        ensures { result ≡ first_from self instant }
    {
        let first = instant.max(self.lo);
        (first <= self.hi).then_some(first)
    }
}

/// A maximal run of spans: the number of its first span, and its first and last instant, in milliseconds.
#[derive(Clone, Copy, PartialEq, Eq)]
pub struct Window {
    pub first: u32,
    pub lo: u64,
    pub hi: u64,
}
