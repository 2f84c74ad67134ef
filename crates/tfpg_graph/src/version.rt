//! The versions of a graph's text.

/// The version of a graph's text, which its first line says.
#[derive(Clone, Copy, PartialEq, Eq)]
pub enum Version {
    /// The line of a monitored node has one word for its lag, the greatest. The least is 0.
    One,
    /// It has two words for its lag, the least and the greatest.
    Two,
}
