//! What names the constraints of a cycle, and the error that there is one.

/// The tag of a constraint.
#[derive(Clone, Copy, PartialEq, Eq)]
pub enum Why {
    /// The variable is at least 0.
    Floor(u32),
    /// The variable is at most one past the last millisecond.
    Ceiling(u32),
    /// The constraint was added with this tag.
    Given(u64),
}

/// There is no solution: some constraints chain into a cycle whose bounds sum up to less than 0.
#[derive(Clone, Copy, PartialEq, Eq)]
pub struct Conflict;
