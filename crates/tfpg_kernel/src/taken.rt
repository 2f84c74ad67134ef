//! What the checker returns.

/// What became of a step.
#[derive(Clone, Copy, PartialEq, Eq)]
pub enum Taken {
    /// It is right, and the tree is not finished.
    Open,
    /// It is right, and closed the last leaf.
    Closed,
    /// It is not right, and the checker is unchanged.
    Bad(BadStep),
}

/// The first condition that a step breaks. Whether the tree was closed is tested first, then whether a subtree can be reused, and
/// then the others in this order. The second and the third are tested together, reason by reason.
#[derive(Clone, Copy, PartialEq, Eq)]
pub enum BadStep {
    /// The name of the split is not allowed.
    NotAClause,
    /// A reason is neither a pick nor a fact of the log.
    NotAFact,
    /// A reason picks from a split that is not on the path, or a constraint that the alternative taken there does not have.
    NotOnPath,
    /// The reasons do not chain into a cycle, or there are none.
    Unchained,
    /// The sum of their bounds is 0 or more.
    NotNegative,
    /// The tree was closed before.
    AfterClosed,
    /// No subtree can be reused at the present leaf.
    NotReusable,
}
