//! What is wrong with the text of a graph.

/// Why a text spells no valid graph, as `docs/formats.md` says exactly. Three causes are of the whole text and come last:
/// `NoIncoming`, `ZeroCycle` and `MissingEnd`. All others are of a line. Where several hold of one line, the first here
/// is reported, except that `AfterEnd` comes before the others.
#[derive(Clone, Copy, Debug, PartialEq, Eq)]
pub enum GraphCause {
    /// The first line is neither `tfpg 1` nor `tfpg 2`, or there is none.
    BadHeader,
    /// The line is too long, has none of the shapes, or stands out of its order.
    BadLine,
    /// A word in the place of a name is not one.
    BadName,
    /// The declared name is taken, or a mode is named twice.
    DuplicateName,
    /// A name is that of no node or mode declared so far.
    UnknownName,
    /// A word in the place of a number is not one.
    BadNumber,
    /// A number is above its limit.
    NumberTooLarge,
    /// The least delay is above the greatest, or the least lag is.
    MinOverMax,
    /// The edge enters a failure mode.
    EdgeIntoFailure,
    /// The edge leads back to its source.
    SelfEdge,
    /// There is an edge from this source to this target already.
    DuplicateEdge,
    /// The edge is active in no mode.
    NoModes,
    /// No edge enters a discrepancy.
    NoIncoming,
    /// Edges that may take no time make a cycle.
    ZeroCycle,
    /// The line declares a node beyond [`MAX_NODES`](crate::MAX_NODES).
    TooManyNodes,
    /// The line declares a failure mode beyond [`MAX_FAILURES`](crate::MAX_FAILURES).
    TooManyFailures,
    /// The line declares an edge beyond [`MAX_EDGES`](crate::MAX_EDGES).
    TooManyEdges,
    /// The line declares a mode beyond [`MAX_MODES`](crate::MAX_MODES).
    TooManyModes,
    /// The line declares an edge into a node beyond [`MAX_INCOMING`](crate::MAX_INCOMING).
    TooManyIncoming,
    /// No line is `end`.
    MissingEnd,
    /// The line stands after `end`, and is not skipped.
    AfterEnd,
}

/// The first line that has a cause, counted from 1, and the first of its causes; or else the first cause of the whole text,
/// with its line. A text without lines has its fault at line 1, and one that lacks its end after its last line.
#[derive(Clone, Copy, Debug, PartialEq, Eq)]
pub struct GraphFault {
    pub line: u64,
    pub cause: GraphCause,
}

/// Why no graph was read.
#[derive(Clone, Copy, Debug, PartialEq, Eq)]
pub enum GraphRefusal {
    Fault(GraphFault),
    NoMemory,
}

impl From<tfpg_base::NoMemory> for GraphRefusal {
    ghost use Rattle.std.specs.Prelude.{◌≡◌};
    ghost use Rattle.tfpg_graph.specs.declared.cause.GraphRefusal.TheVariants.{NoMemory};

    ghost from_gives = { λ _ refusal. refusal ≡ NoMemory };

    fn from(_no_memory: tfpg_base::NoMemory) -> GraphRefusal {
        GraphRefusal::NoMemory
    }
}
