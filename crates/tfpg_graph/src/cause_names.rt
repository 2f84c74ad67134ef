//! The names of what is wrong with a graph.

ghost use Rattle.std.specs.Prelude.{◌≡◌};
ghost use Rattle.tfpg_graph.specs.CauseNames.{graph_cause_name};

use crate::cause::GraphCause;

/// The name of what is wrong with a graph.
pub fn graph_cause_word(cause: GraphCause) -> &'static [u8]
    ensures { result.now ≡ graph_cause_name cause }
{
    match cause {
        GraphCause::BadHeader => b"BadHeader",
        GraphCause::BadLine => b"BadLine",
        GraphCause::BadName => b"BadName",
        GraphCause::DuplicateName => b"DuplicateName",
        GraphCause::UnknownName => b"UnknownName",
        GraphCause::BadNumber => b"BadNumber",
        GraphCause::NumberTooLarge => b"NumberTooLarge",
        GraphCause::MinOverMax => b"MinOverMax",
        GraphCause::EdgeIntoFailure => b"EdgeIntoFailure",
        GraphCause::SelfEdge => b"SelfEdge",
        GraphCause::DuplicateEdge => b"DuplicateEdge",
        GraphCause::NoModes => b"NoModes",
        GraphCause::NoIncoming => b"NoIncoming",
        GraphCause::ZeroCycle => b"ZeroCycle",
        GraphCause::TooManyNodes => b"TooManyNodes",
        GraphCause::TooManyFailures => b"TooManyFailures",
        GraphCause::TooManyEdges => b"TooManyEdges",
        GraphCause::TooManyModes => b"TooManyModes",
        GraphCause::TooManyIncoming => b"TooManyIncoming",
        GraphCause::MissingEnd => b"MissingEnd",
        GraphCause::AfterEnd => b"AfterEnd",
    }
}
